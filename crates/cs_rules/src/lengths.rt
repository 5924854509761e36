// How long the texts of a document are.
ghost use Rattle.std.specs.Prelude.{◌≡◌, ℕ, List, IfOk};
ghost use Rattle.cs_document.specs.Opened.{a_text};
ghost use Rattle.cs_document.specs.Sizes as sizes;
ghost use Rattle.cs_flat.specs.View.{item_view};
ghost use Rattle.cs_rules.specs.Lengths.{TellsLength, AreLengths};

use cs_document::text_length;
use cs_flat::{Flat, Item};
use std::alloc::{AllocError, Global};

/// How long the texts of a document are, by the numbers of their items, counted in one pass. Only memory can run out.
pub(crate) fn lengths_of(alloc: Global, flat: &Flat<'_>) -> Result<Vec<usize>, AllocError>
    ensures { IfOk result (λ ls. AreLengths flat.now ls.items) }
{
    let count = flat.len();
    let mut lengths = Vec::with_capacity(alloc, count)?;
    for item in 0..count {
        lengths.push(length_of(&flat.item(item)))?;
    }
    Ok(lengths)
}

/// How long a value is, if it is a text.
fn length_of(value: &Item<'_>) -> usize
    ensures { (s : List ℕ) → item_view value.now ≡ a_text s → result ≡ sizes.text_length s }
{
    match value {
        Item::Text(text) => text_length(text),
        Item::Null | Item::Bool(_) | Item::Int(_) | Item::List(_) | Item::Object(_) => 0,
    }
}

/// How long a text is, which is the value of an item: its characters are counted where that isn't known.
#[inline]
pub(crate) fn length_at(lengths: &[usize], item: usize, text: &str) -> usize
    requires { TellsLength lengths.now item text.now }
    ensures { result ≡ sizes.text_length text.now }
{
    match lengths.get(item) {
        Some(length) => *length,
        None => text_length(text),
    }
}
