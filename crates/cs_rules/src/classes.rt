// Classes of scalars, which rules can't tell apart.
ghost use Rattle.std.specs.Prelude.{◌≡◌, ◌≤◌, ℕ, List, length, IfOk, IfSome};
ghost use Rattle.std.specs.List.Sorted.{IsPermutation};
ghost use Rattle.cs_document.specs.Opened.{an_integer, a_text};
ghost use Rattle.cs_flat.specs.View.{item_view};
ghost use Rattle.cs_document.specs.Sizes as sizes;
ghost use Rattle.cs_rules.specs.Classed.{HasClass, IsReached};
ghost use Rattle.cs_rules.specs.Lengths.{TellsLength, AreLengths};
ghost use Rattle.cs_rules.specs.Sharing.{AreToldBy};

use crate::lengths::{length_at, lengths_of};
use crate::{Asks, Marks};
use cs_flat::{Flat, Item};
use std::alloc::{AllocError, Global};
use std::marker::Model;

/// Marks in order. Null, false and true have classes of their own; integers have one at each mark, and one between any two.
/// Texts have one at each mark, and those at none one between any two lengths.
#[derive(Drop)]
pub(crate) struct Classes {
    texts: Vec<String>,
    integers: Vec<i64>,
    lengths: Vec<usize>,
}

impl Model for Classes {
    ghost use Rattle.std.specs.Prelude.{map, string_bytes};
    ghost use Rattle.std.specs.List.Sorted.{IsSorted};
    ghost use Rattle.std.specs.Ordering.{int_cmp, nat_cmp};
    ghost use Rattle.std.specs.String.{string_cmp};
    ghost use Rattle.cs_rules.specs.Alike.{Compared};

    ghost Value = { Compared };

    ghost view = { λ c. record {
      texts = map string_bytes c.texts.items;
      integers = c.integers.items;
      lengths = c.lengths.items;
    } };

    ghost invariant = { λ c. IsSorted string_cmp c.texts.items × IsSorted int_cmp c.integers.items
        × IsSorted nat_cmp c.lengths.items };
}

impl Classes {
    /// The classes that marks make.
    pub(crate) fn of(marks: Marks) -> Classes
        ensures texts { IsPermutation marks.texts result.texts }
        ensures integers { IsPermutation marks.integers result.integers }
        ensures lengths { IsPermutation marks.lengths result.lengths }
    {
        let mut texts = marks.texts;
        let mut integers = marks.integers;
        let mut lengths = marks.lengths;
        texts.sort_unstable();
        integers.sort_unstable();
        lengths.sort_unstable();
        Classes {
            texts,
            integers,
            lengths,
        }
    }

    /// How many classes there are.
    pub(crate) fn count(&self) -> usize {
        let integers: &[i64] = &self.integers;
        let texts: &[String] = &self.texts;
        let lengths: &[usize] = &self.lengths;
        5 + 2 * integers.len() + texts.len() + lengths.len()
    }

    /// How long the texts of a document are, by the numbers of their items, if a length is marked. Only memory can run out.
    pub(crate) fn lengths_in(&self, flat: &Flat<'_>) -> Result<Vec<usize>, AllocError>
        ensures { IfOk result (λ ls. AreLengths flat.now ls.items) }
    {
        let alloc = *self.lengths.allocator();
        if self.lengths.is_empty() {
            return Ok(Vec::new(alloc));
        }
        lengths_of(alloc, flat)
    }

    /// The class of the value of an item, if it is a scalar, where this is known of the lengths of texts.
    #[inline]
    pub(crate) fn class(&self, value: &Item<'_>, item: usize, lengths: &[usize]) -> Option<usize>
        requires { (s : List ℕ) → item_view value.now ≡ a_text s → TellsLength lengths.now item s }
        ensures { IfSome result (HasClass self.now (item_view value.now)) }
    {
        match value {
            Item::Null => Some(0),
            Item::Bool(false) => Some(1),
            Item::Bool(true) => Some(2),
            Item::Int(integer) => Some(self.integer_class(*integer)),
            Item::Text(text) => Some(self.text_class(text, item, lengths)),
            Item::List(_) | Item::Object(_) => None,
        }
    }

    /// The class of an integer, by its place among the marks.
    #[inline]
    fn integer_class(&self, integer: i64) -> usize
        ensures { HasClass self.now (an_integer integer) result }
    {
        let marks: &[i64] = &self.integers;
        match marks.binary_search(&integer) {
            Ok(at) => 3 + (2 * at + 1),
            Err(at) => 3 + 2 * at,
        }
    }

    /// The class of a text, which is the value of an item, by its place among the marks. It comes after those of integers.
    #[inline]
    fn text_class(&self, text: &str, item: usize, lengths: &[usize]) -> usize
        requires { TellsLength lengths.now item text.now }
        ensures { HasClass self.now (a_text text.now) result }
    {
        let integers: &[i64] = &self.integers;
        let marks: &[String] = &self.texts;
        let first = 4 + 2 * integers.len();
        match marks.binary_search_by(|mark| mark.as_str().cmp(text)) {
            Ok(at) => first + at,
            Err(_) => first + (marks.len() + self.reached(text, item, lengths)),
        }
    }

    /// How many of the lengths a text reaches, which is the value of an item. Where no length is marked its characters aren't
    /// counted.
    #[inline]
    fn reached(&self, text: &str, item: usize, lengths: &[usize]) -> usize
        requires { TellsLength lengths.now item text.now }
        ensures reached { IsReached self.now.lengths (sizes.text_length text.now) result }
        ensures within { result ≤ length self.now.lengths }
    {
        let marks: &[usize] = &self.lengths;
        if marks.is_empty() {
            return 0;
        }
        let length = length_at(lengths, item, text);
        marks.partition_point(|least| *least <= length)
    }
}

/// The marks of all of these rules.
pub(crate) fn marks_of<R: Asks>(alloc: Global, rules: &[R]) -> Result<Marks, AllocError>
    ensures { IfOk result (AreToldBy R.step rules.now) }
{
    let mut marks = Marks::new(alloc);
    for rule in rules {
        rule.mark(&mut marks)?;
    }
    Ok(marks)
}
