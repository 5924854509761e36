// Items in few bytes: lists and maps as ranges of what all items share.
use crate::Item;
use std::alloc::{AllocError, Global};
use std::marker::Model;

/// An item in 24 bytes: a list is a range of shared numbers, a map one of shared entries.
#[derive(Clone, Copy, Drop)]
pub(crate) enum PackedItem<'a> {
    Null,
    Bool(bool),
    Int(i64),
    Text(&'a str),
    List { first: usize, count: usize },
    Object { first: usize, count: usize },
}

/// Items, with the numbers and the entries that their lists and maps share.
#[derive(Drop)]
pub(crate) struct PackedItems<'a> {
    items: Vec<PackedItem<'a>>,
    elements: Vec<usize>,
    entries: Vec<(&'a str, usize)>,
}

impl<'a> Model for PackedItems<'a> {
    ghost use Rattle.std.specs.Prelude.{ℕ, List};
    ghost use Rattle.cs_document.specs.Opened.{Opened};
    ghost use Rattle.cs_flat.specs.Code.{coded_items};

    ghost Value = { List (Opened ℕ) };

    ghost coded = { coded_items };

    ghost use Rattle.std.specs.Prelude.{map, length};
    ghost use Rattle.std.specs.List.{AllByRecursion};
    ghost use Rattle.cs_flat.specs.Packed.{unpacked, IsWithin};

    ghost view = { λ p. map (unpacked p.elements.items p.entries.items) p.items.items };

    ghost invariant = { λ p.
        AllByRecursion (IsWithin (length p.elements.items) (length p.entries.items)) p.items.items };
}

impl<'a> PackedItems<'a> {
    ghost use Rattle.std.specs.Prelude.{◌≡◌, ℕ, ◌<◌, ◌++◌, [], ◌∷◌, length, map, slice_get, Some, IfOk, OnErr};
    ghost use Rattle.cs_document.specs.Opened.{a_list, an_object};
    ghost use Rattle.cs_flat.specs.Packed.{unpacked, IsWithin};
    ghost use Rattle.cs_flat.specs.View.{item_view, entry_of};

    /// No items yet, and no memory.
    pub(crate) fn new(alloc: Global) -> PackedItems<'a>
        ensures { result ≡ [] }
    {
        PackedItems {
            items: Vec::new(alloc),
            elements: Vec::new(alloc),
            entries: Vec::new(alloc),
        }
    }

    /// How many items there are.
    #[inline]
    pub(crate) fn len(&self) -> usize
        ensures { result ≡ length self.now }
    {
        self.items.len()
    }

    /// The item at a place, which is below [`PackedItems::len`].
    #[inline]
    pub(crate) fn item(&self, i: usize) -> Item<'_>
        requires { i < length self.now }
        ensures { slice_get self.now i ≡ Some (item_view result) }
    {
        match self.items[i] {
            PackedItem::Null => Item::Null,
            PackedItem::Bool(b) => Item::Bool(b),
            PackedItem::Int(n) => Item::Int(n),
            PackedItem::Text(text) => Item::Text(text),
            PackedItem::List { first, count } => Item::List(&self.elements[first..first + count]),
            PackedItem::Object { first, count } => {
                Item::Object(&self.entries[first..first + count])
            }
        }
    }

    /// Pushes an item with nothing inside it, and answers its number.
    pub(crate) fn scalar(&mut self, item: PackedItem<'a>) -> Result<usize, AllocError>
        requires { IsWithin 0 0 item }
        ensures pushed { IfOk result (λ n. (n ≡ length self.old)
            × (self.new ≡ self.old ++ unpacked [] [] item.entry ∷ [])) }
        ensures kept { OnErr result (self.new ≡ self.old) }
    {
        let number = self.items.len();
        self.items.push(item)?;
        Ok(number)
    }

    /// Pushes a list, and answers its number.
    pub(crate) fn list(&mut self, elements: &[usize]) -> Result<usize, AllocError>
        ensures pushed { IfOk result (λ n. (n ≡ length self.old)
            × (self.new ≡ self.old ++ a_list elements.now ∷ [])) }
        ensures kept { OnErr result (self.new ≡ self.old) }
    {
        let number = self.items.len();
        let first = self.elements.len();
        self.elements.extend_from_slice(elements)?;
        self.items.push(PackedItem::List {
            first,
            count: elements.len(),
        })?;
        Ok(number)
    }

    /// Pushes a map, and answers its number.
    pub(crate) fn object(&mut self, entries: &[(&'a str, usize)]) -> Result<usize, AllocError>
        ensures pushed { IfOk result (λ n. (n ≡ length self.old)
            × (self.new ≡ self.old ++ an_object (map entry_of entries.now) ∷ [])) }
        ensures kept { OnErr result (self.new ≡ self.old) }
    {
        let number = self.items.len();
        let first = self.entries.len();
        self.entries.extend_from_slice(entries)?;
        self.items.push(PackedItem::Object {
            first,
            count: entries.len(),
        })?;
        Ok(number)
    }
}
