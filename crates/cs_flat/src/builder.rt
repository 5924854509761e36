// The items of a document, one after another.
use crate::Flat;
use crate::packed::{PackedItem, PackedItems};
use std::alloc::{AllocError, Global};
use std::marker::Model;

/// The items of a document that is being read, in order: each names items before it.
#[derive(Drop)]
pub struct Builder<'a> {
    items: PackedItems<'a>,
}

impl<'a> Model for Builder<'a> {
    ghost use Rattle.std.specs.Prelude.{ℕ, List};
    ghost use Rattle.cs_document.specs.Opened.{Opened};
    ghost use Rattle.cs_flat.specs.Code.{coded_items};

    ghost Value = { List (Opened ℕ) };

    ghost coded = { coded_items };

    ghost use Rattle.cs_flat.specs.Listed.{AreBuilt};

    ghost view = { λ b. b.items };

    ghost invariant = { λ b. AreBuilt b.items };
}

impl<'a> Builder<'a> {
    ghost use Rattle.std.specs.Prelude.{◌≡◌, ℕ, ◌<◌, ◌++◌, [], ◌∷◌, length, map, IfOk};
    ghost use Rattle.std.specs.List.{AllByRecursion};
    ghost use Rattle.cs_document.specs.Document.{Entry};
    ghost use Rattle.cs_document.specs.Inside.{KeysAscend};
    ghost use Rattle.cs_document.specs.Opened.{a_null, a_boolean, an_integer, a_text, a_list, an_object};
    ghost use Rattle.cs_flat.specs.Listed.{document_in, AreBuilt, IsListed};
    ghost use Rattle.cs_flat.specs.View.{entry_of};

    /// No items yet.
    pub fn new(alloc: Global) -> Builder<'a>
        ensures { result ≡ [] }
    {
        Builder {
            items: PackedItems::new(alloc),
        }
    }

    /// How many items there are.
    pub fn len(&self) -> usize
        ensures count { result ≡ length self.now }
        ensures built { AreBuilt self.now }
    {
        self.items.len()
    }

    /// Pushes `null`, and answers its number.
    pub fn null(&mut self) -> Result<usize, AllocError>
        ensures { IfOk result (λ n. (n ≡ length self.old) × (self.new ≡ self.old ++ a_null ∷ [])) }
    {
        self.items.scalar(PackedItem::Null)
    }

    /// Pushes a truth value, and answers its number.
    pub fn boolean(&mut self, value: bool) -> Result<usize, AllocError>
        ensures { IfOk result (λ n. (n ≡ length self.old)
            × (self.new ≡ self.old ++ a_boolean value ∷ [])) }
    {
        self.items.scalar(PackedItem::Bool(value))
    }

    /// Pushes an integer, and answers its number.
    pub fn integer(&mut self, value: i64) -> Result<usize, AllocError>
        ensures { IfOk result (λ n. (n ≡ length self.old)
            × (self.new ≡ self.old ++ an_integer value ∷ [])) }
    {
        self.items.scalar(PackedItem::Int(value))
    }

    /// Pushes a text, and answers its number.
    pub fn text(&mut self, value: &'a str) -> Result<usize, AllocError>
        ensures { IfOk result (λ n. (n ≡ length self.old)
            × (self.new ≡ self.old ++ a_text value.now ∷ [])) }
    {
        self.items.scalar(PackedItem::Text(value))
    }

    /// Pushes a list of earlier values, and answers its number.
    pub fn list(&mut self, elements: &[usize]) -> Result<usize, AllocError>
        requires { AllByRecursion (λ y. y < length self.old) elements.now }
        ensures { IfOk result (λ n. (n ≡ length self.old)
            × (self.new ≡ self.old ++ a_list elements.now ∷ [])) }
    {
        self.items.list(elements)
    }

    /// Pushes a map of earlier values, its keys in byte order, and answers its number.
    pub fn object(&mut self, entries: &[(&'a str, usize)]) -> Result<usize, AllocError>
        requires ascends { KeysAscend (map entry_of entries.now) }
        requires below { AllByRecursion (λ (m : Entry ℕ). m.1 < length self.old)
            (map entry_of entries.now) }
        ensures { IfOk result (λ n. (n ≡ length self.old)
            × (self.new ≡ self.old ++ an_object (map entry_of entries.now) ∷ [])) }
    {
        self.items.object(entries)
    }

    /// The document whose items these are.
    pub fn finish(self) -> Flat<'a>
        requires { IsListed (document_in self) self }
        ensures { result ≡ self.entry }
    {
        Flat { items: self.items }
    }
}
