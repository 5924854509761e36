// A document as a list of its values.
use crate::packed::PackedItems;
use std::marker::Model;

/// A value of a document, opened once: a value directly inside it is named by its number, which is the place of its
/// item in the list. An object has its keys in byte order. Texts and keys are borrowed from what the list was made of.
#[derive(Clone, Copy, Drop)]
pub enum Item<'a> {
    Null,
    Bool(bool),
    Int(i64),
    Text(&'a str),
    List(&'a [usize]),
    Object(&'a [(&'a str, usize)]),
}

/// A document as the list of its items, one for each of its values (RFC 8259, section 3): those directly inside a value
/// come before it, and the document last.
#[derive(Drop)]
pub struct Flat<'a> {
    pub(crate) items: PackedItems<'a>,
}

impl<'a> Model for Flat<'a> {
    ghost use Rattle.std.specs.Prelude.{ℕ, List};
    ghost use Rattle.cs_document.specs.Opened.{Opened};
    ghost use Rattle.cs_flat.specs.Code.{coded_items};

    ghost Value = { List (Opened ℕ) };

    ghost coded = { coded_items };

    ghost use Rattle.cs_flat.specs.Listed.{document_in, IsListed};

    ghost view = { λ f. f.items };

    ghost invariant = { λ f. IsListed (document_in f.items) f.items };
}

impl Flat<'_> {
    ghost use Rattle.std.specs.Prelude.{◌≡◌, ◌<◌, suc, length, slice_get, Some};
    ghost use Rattle.cs_document.specs.Inside.{AscendsInside};
    ghost use Rattle.cs_flat.specs.Items.{inside, AreItems};
    ghost use Rattle.cs_flat.specs.Listed.{values, document_in, IsListed};
    ghost use Rattle.cs_flat.specs.Nodes.{nodes, node_at};
    ghost use Rattle.cs_flat.specs.View.{item_view};

    /// How many items there are: as many as values, at least one. The last one is the document.
    pub fn len(&self) -> usize
        ensures count { result ≡ length self.now }
        ensures items { AreItems (values self.now) self.now }
        ensures whole { length self.now ≡ length (nodes (document_in self.now)) }
        ensures inside { length self.now ≡ suc (inside (document_in self.now)) }
        ensures last { node_at (values self.now) (inside (document_in self.now))
            ≡ document_in self.now }
        ensures listed { IsListed (document_in self.now) self.now }
    {
        self.items.len()
    }

    /// The item at a place, which is below [`Flat::len`].
    #[inline]
    pub fn item(&self, i: usize) -> Item<'_>
        requires { i < length self.now }
        ensures found { slice_get self.now i ≡ Some (item_view result) }
        ensures ascends { AscendsInside (item_view result) }
    {
        self.items.item(i)
    }
}
