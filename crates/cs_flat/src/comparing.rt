// A value of a document's list beside a document that is a tree.
ghost use Rattle.std.specs.Prelude.{◌≡◌, ℕ, ◌<◌, length, map};
ghost use Rattle.std.specs.List.{AllByRecursion};
ghost use Rattle.cs_document.specs.Document.{Entry, document_eq};
ghost use Rattle.cs_document.specs.Inside.{InsideBelow, map_entry, map_opened};
ghost use Rattle.cs_document.specs.Order.{kind as kind_of, document_cmp, documents_cmp, members_cmp};
ghost use Rattle.cs_document.specs.View.{doc_view, list_view, object_view};
ghost use Rattle.cs_flat.specs.Listed.{closed, documents_of, members_of, values};
ghost use Rattle.cs_flat.specs.Nodes.{node_at};
ghost use Rattle.cs_flat.specs.View.{entry_of, item_view};

use crate::{Flat, Item};
use cs_document::Doc;
use std::cmp::Ordering;
use std::collections::BTreeMap;

impl Flat<'_> {
    /// The item at a place, and what it says of the value there.
    pub(crate) fn opened(&self, i: usize) -> Item<'_>
        requires { i < length self.now }
        ensures lower { InsideBelow (length self.now) (item_view result) }
        ensures value { node_at (values self.now) i
            ≡ closed (map_opened (node_at (values self.now)) (item_view result)) }
    {
        let _count = self.len(); // for the proof: the items are the values
        self.item(i)
    }

    /// Whether the value at a place, which is below [`Flat::len`], is the same as a document; maps have no order. Goes as
    /// deep as the document nests, and stops at the first difference.
    pub fn equals(&self, i: usize, doc: &Doc) -> bool
        requires { i < length self.now }
        ensures { result ≡ document_eq (doc_view doc.now) (node_at (values self.now) i) }
    {
        self.compare(i, doc).is_eq()
    }

    /// How a document stands to the value at a place, in the order of documents (`Ord` of [`Doc`]).
    #[cycle(compare)]
    pub(crate) fn compare(&self, i: usize, doc: &Doc) -> Ordering
        requires { i < length self.now }
        ensures { result ≡ document_cmp (doc_view doc.now) (node_at (values self.now) i) }
    {
        match (doc, self.opened(i)) {
            (Doc::Bool(x), Item::Bool(y)) => x.cmp(&y),
            (Doc::Int(x), Item::Int(y)) => x.cmp(&y),
            (Doc::Text(x), Item::Text(y)) => x.as_str().cmp(y),
            (Doc::List(docs), Item::List(numbers)) => self.compare_elements(numbers, docs),
            (Doc::Object(members), Item::Object(entries)) => self.compare_members(entries, members),
            _ => doc.kind().cmp(&self.kind(i)),
        }
    }

    #[cycle(compare)]
    fn compare_elements(&self, numbers: &[usize], docs: &Vec<Doc>) -> Ordering
        requires { AllByRecursion (λ y. y < length self.now) numbers.now }
        ensures { result ≡ documents_cmp (list_view docs.now.items)
            (documents_of (map (node_at (values self.now)) numbers.now)) }
    {
        let mut others = numbers.iter();
        for doc in docs {
            match others.next() {
                Some(number) => {
                    let order = self.compare(*number, doc);
                    if order.is_ne() {
                        return order;
                    }
                }
                None => return Ordering::Greater,
            }
        }
        if others.next().is_some() {
            Ordering::Less
        } else {
            Ordering::Equal
        }
    }

    #[cycle(compare)]
    fn compare_members(
        &self,
        entries: &[(&str, usize)],
        members: &BTreeMap<String, Doc>,
    ) -> Ordering
        requires { AllByRecursion (λ (m : Entry ℕ). m.1 < length self.now)
            (map entry_of entries.now) }
        ensures { result ≡ members_cmp (object_view members.now.entries)
            (members_of (map (map_entry (node_at (values self.now))) (map entry_of entries.now))) }
    {
        let mut others = entries.iter();
        for (key, doc) in members {
            match others.next() {
                Some((other, number)) => {
                    let order = match key.as_str().cmp(other) {
                        Ordering::Equal => self.compare(*number, doc),
                        unequal => unequal,
                    };
                    if order.is_ne() {
                        return order;
                    }
                }
                None => return Ordering::Greater,
            }
        }
        if others.next().is_some() {
            Ordering::Less
        } else {
            Ordering::Equal
        }
    }

    /// The place of the value's kind in the order of documents, as [`Doc::kind`].
    fn kind(&self, i: usize) -> u8
        requires { i < length self.now }
        ensures { result ≡ kind_of (node_at (values self.now) i) }
    {
        match self.opened(i) {
            Item::Null => 0,
            Item::Bool(_) => 1,
            Item::Int(_) => 2,
            Item::Text(_) => 3,
            Item::List(_) => 4,
            Item::Object(_) => 5,
        }
    }
}
