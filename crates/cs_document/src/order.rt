// An order of documents.
ghost use Rattle.std.specs.Prelude.{◌≡◌};
ghost use Rattle.cs_document.specs.View.{doc_view, list_view, object_view};
ghost use Rattle.cs_document.specs.Order.{kind as kind_of, document_cmp, documents_cmp, members_cmp};

use crate::Doc;
use std::cmp::Ordering;
use std::collections::BTreeMap;

impl Eq for Doc {
    ghost use Rattle.std.specs.Cmp.{on_equiv};
    ghost use Rattle.cs_document.specs.TotalOrder.{document_eq-equivalence};

    ghost laws = { on_equiv doc_view document_eq-equivalence };
}

impl PartialOrd for Doc {
    ghost use Rattle.std.specs.Prelude.{Some};
    ghost use Rattle.std.specs.Cmp.{on_po, po};
    ghost use Rattle.cs_document.specs.TotalOrder.{document_cmp-total, document_cmp-eq};

    ghost partial_cmp = { λ a b. Some (document_cmp (doc_view a) (doc_view b)) };

    ghost laws = { on_po doc_view (po document_cmp-total document_cmp-eq) };

    fn partial_cmp(&self, other: &Self) -> Option<Ordering> {
        Some(compare(self, other))
    }
}

impl Ord for Doc {
    ghost use Rattle.std.specs.Prelude.{refl};
    ghost use Rattle.std.specs.Cmp.{on_total};
    ghost use Rattle.cs_document.specs.TotalOrder.{document_cmp-total, document_cmp-eq};

    ghost cmp = { λ a b. document_cmp (doc_view a) (doc_view b) };

    ghost total = { on_total doc_view document_cmp-total };

    ghost matches_partial_cmp = { λ a b. refl };

    ghost matches_eq = { λ a b. document_cmp-eq (doc_view a) (doc_view b) };

    /// By kind (null, truth values, integers, texts, lists, maps); then false before true, integers by value, texts by their
    /// bytes, lists element by element, and maps member by member, by key and then by value.
    fn cmp(&self, other: &Self) -> Ordering
        ensures { result ≡ document_cmp (doc_view self.now) (doc_view other.now) }
    {
        compare(self, other)
    }
}

impl Doc {
    /// The place of its kind in the order of documents: from 0 for null to 5 for a map.
    pub fn kind(&self) -> u8
        ensures { result ≡ kind_of (doc_view self.now) }
    {
        match self {
            Doc::Null => 0,
            Doc::Bool(_) => 1,
            Doc::Int(_) => 2,
            Doc::Text(_) => 3,
            Doc::List(_) => 4,
            Doc::Object(_) => 5,
        }
    }
}

/// How one document stands to another, as [`Ord`] says it.
#[cycle(compare)]
pub(crate) fn compare(a: &Doc, b: &Doc) -> Ordering
    ensures { result ≡ document_cmp (doc_view a.now) (doc_view b.now) }
{
    match (a, b) {
        (Doc::Bool(x), Doc::Bool(y)) => x.cmp(y),
        (Doc::Int(x), Doc::Int(y)) => x.cmp(y),
        (Doc::Text(x), Doc::Text(y)) => x.cmp(y),
        (Doc::List(x), Doc::List(y)) => compare_items(x, y),
        (Doc::Object(x), Doc::Object(y)) => compare_members(x, y),
        _ => a.kind().cmp(&b.kind()),
    }
}

#[cycle(compare)]
fn compare_items(a: &Vec<Doc>, b: &Vec<Doc>) -> Ordering
    ensures { result ≡ documents_cmp (list_view a.now.items) (list_view b.now.items) }
{
    let mut others = b.iter();
    for x in a {
        match others.next() {
            Some(y) => {
                let order = compare(x, y);
                if order.is_ne() {
                    return order;
                }
            }
            None => return Ordering::Greater,
        }
    }
    if others.next().is_some() {
        Ordering::Less
    } else {
        Ordering::Equal
    }
}

#[cycle(compare)]
fn compare_members(a: &BTreeMap<String, Doc>, b: &BTreeMap<String, Doc>) -> Ordering
    ensures { result ≡ members_cmp (object_view a.now.entries) (object_view b.now.entries) }
{
    let mut others = b.iter();
    for (key, x) in a {
        match others.next() {
            Some((other, y)) => {
                let order = match key.cmp(other) {
                    Ordering::Equal => compare(x, y),
                    unequal => unequal,
                };
                if order.is_ne() {
                    return order;
                }
            }
            None => return Ordering::Greater,
        }
    }
    if others.next().is_some() {
        Ordering::Less
    } else {
        Ordering::Equal
    }
}
