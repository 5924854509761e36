// Documents that are asked for often.
ghost use Rattle.std.specs.Prelude.{◌≡◌, ◌<◌, length};
ghost use Rattle.cs_document.specs.View.{doc_view};
ghost use Rattle.cs_flat.specs.Listed.{values as values_of};
ghost use Rattle.cs_flat.specs.Nodes.{node_at};
ghost use Rattle.cs_flat.specs.Sorted.{integer_of, hash as hash_of, text_hash as text_hash_of};
ghost use Rattle.cs_flat.specs.Sorted.{hashed_cmp, seen};

use crate::{Flat, Item};
use cs_document::{Doc, DocFault};
use std::alloc::Global;
use std::cmp::Ordering;
use std::marker::Model;

/// How many bytes of a text are hashed.
const HASHED_BYTES: usize = 64;

/// A list of documents, in which one is looked up by halving.
#[derive(Drop)]
pub struct DocSet<'a> {
    docs: &'a [Doc],
    integers: Vec<i64>,
    // Each behind its hash, so that halving seldom reads a document: those lie far apart in memory.
    others: Vec<(u64, &'a Doc)>,
}

impl<'a> Model for DocSet<'a> {
    ghost use Rattle.std.specs.Prelude.{List, map};
    ghost use Rattle.std.specs.Coded.{coded_list};
    ghost use Rattle.cs_document.specs.Document.{Document};
    ghost use Rattle.cs_document.specs.Code.{coded_document};
    ghost use Rattle.cs_document.specs.View.{doc_view};
    ghost use Rattle.cs_flat.specs.Sorted.{IsInOrder};

    ghost Value = { List Document };

    ghost coded = { coded_list coded_document };

    ghost view = { λ s. map doc_view s.docs.now };

    ghost invariant = { λ s. IsInOrder (map doc_view s.docs.now) s.integers.items s.others.items };
}

impl<'a> DocSet<'a> {
    ghost use Rattle.std.specs.Prelude.{◌≡◌, ◌<◌, length, map, IfOk, IsOkUnless};
    ghost use Rattle.std.specs.List.{list_any};
    ghost use Rattle.cs_document.specs.Document.{document_eq};
    ghost use Rattle.cs_document.specs.View.{doc_view};
    ghost use Rattle.cs_flat.specs.Listed.{values as values_of};
    ghost use Rattle.cs_flat.specs.Nodes.{node_at};

    /// Takes memory for each integer and for a reference to each other document, and the time to sort them. Only memory
    /// can run out.
    pub fn new(alloc: Global, docs: &'a [Doc]) -> Result<DocSet<'a>, DocFault>
        ensures documents { IfOk result (λ s. s ≡ map doc_view docs.now) }
        ensures memory { IsOkUnless result DocFault.OutOfMemory }
    {
        let mut integers = Vec::new(alloc);
        let mut others = Vec::new(alloc);
        for doc in docs {
            match integer(doc) {
                Some(n) => integers.push(n)?,
                None => others.push((hash(doc), doc))?,
            }
        }
        integers.sort_unstable();
        others.sort_unstable();
        Ok(DocSet {
            docs,
            integers,
            others,
        })
    }

    /// Its documents, as they were given.
    pub fn values(&self) -> &'a [Doc]
        ensures { map doc_view result.now ≡ self.now }
    {
        self.docs
    }

    /// Whether the value at a place, which is below [`Flat::len`], is one of them: looked up by halving.
    pub fn contains(&self, flat: &Flat<'_>, i: usize) -> bool
        requires { i < length flat.now }
        ensures { result ≡ list_any (λ v. document_eq v (node_at (values_of flat.now) i)) self.now }
    {
        match flat.integer(i) {
            Some(n) => self.integers.binary_search(&n).is_ok(),
            None => {
                let hash = flat.hash(i);
                self.others
                    .binary_search_by(|entry| compare_hashed(entry, flat, i, hash))
                    .is_ok()
            }
        }
    }
}

impl Flat<'_> {
    /// The integer that the value at a place is.
    fn integer(&self, i: usize) -> Option<i64>
        requires { i < length self.now }
        ensures { result ≡ integer_of (node_at (values_of self.now) i) }
    {
        match self.opened(i) {
            Item::Int(n) => Some(n),
            Item::Null | Item::Bool(_) | Item::Text(_) | Item::List(_) | Item::Object(_) => None,
        }
    }

    /// The hash of the value at a place, as that of the same document.
    fn hash(&self, i: usize) -> u64
        requires { i < length self.now }
        ensures { result ≡ hash_of (node_at (values_of self.now) i) }
    {
        match self.opened(i) {
            Item::Text(text) => text_hash(text),
            Item::Null | Item::Bool(_) | Item::Int(_) | Item::List(_) | Item::Object(_) => 0,
        }
    }
}

/// How a document behind its hash stands to the value at a place behind its own.
fn compare_hashed(entry: &(u64, &Doc), flat: &Flat<'_>, i: usize, hash: u64) -> Ordering
    requires { i < length flat.now }
    ensures { result ≡ hashed_cmp (seen entry.now) (hash, node_at (values_of flat.now) i) }
{
    match entry.0.cmp(&hash) {
        Ordering::Equal => flat.compare(i, entry.1),
        unequal => unequal,
    }
}

fn integer(doc: &Doc) -> Option<i64>
    ensures { result ≡ integer_of (doc_view doc.now) }
{
    match doc {
        Doc::Int(n) => Some(*n),
        Doc::Null | Doc::Bool(_) | Doc::Text(_) | Doc::List(_) | Doc::Object(_) => None,
    }
}

/// A number that is seldom the same for two texts.
fn hash(doc: &Doc) -> u64
    ensures { result ≡ hash_of (doc_view doc.now) }
{
    match doc {
        Doc::Text(text) => text_hash(text.as_str()),
        Doc::Null | Doc::Bool(_) | Doc::Int(_) | Doc::List(_) | Doc::Object(_) => 0,
    }
}

/// The first bytes of a text as digits. To hash all of a long one would take more than most comparisons.
fn text_hash(text: &str) -> u64
    ensures { result ≡ text_hash_of text.now }
{
    let bytes = text.as_bytes();
    let start = &bytes[..HASHED_BYTES.min(bytes.len())];
    let mut hash: u64 = 0;
    for byte in start {
        hash = hash.wrapping_mul(257).wrapping_add(u64::from(*byte));
    }
    hash
}
