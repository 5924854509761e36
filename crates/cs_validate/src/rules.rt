// What schemas ask, by the numbers of their parts.
ghost use Rattle.std.specs.Prelude.{◌≡◌, map, string_bytes, string_cmp};
ghost use Rattle.std.specs.BTreeMap.{IsOrdered};
ghost use Rattle.std.proofs.lemmas.Map.Keys.{IsStrictlySortedBy-prop};

use cs_flat::{DocSet, Names};
use cs_profile::Keywords;

/// What a schema asks of a document. A schema asked of the same document is named by its number, and one asked of a
/// document inside by its place in a list of such schemas.
#[derive(Drop)]
pub enum Rule<'a> {
    Truth(bool),
    Object(Conjunction<'a>),
}

/// What the keywords of an object ask, each by itself (JSON Schema Core 2020-12, section 10.2.1.1).
#[derive(Drop)]
pub struct Conjunction<'a> {
    /// The keywords; those that hold no schema are asked as they are.
    pub keywords: &'a Keywords,
    /// `required`
    pub(crate) required: Names<'a>,
    /// `enum`
    pub one_of: Option<DocSet<'a>>,
    /// The number of the definition that `$ref` names, if it is defined.
    pub reference: Option<usize>,
    /// `allOf`
    pub all_of: Vec<usize>,
    /// `anyOf`
    pub any_of: Vec<usize>,
    /// `not`
    pub negated: Option<usize>,
    /// The place of the first schema that is asked of documents inside: those of `additionalProperties`, `items`,
    /// `prefixItems` and `properties` are one after another.
    pub first: usize,
    pub ghost names: { required ≡ map string_bytes keywords.now.required.items },
    pub ghost ordered: { IsOrdered string_cmp keywords.now.properties } by { Prim.hlevel IsStrictlySortedBy-prop },
}
