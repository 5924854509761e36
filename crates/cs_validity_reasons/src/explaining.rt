// Why documents aren't valid against schema documents.
ghost use Rattle.std.specs.Prelude.{◌≡◌, ◌<◌, Bool, false, length, IfOk, IfErr, OnOk};
ghost use Rattle.cs_document.specs.Document.{Document};
ghost use Rattle.cs_flat.specs.Listed.{document_in};
ghost use Rattle.cs_profile.specs.Validity.{IsValidity, OneMeaning};
ghost use Rattle.cs_table.specs.Judged.{verdicts};
ghost use Rattle.cs_validate.specs.Rules.{HasManyPairs};
ghost use Rattle.cs_validity_reasons.specs.PlacedTold.{AreReasonsOf};
ghost use Rattle.cs_validate.specs.Refusal.{IsRefusal};
ghost use Rattle.cs_validity_reasons.specs.WhyTold.{IsExplained, says_valid};

use crate::ValidCause;
use crate::cause::PlacedCause;
use crate::graph::ValidGraph;
use crate::naming::Named;
use crate::required::has_many_names;
use crate::wanting::wanted_of;
use cs_document::Doc;
use cs_flat::Flat;
use cs_profile::{JsonKind, Keywords, one_meaning};
use cs_reasons::{Reasons, Telling, explain_all, explain_closest};
use cs_table::{Verdicts, refill};
use cs_validate::{SchemaRules, ValidateFault};
use std::alloc::{AllocError, Global};

/// What is asked of a value by itself, or by its kind: for wording.
#[derive(Clone, Copy, Drop)]
pub enum Want<'a> {
    Kind(JsonKind),
    /// The value of `const`, or one of `enum`.
    Value(&'a Doc),
    /// The limits of these keywords.
    Limits(&'a Keywords),
}

/// What a value would have to be by the alternatives of a schema, none of which holds.
#[derive(Drop)]
pub struct Wanted<'a> {
    /// The key whose value tells the alternatives apart, with the number of the value under it; none where the value itself
    /// is of no alternative's kind.
    pub key: Option<(&'a str, usize)>,
    /// For each alternative what is asked of that value, all of it together.
    pub alternatives: Vec<Vec<Want<'a>>>,
}

/// What is told of why a document isn't valid.
#[derive(Drop)]
pub enum Explanation<'b> {
    /// It is valid.
    Valid,
    /// It isn't, and these are the reasons.
    Invalid(Reasons<ValidCause<'b>>),
    /// It isn't. The reasons aren't told, since there may be as many as its values times the names that all schemas require.
    Untold,
}

impl Explanation<'_> {
    /// Whether the document is valid.
    pub fn is_valid(&self) -> bool
        ensures { result ≡ says_valid self.now }
    {
        match self {
            Explanation::Valid => true,
            Explanation::Invalid(_) | Explanation::Untold => false,
        }
    }
}

/// The reasons of a refused pair: all of them, or where of alternatives the closest one is followed.
fn told(
    alloc: Global,
    graph: &ValidGraph<'_, '_>,
    item: usize,
    rule: usize,
    telling: Telling,
) -> Result<Reasons<PlacedCause>, AllocError>
    requires item { item < length graph.now.flat.now }
    requires rule { rule < length graph.now.book.now.numbering.rules.items }
    requires refused { verdicts graph.now.table.now item rule ≡ false }
    ensures { IfOk result (AreReasonsOf graph.now.flat.now
        graph.now.book.now.numbering.rules.items graph.now.book.now.numbering.children.items
        (verdicts graph.now.table.now) telling.all item rule telling.most) }
{
    if telling.all {
        explain_all(alloc, graph, item, rule, telling.most)
    } else {
        explain_closest(alloc, graph, item, rule, telling.most)
    }
}

/// Why a document, as the list of its values, isn't valid against the schema document whose rules these are, if it isn't (Core,
/// sections 4.3 and 7; Validation 2020-12, section 6). `Untold` exactly where it isn't, and its values and the names that the
/// schemas require, each counted for each schema that requires it, make more than 67,108,864 pairs. The table is filled anew, in
/// the memory that it has.
///
/// # Errors
/// Those of [`SchemaRules::verdict`].
pub fn explain_validity<'b>(
    rules: &'b SchemaRules<'_>,
    alloc: Global,
    flat: &'b Flat<'b>,
    table: &mut Verdicts,
    telling: Telling,
) -> Result<Explanation<'b>, ValidateFault>
    ensures one_meaning { OneMeaning rules.now }
    ensures answer { IfOk result (λ o. (V : Document → Document → Bool)
        → IsValidity rules.now V → says_valid o ≡ V rules.now (document_in flat.now)) }
    ensures within { OnOk result (¬ HasManyPairs rules.now (document_in flat.now)) }
    ensures refused { IfErr result (λ e. IsRefusal e rules.now (document_in flat.now)) }
    ensures why { IfOk result (λ o. (V : Document → Document → Bool)
        → IsValidity rules.now V → IsExplained rules.now V flat.now telling o) }
{
    let schema = rules.schema();
    one_meaning(schema); // for the proof: there is one validity
    schema.whole_law(); // for the proof: no name is required twice
    let (book, root) = rules.book();
    let last = flat.len() - 1; // the document itself
    let judge = book.over(flat)?;
    refill(&judge, table)?;
    if table.get(last, root) {
        return Ok(Explanation::Valid);
    }
    if has_many_names(&book.numbering.rules, flat.len()) {
        return Ok(Explanation::Untold);
    }
    let graph = ValidGraph {
        book,
        flat: &*flat, // lent for as long as the table
        table,
        lengths: &judge.lengths,
    };
    let reasons = told(alloc, &graph, last, root, telling)?;
    let names = Named { book, flat };
    let named = names.reasons(alloc, &reasons)?;
    Ok(Explanation::Invalid(named))
}

/// What a value would have to be by the alternatives of a schema, for the wording of [`ValidCause::NoAlternative`].
pub fn wanted_by<'b>(
    rules: &'b SchemaRules<'_>,
    alloc: Global,
    flat: &'b Flat<'b>,
    item: usize,
    rule: usize,
) -> Result<Wanted<'b>, AllocError> {
    let (book, _root) = rules.book();
    wanted_of(alloc, book, flat, item, rule)
}
