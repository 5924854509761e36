// Why documents are no instances of a root.
ghost use Rattle.std.specs.Prelude.{◌≡◌, ℕ, Bool, map, IfOk, IfSome, OnOk, IsErrOf, is_none};
ghost use Rattle.cs_document.specs.Document.{Document};
ghost use Rattle.cs_flat.specs.Listed.{document_in};
ghost use Rattle.cs_instance.specs.Instance.{Rule, definition, IsInstance, OneMeaning};
ghost use Rattle.cs_table.specs.Judged.{verdicts};
ghost use Rattle.cs_instance_reasons.specs.Meanings.{AreReasonsOf, IsExplained};
ghost use Rattle.cs_instance_reasons.specs.NumberedCauses.{IsRefusedPair};
ghost use Rattle.cs_instance.specs.Refusal.{AreManyPairs};
ghost use Rattle.cs_instance.specs.Rules.{HasManyPairs};
ghost use Rattle.cs_instance.specs.Steps.{numbered};

use crate::InstanceCause;
use crate::graph::InstanceGraph;
use crate::near::wanted_of;
use cs_flat::Flat;
use cs_instance::{InstanceFault, RootRules, one_meaning};
use cs_package::Shape;
use cs_reasons::{Reasons, Telling, explain_all, explain_closest};
use cs_table::{Verdicts, refill};
use std::alloc::{AllocError, Global};

/// What is asked of a value by itself, or by its kind: for wording.
#[derive(Clone, Copy, Drop)]
pub enum Want<'a> {
    /// What an expression without parts admits.
    Expression(&'a Shape),
    /// A map.
    Struct,
    /// A list.
    List,
}

/// What a value would have to be by the alternatives of a rule, none of which admits it.
#[derive(Drop)]
pub struct Wanted<'a> {
    /// The key whose value tells the alternatives apart, with the number of the value under it; none where the value itself
    /// is of no alternative's kind.
    pub key: Option<(&'a str, usize)>,
    /// For each alternative what is asked of that value, all of it together.
    pub alternatives: Vec<Vec<Want<'a>>>,
}

/// The reasons of a refused pair: all of them, or where of alternatives the closest one is followed.
fn told(
    alloc: Global,
    graph: &InstanceGraph<'_>,
    item: usize,
    rule: usize,
    telling: Telling,
) -> Result<Reasons<InstanceCause>, AllocError>
    requires { IsRefusedPair (map (numbered graph.now.book.now.numbering.children.items)
        graph.now.book.now.numbering.rules.items) graph.now.flat.now
        (verdicts graph.now.table.now) item rule }
    ensures { IfOk result (AreReasonsOf
        (map (numbered graph.now.book.now.numbering.children.items)
        graph.now.book.now.numbering.rules.items) graph.now.flat.now
        (verdicts graph.now.table.now) telling.all item rule telling.most) }
{
    if telling.all {
        explain_all(alloc, graph, item, rule, telling.most)
    } else {
        explain_closest(alloc, graph, item, rule, telling.most)
    }
}

/// Why a document, as the list of its values, is no instance of the root whose rules these are; `None` where it is one (CUE,
/// values). The table's memory is used again.
///
/// # Errors
/// Those of [`RootRules::verdict`].
pub fn explain_instance<'b>(
    rules: &'b RootRules<'_>,
    alloc: Global,
    flat: &'b Flat<'b>,
    table: &mut Verdicts,
    telling: Telling,
) -> Result<Option<Reasons<InstanceCause>>, InstanceFault>
    ensures one_meaning { OneMeaning rules.now.0 }
    ensures answer { IfOk result (λ o. (I : Rule → Document → Bool) → IsInstance rules.now.0 I
        → is_none o ≡ I (definition rules.now.1) (document_in flat.now)) }
    ensures within { OnOk result
        (¬ HasManyPairs rules.now.0 rules.now.1 (document_in flat.now)) }
    ensures many { (i r : ℕ) → IsErrOf result (InstanceFault.TooManyPairs i r)
        → AreManyPairs rules.now.0 rules.now.1 (document_in flat.now) i r }
    ensures known { IsErrOf result InstanceFault.UnknownRoot → ⊥ }
    ensures why { IfOk result (λ o. IfSome o
        (IsExplained rules.now.0 rules.now.1 flat.now telling.all telling.most)) }
{
    let (package, _root) = rules.root();
    one_meaning(package); // for the proof: there is one instance relation
    let (book, number) = rules.book();
    let last = flat.len() - 1;
    let judge = book.over(flat)?;
    refill(&judge, table)?;
    if table.get(last, number) {
        return Ok(None);
    }
    let graph = InstanceGraph {
        alloc,
        book,
        flat,
        table,
    };
    let reasons = told(alloc, &graph, last, number, telling)?;
    Ok(Some(reasons))
}

/// What a value would have to be by the alternatives of a rule, for the wording of [`InstanceCause::NoAlternative`].
pub fn wanted_by<'b>(
    rules: &'b RootRules<'_>,
    alloc: Global,
    flat: &'b Flat<'b>,
    item: usize,
    rule: usize,
) -> Result<Wanted<'b>, AllocError> {
    let (book, _number) = rules.book();
    wanted_of(alloc, book, flat, item, rule)
}
