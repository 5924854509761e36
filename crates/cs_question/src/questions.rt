// Whether there is a document that a definition admits and another one doesn't, and which definitions of a package have no instance.
ghost use Rattle.std.specs.Prelude.{◌≡◌, ◌⊎◌, ℕ, [], ◌∷◌, List, Bool, true, false, IfOk, IfErr, IfSome, IsNone, OnOk, Some, IsErrOf, length, slice_get};
ghost use Rattle.std.specs.Prelude.{slice_index};
ghost use Rattle.cs_document.specs.Document.{Document, IsDocument};
ghost use Rattle.cs_document.specs.View.{doc_view};
ghost use Rattle.cs_package.specs.Environment.{Names};
ghost use Rattle.cs_instance.specs.Instance.{Rule, definition, IsInstance};
ghost use Rattle.cs_question.specs.Separates.{Separates};
ghost use Rattle.cs_question.specs.Faults.{IsRefusal};
ghost use Rattle.cs_question.specs.ReadAgain.{IsReadAgain};
ghost use Rattle.cs_question.specs.Truth.{IsMetByNoDocument, IsMetByNone};
ghost use Rattle.cs_question.specs.NoInstance.{HasNoDocument};

use crate::fault::{Answered, Budget, Made, QuestionFault, SearchFault, Searched};
use crate::nodes::{Literal, Nodes, Side, add, met};
use crate::sides::side_of;
use crate::table::{Table, explored, explored_all};
use cs_document::Doc;
use cs_guard::Guarded;
use cs_instance::{NumberedPackage, is_instance, numbered_package, numbered_root};
use cs_json::{is_read_as, write_doc};
use std::alloc::Global;

/// How many pairs of a rule and a value are a step, where the rules judge a document.
const PAIRS_OF_STEP: usize = 128;

/// A document that is an instance of one root and not of another one, each a definition of its package named with its `#`, and that
/// its text is read as; none where there is no such document, so each instance of the one is an instance of the other.
///
/// # Errors
/// `UnknownRoot` exactly where a package doesn't declare its root, `TooManyCases` where a limit is met, or the budget has too few
/// steps left. What the question takes is taken from the budget.
pub fn separating(
    alloc: Global,
    admitting: &Guarded,
    admitting_root: &str,
    refusing: &Guarded,
    refusing_root: &str,
    budget: &mut Budget,
) -> Result<Option<Doc>, QuestionFault>
    ensures none { IfOk result (λ o. IsNone o → (I J : Rule → Document → Bool) (n m : List ℕ) (x : Document)
        → IsInstance admitting.now I → IsInstance refusing.now J → Names admitting.now admitting_root.now n → Names refusing.now refusing_root.now m
        → IsDocument x → ¬ Separates (I (definition n) ∷ []) (J (definition m) ∷ []) x) }
    ensures one { IfOk result (λ o. IfSome o (λ d. (I J : Rule → Document → Bool) (n m : List ℕ)
        → IsInstance admitting.now I → IsInstance refusing.now J → Names admitting.now admitting_root.now n → Names refusing.now refusing_root.now m
        → Separates (I (definition n) ∷ []) (J (definition m) ∷ []) (doc_view d))) }
    ensures read { IfOk result (λ o. IfSome o (λ d. IsReadAgain (doc_view d))) }
    ensures declared { OnOk result (((n : List ℕ) × Names admitting.now admitting_root.now n) × ((m : List ℕ) × Names refusing.now refusing_root.now m)) }
    ensures refused { IfErr result (λ e. IsRefusal e admitting.now admitting_root.now ⊎ IsRefusal e refusing.now refusing_root.now) }
{
    let first = numbered_root(alloc, admitting, admitting_root)?;
    let second = numbered_root(alloc, refusing, refusing_root)?;
    let nodes = Nodes {
        alloc,
        admitting: side_of(alloc, &first.numbering.rules, &first.numbering.children)?,
        refusing: side_of(alloc, &second.numbering.rules, &second.numbering.children)?,
    };
    let mut asked = met(alloc, first.number)?;
    let unmet = Literal {
        side: Side::Refusing,
        rule: second.number,
        holds: false,
    };
    add(&mut asked, unmet)?;
    let Some(doc) = document_for(&nodes, &asked, budget)? else {
        return Ok(None);
    };
    judged(alloc, admitting, admitting_root, &doc, true)?;
    judged(alloc, refusing, refusing_root, &doc, false)?;
    Ok(Some(doc))
}

/// A document that a search finds to be all that is asked, and that its text is read as; none where no document is.
fn document_for(nodes: &Nodes<'_>, asked: &[Literal], budget: &mut Budget) -> Searched<Option<Doc>>
    ensures none { IfOk result (λ o. IsNone o → IsMetByNoDocument nodes.now asked.now) }
    ensures read { IfOk result (λ o. IfSome o (λ d. IsReadAgain (doc_view d))) }
{
    let rules = nodes.admitting.len().saturating_add(nodes.refusing.len());
    budget.spend(rules);
    let table = explored(nodes, asked, budget)?;
    if table.is_shut_at(0, asked) {
        return Ok(None);
    }
    let (doc, values) = table.witness()?;
    budget.spend(rules.saturating_mul(values) / PAIRS_OF_STEP);
    let text = write_doc(nodes.alloc, &doc)?;
    // That is so where it nests no deeper than documents are read.
    if is_read_as(nodes.alloc, &text, &doc)? {
        Ok(Some(doc))
    } else {
        Err(SearchFault::TooManyCases)
    }
}

/// A document is judged as it was found.
///
/// # Errors
/// `TooManyCases` where it isn't, which is never so.
fn judged(alloc: Global, package: &Guarded, root: &str, doc: &Doc, wanted: bool) -> Answered<()>
    ensures judged { OnOk result ((I : Rule → Document → Bool) (n : List ℕ) → IsInstance «package».now I → Names «package».now root.now n
        → I (definition n) (doc_view doc.now) ≡ wanted) }
    ensures refused { IfErr result (λ e. IsRefusal e «package».now root.now) }
{
    if is_instance(alloc, package, root, doc)? == wanted {
        Ok(())
    } else {
        Err(QuestionFault::TooManyCases)
    }
}

/// An instance of the root, a definition of the package named with its `#`, that its text is read as; none where it has none.
///
/// # Errors
/// `UnknownRoot` exactly where the package doesn't declare the root, `TooManyCases` where a limit is met, or the budget has too
/// few steps left. What the question takes is taken from the budget.
pub fn instance_of(
    alloc: Global,
    package: &Guarded,
    root: &str,
    budget: &mut Budget,
) -> Result<Option<Doc>, QuestionFault>
    ensures none { IfOk result (λ o. IsNone o → (I : Rule → Document → Bool) (n : List ℕ) (x : Document)
        → IsInstance «package».now I → Names «package».now root.now n → IsDocument x → ¬ Separates (I (definition n) ∷ []) [] x) }
    ensures one { IfOk result (λ o. IfSome o (λ d. (I : Rule → Document → Bool) (n : List ℕ)
        → IsInstance «package».now I → Names «package».now root.now n → Separates (I (definition n) ∷ []) [] (doc_view d))) }
    ensures read { IfOk result (λ o. IfSome o (λ d. IsReadAgain (doc_view d))) }
    ensures declared { OnOk result ((n : List ℕ) × Names «package».now root.now n) }
    ensures refused { IfErr result (λ e. IsRefusal e «package».now root.now) }
{
    let rooted = numbered_root(alloc, package, root)?;
    let nodes = Nodes {
        alloc,
        admitting: side_of(alloc, &rooted.numbering.rules, &rooted.numbering.children)?,
        refusing: Vec::new(alloc),
    };
    let asked = met(alloc, rooted.number)?;
    let Some(doc) = document_for(&nodes, &asked, budget)? else {
        return Ok(None);
    };
    judged(alloc, package, root, &doc, true)?;
    Ok(Some(doc))
}

/// For each rule whether no document meets it, where the table began with the questions for these rules.
fn unmet(alloc: Global, table: &Table<'_>, rules: &[usize]) -> Made<Vec<bool>>
    ensures long { IfOk result (λ v. length v.items ≡ length rules.now) }
    ensures none { IfOk result (λ v. (i : ℕ) → slice_get v.items i ≡ Some true → IsMetByNone table.now.entries.items (slice_index rules.now i)) }
{
    let mut all = Vec::with_capacity(alloc, rules.len())?;
    for (place, rule) in rules.iter().enumerate() {
        let asked = met(alloc, *rule)?;
        all.push(table.is_shut_at(place, &asked))?;
    }
    Ok(all)
}

/// For each definition, by its number, whether no document is an instance of it. One that has no instance may not be told where
/// a limit is met: 100,000 questions, 500,000 steps at a time for one of them, and 3,000,000 in all.
///
/// # Errors
/// `OutOfMemory`. `TooManyCases` where the limits leave nothing that is sure.
pub fn without_instance(alloc: Global, package: &Guarded) -> Result<Vec<bool>, QuestionFault>
    ensures long { IfOk result (λ v. length v.items ≡ length «package».now) }
    ensures none { IfOk result (λ v. (i : ℕ) → slice_get v.items i ≡ Some true → HasNoDocument «package».now i) }
    ensures known { IsErrOf result QuestionFault.UnknownRoot → ⊥ }
{
    let NumberedPackage { numbering, numbers } = numbered_package(alloc, package)?;
    let nodes = Nodes {
        alloc,
        admitting: side_of(alloc, &numbering.rules, &numbering.children)?,
        refusing: Vec::new(alloc),
    };
    let table = explored_all(&nodes, &numbers)?;
    let all = unmet(alloc, &table, &numbers)?;
    Ok(all)
}
