// Whether documents are instances of a package's definitions.
ghost use Rattle.std.specs.Prelude.{◌≡◌, ◌<◌, ℕ, List, Bool, IfOk, IfErr, OnOk, IsErrOf};
ghost use Rattle.cs_document.specs.Document.{Document};
ghost use Rattle.cs_document.specs.View.{doc_view};
ghost use Rattle.cs_flat.specs.Listed.{document_in};
ghost use Rattle.cs_package.specs.Environment.{Names};
ghost use Rattle.cs_instance.specs.Instance.{Rule, definition, IsInstance, OneMeaning};
ghost use Rattle.cs_instance.specs.Rules.{HasManyPairs};
ghost use Rattle.cs_instance.specs.Judging.{IsJudge, IsTable};
ghost use Rattle.cs_instance.specs.Refusal.{IsRefusal};

use crate::numbered::numbered_root;
use crate::{InstanceFault, InstanceJudge, root_rules};
use cs_document::Doc;
use cs_flat::{Flat, flatten};
use cs_guard::Guarded;
use cs_rules::RuleJudge;
use cs_table::{Judge, Verdicts, fill};
use std::alloc::Global;

/// The judge of a document's values by the definitions that the root reaches and the expressions in their bodies, with
/// the number of the root's rule (CUE, values).
///
/// # Errors
/// `UnknownRoot` exactly where the package doesn't declare the root.
pub fn instance_judge<'a>(
    alloc: Global,
    package: &'a Guarded,
    root: &str,
    flat: &'a Flat<'a>,
) -> Result<(InstanceJudge<'a>, usize), InstanceFault>
    ensures found { IfOk result (λ t. (n : List ℕ) × Names «package».now root.now n
        × IsJudge «package».now n flat.now t.1 (⟦<InstanceJudge<'a> as Judge>⟧.item_count t.0)
        (⟦<InstanceJudge<'a> as Judge>⟧.rule_count t.0) (⟦<InstanceJudge<'a> as Judge>⟧.answer t.0)) }
    ensures refused { IfErr result (λ e. IsRefusal e «package».now root.now (document_in flat.now)) }
    ensures fits { (i r : ℕ) → IsErrOf result (InstanceFault.TooManyPairs i r) → ⊥ }
{
    let rooted = numbered_root(alloc, package, root)?;
    let judge = RuleJudge::over(alloc, rooted.numbering, flat)?;
    Ok((judge, rooted.number))
}

/// Whether each value of a document is an instance of each definition that the root reaches and of each expression in
/// their bodies, with the number of the root's rule (CUE, values).
///
/// # Errors
/// `UnknownRoot` exactly where the package doesn't declare the root, `TooManyPairs` exactly where there are more than
/// 67,108,864 pairs of a value and a rule.
pub fn instance_table(
    alloc: Global,
    package: &Guarded,
    root: &str,
    flat: &Flat<'_>,
) -> Result<(Verdicts, usize), InstanceFault>
    ensures found { IfOk result (λ t. (n : List ℕ) × Names «package».now root.now n
        × IsTable «package».now n flat.now t.1 t.0) }
    ensures within { OnOk result ((n : List ℕ) → Names «package».now root.now n
        → ¬ HasManyPairs «package».now n (document_in flat.now)) }
    ensures refused { IfErr result (λ e. IsRefusal e «package».now root.now (document_in flat.now)) }
{
    let _count = flat.len(); // for the proof: the items are the values
    let (judge, number) = instance_judge(alloc, package, root, flat)?;
    let table = fill(alloc, &judge)?;
    Ok((table, number))
}

/// Whether a document, as the list of its values, is an instance of the root, a definition of the package named with its
/// `#` (CUE, values).
///
/// # Errors
/// `UnknownRoot` exactly where the package doesn't declare the root, `TooManyPairs` exactly where the values of the
/// document and the rules that the root reaches make more than 67,108,864 pairs.
pub fn instance_verdict(
    alloc: Global,
    package: &Guarded,
    root: &str,
    flat: &Flat<'_>,
) -> Result<bool, InstanceFault>
    ensures one_meaning { OneMeaning «package».now }
    ensures answer { IfOk result (λ b. (n : List ℕ) × Names «package».now root.now n
        × ((I : Rule → Document → Bool) → IsInstance «package».now I
        → b ≡ I (definition n) (document_in flat.now))) }
    ensures within { OnOk result ((n : List ℕ) → Names «package».now root.now n
        → ¬ HasManyPairs «package».now n (document_in flat.now)) }
    ensures refused { IfErr result
        (λ e. IsRefusal e «package».now root.now (document_in flat.now)) }
{
    let _package = package.package(); // for the proof: the package is guarded
    let rules = root_rules(alloc, package, root)?;
    rules.verdict(flat, &mut Verdicts::new(alloc))
}

/// Whether the document is an instance of the root, a definition of the package named with its `#` (CUE, values).
///
/// # Errors
/// `UnknownRoot` exactly where the package doesn't declare the root, `TooManyPairs` exactly where the values of the
/// document and the rules that the root reaches make more than 67,108,864 pairs.
pub fn is_instance(
    alloc: Global,
    package: &Guarded,
    root: &str,
    doc: &Doc,
) -> Result<bool, InstanceFault>
    ensures one_meaning { OneMeaning «package».now }
    ensures answer { IfOk result (λ b. (n : List ℕ) × Names «package».now root.now n
        × ((I : Rule → Document → Bool) → IsInstance «package».now I
        → b ≡ I (definition n) (doc_view doc.now))) }
    ensures within { OnOk result ((n : List ℕ) → Names «package».now root.now n
        → ¬ HasManyPairs «package».now n (doc_view doc.now)) }
    ensures refused { IfErr result (λ e. IsRefusal e «package».now root.now (doc_view doc.now)) }
{
    let _package = package.package(); // for the proof: the package is guarded
    let Ok(flat) = flatten(alloc, doc) else {
        return Err(InstanceFault::OutOfMemory);
    };
    instance_verdict(alloc, package, root, &flat)
}
