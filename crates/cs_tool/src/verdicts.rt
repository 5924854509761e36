// The verdicts on documents that were read from texts.
ghost use Rattle.std.specs.Prelude.{◌≡◌, ℕ, Bool, IfOk, IfErr, OnOk, IsErrOf};
ghost use Rattle.cs_json.specs.ReadAs.{read_as};
ghost use Rattle.cs_document.specs.Document.{Document as TheDocument};
ghost use Rattle.cs_instance.specs.Instance as instance;
ghost use Rattle.cs_instance.specs.Instance.{Rule, definition, IsInstance};
ghost use Rattle.cs_instance.specs.Refusal as unjudged;
ghost use Rattle.cs_instance.specs.Rules as by_root;
ghost use Rattle.cs_profile.specs.Validity as validity;
ghost use Rattle.cs_profile.specs.Validity.{IsValidity};
ghost use Rattle.cs_validate.specs.Refusal.{IsRefusal};
ghost use Rattle.cs_validate.specs.Rules as by_schema;

use cs_instance::{InstanceFault, RootRules};
use cs_json::{Document, flatten};
use cs_table::Verdicts;
use cs_validate::{SchemaRules, ValidateFault};
use std::alloc::Global;

/// Whether the document is an instance of the root. The table's memory is used again.
pub fn is_instance(
    rules: &RootRules<'_>,
    alloc: Global,
    document: &Document<'_>,
    table: &mut Verdicts,
) -> Result<bool, InstanceFault>
    ensures one_meaning { OnOk result (instance.OneMeaning rules.now.0) }
    ensures answer { IfOk result (λ b. (I : Rule → TheDocument → Bool) → IsInstance rules.now.0 I
        → b ≡ I (definition rules.now.1) (read_as document.now)) }
    ensures within { OnOk result
        (¬ by_root.HasManyPairs rules.now.0 rules.now.1 (read_as document.now)) }
    ensures many { (i r : ℕ) → IsErrOf result (InstanceFault.TooManyPairs i r)
        → unjudged.AreManyPairs rules.now.0 rules.now.1 (read_as document.now) i r }
    ensures known { IsErrOf result InstanceFault.UnknownRoot → ⊥ }
{
    match document {
        Document::Listed(flat) => rules.verdict(flat, table),
        Document::Tree(doc) => match flatten(alloc, doc) {
            Ok(flat) => rules.verdict(&flat, table),
            Err(_) => Err(InstanceFault::OutOfMemory),
        },
    }
}

/// Whether the document is valid against the schema. The table's memory is used again.
pub fn is_valid(
    rules: &SchemaRules<'_>,
    alloc: Global,
    document: &Document<'_>,
    table: &mut Verdicts,
) -> Result<bool, ValidateFault>
    ensures one_meaning { OnOk result (validity.OneMeaning rules.now) }
    ensures answer { IfOk result (λ b. (V : TheDocument → TheDocument → Bool)
        → IsValidity rules.now V → b ≡ V rules.now (read_as document.now)) }
    ensures within { OnOk result (¬ by_schema.HasManyPairs rules.now (read_as document.now)) }
    ensures refused { IfErr result (λ e. IsRefusal e rules.now (read_as document.now)) }
{
    match document {
        Document::Listed(flat) => rules.verdict(flat, table),
        Document::Tree(doc) => match flatten(alloc, doc) {
            Ok(flat) => rules.verdict(&flat, table),
            Err(_) => Err(ValidateFault::OutOfMemory),
        },
    }
}
