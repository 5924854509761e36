// Judging the document of a text by numbered rules. The memory of `scratch` and `table` is used again.
ghost use Rattle.std.specs.Prelude.{ℕ, List, IfOk, IfErr, IsOkUnless};
ghost use Rattle.cs_grammar.specs.declared.profile.Profile.{Profile};
ghost use Rattle.cs_profile.specs.declared.keyword.Vocabulary.{Vocabulary};
ghost use Rattle.cs_tool.specs.Accepted.{DeclaresRoot};
ghost use Rattle.cs_tool.specs.Agreement.{IsAgreement};
ghost use Rattle.cs_tool.specs.CallRefusals.{VetRefusal, ValidateRefusal, AgreeRefusal};
ghost use Rattle.cs_tool.specs.Headline.{IsVerdict, IsValidated};
ghost use Rattle.cs_tool.specs.Ready.{IsReadyToVet, IsReadyToValidate, IsReadyToAgree};
ghost use Rattle.cs_tool.specs.Sides.{IsSchemaOf, AreSidesOf};

use crate::Fault;
use crate::verdicts::{is_instance, is_valid};
use cs_instance::RootRules;
use cs_json::{Scratch, read_document};
use cs_table::Verdicts;
use cs_validate::SchemaRules;
use std::alloc::Global;

/// Whether the document is an instance of the root, as `vet` answers.
pub fn judge_root(
    rules: &RootRules<'_>,
    alloc: Global,
    text: &[u8],
    scratch: &mut Scratch,
    table: &mut Verdicts,
) -> Result<bool, Fault>
    ensures found { (p : Profile) (sources : List (List ℕ)) (root : List ℕ)
        → DeclaresRoot p sources root rules.now.0 rules.now.1
        → IfOk result (λ b. IsVerdict p sources root text.now b) }
    ensures refused { (p : Profile) (sources : List (List ℕ)) (root : List ℕ)
        → DeclaresRoot p sources root rules.now.0 rules.now.1
        → IfErr result (λ e. VetRefusal p sources root text.now e) }
    ensures only { (p : Profile) (sources : List (List ℕ)) (root : List ℕ)
        → DeclaresRoot p sources root rules.now.0 rules.now.1
        → IsReadyToVet p sources root text.now → IsOkUnless result Fault.OutOfMemory }
{
    let doc = read_document(alloc, text, scratch)?;
    Ok(is_instance(rules, alloc, &doc, table)?)
}

/// Whether the document is valid against the schema, as `validate_by` answers.
pub fn judge_schema(
    rules: &SchemaRules<'_>,
    alloc: Global,
    text: &[u8],
    scratch: &mut Scratch,
    table: &mut Verdicts,
) -> Result<bool, Fault>
    ensures found { (taken : Vocabulary) (schema : List ℕ) → IsSchemaOf taken schema rules.now
        → IfOk result (λ b. IsValidated taken schema text.now b) }
    ensures refused { (taken : Vocabulary) (schema : List ℕ) → IsSchemaOf taken schema rules.now
        → IfErr result (λ e. ValidateRefusal taken schema text.now e) }
    ensures only { (taken : Vocabulary) (schema : List ℕ) → IsSchemaOf taken schema rules.now
        → IsReadyToValidate taken schema text.now → IsOkUnless result Fault.OutOfMemory }
{
    let doc = read_document(alloc, text, scratch)?;
    Ok(is_valid(rules, alloc, &doc, table)?)
}

/// Whether the document is an instance of the root, judged on both sides, as `agree` answers.
pub fn judge_both(
    root_side: &RootRules<'_>,
    schema_side: &SchemaRules<'_>,
    alloc: Global,
    text: &[u8],
    scratch: &mut Scratch,
    table: &mut Verdicts,
) -> Result<bool, Fault>
    ensures found { (p : Profile) (sources : List (List ℕ)) (root : List ℕ)
        → AreSidesOf p sources root root_side.now.0 root_side.now.1 schema_side.now
        → IfOk result (λ b. IsAgreement p sources root text.now b) }
    ensures refused { (p : Profile) (sources : List (List ℕ)) (root : List ℕ)
        → AreSidesOf p sources root root_side.now.0 root_side.now.1 schema_side.now
        → IfErr result (λ e. AgreeRefusal p sources root text.now e) }
    ensures only { (p : Profile) (sources : List (List ℕ)) (root : List ℕ)
        → AreSidesOf p sources root root_side.now.0 root_side.now.1 schema_side.now
        → IsReadyToAgree p sources root text.now → IsOkUnless result Fault.OutOfMemory }
{
    let doc = read_document(alloc, text, scratch)?;
    let is_instance = is_instance(root_side, alloc, &doc, table)?;
    let is_valid = is_valid(schema_side, alloc, &doc, table)?;
    Ok(is_instance && is_valid)
}
