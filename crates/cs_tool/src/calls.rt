// The calls that judge one document.
ghost use Rattle.std.specs.Prelude.{IfOk, IfErr, IsOkUnless};
ghost use Rattle.cs_grammar.specs.declared.profile.Profile.TheVariants as profiles;
ghost use Rattle.cs_profile.specs.declared.keyword.Vocabulary.TheVariants as vocabularies;
ghost use Rattle.cs_tool.specs.Given.{bytes_in};
ghost use Rattle.cs_tool.specs.Headline.{IsVerdict, IsValidated};
ghost use Rattle.cs_tool.specs.Agreement.{IsAgreement};
ghost use Rattle.cs_tool.specs.Ready.{IsReadyToVet, IsReadyToValidate, IsReadyToAgree};
ghost use Rattle.cs_tool.specs.CallRefusals.{VetRefusal, ValidateRefusal, AgreeRefusal};

use crate::Fault;
use crate::judgements::{judge_both, judge_root, judge_schema};
use crate::numbering::{number_root, number_schema};
use crate::read_rules::{read_both, read_root, read_schema_text};
use cs_json::Scratch;
use cs_profile::Vocabulary;
use cs_syntax::Profile;
use cs_table::Verdicts;
use std::alloc::Global;

/// Whether the document is an instance of the root definition of the sources.
///
/// Refusals: those of [`vet_in`] in the default profile.
pub fn vet(alloc: Global, sources: &[&[u8]], root: &str, doc: &[u8]) -> Result<bool, Fault>
    ensures found { IfOk result
        (λ b. IsVerdict profiles.Default (bytes_in sources.now) root.now doc.now b) }
    ensures refused { IfErr result
        (λ e. VetRefusal profiles.Default (bytes_in sources.now) root.now doc.now e) }
    ensures only { IsReadyToVet profiles.Default (bytes_in sources.now) root.now doc.now
        → IsOkUnless result Fault.OutOfMemory }
{
    vet_in(alloc, Profile::Default, sources, root, doc)
}

/// Whether the document is an instance of the root definition that the sources declare in a profile.
///
/// Refusals in order: the first condition that the sources and the root fail, as `First` has them (`specs/First.antt`);
/// `NotJson` and `NotInteger`, of the document; then `TooManyPairs`, of the document and the rules of the root.
pub fn vet_in(
    alloc: Global,
    profile: Profile,
    sources: &[&[u8]],
    root: &str,
    doc: &[u8],
) -> Result<bool, Fault>
    ensures found { IfOk result
        (λ b. IsVerdict profile (bytes_in sources.now) root.now doc.now b) }
    ensures refused { IfErr result
        (λ e. VetRefusal profile (bytes_in sources.now) root.now doc.now e) }
    ensures only { IsReadyToVet profile (bytes_in sources.now) root.now doc.now
        → IsOkUnless result Fault.OutOfMemory }
{
    let guarded = read_root(alloc, profile, sources, root)?;
    let rules = number_root(alloc, &guarded, root)?;
    let mut scratch = Scratch::new(alloc);
    judge_root(&rules, alloc, doc, &mut scratch, &mut Verdicts::new(alloc))
}

/// Whether the document is valid against the schema, which has only keywords of the default profile.
///
/// Refusals: those of [`validate_by`] with the default vocabulary.
pub fn validate(alloc: Global, schema: &[u8], doc: &[u8]) -> Result<bool, Fault>
    ensures found { IfOk result (λ b. IsValidated vocabularies.Default schema.now doc.now b) }
    ensures refused { IfErr result
        (λ e. ValidateRefusal vocabularies.Default schema.now doc.now e) }
    ensures only { IsReadyToValidate vocabularies.Default schema.now doc.now
        → IsOkUnless result Fault.OutOfMemory }
{
    validate_by(alloc, Vocabulary::Default, schema, doc)
}

/// Whether the document is valid against the schema, which has only keywords of the vocabulary.
///
/// Refusals in order: `SchemaNotJson` and `NotInteger`, of the schema's text; those of a schema outside the profile, or with
/// a keyword that the vocabulary hasn't; `NotJson` and `NotInteger`, of the document; then `TooManyPairs`, of the document
/// and the schema's rules.
pub fn validate_by(
    alloc: Global,
    vocabulary: Vocabulary,
    schema: &[u8],
    doc: &[u8],
) -> Result<bool, Fault>
    ensures found { IfOk result (λ b. IsValidated vocabulary schema.now doc.now b) }
    ensures refused { IfErr result (λ e. ValidateRefusal vocabulary schema.now doc.now e) }
    ensures only { IsReadyToValidate vocabulary schema.now doc.now
        → IsOkUnless result Fault.OutOfMemory }
{
    let schema = read_schema_text(alloc, vocabulary, schema)?;
    let rules = number_schema(alloc, &schema)?;
    let mut scratch = Scratch::new(alloc);
    judge_schema(&rules, alloc, doc, &mut scratch, &mut Verdicts::new(alloc))
}

/// Whether the document is an instance of the root definition of the sources, judged on both sides: by the definition
/// itself, and by the exported schema, which is read again from its text. Both answer the same.
///
/// Refusals: those of [`agree_in`] in the default profile.
pub fn agree(alloc: Global, sources: &[&[u8]], root: &str, doc: &[u8]) -> Result<bool, Fault>
    ensures found { IfOk result
        (λ b. IsAgreement profiles.Default (bytes_in sources.now) root.now doc.now b) }
    ensures refused { IfErr result
        (λ e. AgreeRefusal profiles.Default (bytes_in sources.now) root.now doc.now e) }
    ensures only { IsReadyToAgree profiles.Default (bytes_in sources.now) root.now doc.now
        → IsOkUnless result Fault.OutOfMemory }
{
    agree_in(alloc, Profile::Default, sources, root, doc)
}

/// Whether the document is an instance of the root definition that the sources declare in a profile, judged on both sides.
///
/// Refusals in order: those of `export_in`; `NotJson` and `NotInteger`, of the document; then `TooManyPairs`, of the document
/// and the rules of the root or of the exported schema.
pub fn agree_in(
    alloc: Global,
    profile: Profile,
    sources: &[&[u8]],
    root: &str,
    doc: &[u8],
) -> Result<bool, Fault>
    ensures found { IfOk result
        (λ b. IsAgreement profile (bytes_in sources.now) root.now doc.now b) }
    ensures refused { IfErr result
        (λ e. AgreeRefusal profile (bytes_in sources.now) root.now doc.now e) }
    ensures only { IsReadyToAgree profile (bytes_in sources.now) root.now doc.now
        → IsOkUnless result Fault.OutOfMemory }
{
    let (guarded, schema) = read_both(alloc, profile, sources, root)?;
    let root_side = number_root(alloc, &guarded, root)?;
    let schema_side = number_schema(alloc, &schema)?;
    let mut scratch = Scratch::new(alloc);
    let mut table = Verdicts::new(alloc);
    judge_both(
        &root_side,
        &schema_side,
        alloc,
        doc,
        &mut scratch,
        &mut table,
    )
}
