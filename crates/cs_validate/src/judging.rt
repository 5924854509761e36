// Whether documents are valid against schema documents.
ghost use Rattle.std.specs.Prelude.{◌≡◌, Bool, IfOk, IfErr, OnOk, IsOkUnless};
ghost use Rattle.cs_document.specs.Document.{Document};
ghost use Rattle.cs_document.specs.View.{doc_view};
ghost use Rattle.cs_flat.specs.Listed.{document_in};
ghost use Rattle.cs_profile.specs.SchemaDocument.{document_of};
ghost use Rattle.cs_profile.specs.Validity.{IsValidity, OneMeaning};
ghost use Rattle.cs_validate.specs.Rules.{HasManyPairs};
ghost use Rattle.cs_validate.specs.Judging.{IsJudge, IsTable};
ghost use Rattle.cs_validate.specs.Refusal.{IsRefusal};

use crate::numbering::rooted::numbering_of;
use crate::{ValidJudge, schema_rules};
use cs_document::Doc;
use cs_flat::{Flat, flatten};
use cs_profile::{SchemaDoc, one_meaning};
use cs_rules::RuleJudge;
use cs_table::{Judge, TableFault, Verdicts, fill};
use std::alloc::Global;

/// The judge of a document's values by a schema document, its definitions and every schema inside them, with the number
/// of the root (JSON Schema Core 2020-12, sections 4.3 and 7). Only memory can run out.
pub fn valid_judge<'a>(
    alloc: Global,
    schema: &'a SchemaDoc,
    flat: &'a Flat<'a>,
) -> Result<(ValidJudge<'a>, usize), TableFault>
    ensures found { IfOk result (λ t. IsJudge (document_of schema.now) flat.now t.1
        (⟦<ValidJudge<'a> as Judge>⟧.item_count t.0)
        (⟦<ValidJudge<'a> as Judge>⟧.rule_count t.0)
        (⟦<ValidJudge<'a> as Judge>⟧.answer t.0)) }
    ensures memory { IsOkUnless result TableFault.OutOfMemory }
{
    let (numbering, number) = numbering_of(alloc, schema)?;
    Ok((RuleJudge::over(alloc, numbering, flat)?, number))
}

/// Whether each value of a document is valid by the schema document, by each of its definitions and by every schema
/// inside them, with the number of the root (Core, sections 4.3 and 7; Validation 2020-12, section 6).
///
/// # Errors
/// `TooManyPairs` exactly where there are more than 67,108,864 pairs of a value and a schema.
pub fn valid_table(
    alloc: Global,
    schema: &SchemaDoc,
    flat: &Flat<'_>,
) -> Result<(Verdicts, usize), TableFault>
    ensures found { IfOk result (λ t. IsTable (document_of schema.now) flat.now t.1 t.0) }
    ensures within { OnOk result (¬ HasManyPairs (document_of schema.now) (document_in flat.now)) }
    ensures refused { IfErr result (λ e. IsRefusal e (document_of schema.now) (document_in flat.now)) }
{
    let _count = flat.len(); // for the proof: the items are the values
    let (judge, number) = valid_judge(alloc, schema, flat)?;
    let table = fill(alloc, &judge)?;
    Ok((table, number))
}

/// Whether a document, as the list of its values, is valid against a schema document: its root validates it (Core, sections
/// 4.3 and 7; Validation 2020-12, section 6).
///
/// # Errors
/// `TooManyPairs` exactly where the values of the document and the schemas make more than 67,108,864 pairs.
pub fn valid_verdict(alloc: Global, schema: &SchemaDoc, flat: &Flat<'_>) -> Result<bool, TableFault>
    ensures one_meaning { OneMeaning (document_of schema.now) }
    ensures answer { IfOk result (λ b. (V : Document → Document → Bool)
        → IsValidity (document_of schema.now) V
        → b ≡ V (document_of schema.now) (document_in flat.now)) }
    ensures within { OnOk result (¬ HasManyPairs (document_of schema.now) (document_in flat.now)) }
    ensures refused { IfErr result
        (λ e. IsRefusal e (document_of schema.now) (document_in flat.now)) }
{
    one_meaning(schema); // for the proof: there is one validity
    let rules = schema_rules(alloc, schema)?;
    let mut table = Verdicts::new(alloc);
    rules.verdict(flat, &mut table)
}

/// Whether a document is valid against a schema document: its root validates it (Core, sections 4.3 and 7; Validation
/// 2020-12, section 6).
///
/// # Errors
/// `TooManyPairs` exactly where the values of the document and the schemas make more than 67,108,864 pairs.
pub fn is_valid(alloc: Global, schema: &SchemaDoc, doc: &Doc) -> Result<bool, TableFault>
    ensures one_meaning { OneMeaning (document_of schema.now) }
    ensures answer { IfOk result (λ b. (V : Document → Document → Bool)
        → IsValidity (document_of schema.now) V → b ≡ V (document_of schema.now) (doc_view doc.now)) }
    ensures within { OnOk result (¬ HasManyPairs (document_of schema.now) (doc_view doc.now)) }
    ensures refused { IfErr result (λ e. IsRefusal e (document_of schema.now) (doc_view doc.now)) }
{
    one_meaning(schema); // for the proof: there is one validity
    let Ok(flat) = flatten(alloc, doc) else {
        return Err(TableFault::OutOfMemory);
    };
    valid_verdict(alloc, schema, &flat)
}
