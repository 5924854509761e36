// The rules of schema documents, for any number of documents.
ghost use Rattle.std.specs.Prelude.{◌≡◌, Bool, IfOk, IfErr, OnOk, IsOkUnless};
ghost use Rattle.cs_document.specs.Document.{Document};
ghost use Rattle.cs_flat.specs.Listed.{document_in};
ghost use Rattle.cs_profile.specs.SchemaDocument.{document_of};
ghost use Rattle.cs_profile.specs.Validity.{IsValidity, OneMeaning};
ghost use Rattle.cs_validate.specs.Rooted.{IsRooted};
ghost use Rattle.cs_validate.specs.Rules.{HasManyPairs};
ghost use Rattle.cs_validate.specs.Refusal.{IsRefusal};

use crate::numbering::rooted::numbering_of;
use crate::rules::Rule;
use cs_flat::Flat;
use cs_profile::{SchemaDoc, one_meaning};
use cs_rules::Rulebook;
use cs_table::{TableFault, Verdicts, refill};
use std::alloc::Global;
use std::marker::Model;

/// The rules of a schema document, numbered once for any number of documents.
#[derive(Drop)]
pub struct SchemaRules<'a> {
    schema: &'a SchemaDoc,
    book: Rulebook<Rule<'a>>,
    /// The number of the root.
    root: usize,
}

impl<'a> Model for SchemaRules<'a> {
    ghost use Rattle.cs_document.specs.Document.{Document};
    ghost use Rattle.cs_document.specs.Code.{coded_document};
    ghost use Rattle.cs_profile.specs.SchemaDocument.{document_of};
    ghost use Rattle.cs_validate.specs.Rooted.{IsRooted};

    ghost Value = { Document };

    ghost coded = { coded_document };

    ghost view = { λ s. document_of s.schema.now };

    ghost invariant = { λ s. IsRooted (document_of s.schema.now)
        s.book.numbering.rules.items s.book.numbering.children.items s.root };
}

/// The rules of a schema document: its definitions and every schema inside them (JSON Schema Core 2020-12, sections 4.3 and
/// 7). Only memory can run out.
pub fn schema_rules<'a>(alloc: Global, schema: &'a SchemaDoc) -> Result<SchemaRules<'a>, TableFault>
    ensures schema { IfOk result (λ r. r ≡ document_of schema.now) }
    ensures memory { IsOkUnless result TableFault.OutOfMemory }
{
    let (numbering, root) = numbering_of(alloc, schema)?;
    let book = Rulebook::of(alloc, numbering)?;
    Ok(SchemaRules { schema, book, root })
}

impl SchemaRules<'_> {
    /// The schema document.
    pub fn schema(&self) -> &SchemaDoc
        ensures { document_of result.now ≡ self.now }
    {
        self.schema
    }

    /// The rules, and the number of the root.
    pub fn book(&self) -> (&Rulebook<Rule<'_>>, usize)
        ensures { IsRooted self.now result.0.now.numbering.rules.items
            result.0.now.numbering.children.items result.1 }
    {
        (&self.book, self.root)
    }

    /// Whether a document, as the list of its values, is valid against the schema document: its root validates it (Core,
    /// sections 4.3 and 7; Validation 2020-12, section 6). The table is filled anew, in the memory that it has.
    ///
    /// # Errors
    /// `TooManyPairs` exactly where the values of the document and the schemas make more than 67,108,864 pairs. The next
    /// document can be judged after any error.
    pub fn verdict(&self, flat: &Flat<'_>, table: &mut Verdicts) -> Result<bool, TableFault>
        ensures one_meaning { OneMeaning self.now }
        ensures answer { IfOk result (λ b. (V : Document → Document → Bool)
            → IsValidity self.now V → b ≡ V self.now (document_in flat.now)) }
        ensures within { OnOk result (¬ HasManyPairs self.now (document_in flat.now)) }
        ensures refused { IfErr result (λ e. IsRefusal e self.now (document_in flat.now)) }
    {
        one_meaning(self.schema); // for the proof: there is one validity
        let last = flat.len() - 1; // the document itself
        let judge = self.book.over(flat)?;
        refill(&judge, table)?;
        Ok(table.get(last, self.root))
    }
}
