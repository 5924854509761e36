// What holds of every schema document.
ghost use Rattle.cs_profile.specs.SchemaDocument.{document_of};
ghost use Rattle.cs_profile.specs.Validity.{OneMeaning};

use crate::SchemaDoc;

/// The law of one meaning: there is a validity of the schemas of a schema document, and only one.
pub fn one_meaning(schema: &SchemaDoc)
    ensures { OneMeaning (document_of schema.now) }
{
    schema.whole_law(); // for the proof: no definition reaches itself
}
