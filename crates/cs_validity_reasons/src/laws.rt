// Laws of validity.
ghost use Rattle.cs_profile.specs.SchemaDocument.{document_of};
ghost use Rattle.cs_validity_reasons.specs.Why.{ReasonsHold};

use cs_profile::SchemaDoc;

/// Reasons hold, by the validity of a schema document: the document isn't valid by the schema that it is judged by, the pointer of
/// a reason leads to a value in the document, and this value isn't valid by the schema that it fails, whatever other schemas are said
/// to validate, unless it fails by `not`.
pub fn reasons_hold(schema: &SchemaDoc)
    ensures { ReasonsHold (document_of schema.now) }
{}
