// Numbering what was read, once for any number of documents.
ghost use Rattle.std.specs.Prelude.{◌≡◌, ℕ, List, IfOk, IsOkUnless};
ghost use Rattle.cs_grammar.specs.declared.profile.Profile.{Profile};
ghost use Rattle.cs_profile.specs.SchemaDocument.{document_of};
ghost use Rattle.cs_tool.specs.Accepted.{DeclaresRoot};

use crate::Fault;
use cs_guard::Guarded;
use cs_instance::{RootRules, root_rules};
use cs_schema::SchemaDoc;
use cs_validate::{SchemaRules, schema_rules};
use std::alloc::Global;

/// The rules that a declared root reaches.
pub fn number_root<'a>(
    alloc: Global,
    guarded: &'a Guarded,
    root: &str,
) -> Result<RootRules<'a>, Fault>
    ensures found { (p : Profile) (sources : List (List ℕ)) (n : List ℕ)
        → DeclaresRoot p sources root.now guarded.now n
        → IfOk result (λ r. DeclaresRoot p sources root.now r.0 r.1) }
    ensures memory { (p : Profile) (sources : List (List ℕ)) (n : List ℕ)
        → DeclaresRoot p sources root.now guarded.now n → IsOkUnless result Fault.OutOfMemory }
{
    Ok(root_rules(alloc, guarded, root)?)
}

/// The rules of a schema. Only memory can run out.
pub fn number_schema<'a>(alloc: Global, schema: &'a SchemaDoc) -> Result<SchemaRules<'a>, Fault>
    ensures found { IfOk result (λ r. r ≡ document_of schema.now) }
    ensures memory { IsOkUnless result Fault.OutOfMemory }
{
    Ok(schema_rules(alloc, schema)?)
}
