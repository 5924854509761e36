// Schemas that wait for their numbers: those that are asked of documents inside. Each has a place of its own.
ghost use Rattle.std.specs.Prelude.{◌≡◌, length, IfOk, OnOk};
ghost use Rattle.cs_profile.specs.SchemaDocument.{schemas_view};
ghost use Rattle.cs_validate.specs.Placing.{Waits, asked_inside, optional_view, values_view};

use cs_profile::{Keywords, Schema};
use std::alloc::{AllocError, Global};
use std::collections::BTreeMap;

/// The schemas that the keywords of an object ask of documents inside wait, in the byte order of the keywords' names.
/// Answers the place of the first.
pub(crate) fn wait_inside<'a>(
    keywords: &'a Keywords,
    pending: &mut Vec<&'a Schema>,
) -> Result<usize, AllocError>
    ensures first { IfOk result (λ first. first ≡ length pending.old.items) }
    ensures waits { OnOk result (Waits pending.old pending.new (asked_inside keywords.now)) }
{
    let first = pending.len();
    wait_option(&keywords.additional, pending)?;
    wait_option(&keywords.rest, pending)?;
    wait_all(&keywords.prefix, pending)?;
    wait_values(&keywords.properties, pending)?;
    Ok(first)
}

/// A schema waits, where there is one.
fn wait_option<'a>(
    schema: &'a Option<Schema>,
    pending: &mut Vec<&'a Schema>,
) -> Result<(), AllocError>
    ensures { OnOk result (Waits pending.old pending.new (optional_view schema.now)) }
{
    if let Some(schema) = schema {
        pending.push(schema)?;
    }
    Ok(())
}

fn wait_all<'a>(schemas: &'a [Schema], pending: &mut Vec<&'a Schema>) -> Result<(), AllocError>
    ensures { OnOk result (Waits pending.old pending.new (schemas_view schemas.now)) }
{
    for schema in schemas {
        pending.push(schema)?;
    }
    Ok(())
}

/// The values of a map wait, in the order of their names.
fn wait_values<'a>(
    schemas: &'a BTreeMap<String, Schema>,
    pending: &mut Vec<&'a Schema>,
) -> Result<(), AllocError>
    ensures { OnOk result (Waits pending.old pending.new (values_view schemas.now.entries)) }
{
    for schema in schemas.values() {
        pending.push(schema)?;
    }
    Ok(())
}
