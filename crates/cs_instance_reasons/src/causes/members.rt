// What a struct literal declares of a map's members, and the keys that it allows.
ghost use Rattle.std.specs.Prelude.{◌≡◌, ◌++◌, ◌<◌, map, slice_index, OnOk};
ghost use Rattle.cs_document.specs.Inside.{KeysAscend};
ghost use Rattle.cs_document.specs.Opened.{an_object};
ghost use Rattle.cs_flat.specs.View.{entry_of};
ghost use Rattle.cs_table.specs.Judged.{verdicts};
ghost use Rattle.cs_rules.specs.Knowns.{verdict_here, value_count, place_count};
ghost use Rattle.cs_instance_reasons.specs.CauseLists.{unless, value_causes, key_causes, declaration_cause, declaration_causes, map_causes};
ghost use Rattle.cs_instance_reasons.specs.declared.cause.InstanceCause.TheVariants.{Member};
ghost use Rattle.cs_instance.specs.Steps.{field_of, numbered_field, numbered_fields, ValuesBelow, PlacesBelow};

use crate::InstanceCause;
use cs_instance::{Field, Fields, is_for_every_key, may_be_absent};
use cs_rules::Known;
use std::alloc::AllocError;

/// Tells of each member that some declaration is for and whose value it refuses, of each label that is missing, and unless
/// the literal is opened of each key that no declaration allows.
pub(super) fn tell_fields(
    fields: &Fields<'_>,
    opened: bool,
    members: &[(&str, usize)],
    known: &Known<'_>,
    number: usize,
    found: &mut Vec<InstanceCause>,
) -> Result<(), AllocError>
    requires ascends { KeysAscend (map entry_of members.now) }
    requires members { ValuesBelow (value_count known.now) (map entry_of members.now) }
    requires fields { PlacesBelow (place_count known.now) (map field_of fields.now.all.items) }
    ensures { OnOk result (found.new.items ≡ found.old.items ++ map_causes (verdict_here known.now)
        (verdicts known.now.done.now) known.now.item number
        (numbered_fields known.now.children.now fields.now.all.items) opened
        (an_object (map entry_of members.now))) }
{
    tell_declarations(&fields.all, members, known, number, found)?;
    if opened {
        return Ok(());
    }
    tell_extras(fields, members, known, number, found)
}

fn tell_declarations(
    fields: &[Field<'_>],
    members: &[(&str, usize)],
    known: &Known<'_>,
    number: usize,
    found: &mut Vec<InstanceCause>,
) -> Result<(), AllocError>
    requires ascends { KeysAscend (map entry_of members.now) }
    requires members { ValuesBelow (value_count known.now) (map entry_of members.now) }
    requires fields { PlacesBelow (place_count known.now) (map field_of fields.now) }
    ensures { OnOk result (found.new.items ≡ found.old.items ++ declaration_causes (verdict_here known.now)
        (verdicts known.now.done.now) known.now.item number
        (map entry_of members.now) (numbered_fields known.now.children.now fields.now)) }
{
    for (declaration, field) in fields.iter().enumerate() {
        tell_declaration(declaration, field, members, known, number, found)?;
    }
    Ok(())
}

/// Tells of each member that a declaration is for and whose value it refuses, and of its label if that is missing. Only
/// `[string]` looks at every member.
fn tell_declaration(
    declaration: usize,
    field: &Field<'_>,
    members: &[(&str, usize)],
    known: &Known<'_>,
    number: usize,
    found: &mut Vec<InstanceCause>,
) -> Result<(), AllocError>
    requires ascends { KeysAscend (map entry_of members.now) }
    requires members { ValuesBelow (value_count known.now) (map entry_of members.now) }
    requires field { (field_of field.now).value < place_count known.now }
    ensures { OnOk result (found.new.items ≡ found.old.items ++ declaration_cause (verdict_here known.now)
        (verdicts known.now.done.now) known.now.item number
        (map entry_of members.now) declaration
        (numbered_field known.now.children.now field.now)) }
{
    if is_for_every_key(field.mark) {
        return tell_every(declaration, field.value, members, known, number, found);
    }
    match members.binary_search_by_key(&field.label, |entry| entry.0) {
        Ok(member) => {
            let item = members[member].1;
            tell_member(declaration, member, item, field.value, known, found)
        }
        Err(_) if may_be_absent(field.mark) => Ok(()),
        Err(_) => {
            found.push(InstanceCause::Missing {
                declaration,
                rule: number,
            })?;
            Ok(())
        }
    }
}

/// Tells of each member whose value the rule at a place refuses.
fn tell_every(
    declaration: usize,
    part: usize,
    members: &[(&str, usize)],
    known: &Known<'_>,
    number: usize,
    found: &mut Vec<InstanceCause>,
) -> Result<(), AllocError>
    requires members { ValuesBelow (value_count known.now) (map entry_of members.now) }
    requires part { part < place_count known.now }
    ensures { OnOk result (found.new.items ≡ found.old.items ++ value_causes (verdict_here known.now)
        (verdicts known.now.done.now) known.now.item number
        declaration (slice_index known.now.children.now part) (map entry_of members.now)) }
{
    for (member, (_key, value)) in members.iter().enumerate() {
        tell_member(declaration, member, *value, part, known, found)?;
    }
    Ok(())
}

/// Tells of a member if the rule at a place refuses its value, which is the item.
fn tell_member(
    declaration: usize,
    member: usize,
    item: usize,
    part: usize,
    known: &Known<'_>,
    found: &mut Vec<InstanceCause>,
) -> Result<(), AllocError>
    requires item { item < value_count known.now }
    requires part { part < place_count known.now }
    ensures { OnOk result (found.new.items ≡ found.old.items
        ++ unless (verdicts known.now.done.now item (slice_index known.now.children.now part))
        (Member declaration member item (slice_index known.now.children.now part))) }
{
    if known.inside(item, part) {
        return Ok(());
    }
    found.push(InstanceCause::Member {
        declaration,
        member,
        item,
        rule: known.children[part],
    })?;
    Ok(())
}

/// Tells of each key that no declaration allows.
fn tell_extras(
    fields: &Fields<'_>,
    members: &[(&str, usize)],
    known: &Known<'_>,
    number: usize,
    found: &mut Vec<InstanceCause>,
) -> Result<(), AllocError>
    ensures { OnOk result (found.new.items ≡ found.old.items
        ++ key_causes (verdict_here known.now)
        (verdicts known.now.done.now) known.now.item number
        (numbered_fields known.now.children.now fields.now.all.items) (map entry_of members.now)) }
{
    let mut next = 0;
    for (member, (key, _value)) in members.iter().enumerate() {
        if !fields.allow(key, &mut next) {
            found.push(InstanceCause::Extra {
                member,
                item: known.item,
            })?;
        }
    }
    Ok(())
}
