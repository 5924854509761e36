// What selectors ask for: the values of the declarations of their labels.
ghost use Rattle.std.specs.Prelude.{◌≡◌, ◌++◌, List, map, IfOk, OnOk};
ghost use Rattle.std.specs.List.{list_all, list_any};
ghost use Rattle.cs_grammar.specs.Spelling.{is_name_byte};
ghost use Rattle.cs_grammar.specs.View.{expr_view, field_view, fields_view, selector_view};
ghost use Rattle.cs_names.specs.Having.{is_hidden};
ghost use Rattle.cs_names.specs.Joined.{is_every};
ghost use Rattle.cs_plain.specs.Bodies.{body_view};
ghost use Rattle.cs_selectors.specs.Checks.{Reaches, field_at, is_for_seen, only_for, tree_at};
ghost use Rattle.cs_selectors.specs.Reached as Spec;
ghost use Rattle.cs_selectors.specs.Reached.{declarations_for, declarations_within, declarations_in, lack_of, lack_here, lack_in, step, texts, values_in};

use crate::lack::{Lack, Stop};
use cs_grammar::{Expr, Field, FieldMark, Selector, atom};
use cs_plain::Body;
use std::alloc::{AllocError, Global};

/// How many values a label may have.
const MOST_VALUES: usize = 64;

// ---- labels

/// Whether a byte may stand in a name (CUE, identifiers).
fn is_name_byte(byte: u8) -> bool
    ensures { result ≡ is_name_byte byte }
{
    matches!(byte, b'A'..=b'Z' | b'a'..=b'z' | b'$' | b'0'..=b'9' | b'_')
}

/// Whether all bytes of a text may.
fn is_plain(text: &[u8]) -> bool
    ensures { result ≡ list_all is_name_byte text.now }
{
    for byte in text {
        if !is_name_byte(*byte) {
            return false;
        }
    }
    true
}

/// Whether a text begins with `_`.
fn is_hidden(text: &[u8]) -> bool
    ensures { result ≡ is_hidden text.now }
{
    match text.first() {
        Some(byte) => *byte == b'_',
        None => false,
    }
}

/// Whether a label can't stand in the name of a definition, or is that of a hidden field.
fn is_left_out(label: &Selector) -> bool
    ensures { result ≡ Spec.is_left_out (selector_view label.now) }
{
    let text = label.label.as_bytes();
    !is_plain(text) || (is_hidden(text) && !label.quoted)
}

/// Whether some label is such a one.
pub(crate) fn some_left_out(labels: &[Selector]) -> bool
    ensures { result ≡ list_any Spec.is_left_out (map selector_view labels.now) }
{
    for label in labels {
        if is_left_out(label) {
            return true;
        }
    }
    false
}

// ---- one label

fn is_every(mark: FieldMark) -> bool
    ensures { result ≡ is_every mark }
{
    match mark {
        FieldMark::Regular | FieldMark::Optional | FieldMark::Required => false,
        FieldMark::Every { .. } => true,
    }
}

fn is_regular(mark: FieldMark) -> bool
    ensures { result ≡ Spec.is_regular mark }
{
    match mark {
        FieldMark::Regular => true,
        FieldMark::Optional | FieldMark::Required | FieldMark::Every { .. } => false,
    }
}

/// Whether a value tells itself which fields it has: a struct literal, or what has none.
fn tells_fields(value: &Expr) -> bool
    ensures { result ≡ Spec.tells_fields (expr_view value.now) }
{
    match value {
        atom!() | Expr::Name { .. } | Expr::List { .. } | Expr::Struct { .. } => true,
        Expr::Reference { .. } | Expr::And(_) | Expr::Or(_) | Expr::Paren(_) | Expr::Wide(_) => {
            false
        }
    }
}

/// Whether all values do.
fn all_tell_fields(values: &[&Expr]) -> bool
    ensures { result ≡ list_all Spec.tells_fields (map tree_at values.now) }
{
    for value in values {
        if !tells_fields(*value) {
            return false;
        }
    }
    true
}

/// Whether a field is of that label, or `[string]`.
fn is_for(label: &str, field: &Field) -> bool
    ensures { result ≡ is_for_seen label.now (field_view field.now) }
{
    is_every(field.mark) || field.label.as_str() == label
}

/// Adds a field, if it is a declaration of a label.
fn add_declaration<'a>(
    found: &mut Vec<&'a Field>,
    label: &str,
    field: &'a Field,
) -> Result<(), AllocError>
    ensures { OnOk result (map field_at found.new.items ≡ map field_at found.old.items ++ only_for label.now (field_view field.now)) }
{
    if !is_for(label, field) {
        return Ok(());
    }
    found.push(field)?;
    Ok(())
}

/// Adds the declarations of a label among fields.
fn add_declarations<'a>(
    found: &mut Vec<&'a Field>,
    label: &str,
    fields: &'a [Field],
) -> Result<(), AllocError>
    ensures { OnOk result (map field_at found.new.items ≡ map field_at found.old.items ++ declarations_for label.now (fields_view fields.now)) }
{
    for field in fields {
        add_declaration(found, label, field)?;
    }
    Ok(())
}

/// The same in a value.
fn add_within<'a>(
    found: &mut Vec<&'a Field>,
    label: &str,
    value: &'a Expr,
) -> Result<(), AllocError>
    ensures { OnOk result (map field_at found.new.items ≡ map field_at found.old.items ++ declarations_within label.now (expr_view value.now)) }
{
    match value {
        Expr::Struct { fields, .. } => add_declarations(found, label, fields),
        _ => Ok(()),
    }
}

/// Those in all values.
fn declarations_in<'a>(
    alloc: Global,
    label: &str,
    values: &[&'a Expr],
) -> Result<Vec<&'a Field>, AllocError>
    ensures { IfOk result (λ v. map field_at v.items ≡ declarations_in label.now (map tree_at values.now)) }
{
    let mut found = Vec::new(alloc);
    for value in values {
        add_within(&mut found, label, *value)?;
    }
    Ok(found)
}

/// Whether some declaration is regular.
fn some_regular(fields: &[&Field]) -> bool
    ensures { result ≡ list_any (λ f. Spec.is_regular f.mark) (map field_at fields.now) }
{
    for field in fields {
        if is_regular(field.mark) {
            return true;
        }
    }
    false
}

/// Whether an expression is one node.
pub(crate) fn is_single(value: &Expr) -> bool
    ensures { result ≡ Spec.is_single (expr_view value.now) }
{
    match value {
        atom!() | Expr::Name { .. } | Expr::Reference { .. } => true,
        Expr::And(_)
        | Expr::Or(_)
        | Expr::Paren(_)
        | Expr::Struct { .. }
        | Expr::List { .. }
        | Expr::Wide(_) => false,
    }
}

/// Whether each value that `[string]` has is single: it is one of every label.
fn all_small(fields: &[&Field]) -> bool
    ensures { result ≡ list_all Spec.is_small (map field_at fields.now) }
{
    for field in fields {
        if is_every(field.mark) && !is_single(&field.value) {
            return false;
        }
    }
    true
}

/// What is lacking among the declarations of a label.
fn lack_of(fields: &[&Field]) -> Option<Lack>
    ensures { result ≡ lack_of (map field_at fields.now) }
{
    if fields.is_empty() {
        return Some(Lack::Unknown);
    }
    if !some_regular(fields) {
        return Some(Lack::NotRegular);
    }
    if all_small(fields) && fields.len() <= MOST_VALUES {
        None
    } else {
        Some(Lack::LeftOut)
    }
}

/// The values of fields.
fn values_of<'a>(alloc: Global, fields: &[&'a Field]) -> Result<Vec<&'a Expr>, AllocError>
    ensures { IfOk result (λ v. map tree_at v.items ≡ map (λ f. f.value) (map field_at fields.now)) }
{
    let mut values = Vec::with_capacity(alloc, fields.len())?;
    for field in fields {
        let field: &'a Field = *field;
        values.push(&field.value)?;
    }
    Ok(values)
}

/// The values under a label.
fn step<'a>(alloc: Global, label: &str, values: &[&'a Expr]) -> Result<Vec<&'a Expr>, Stop>
    ensures { Reaches result (lack_here label.now (map tree_at values.now)) (step label.now (map tree_at values.now)) }
{
    if !all_tell_fields(values) {
        return Err(Stop::Lacks(Lack::LeftOut));
    }
    let fields = declarations_in(alloc, label, values)?;
    match lack_of(&fields) {
        Some(lack) => Err(Stop::Lacks(lack)),
        None => Ok(values_of(alloc, &fields)?),
    }
}

// ---- label after label

/// The values of bodies.
fn bodies_values<'a>(alloc: Global, bodies: &[Body<'a>]) -> Result<Vec<&'a Expr>, AllocError>
    ensures { IfOk result (λ v. map tree_at v.items ≡ map (λ b. b.value) (map body_view bodies.now)) }
{
    let mut values = Vec::with_capacity(alloc, bodies.len())?;
    for body in bodies {
        values.push(body.value)?;
    }
    Ok(values)
}

/// The values that labels lead to, from bodies on.
pub(crate) fn reached<'a>(
    alloc: Global,
    bodies: &[Body<'a>],
    labels: &[Selector],
) -> Result<Vec<&'a Expr>, Stop>
    ensures { Reaches result
        (lack_in (map (λ b. b.value) (map body_view bodies.now)) (texts (map selector_view labels.now)))
        (values_in (map (λ b. b.value) (map body_view bodies.now)) (texts (map selector_view labels.now))) }
{
    let mut values = bodies_values(alloc, bodies)?;
    for label in labels {
        values = step(alloc, &label.label, &values)?;
    }
    Ok(values)
}
