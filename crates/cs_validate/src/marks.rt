// What rules compare texts and integers with: the values of `const` and `enum`, and the limits of integers and of lengths of texts.
ghost use Rattle.std.specs.Prelude.{◌≡◌, ◌<◌, ◌^◌, [], ◌∷◌, map, option_map, option_to_list, IfSome, OnOk};
ghost use Rattle.cs_document.specs.View.{doc_view};
ghost use Rattle.cs_profile.specs.Constraint.{texts_in};
ghost use Rattle.cs_rules.specs.Alike.{IsToldBy, HasMore};
ghost use Rattle.cs_validate.specs.Steps.{step};
ghost use Rattle.cs_validate.specs.Marked.{integers_in, limits_of, count_in, lengths_of, texts_of, integers_of, listed, AddsMarks, AddsScalars};

use crate::rules::{Conjunction, Rule};
use cs_document::Doc;
use cs_flat::DocSet;
use cs_profile::Keywords;
use cs_rules::Marks;
use std::alloc::AllocError;

/// A scalar equals no list and no map: those are compared with nothing. Null and a truth value need no mark, since only they
/// themselves are like them.
fn mark_value(value: &Doc, marks: &mut Marks) -> Result<(), AllocError>
    ensures { OnOk result (AddsScalars (doc_view value.now ∷ []) marks.old marks.new) }
{
    match value {
        Doc::Text(text) => marks.text(text.as_str()),
        Doc::Int(n) => marks.integer(*n),
        Doc::Null | Doc::Bool(_) | Doc::List(_) | Doc::Object(_) => Ok(()),
    }
}

fn mark_values(values: &[Doc], marks: &mut Marks) -> Result<(), AllocError>
    ensures { OnOk result (AddsScalars (map doc_view values.now) marks.old marks.new) }
{
    for value in values {
        mark_value(value, marks)?;
    }
    Ok(())
}

/// What `const` compares with, if it is there.
fn mark_const(value: &Option<Doc>, marks: &mut Marks) -> Result<(), AllocError>
    ensures { OnOk result (AddsScalars (option_to_list (option_map doc_view value.now))
        marks.old marks.new) }
{
    match value {
        Some(value) => mark_value(value, marks),
        None => Ok(()),
    }
}

/// What `enum` compares with, if it is there.
fn mark_enum(values: &Option<DocSet<'_>>, marks: &mut Marks) -> Result<(), AllocError>
    ensures { OnOk result (AddsScalars (listed values.now) marks.old marks.new) }
{
    match values {
        Some(values) => mark_values(values.values(), marks),
        None => Ok(()),
    }
}

fn mark_limit(limit: Option<i64>, marks: &mut Marks) -> Result<(), AllocError>
    ensures { OnOk result (AddsMarks [] (option_to_list limit) [] marks.old marks.new) }
{
    match limit {
        Some(limit) => marks.integer(limit),
        None => Ok(()),
    }
}

/// What `maximum`, `minimum`, `exclusiveMaximum` and `exclusiveMinimum` compare with, if they are there.
fn mark_limits(keywords: &Keywords, marks: &mut Marks) -> Result<(), AllocError>
    ensures { OnOk result (AddsMarks [] (limits_of keywords.now) [] marks.old marks.new) }
{
    mark_limit(keywords.maximum, marks)?;
    mark_limit(keywords.minimum, marks)?;
    mark_limit(keywords.below, marks)?;
    mark_limit(keywords.above, marks)
}

/// A limit of lengths, if it is there and a count: an integer below zero is none.
fn count(limit: Option<i64>) -> Option<usize>
    ensures count { option_to_list result ≡ count_in limit }
    ensures below { IfSome result (λ n. n < 2 ^ 63) }
{
    match limit {
        Some(limit) => usize::try_from(limit).ok(),
        None => None,
    }
}

fn mark_length(least: Option<usize>, marks: &mut Marks) -> Result<(), AllocError>
    ensures { OnOk result (AddsMarks [] [] (option_to_list least) marks.old marks.new) }
{
    match least {
        Some(least) => marks.length(least),
        None => Ok(()),
    }
}

/// From which lengths on a text is too long by `maxLength`, and long enough by `minLength`, if they are there.
fn mark_lengths(keywords: &Keywords, marks: &mut Marks) -> Result<(), AllocError>
    ensures { OnOk result (AddsMarks [] [] (lengths_of keywords.now) marks.old marks.new) }
{
    mark_length(count(keywords.max_length).map(|most| most + 1), marks)?;
    mark_length(count(keywords.min_length), marks)
}

fn mark_keywords(conjunction: &Conjunction<'_>, marks: &mut Marks) -> Result<(), AllocError>
    ensures { OnOk result (AddsMarks (texts_of conjunction.now) (integers_of conjunction.now)
        (lengths_of conjunction.now.keywords.now) marks.old marks.new) }
{
    mark_const(&conjunction.keywords.equal, marks)?;
    mark_enum(&conjunction.one_of, marks)?;
    mark_limits(conjunction.keywords, marks)?;
    mark_lengths(conjunction.keywords, marks)
}

/// Marks what a rule compares texts, integers and the lengths of texts with.
pub(crate) fn mark(rule: &Rule<'_>, marks: &mut Marks) -> Result<(), AllocError>
    ensures told { OnOk result (IsToldBy (step rule.now) marks.new) }
    ensures more { OnOk result (HasMore marks.old marks.new) }
{
    match rule {
        Rule::Truth(_) => Ok(()),
        Rule::Object(conjunction) => mark_keywords(conjunction, marks),
    }
}
