// Rules that ask for constants alone.
use crate::book::{Book, conjunction_at};
use cs_document::Doc;
use cs_profile::Keywords;
use cs_validate::Conjunction;
use std::alloc::{AllocError, Global};

/// How many steps are followed from a rule, and how many constants are taken: a rule that has more counts as one without.
pub(crate) const MOST_STEPS: usize = 64;

fn is_scalar(value: &Doc) -> bool {
    match value {
        Doc::Null | Doc::Bool(_) | Doc::Int(_) | Doc::Text(_) => true,
        Doc::List(_) | Doc::Object(_) => false,
    }
}

/// Adds the values, unless one of them isn't a scalar or there are too many.
fn add_scalars<'a>(values: &'a [Doc], found: &mut Vec<&'a Doc>) -> Result<bool, AllocError> {
    if values.len() > MOST_STEPS {
        return Ok(false);
    }
    for value in values {
        if !is_scalar(value) {
            return Ok(false);
        }
        found.push(value)?;
    }
    Ok(true)
}

/// Adds the values of `const` or `enum`. Answers whether there are such, scalars alone.
fn add_constants<'a>(keywords: &'a Keywords, found: &mut Vec<&'a Doc>) -> Result<bool, AllocError> {
    match (&keywords.equal, &keywords.one_of) {
        (Some(value), _) => {
            found.push(value)?;
            Ok(is_scalar(value))
        }
        (None, Some(values)) => add_scalars(values, found),
        (None, None) => Ok(false),
    }
}

/// Whether a rule asks for constants, or leads to such that may.
fn may_be_constant(book: &Book<'_>, rule: usize) -> bool {
    match conjunction_at(book, rule) {
        Some(conjunction) => {
            let keywords = conjunction.keywords;
            keywords.equal.is_some()
                || keywords.one_of.is_some()
                || conjunction.reference.is_some()
                || !conjunction.any_of.is_empty()
        }
        None => false,
    }
}

/// The rules that have to ask for constants where one does that asks no constant itself: all alternatives, the definition that
/// it names, or one part.
fn add_parts(
    book: &Book<'_>,
    conjunction: &Conjunction<'_>,
    waiting: &mut Vec<usize>,
) -> Result<bool, AllocError> {
    if !conjunction.any_of.is_empty() {
        waiting.extend_from_slice(&conjunction.any_of)?;
        return Ok(true);
    }
    if let Some(reference) = conjunction.reference {
        waiting.push(reference)?;
        return Ok(true);
    }
    for part in &conjunction.all_of {
        if may_be_constant(book, *part) {
            waiting.push(*part)?;
            return Ok(true);
        }
    }
    Ok(false)
}

/// Adds the constants that a rule asks for, or else the rules that have to ask for some. Answers whether there are such.
fn add_step<'a>(
    book: &'a Book<'_>,
    rule: usize,
    found: &mut Vec<&'a Doc>,
    waiting: &mut Vec<usize>,
) -> Result<bool, AllocError> {
    let Some(conjunction) = conjunction_at(book, rule) else {
        return Ok(false);
    };
    let keywords = conjunction.keywords;
    if keywords.equal.is_some() || keywords.one_of.is_some() {
        add_constants(keywords, found)
    } else {
        add_parts(book, conjunction, waiting)
    }
}

/// The constants of which a value has to be one by a rule, all of them scalars; none where it asks for more, or in more steps
/// than are followed.
pub(crate) fn constants_of<'a>(
    alloc: Global,
    book: &'a Book<'_>,
    rule: usize,
) -> Result<Option<Vec<&'a Doc>>, AllocError> {
    let mut found = Vec::new(alloc);
    let mut waiting = Vec::new(alloc);
    waiting.push(rule)?;
    for _step in 0..MOST_STEPS {
        let Some(next) = waiting.pop() else {
            return Ok(Some(found));
        };
        if !add_step(book, next, &mut found, &mut waiting)? {
            return Ok(None);
        }
    }
    Ok(None)
}

/// Whether a rule asks for constants alone, as `constants_of` finds them.
pub(crate) fn is_constant(alloc: Global, book: &Book<'_>, rule: usize) -> Result<bool, AllocError> {
    let constants = constants_of(alloc, book, rule)?;
    Ok(constants.is_some())
}

/// Whether each of these values is one of those.
fn are_among(values: &[&Doc], others: &[&Doc]) -> bool {
    values
        .iter()
        .all(|value| others.iter().any(|other| **other == **value))
}

/// Whether these are the same constants, in any order.
pub(crate) fn are_same(values: &[&Doc], others: &[&Doc]) -> bool {
    are_among(values, others) && are_among(others, values)
}
