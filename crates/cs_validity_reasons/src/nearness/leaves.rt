// Alternatives with nested ones in their place.
use crate::book::{Book, conjunction_at};
use crate::nearness::constants::MOST_STEPS;
use cs_validate::Conjunction;
use std::alloc::{AllocError, Global};

/// An alternative that isn't one of others alone, and the alternative that it is nested in, or itself.
#[derive(Clone, Copy, Drop)]
pub(crate) struct Leaf {
    pub(crate) alternative: usize,
    pub(crate) rule: usize,
}

/// Whether a rule asks nothing of maps by itself.
fn leaves_maps_alone(conjunction: &Conjunction<'_>) -> bool {
    let keywords = conjunction.keywords;
    keywords.required.is_empty()
        && keywords.properties.is_empty()
        && keywords.equal.is_none()
        && keywords.one_of.is_none()
        && conjunction.all_of.is_empty()
}

/// Adds what a rule asks for in place of itself, the first behind the others: its alternatives, or the definition that it names,
/// where it has one of these and not both.
fn add_nested(conjunction: &Conjunction<'_>, waiting: &mut Vec<usize>) -> Result<bool, AllocError> {
    let is_one = conjunction.reference.is_some() == conjunction.any_of.is_empty();
    if !is_one || !leaves_maps_alone(conjunction) {
        return Ok(false);
    }
    if let Some(reference) = conjunction.reference {
        waiting.push(reference)?;
    }
    push_reversed(&conjunction.any_of, waiting)?;
    Ok(true)
}

/// Adds rules, the last one first, so that the first one is taken next.
pub(crate) fn push_reversed(rules: &[usize], waiting: &mut Vec<usize>) -> Result<(), AllocError> {
    for rule in rules.iter().rev() {
        waiting.push(*rule)?;
    }
    Ok(())
}

/// Adds a leaf, unless it asks for others in place of itself, which wait.
fn add_leaf(
    book: &Book<'_>,
    leaf: Leaf,
    leaves: &mut Vec<Leaf>,
    waiting: &mut Vec<usize>,
) -> Result<(), AllocError> {
    if let Some(conjunction) = conjunction_at(book, leaf.rule)
        && add_nested(conjunction, waiting)?
    {
        return Ok(());
    }
    leaves.push(leaf)?;
    Ok(())
}

/// Adds the leaves of an alternative. Answers whether they took no more steps than are followed.
fn add_leaves(
    book: &Book<'_>,
    alternative: usize,
    leaves: &mut Vec<Leaf>,
) -> Result<bool, AllocError> {
    let mut waiting = Vec::new(*leaves.allocator());
    waiting.push(alternative)?;
    for _step in 0..MOST_STEPS {
        let Some(rule) = waiting.pop() else {
            break;
        };
        add_leaf(book, Leaf { alternative, rule }, leaves, &mut waiting)?;
    }
    Ok(waiting.is_empty())
}

/// Adds the leaves of an alternative, or itself where it has too many.
fn add_alternative(
    book: &Book<'_>,
    alternative: usize,
    leaves: &mut Vec<Leaf>,
) -> Result<(), AllocError> {
    let count = leaves.len();
    if add_leaves(book, alternative, leaves)? {
        return Ok(());
    }
    leaves.truncate(count);
    leaves.push(Leaf {
        alternative,
        rule: alternative,
    })?;
    Ok(())
}

/// The leaves of alternatives; one that has too many is taken as it is.
pub(crate) fn all_leaves(
    alloc: Global,
    book: &Book<'_>,
    alternatives: &[usize],
) -> Result<Vec<Leaf>, AllocError> {
    let mut leaves = Vec::new(alloc);
    for alternative in alternatives {
        add_alternative(book, *alternative, &mut leaves)?;
    }
    Ok(leaves)
}
