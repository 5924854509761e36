// Keys whose values tell alternatives apart.
use crate::near::literals::literals_of;
use crate::near::same::are_same;
use cs_flat::Item;
use cs_instance::{Rule, holds_simply};
use cs_package::Shape;
use cs_rules::Numbering;
use std::alloc::{AllocError, Global};

/// The literals of which each alternative asks one, of the value itself or with a key of the value under it; `None` where
/// one of them asks for none.
pub(super) fn literals_of_each<'a>(
    alloc: Global,
    numbering: &'a Numbering<Rule<'a>>,
    rules: &[usize],
    key: Option<&str>,
) -> Result<Option<Vec<Vec<&'a Shape>>>, AllocError> {
    let mut sets = Vec::with_capacity(alloc, rules.len())?;
    for rule in rules {
        match literals_of(alloc, numbering, *rule, key)? {
            None => return Ok(None),
            Some(set) => sets.push(set)?,
        }
    }
    Ok(Some(sets))
}

/// Whether the sets aren't all the same.
fn do_differ(sets: &[Vec<&Shape>]) -> bool {
    let Some((first, others)) = sets.split_first() else {
        return false;
    };
    for set in others {
        if !are_same(first, set) {
            return true;
        }
    }
    false
}

/// A key whose value tells alternatives apart.
#[derive(Drop)]
pub(super) struct Tag<'a, 'b> {
    pub(super) key: &'b str,
    /// The number of the value under it.
    pub(super) child: usize,
    /// For each alternative the literals of which it asks one.
    pub(super) sets: Vec<Vec<&'a Shape>>,
}

/// The first key of a map for which each alternative asks for literals alone, but not all for the same ones.
pub(super) fn tag_of<'a, 'b>(
    alloc: Global,
    numbering: &'a Numbering<Rule<'a>>,
    rules: &[usize],
    members: &'b [(&'b str, usize)],
) -> Result<Option<Tag<'a, 'b>>, AllocError> {
    for (key, child) in members {
        let sets = literals_of_each(alloc, numbering, rules, Some(key))?;
        if let Some(sets) = sets
            && do_differ(&sets)
        {
            return Ok(Some(Tag {
                key,
                child: *child,
                sets,
            }));
        }
    }
    Ok(None)
}

/// Whether a value is one of these literals.
pub(super) fn is_one(set: &[&Shape], value: &Item<'_>) -> bool {
    for shape in set {
        if holds_simply(shape, value) {
            return true;
        }
    }
    false
}
