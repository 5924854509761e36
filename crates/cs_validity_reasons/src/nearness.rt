// Which alternatives are close to what a value was meant to be: those that take its kind, and of these, for a map, those whose
// tag it has, and those that ask what it has under names that they declare more than once. What is chosen is no claim.
ghost use Rattle.std.specs.Prelude.{ℕ, Contains, OnOk};
ghost use Rattle.cs_validity_reasons.specs.declared.cause.KeyedCause.{KeyedCause};

pub(crate) mod constants;
pub(crate) mod leaves;
pub(crate) mod repeated;
pub(crate) mod tags;

use crate::book::Book;
use crate::cause::PlacedCause;
use crate::graph::ValidGraph;
use crate::nearness::constants::is_constant;
use crate::nearness::leaves::{Leaf, all_leaves};
use crate::nearness::repeated::keep_met;
use crate::nearness::tags::{Tag, find_tag};
use cs_flat::Flat;
use cs_reasons::Cause;
use cs_table::Row;
use std::alloc::{AllocError, Global};

/// Whether a kind that has these verdicts leaves it open that a rule holds, or decides that it does.
fn is_taken(row: &Row<'_>, rule: usize) -> bool {
    let is_there = row.item < row.table.items() && rule < row.table.rules();
    is_there && row.table.get(row.item, rule) || row.left.binary_search(&rule).is_ok()
}

/// Whether a rule takes the kind of a value.
fn takes_kind(book: &Book<'_>, flat: &Flat<'_>, item: usize, rule: usize) -> bool {
    if item >= flat.len() {
        return false;
    }
    match book.decided(flat, item) {
        None => true,
        Some(row) => is_taken(&row, rule),
    }
}

/// The rules that take the kind of a value, of these.
pub(crate) fn of_kind(
    alloc: Global,
    book: &Book<'_>,
    flat: &Flat<'_>,
    item: usize,
    rules: &[usize],
) -> Result<Vec<usize>, AllocError> {
    let mut taking = Vec::with_capacity(alloc, rules.len())?;
    for rule in rules {
        if takes_kind(book, flat, item, *rule) {
            taking.push(*rule)?;
        }
    }
    Ok(taking)
}

/// Whether all of these rules ask for constants alone.
fn are_constants(alloc: Global, book: &Book<'_>, rules: &[usize]) -> Result<bool, AllocError> {
    for rule in rules {
        if !is_constant(alloc, book, *rule)? {
            return Ok(false);
        }
    }
    Ok(true)
}

/// Whether the value under the tag's key is valid by what an alternative asks of it.
fn has_tag(graph: &ValidGraph<'_, '_>, child: usize, rules: &[usize]) -> bool {
    for rule in rules {
        let is_there = child < graph.table.items() && *rule < graph.table.rules();
        if is_there && !graph.table.get(child, *rule) {
            return false;
        }
    }
    true
}

/// The alternatives whose tag the value has.
fn of_tag(
    alloc: Global,
    graph: &ValidGraph<'_, '_>,
    leaves: &[Leaf],
    tag: &Tag<'_>,
) -> Result<Vec<usize>, AllocError> {
    let mut near = Vec::new(alloc);
    for (leaf, asked) in leaves.iter().zip(&tag.asked) {
        if has_tag(graph, tag.child, &asked.rules) {
            near.push(leaf.alternative)?;
        }
    }
    Ok(near)
}

/// Of the alternatives that take the kind of a value those whose tag it has; all where they have no tag.
fn tagged_rules(
    alloc: Global,
    graph: &ValidGraph<'_, '_>,
    item: usize,
    taking: Vec<usize>,
) -> Result<Vec<usize>, AllocError> {
    let leaves = all_leaves(alloc, graph.book, &taking)?;
    match find_tag(alloc, graph.book, graph.flat, item, &leaves)? {
        Some(tag) => of_tag(alloc, graph, &leaves, &tag),
        None => Ok(taking),
    }
}

/// Of these alternatives those that may have been meant.
fn near_rules(
    alloc: Global,
    graph: &ValidGraph<'_, '_>,
    item: usize,
    rules: &[usize],
) -> Result<Vec<usize>, AllocError> {
    let taking = of_kind(alloc, graph.book, graph.flat, item, rules)?;
    if are_constants(alloc, graph.book, &taking)? {
        return Ok(Vec::new(alloc));
    }
    let mut left = tagged_rules(alloc, graph, item, taking)?;
    keep_met(alloc, graph, item, &mut left)?;
    Ok(left)
}

/// The rules that causes lead to.
fn rules_of(alloc: Global, causes: &[PlacedCause]) -> Result<Vec<usize>, AllocError> {
    let mut rules = Vec::with_capacity(alloc, causes.len())?;
    for cause in causes {
        if let Some((_item, rule)) = cause.leads_to() {
            rules.push(rule)?;
        }
    }
    Ok(rules)
}

/// Whether a cause leads to one of these rules, which ascend.
fn leads_to_one(cause: &PlacedCause, rules: &[usize]) -> bool {
    match cause.leads_to() {
        Some((_item, rule)) => rules.binary_search(&rule).is_ok(),
        None => false,
    }
}

/// Leaves of the alternatives of a value those that may have been meant.
pub(crate) fn keep_near(
    graph: &ValidGraph<'_, '_>,
    item: usize,
    alternatives: &mut Vec<PlacedCause>,
) -> Result<(), AllocError>
    ensures { OnOk result ((c : KeyedCause ℕ) → Contains alternatives.new.items c
        → Contains alternatives.old.items c) }
{
    let alloc = *alternatives.allocator();
    let rules = rules_of(alloc, alternatives)?;
    let mut near = near_rules(alloc, graph, item, &rules)?;
    near.sort_unstable();
    alternatives.retain(|cause| leads_to_one(cause, &near));
    Ok(())
}
