// Those of the alternatives that a value may have been meant to be.
ghost use Rattle.std.specs.Prelude.{Contains, IfOk};

use crate::InstanceCause;
use crate::graph::InstanceGraph;
use crate::near::kinds::takes_kind;
use crate::near::repeated::{is_wrong_for_all, met_rules};
use crate::near::tags::{Tag, is_one, literals_of_each, tag_of};
use cs_flat::Item;
use cs_package::Shape;
use std::alloc::{AllocError, Global};

/// The alternatives that are close to an item: those that take its kind, and where keys tell them apart those that ask for
/// the values under these. None where all that take its kind are literals.
pub(crate) fn near(
    graph: &InstanceGraph<'_>,
    item: usize,
    alternatives: &[InstanceCause],
) -> Result<Vec<InstanceCause>, AllocError>
    ensures { IfOk result (λ v. (c : InstanceCause) → Contains v.items c
        → Contains alternatives.now c) }
{
    let alloc = graph.alloc;
    let left = of_kind(graph, item, alternatives)?;
    let rules = rules_of(alloc, &left)?;
    let numbering = &graph.book.numbering;
    if literals_of_each(alloc, numbering, &rules, None)?.is_some() {
        return Ok(Vec::new(alloc));
    }
    if item >= graph.flat.len() {
        return Ok(left);
    }
    match graph.flat.item(item) {
        Item::Object(members) => {
            let chosen = by_tag(graph, left, &rules, members)?;
            met(graph, &chosen, members)
        }
        Item::Null | Item::Bool(_) | Item::Int(_) | Item::Text(_) | Item::List(_) => Ok(left),
    }
}

/// Those that may admit a value of the item's kind.
fn of_kind(
    graph: &InstanceGraph<'_>,
    item: usize,
    alternatives: &[InstanceCause],
) -> Result<Vec<InstanceCause>, AllocError>
    ensures { IfOk result (λ v. (c : InstanceCause) → Contains v.items c
        → Contains alternatives.now c) }
{
    let mut left = Vec::new(graph.alloc);
    for cause in alternatives {
        if let InstanceCause::Alternative { rule, .. } = cause
            && takes_kind(graph.book, graph.flat, item, *rule)
        {
            left.push(*cause)?;
        }
    }
    Ok(left)
}

/// The rules that the alternatives lead to.
fn rules_of(alloc: Global, alternatives: &[InstanceCause]) -> Result<Vec<usize>, AllocError> {
    let mut rules = Vec::with_capacity(alloc, alternatives.len())?;
    for cause in alternatives {
        if let InstanceCause::Alternative { rule, .. } = cause {
            rules.push(*rule)?;
        }
    }
    Ok(rules)
}

/// Those whose tag a map has, where a key tells them apart; all where none does, or its value is wrong for all.
fn by_tag(
    graph: &InstanceGraph<'_>,
    alternatives: Vec<InstanceCause>,
    rules: &[usize],
    members: &[(&str, usize)],
) -> Result<Vec<InstanceCause>, AllocError>
    ensures { IfOk result (λ v. (c : InstanceCause) → Contains v.items c
        → Contains alternatives.items c) }
{
    let Some(tag) = tag_of(graph.alloc, &graph.book.numbering, rules, members)? else {
        return Ok(alternatives);
    };
    if is_wrong_for_all(graph, rules, tag.key, tag.child) {
        return Ok(alternatives);
    }
    tagged(graph, &alternatives, &tag)
}

/// Those that ask for the value under the tag's key.
fn tagged(
    graph: &InstanceGraph<'_>,
    alternatives: &[InstanceCause],
    tag: &Tag<'_, '_>,
) -> Result<Vec<InstanceCause>, AllocError>
    ensures { IfOk result (λ v. (c : InstanceCause) → Contains v.items c
        → Contains alternatives.now c) }
{
    let mut left = Vec::new(graph.alloc);
    if tag.child >= graph.flat.len() {
        return Ok(left);
    }
    let value = graph.flat.item(tag.child);
    for (place, cause) in alternatives.iter().enumerate() {
        if asks_for(&tag.sets, place, &value) {
            left.push(*cause)?;
        }
    }
    Ok(left)
}

/// Whether the literals at a place have the value.
fn asks_for(sets: &[Vec<&Shape>], place: usize, value: &Item<'_>) -> bool {
    match sets.get(place) {
        None => false,
        Some(set) => is_one(set, value),
    }
}

/// Those that ask under keys that each declares more than once what is there, as far as this leaves some.
fn met(
    graph: &InstanceGraph<'_>,
    alternatives: &[InstanceCause],
    members: &[(&str, usize)],
) -> Result<Vec<InstanceCause>, AllocError>
    ensures { IfOk result (λ v. (c : InstanceCause) → Contains v.items c
        → Contains alternatives.now c) }
{
    let rules = rules_of(graph.alloc, alternatives)?;
    let mut kept = met_rules(graph, members, rules)?;
    kept.sort_unstable();
    let mut left = Vec::new(graph.alloc);
    for cause in alternatives {
        if let InstanceCause::Alternative { rule, .. } = cause
            && is_kept(&kept, *rule)
        {
            left.push(*cause)?;
        }
    }
    Ok(left)
}

/// Whether a rule is one of these, which ascend.
fn is_kept(kept: &[usize], rule: usize) -> bool {
    kept.binary_search(&rule).is_ok()
}
