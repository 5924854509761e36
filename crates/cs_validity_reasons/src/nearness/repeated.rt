// Names that alternatives declare more than once, as those do that an `if` stands for: what each asks there tells them apart.
use crate::book::{Book, conjunction_at};
use crate::graph::ValidGraph;
use crate::nearness::constants::MOST_STEPS;
use crate::nearness::tags::{first_name, has_name, rule_under};
use cs_flat::Item;
use cs_profile::Keywords;
use cs_validate::{Conjunction, Rule};
use std::alloc::{AllocError, Global};

/// How many properties are looked through for names, and how many of these are looked at.
const MOST_PROPERTIES: usize = 1024;

const MOST_NAMES: usize = 16;

/// Whether the rule of a property has several parts, as that of a name has which is declared more than once.
fn is_repeated(book: &Book<'_>, property: usize) -> bool {
    match conjunction_at(book, property) {
        None => false,
        Some(declared) => !declared.all_of.is_empty(),
    }
}

/// The first names that a rule declares more than once.
fn repeated_names<'a>(
    alloc: Global,
    book: &Book<'_>,
    conjunction: &Conjunction<'a>,
) -> Result<Vec<&'a str>, AllocError> {
    let mut place = first_name(conjunction).unwrap_or(usize::MAX);
    let mut names = Vec::new(alloc);
    for name in conjunction.keywords.properties.keys().take(MOST_PROPERTIES) {
        if let Some(property) = book.numbering.children.get(place)
            && names.len() < MOST_NAMES
            && is_repeated(book, *property)
        {
            names.push(name.as_str())?;
        }
        place = place.saturating_add(1);
    }
    Ok(names)
}

/// Whether keywords ask something of values inside.
fn look_inside(keywords: &Keywords) -> bool {
    let of_names = !keywords.required.is_empty() || !keywords.properties.is_empty();
    let of_others = keywords.additional.is_some() || keywords.rest.is_some();
    of_names || of_others || !keywords.prefix.is_empty()
}

/// Adds the rules of which a conjunction consists.
fn add_parts(conjunction: &Conjunction<'_>, waiting: &mut Vec<usize>) -> Result<(), AllocError> {
    waiting.extend_from_slice(&conjunction.all_of)?;
    waiting.extend_from_slice(&conjunction.any_of)?;
    if let Some(negated) = conjunction.negated {
        waiting.push(negated)?;
    }
    if let Some(reference) = conjunction.reference {
        waiting.push(reference)?;
    }
    Ok(())
}

/// Whether a rule looks at no part of a value, nor do those that it consists of.
fn is_plain(alloc: Global, book: &Book<'_>, rule: usize) -> Result<bool, AllocError> {
    let mut waiting = Vec::new(alloc);
    waiting.push(rule)?;
    for _step in 0..MOST_STEPS {
        let Some(rule) = waiting.pop() else {
            return Ok(true);
        };
        match book.numbering.rules.get(rule) {
            Some(Rule::Object(conjunction)) if !look_inside(conjunction.keywords) => {
                add_parts(conjunction, &mut waiting)?
            }
            Some(Rule::Truth(_)) => {}
            Some(Rule::Object(_)) | None => return Ok(false),
        }
    }
    Ok(false)
}

/// Whether a value is valid by all of these rules that look at no part of it.
fn is_met(
    alloc: Global,
    graph: &ValidGraph<'_, '_>,
    item: usize,
    rules: &[usize],
) -> Result<bool, AllocError> {
    for rule in rules {
        let is_known = item < graph.table.items() && *rule < graph.table.rules();
        if is_known && !graph.table.get(item, *rule) && is_plain(alloc, graph.book, *rule)? {
            return Ok(false);
        }
    }
    Ok(true)
}

/// Whether a value is valid by what is declared for it, which one rule says or several parts of it, as far as these look at no part of it.
fn is_admitted(
    alloc: Global,
    graph: &ValidGraph<'_, '_>,
    item: usize,
    declared: usize,
) -> Result<bool, AllocError> {
    match conjunction_at(graph.book, declared) {
        Some(conjunction) if !conjunction.all_of.is_empty() => {
            is_met(alloc, graph, item, &conjunction.all_of)
        }
        Some(_) | None => is_met(alloc, graph, item, &[declared]),
    }
}

/// Whether what a rule declares under a name is met by what is there, or by that it is missing; none where it declares no such name.
fn are_met(
    alloc: Global,
    graph: &ValidGraph<'_, '_>,
    child: Option<usize>,
    rule: usize,
    name: &str,
) -> Result<Option<bool>, AllocError> {
    let Some(conjunction) = conjunction_at(graph.book, rule) else {
        return Ok(None);
    };
    let Some(declared) = rule_under(graph.book, conjunction, name) else {
        return Ok(None);
    };
    let is_met = match child {
        Some(child) => is_admitted(alloc, graph, child, declared)?,
        None => !has_name(&conjunction.keywords.required, name),
    };
    Ok(Some(is_met))
}

/// Those of the rules whose declarations of a name are met; none where one of them doesn't declare it.
fn meeting(
    alloc: Global,
    graph: &ValidGraph<'_, '_>,
    child: Option<usize>,
    rules: &[usize],
    name: &str,
) -> Result<Vec<usize>, AllocError> {
    let mut meeting = Vec::new(alloc);
    for rule in rules {
        match are_met(alloc, graph, child, *rule, name)? {
            None => return Ok(Vec::new(alloc)),
            Some(true) => meeting.push(*rule)?,
            Some(false) => {}
        }
    }
    Ok(meeting)
}

/// The number of the value under a key of a map, whose keys are in byte order.
fn under(members: &[(&str, usize)], key: &str) -> Option<usize> {
    let place = members.binary_search_by_key(&key, |member| member.0).ok()?;
    Some(members.get(place)?.1)
}

/// Leaves of these rules those whose declarations of a name are met, as far as this leaves some.
fn keep_meeting(
    alloc: Global,
    graph: &ValidGraph<'_, '_>,
    members: &[(&str, usize)],
    name: &str,
    left: &mut Vec<usize>,
) -> Result<(), AllocError> {
    let meeting = meeting(alloc, graph, under(members, name), left, name)?;
    if !meeting.is_empty() {
        *left = meeting;
    }
    Ok(())
}

/// Leaves of the rules of alternatives those that ask under each name that the first of them declares more than once what a map has there, as
/// far as this leaves some.
pub(crate) fn keep_met(
    alloc: Global,
    graph: &ValidGraph<'_, '_>,
    item: usize,
    left: &mut Vec<usize>,
) -> Result<(), AllocError> {
    let first = left.first().copied().unwrap_or(usize::MAX);
    let Some(conjunction) = conjunction_at(graph.book, first) else {
        return Ok(());
    };
    if item >= graph.flat.len() {
        return Ok(());
    }
    let Item::Object(members) = graph.flat.item(item) else {
        return Ok(());
    };
    let names = repeated_names(alloc, graph.book, conjunction)?;
    for name in &names {
        keep_meeting(alloc, graph, members, name, left)?;
    }
    Ok(())
}
