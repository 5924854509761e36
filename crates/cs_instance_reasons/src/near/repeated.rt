// Keys that alternatives declare more than once, as those do that an `if` stands for: what each asks there tells them apart.
use crate::graph::InstanceGraph;
use crate::near::literals::is_asked_for;
use cs_instance::{Ending, Field, Fields, Rule, is_for_every_key};
use cs_rules::Numbering;
use std::alloc::{AllocError, Global};
use std::collections::BTreeSet;

/// How many declarations are looked through for keys, and how many of these are looked at.
const MOST_DECLARATIONS: usize = 1024;

const MOST_KEYS: usize = 16;

/// How many rules are looked at to see whether one looks at no part of a value.
const MOST_STEPS: usize = 64;

/// The declarations of a rule that is a struct literal.
fn fields_of<'a, 'b>(numbering: &'b Numbering<Rule<'a>>, rule: usize) -> Option<&'b Fields<'a>> {
    match numbering.rules.get(rule) {
        Some(Rule::Struct { fields, .. }) => Some(fields),
        Some(Rule::Simple(_) | Rule::All(_) | Rule::Any(_) | Rule::List { .. }) | None => None,
    }
}

/// The first labels that are declared more than once, each once.
fn repeated_labels<'a>(alloc: Global, fields: &Fields<'a>) -> Result<Vec<&'a str>, AllocError> {
    let mut seen = BTreeSet::new(alloc);
    let mut repeated = BTreeSet::new(alloc);
    let mut labels = Vec::new(alloc);
    for field in fields.all.iter().take(MOST_DECLARATIONS) {
        let is_new = is_for_every_key(field.mark) || seen.insert(field.label)?;
        if !is_new && labels.len() < MOST_KEYS && repeated.insert(field.label)? {
            labels.push(field.label)?;
        }
    }
    Ok(labels)
}

/// The number of the value under a key of a map, whose keys are in byte order.
fn under(members: &[(&str, usize)], key: &str) -> Option<usize> {
    let place = members.binary_search_by_key(&key, |member| member.0).ok()?;
    Some(members.get(place)?.1)
}

/// Whether a rule looks at no part of a value, nor do those that it consists of.
fn is_plain(
    alloc: Global,
    numbering: &Numbering<Rule<'_>>,
    rule: usize,
) -> Result<bool, AllocError> {
    let mut waiting = Vec::new(alloc);
    waiting.push(rule)?;
    for _ in 0..MOST_STEPS {
        let Some(rule) = waiting.pop() else {
            return Ok(true);
        };
        match numbering.rules.get(rule) {
            Some(Rule::All(parts) | Rule::Any(parts)) => waiting.extend_from_slice(parts)?,
            Some(Rule::Simple(_)) => {}
            Some(Rule::Struct { fields, opened }) if *opened && fields.all.is_empty() => {}
            Some(
                Rule::List {
                    front,
                    end: Ending::Any,
                },
            ) if front.is_empty() => {}
            Some(Rule::Struct { .. } | Rule::List { .. }) | None => return Ok(false),
        }
    }
    Ok(false)
}

/// Whether a rule is known to refuse a value.
fn is_refused(graph: &InstanceGraph<'_>, item: usize, rule: usize) -> bool {
    let is_known = item < graph.table.items() && rule < graph.table.rules();
    is_known && !graph.table.get(item, rule)
}

/// Whether a declaration takes what is under its key, if it looks at no part of it; or takes it that the key is missing.
fn is_met(
    graph: &InstanceGraph<'_>,
    child: Option<usize>,
    field: &Field<'_>,
) -> Result<bool, AllocError> {
    let Some(child) = child else {
        return Ok(!is_asked_for(field.mark));
    };
    let numbering = &graph.book.numbering;
    let Some(rule) = numbering.children.get(field.value) else {
        return Ok(true);
    };
    if !is_refused(graph, child, *rule) {
        return Ok(true);
    }
    Ok(!is_plain(graph.alloc, numbering, *rule)?)
}

/// Whether all declarations of a key by a rule are met; none where it declares no such key.
fn are_met(
    graph: &InstanceGraph<'_>,
    child: Option<usize>,
    rule: usize,
    key: &str,
) -> Result<Option<bool>, AllocError> {
    let Some(fields) = fields_of(&graph.book.numbering, rule) else {
        return Ok(None);
    };
    let mut are_met = None;
    for field in &fields.all {
        if field.label == key && !is_for_every_key(field.mark) {
            let is_met = is_met(graph, child, field)?;
            are_met = Some(is_met && are_met.unwrap_or(true));
        }
    }
    Ok(are_met)
}

/// Those of the rules whose declarations of a key are met; none where one of them doesn't declare it.
fn meeting(
    graph: &InstanceGraph<'_>,
    child: Option<usize>,
    rules: &[usize],
    key: &str,
) -> Result<Vec<usize>, AllocError> {
    let mut meeting = Vec::new(graph.alloc);
    for rule in rules {
        match are_met(graph, child, *rule, key)? {
            None => return Ok(Vec::new(graph.alloc)),
            Some(true) => meeting.push(*rule)?,
            Some(false) => {}
        }
    }
    Ok(meeting)
}

/// Whether the first declaration of a key by a rule refuses what is there.
fn first_refuses(graph: &InstanceGraph<'_>, child: usize, rule: usize, key: &str) -> bool {
    let numbering = &graph.book.numbering;
    let Some(fields) = fields_of(numbering, rule) else {
        return false;
    };
    let Some(field) = fields.all.iter().find(|field| field.label == key) else {
        return false;
    };
    match numbering.children.get(field.value) {
        None => false,
        Some(rule) => is_refused(graph, child, *rule),
    }
}

/// Whether the first of the rules declares a key more than once, and the first declaration of each refuses what is there: then the value is
/// wrong whichever of them was meant.
pub(super) fn is_wrong_for_all(
    graph: &InstanceGraph<'_>,
    rules: &[usize],
    key: &str,
    child: usize,
) -> bool {
    let first = rules.first().copied().unwrap_or(usize::MAX);
    let Some(fields) = fields_of(&graph.book.numbering, first) else {
        return false;
    };
    let declarations = fields.all.iter().filter(|field| field.label == key);
    declarations.count() > 1
        && rules
            .iter()
            .all(|rule| first_refuses(graph, child, *rule, key))
}

/// Of the rules of alternatives those that ask under each key that the first of them declares more than once what a map has there, as far as
/// this leaves some.
pub(super) fn met_rules(
    graph: &InstanceGraph<'_>,
    members: &[(&str, usize)],
    rules: Vec<usize>,
) -> Result<Vec<usize>, AllocError> {
    let mut left = rules;
    let first = left.first().copied().unwrap_or(usize::MAX);
    let Some(fields) = fields_of(&graph.book.numbering, first) else {
        return Ok(left);
    };
    for key in repeated_labels(graph.alloc, fields)? {
        let meeting = meeting(graph, under(members, key), &left, key)?;
        if !meeting.is_empty() {
            left = meeting;
        }
    }
    Ok(left)
}
