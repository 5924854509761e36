// What a value would have to be, in words of the expressions.
use crate::near::kinds::takes_kind;
use crate::near::same::is_same;
use crate::near::tags::{Tag, tag_of};
use crate::{Want, Wanted};
use cs_flat::{Flat, Item};
use cs_instance::Rule;
use cs_package::Shape;
use cs_rules::{Numbering, Rulebook};
use std::alloc::{AllocError, Global};

/// How many rules are looked at.
const MOST_STEPS: usize = 1024;

/// What a value would have to be by the alternatives of a rule: the tag's literals where a key tells those apart that take
/// the value's kind, and otherwise what each alternative asks of the value itself.
pub(crate) fn wanted_of<'a>(
    alloc: Global,
    book: &'a Rulebook<Rule<'a>>,
    flat: &'a Flat<'a>,
    item: usize,
    rule: usize,
) -> Result<Wanted<'a>, AllocError> {
    let numbering = &book.numbering;
    let rules = of_kind(alloc, book, flat, item, rule)?;
    if item < flat.len()
        && let Item::Object(members) = flat.item(item)
        && let Some(tag) = tag_of(alloc, numbering, &rules, members)?
    {
        return Ok(Wanted {
            key: Some((tag.key, tag.child)),
            alternatives: of_tag(alloc, &tag)?,
        });
    }
    let branches = branches_of(alloc, numbering, rule)?;
    Ok(Wanted {
        key: None,
        alternatives: of_branches(alloc, numbering, &branches)?,
    })
}

/// The alternatives of a rule that may admit a value of the item's kind.
fn of_kind(
    alloc: Global,
    book: &Rulebook<Rule<'_>>,
    flat: &Flat<'_>,
    item: usize,
    rule: usize,
) -> Result<Vec<usize>, AllocError> {
    let mut rules = Vec::new(alloc);
    let Some(Rule::Any(alternatives)) = book.numbering.rules.get(rule) else {
        return Ok(rules);
    };
    for alternative in alternatives {
        if takes_kind(book, flat, item, *alternative) {
            rules.push(*alternative)?;
        }
    }
    Ok(rules)
}

/// The literals of a tag, each once.
fn of_tag<'a>(alloc: Global, tag: &Tag<'a, '_>) -> Result<Vec<Vec<Want<'a>>>, AllocError> {
    let mut wanted = Vec::new(alloc);
    for set in &tag.sets {
        add_literals(alloc, set, &mut wanted)?;
    }
    Ok(wanted)
}

fn add_literals<'a>(
    alloc: Global,
    set: &[&'a Shape],
    wanted: &mut Vec<Vec<Want<'a>>>,
) -> Result<(), AllocError> {
    for shape in set {
        let mut asked = Vec::with_capacity(alloc, 1)?;
        asked.push(Want::Expression(*shape))?;
        add_new(asked, wanted)?;
    }
    Ok(())
}

/// Adds what is asked together, unless it is there already.
fn add_new<'a>(asked: Vec<Want<'a>>, wanted: &mut Vec<Vec<Want<'a>>>) -> Result<(), AllocError> {
    for other in wanted.iter() {
        if are_same(other, &asked) {
            return Ok(());
        }
    }
    wanted.push(asked)?;
    Ok(())
}

fn are_same(first: &[Want<'_>], second: &[Want<'_>]) -> bool {
    if first.len() != second.len() {
        return false;
    }
    for (want, other) in first.iter().zip(second) {
        if !is_same_want(want, other) {
            return false;
        }
    }
    true
}

fn is_same_want(first: &Want<'_>, second: &Want<'_>) -> bool {
    match first {
        Want::Expression(shape) => {
            matches!(second, Want::Expression(other) if is_same(shape, other))
        }
        Want::Struct => matches!(second, Want::Struct),
        Want::List => matches!(second, Want::List),
    }
}

/// The rules that alternatives lead to, through references and other disjunctions, in order.
fn branches_of(
    alloc: Global,
    numbering: &Numbering<Rule<'_>>,
    rule: usize,
) -> Result<Vec<usize>, AllocError> {
    let mut branches = Vec::new(alloc);
    let mut waiting = Vec::new(alloc);
    waiting.push(rule)?;
    for _ in 0..MOST_STEPS {
        let Some(rule) = waiting.pop() else {
            return Ok(branches);
        };
        match numbering.rules.get(rule) {
            Some(Rule::Any(parts)) => push_reversed(parts, &mut waiting)?,
            Some(Rule::All(parts)) if parts.len() == 1 => push_reversed(parts, &mut waiting)?,
            Some(Rule::All(_) | Rule::Simple(_) | Rule::Struct { .. } | Rule::List { .. }) => {
                branches.push(rule)?
            }
            None => {}
        }
    }
    Ok(branches)
}

/// The last one first, so that the first one is taken next.
fn push_reversed(parts: &[usize], waiting: &mut Vec<usize>) -> Result<(), AllocError> {
    for part in parts.iter().rev() {
        waiting.push(*part)?;
    }
    Ok(())
}

/// What each of these rules asks of the value itself, each once.
fn of_branches<'a>(
    alloc: Global,
    numbering: &'a Numbering<Rule<'a>>,
    branches: &[usize],
) -> Result<Vec<Vec<Want<'a>>>, AllocError> {
    let mut wanted = Vec::new(alloc);
    for rule in branches {
        let asked = asked_together(alloc, numbering, *rule)?;
        if !asked.is_empty() {
            add_new(asked, &mut wanted)?;
        }
    }
    Ok(wanted)
}

/// What a rule asks of the value itself, all of it together.
fn asked_together<'a>(
    alloc: Global,
    numbering: &'a Numbering<Rule<'a>>,
    rule: usize,
) -> Result<Vec<Want<'a>>, AllocError> {
    let mut asked = Vec::new(alloc);
    let mut waiting = Vec::new(alloc);
    waiting.push(rule)?;
    for _ in 0..MOST_STEPS {
        let Some(rule) = waiting.pop() else {
            return Ok(asked);
        };
        match numbering.rules.get(rule) {
            Some(Rule::All(parts)) => push_reversed(parts, &mut waiting)?,
            Some(Rule::Simple(shape)) => asked.push(Want::Expression(*shape))?,
            Some(Rule::Struct { .. }) => asked.push(Want::Struct)?,
            Some(Rule::List { .. }) => asked.push(Want::List)?,
            Some(Rule::Any(_)) | None => {}
        }
    }
    Ok(asked)
}
