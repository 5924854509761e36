// Keys whose values tell alternatives apart.
use crate::book::{Book, conjunction_at};
use crate::nearness::constants::{MOST_STEPS, are_same, constants_of, is_constant};
use crate::nearness::leaves::{Leaf, push_reversed};
use cs_document::Doc;
use cs_flat::{Flat, Item};
use cs_validate::Conjunction;
use std::alloc::{AllocError, Global};

/// How many keys are tried as a tag.
const MOST_TAGS: usize = 8;

/// What an alternative asks of the value under a tag's key.
#[derive(Drop)]
pub(crate) struct Asked<'a> {
    /// The rules that ask for constants.
    pub(crate) rules: Vec<usize>,
    /// The constants of the first of them.
    pub(crate) values: Vec<&'a Doc>,
}

/// A key that all alternatives require, each with constants, and not all with the same.
#[derive(Drop)]
pub(crate) struct Tag<'a> {
    pub(crate) key: &'a str,
    /// The number of the value under it.
    pub(crate) child: usize,
    /// What each alternative asks, in their order.
    pub(crate) asked: Vec<Asked<'a>>,
}

/// Adds a rule to the conjuncts, and to those that wait what is asked together with it: its parts, and behind them, to be taken
/// first, what it refers to.
fn add_conjunct(
    book: &Book<'_>,
    rule: usize,
    conjuncts: &mut Vec<usize>,
    waiting: &mut Vec<usize>,
) -> Result<(), AllocError> {
    let Some(conjunction) = conjunction_at(book, rule) else {
        return Ok(());
    };
    push_reversed(&conjunction.all_of, waiting)?;
    if let Some(reference) = conjunction.reference {
        waiting.push(reference)?;
    }
    conjuncts.push(rule)?;
    Ok(())
}

/// A rule with those that it refers to and its parts: all that is asked together.
pub(crate) fn conjuncts_of(
    alloc: Global,
    book: &Book<'_>,
    rule: usize,
) -> Result<Vec<usize>, AllocError> {
    let mut conjuncts = Vec::new(alloc);
    let mut waiting = Vec::new(alloc);
    waiting.push(rule)?;
    for _step in 0..MOST_STEPS {
        let Some(next) = waiting.pop() else {
            break;
        };
        add_conjunct(book, next, &mut conjuncts, &mut waiting)?;
    }
    Ok(conjuncts)
}

/// The place of the schema of the first declared name.
pub(crate) fn first_name(conjunction: &Conjunction<'_>) -> Option<usize> {
    let keywords = conjunction.keywords;
    let additional = usize::from(keywords.additional.is_some());
    let rest = usize::from(keywords.rest.is_some());
    let items = conjunction.first.checked_add(additional)?;
    let prefix = items.checked_add(rest)?;
    prefix.checked_add(keywords.prefix.len())
}

/// The rule of a declared name.
pub(crate) fn rule_under(
    book: &Book<'_>,
    conjunction: &Conjunction<'_>,
    key: &str,
) -> Option<usize> {
    let mut place = first_name(conjunction)?;
    for name in conjunction.keywords.properties.keys() {
        if name.as_str() == key {
            return book.numbering.children.get(place).copied();
        }
        place = place.saturating_add(1);
    }
    None
}

pub(crate) fn has_name(names: &[String], key: &str) -> bool {
    names.iter().any(|name| name.as_str() == key)
}

fn is_required(book: &Book<'_>, conjuncts: &[usize], key: &str) -> bool {
    for rule in conjuncts {
        if let Some(conjunction) = conjunction_at(book, *rule)
            && has_name(&conjunction.keywords.required, key)
        {
            return true;
        }
    }
    false
}

/// The rule under a declared name of one of these.
fn property_of(book: &Book<'_>, rule: usize, key: &str) -> Option<usize> {
    let conjunction = conjunction_at(book, rule)?;
    rule_under(book, conjunction, key)
}

/// Adds the rule of a property, if it asks for constants.
fn add_property<'a>(
    alloc: Global,
    book: &'a Book<'_>,
    property: usize,
    asked: &mut Asked<'a>,
) -> Result<(), AllocError> {
    if let Some(values) = constants_of(alloc, book, property)? {
        asked.values = values;
        asked.rules.push(property)?;
    }
    Ok(())
}

/// What these rules ask with constants of the value under a key.
fn asked_by_these<'a>(
    alloc: Global,
    book: &'a Book<'_>,
    conjuncts: &[usize],
    key: &str,
) -> Result<Asked<'a>, AllocError> {
    let mut asked = Asked {
        rules: Vec::new(alloc),
        values: Vec::new(alloc),
    };
    for conjunct in conjuncts {
        if let Some(property) = property_of(book, *conjunct, key) {
            add_property(alloc, book, property, &mut asked)?;
        }
    }
    Ok(asked)
}

/// What an alternative asks of the value under a key, if it requires the key, with constants.
fn asked_under<'a>(
    alloc: Global,
    book: &'a Book<'_>,
    rule: usize,
    key: &str,
) -> Result<Option<Asked<'a>>, AllocError> {
    let conjuncts = conjuncts_of(alloc, book, rule)?;
    if !is_required(book, &conjuncts, key) {
        return Ok(None);
    }
    let asked = asked_by_these(alloc, book, &conjuncts, key)?;
    if asked.rules.is_empty() {
        return Ok(None);
    }
    Ok(Some(asked))
}

/// Whether some alternative asks for other constants than the first.
fn do_differ(all: &[Asked<'_>]) -> bool {
    let Some((first, others)) = all.split_first() else {
        return false;
    };
    for asked in others {
        if !are_same(&first.values, &asked.values) {
            return true;
        }
    }
    false
}

/// What each alternative asks of the value under a key, if it tells them apart.
fn asked_by_all<'a>(
    alloc: Global,
    book: &'a Book<'_>,
    leaves: &[Leaf],
    key: &str,
) -> Result<Option<Vec<Asked<'a>>>, AllocError> {
    let mut all: Vec<Asked<'a>> = Vec::new(alloc);
    for leaf in leaves {
        let Some(asked) = asked_under(alloc, book, leaf.rule, key)? else {
            return Ok(None);
        };
        all.push(asked)?;
    }
    Ok(if do_differ(&all) { Some(all) } else { None })
}

/// Adds the declared names whose schemas ask for constants.
fn add_constant_names<'a>(
    alloc: Global,
    book: &'a Book<'_>,
    conjunction: &'a Conjunction<'a>,
    names: &mut Vec<&'a str>,
) -> Result<(), AllocError> {
    let mut place = first_name(conjunction).unwrap_or(usize::MAX);
    for name in conjunction.keywords.properties.keys() {
        if let Some(property) = book.numbering.children.get(place)
            && is_constant(alloc, book, *property)?
        {
            names.push(name.as_str())?;
        }
        place = place.saturating_add(1);
    }
    Ok(())
}

/// The names that a rule declares with constants, in byte order.
fn constant_names<'a>(
    alloc: Global,
    book: &'a Book<'_>,
    rule: usize,
) -> Result<Vec<&'a str>, AllocError> {
    let conjuncts = conjuncts_of(alloc, book, rule)?;
    let mut names = Vec::new(alloc);
    for conjunct in &conjuncts {
        if let Some(conjunction) = conjunction_at(book, *conjunct) {
            add_constant_names(alloc, book, conjunction, &mut names)?;
        }
    }
    names.sort_unstable();
    Ok(names)
}

/// The first of a map's keys that tells the alternatives apart.
fn first_tag<'a>(
    alloc: Global,
    book: &'a Book<'_>,
    members: &[(&'a str, usize)],
    leaves: &[Leaf],
    names: &[&'a str],
) -> Result<Option<Tag<'a>>, AllocError> {
    let mut tried = 0;
    for member in members {
        let (key, child) = *member;
        if names.binary_search(&key).is_ok() {
            if tried >= MOST_TAGS {
                return Ok(None);
            }
            tried += 1;
            if let Some(asked) = asked_by_all(alloc, book, leaves, key)? {
                return Ok(Some(Tag { key, child, asked }));
            }
        }
    }
    Ok(None)
}

/// The key of a map that tells alternatives apart; none where the value is no map, or where no such key is found in the steps
/// that are followed.
pub(crate) fn find_tag<'a>(
    alloc: Global,
    book: &'a Book<'_>,
    flat: &'a Flat<'a>,
    item: usize,
    leaves: &[Leaf],
) -> Result<Option<Tag<'a>>, AllocError> {
    if item >= flat.len() {
        return Ok(None);
    }
    let Item::Object(members) = flat.item(item) else {
        return Ok(None);
    };
    let Some(leaf) = leaves.first() else {
        return Ok(None);
    };
    let names = constant_names(alloc, book, leaf.rule)?;
    first_tag(alloc, book, members, leaves, &names)
}
