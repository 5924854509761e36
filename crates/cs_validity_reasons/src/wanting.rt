// What values would have to be by alternatives, for wording.
use crate::book::{Book, conjunction_at};
use crate::explaining::{Want, Wanted};
use crate::nearness::leaves::all_leaves;
use crate::nearness::of_kind;
use crate::nearness::tags::{Tag, conjuncts_of, find_tag};
use cs_document::Doc;
use cs_flat::Flat;
use cs_profile::Keywords;
use std::alloc::{AllocError, Global};

/// How many alternatives are told.
const MOST_WANTED: usize = 64;

/// Whether keywords limit how long texts, lists or maps are. `minItems` by itself isn't told.
fn has_length_limits(keywords: &Keywords) -> bool {
    keywords.max_length.is_some()
        || keywords.min_length.is_some()
        || keywords.max_items.is_some()
        || keywords.max_properties.is_some()
        || keywords.min_properties.is_some()
}

fn has_limits(keywords: &Keywords) -> bool {
    keywords.minimum.is_some()
        || keywords.maximum.is_some()
        || keywords.above.is_some()
        || keywords.below.is_some()
        || has_length_limits(keywords)
}

fn are_same_lengths(limits: &Keywords, others: &Keywords) -> bool {
    limits.max_length == others.max_length
        && limits.min_length == others.min_length
        && limits.max_items == others.max_items
        && limits.max_properties == others.max_properties
        && limits.min_properties == others.min_properties
        && (limits.min_items == others.min_items || !has_length_limits(limits))
}

fn are_same_limits(limits: &Keywords, others: &Keywords) -> bool {
    limits.minimum == others.minimum
        && limits.maximum == others.maximum
        && limits.above == others.above
        && limits.below == others.below
        && are_same_lengths(limits, others)
}

fn is_same(want: &Want<'_>, other: &Want<'_>) -> bool {
    match (want, other) {
        (Want::Kind(kind), Want::Kind(another)) => kind == another,
        (Want::Value(value), Want::Value(another)) => **value == **another,
        (Want::Limits(limits), Want::Limits(others)) => are_same_limits(limits, others),
        (Want::Kind(_) | Want::Value(_) | Want::Limits(_), _) => false,
    }
}

/// Adds what is asked, unless it is asked already.
fn add_want<'a>(wants: &mut Vec<Want<'a>>, want: Want<'a>) -> Result<(), AllocError> {
    if !wants.iter().any(|other| is_same(other, &want)) {
        wants.push(want)?;
    }
    Ok(())
}

fn are_same(wants: &[Want<'_>], others: &[Want<'_>]) -> bool {
    wants.len() == others.len()
        && wants
            .iter()
            .zip(others)
            .all(|(want, other)| is_same(want, other))
}

/// Adds what one alternative asks, unless it asks nothing that has a wording, or another asks the same.
fn add_alternative<'a>(
    alternatives: &mut Vec<Vec<Want<'a>>>,
    wants: Vec<Want<'a>>,
) -> Result<(), AllocError> {
    let is_told = alternatives.len() >= MOST_WANTED
        || wants.is_empty()
        || alternatives.iter().any(|other| are_same(other, &wants));
    if !is_told {
        alternatives.push(wants)?;
    }
    Ok(())
}

/// Adds each of these values as an alternative.
fn add_values<'a>(
    alternatives: &mut Vec<Vec<Want<'a>>>,
    values: &'a [Doc],
) -> Result<(), AllocError> {
    for value in values {
        if alternatives.len() >= MOST_WANTED {
            return Ok(());
        }
        add_value(alternatives, value)?;
    }
    Ok(())
}

fn add_value<'a>(alternatives: &mut Vec<Vec<Want<'a>>>, value: &'a Doc) -> Result<(), AllocError> {
    let mut wants = Vec::new(*alternatives.allocator());
    wants.push(Want::Value(value))?;
    add_alternative(alternatives, wants)
}

/// Adds what keywords ask by the value's kind and by limits.
fn add_keywords<'a>(keywords: &'a Keywords, wants: &mut Vec<Want<'a>>) -> Result<(), AllocError> {
    if let Some(kind) = keywords.kind {
        add_want(wants, Want::Kind(kind))?;
    }
    if has_limits(keywords) {
        add_want(wants, Want::Limits(keywords))?;
    }
    Ok(())
}

/// Adds the constants that keywords ask for, each as an alternative. Answers whether there are such.
fn add_constants<'a>(
    keywords: &'a Keywords,
    alternatives: &mut Vec<Vec<Want<'a>>>,
) -> Result<bool, AllocError> {
    match (&keywords.equal, &keywords.one_of) {
        (Some(value), _) => {
            add_value(alternatives, value)?;
            Ok(true)
        }
        (None, Some(values)) => {
            add_values(alternatives, values)?;
            Ok(true)
        }
        (None, None) => Ok(false),
    }
}

/// Adds the constants of the first of these rules that asks for some, and the kinds and limits of those before it to what
/// is wanted. Answers whether there are such constants.
fn add_wants<'a>(
    book: &'a Book<'_>,
    conjuncts: &[usize],
    wants: &mut Vec<Want<'a>>,
    alternatives: &mut Vec<Vec<Want<'a>>>,
) -> Result<bool, AllocError> {
    for conjunct in conjuncts {
        if let Some(conjunction) = conjunction_at(book, *conjunct) {
            if add_constants(conjunction.keywords, alternatives)? {
                return Ok(true);
            }
            add_keywords(conjunction.keywords, wants)?;
        }
    }
    Ok(false)
}

/// Adds what an alternative asks: its constants where it has such, and otherwise kinds and limits together.
fn add_leaf<'a>(
    alloc: Global,
    book: &'a Book<'_>,
    rule: usize,
    alternatives: &mut Vec<Vec<Want<'a>>>,
) -> Result<(), AllocError> {
    let conjuncts = conjuncts_of(alloc, book, rule)?;
    let mut wants = Vec::new(alloc);
    if add_wants(book, &conjuncts, &mut wants, alternatives)? {
        return Ok(());
    }
    add_alternative(alternatives, wants)
}

/// What the alternatives of these rules ask of the value itself.
fn by_value<'a>(
    alloc: Global,
    book: &'a Book<'_>,
    any_of: &[usize],
) -> Result<Wanted<'a>, AllocError> {
    let leaves = all_leaves(alloc, book, any_of)?;
    let mut alternatives = Vec::new(alloc);
    for leaf in &leaves {
        if alternatives.len() < MOST_WANTED {
            add_leaf(alloc, book, leaf.rule, &mut alternatives)?;
        }
    }
    Ok(Wanted {
        key: None,
        alternatives,
    })
}

/// What the alternatives ask of the value under a tag's key.
fn by_tag<'a>(alloc: Global, tag: &Tag<'a>) -> Result<Wanted<'a>, AllocError> {
    let mut alternatives = Vec::new(alloc);
    for asked in &tag.asked {
        for value in &asked.values {
            add_value(&mut alternatives, value)?;
        }
    }
    Ok(Wanted {
        key: Some((tag.key, tag.child)),
        alternatives,
    })
}

/// What a value would have to be by the alternatives of a rule: the constants of their tag, where they have one, and otherwise
/// what they ask of the value itself. At most 64 are told.
pub(crate) fn wanted_of<'a>(
    alloc: Global,
    book: &'a Book<'_>,
    flat: &'a Flat<'a>,
    item: usize,
    rule: usize,
) -> Result<Wanted<'a>, AllocError> {
    let none: &[usize] = &[];
    let any_of = match conjunction_at(book, rule) {
        Some(conjunction) => &conjunction.any_of,
        None => none,
    };
    let taking = of_kind(alloc, book, flat, item, any_of)?;
    let leaves = all_leaves(alloc, book, &taking)?;
    match find_tag(alloc, book, flat, item, &leaves)? {
        Some(tag) => by_tag(alloc, &tag),
        None => by_value(alloc, book, any_of),
    }
}
