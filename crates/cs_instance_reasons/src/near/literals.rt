// Literals that rules lead to.
use cs_flat::Item;
use cs_instance::{Fields, Rule, holds_simply};
use cs_package::{FieldMark, Literal, Shape};
use cs_rules::Numbering;
use std::alloc::{AllocError, Global};

/// How many rules are looked at, and how far they may be from the first one.
const MOST_STEPS: usize = 64;

const MOST_DEPTH: usize = 16;

/// A search for the literals of which a value has to be one by a rule.
#[derive(Drop)]
struct Search<'a> {
    numbering: &'a Numbering<Rule<'a>>,
    /// How many rules may still be looked at.
    steps: usize,
    found: Vec<&'a Shape>,
}

/// The literals of which a value has to be one by a rule, or with a key the value under that key of a map that has to have
/// it; `None` where there are no such ones, or it takes long to find them.
pub(super) fn literals_of<'a>(
    alloc: Global,
    numbering: &'a Numbering<Rule<'a>>,
    rule: usize,
    key: Option<&str>,
) -> Result<Option<Vec<&'a Shape>>, AllocError> {
    let mut search = Search {
        numbering,
        steps: MOST_STEPS,
        found: Vec::new(alloc),
    };
    let is_led = search.is_led(rule, key, MOST_DEPTH)?;
    let Search { found, .. } = search;
    Ok(if is_led { Some(found) } else { None })
}

/// Whether a declaration with this mark asks for its key.
pub(super) fn is_asked_for(mark: FieldMark) -> bool {
    match mark {
        FieldMark::Regular | FieldMark::Required => true,
        FieldMark::Optional | FieldMark::Every { .. } => false,
    }
}

/// The rules of the values under a key, by the declarations of a map that ask for it: those of the key as their label.
fn rules_under(
    alloc: Global,
    numbering: &Numbering<Rule<'_>>,
    fields: &Fields<'_>,
    key: &str,
) -> Result<Vec<usize>, AllocError> {
    let mut rules = Vec::new(alloc);
    for field in &fields.all {
        if field.label == key
            && is_asked_for(field.mark)
            && let Some(rule) = numbering.children.get(field.value)
        {
            rules.push(*rule)?;
        }
    }
    Ok(rules)
}

/// A literal as a value; null stands for any other expression.
fn item_of<'a>(literal: &'a Shape) -> Item<'a> {
    match literal.literal() {
        Some(Literal::Bool(truth)) => Item::Bool(truth),
        Some(Literal::Int(integer)) => Item::Int(integer),
        Some(Literal::Text(text)) => Item::Text(text),
        Some(Literal::Null) | None => Item::Null,
    }
}

/// Whether a rule takes a value, as far as it is an expression without parts.
fn takes_simply(numbering: &Numbering<Rule<'_>>, rule: usize, value: &Item<'_>) -> bool {
    match numbering.rules.get(rule) {
        Some(Rule::Simple(shape)) => holds_simply(shape, value),
        Some(Rule::All(_) | Rule::Any(_) | Rule::Struct { .. } | Rule::List { .. }) | None => true,
    }
}

/// The same where it may have such alternatives, or parts.
fn takes(numbering: &Numbering<Rule<'_>>, rule: usize, value: &Item<'_>) -> bool {
    match numbering.rules.get(rule) {
        Some(Rule::Any(parts)) => {
            let mut parts = parts.iter();
            parts.any(|part| takes_simply(numbering, *part, value))
        }
        Some(Rule::All(parts)) => {
            let mut parts = parts.iter();
            parts.all(|part| takes_simply(numbering, *part, value))
        }
        Some(Rule::Simple(_) | Rule::Struct { .. } | Rule::List { .. }) | None => {
            takes_simply(numbering, rule, value)
        }
    }
}

impl<'a> Search<'a> {
    /// Whether the rule leads to literals alone, which are added to those found.
    #[cycle(leading)]
    fn is_led(&mut self, rule: usize, key: Option<&str>, depth: usize) -> Result<bool, AllocError> {
        if depth == 0 || self.steps == 0 {
            return Ok(false);
        }
        self.steps -= 1;
        let numbering = self.numbering;
        match numbering.rules.get(rule) {
            None | Some(Rule::List { .. }) => Ok(false),
            Some(Rule::Simple(shape)) => {
                if key.is_some() || shape.literal().is_none() {
                    return Ok(false);
                }
                self.found.push(*shape)?;
                Ok(true)
            }
            Some(Rule::All(parts)) => self.some_is_led(parts, key, depth - 1),
            Some(Rule::Any(parts)) => self.each_is_led(parts, key, depth - 1),
            Some(Rule::Struct { fields, .. }) => match key {
                None => Ok(false),
                Some(key) => {
                    let rules = rules_under(*self.found.allocator(), numbering, fields, key)?;
                    self.some_is_led(&rules, None, depth - 1)
                }
            },
        }
    }

    /// Whether one of the rules that are asked together does; of its literals those are left that the others take.
    #[cycle(leading)]
    fn some_is_led(
        &mut self,
        parts: &[usize],
        key: Option<&str>,
        depth: usize,
    ) -> Result<bool, AllocError> {
        let count = self.found.len();
        for part in parts {
            if self.is_led(*part, key, depth)? {
                if key.is_none() {
                    self.keep_taken(parts, count)?;
                }
                return Ok(true);
            }
            self.found.truncate(count);
        }
        Ok(false)
    }

    /// Whether each alternative does, and there is one.
    #[cycle(leading)]
    fn each_is_led(
        &mut self,
        parts: &[usize],
        key: Option<&str>,
        depth: usize,
    ) -> Result<bool, AllocError> {
        for part in parts {
            if !self.is_led(*part, key, depth)? {
                return Ok(false);
            }
        }
        Ok(!parts.is_empty())
    }

    /// Leaves of the literals that were found behind so many those that all of these rules take.
    fn keep_taken(&mut self, parts: &[usize], count: usize) -> Result<(), AllocError> {
        let numbering = self.numbering;
        let mut kept = Vec::with_capacity(*self.found.allocator(), self.found.len())?;
        for (place, literal) in self.found.iter().enumerate() {
            let value = item_of(literal);
            if place < count || parts.iter().all(|part| takes(numbering, *part, &value)) {
                kept.push(*literal)?;
            }
        }
        self.found = kept;
        Ok(())
    }
}
