// What the rules of both sides ask, by the numbers of their parts, and what is asked of a document: rules that it meets, and rules that it doesn't.
ghost use Rattle.std.specs.Prelude.{◌≡◌, true, Bool, IfOk, IfSome, IsTrue, OnOk, map, slice_index, slice_get, Some, None, MatchOption};
ghost use Rattle.std.specs.List.{list_all};
ghost use Rattle.cs_instance.specs.Numbering.{map_rest};
ghost use Rattle.cs_instance.specs.Steps as steps;
ghost use Rattle.cs_question.specs.Asked.{Entails};
ghost use Rattle.cs_question.specs.declared.nodes.Literal.{Literal};
ghost use Rattle.cs_question.specs.Nodes.{asked_of, end_of, nodes_on};

use crate::fault::Made;
use cs_instance::{Ending, Field, Fields, Rule};
use cs_package::Shape;
use std::alloc::Global;

/// Whose rule it is: the package's whose documents are looked for, or the one's that is to refuse them.
#[derive(Clone, Copy, PartialEq, Eq, PartialOrd, Ord)]
pub(crate) enum Side {
    Admitting,
    Refusing,
}

/// A rule, by its number on its side, that a document meets, or doesn't.
#[derive(Clone, Copy, PartialEq, Eq, PartialOrd, Ord)]
pub(crate) struct Literal {
    pub(crate) side: Side,
    pub(crate) rule: usize,
    pub(crate) holds: bool,
}

/// Another rule of the same side.
pub(crate) fn part_of(literal: Literal, rule: usize) -> Literal
    ensures { result ≡ record literal { rule = rule } }
{
    Literal { rule, ..literal }
}

/// A rule that is to be met.
pub(crate) fn met(alloc: Global, rule: usize) -> Made<Vec<Literal>>
    ensures { IfOk result (λ v. (p : Literal → Bool) → p (record { side = Side.Admitting; rule = rule; holds = true }) ≡ true → list_all p v.items ≡ true) }
{
    let literal = Literal {
        side: Side::Admitting,
        rule,
        holds: true,
    };
    Ok(vec![in alloc; literal]?)
}

/// Adds what is asked, where it isn't asked yet: in order, each once.
pub(crate) fn add(asked: &mut Vec<Literal>, literal: Literal) -> Made<()>
    ensures { OnOk result ((p : Literal → Bool) → list_all p asked.old.items ≡ true → p literal ≡ true → list_all p asked.new.items ≡ true) }
{
    match asked.binary_search(&literal) {
        Ok(_) => Ok(()),
        Err(place) => Ok(asked.insert(place, literal)?),
    }
}

/// The same with one more.
pub(crate) fn with(alloc: Global, asked: &[Literal], more: Option<Literal>) -> Made<Vec<Literal>>
    ensures { IfOk result (λ v. (p : Literal → Bool) → list_all p asked.now ≡ true → IfSome more (λ l. p l ≡ true) → list_all p v.items ≡ true) }
{
    let mut all = Vec::from_slice(alloc, asked)?;
    if let Some(literal) = more {
        add(&mut all, literal)?;
    }
    Ok(all)
}

/// The same without the one at a place.
pub(crate) fn without(alloc: Global, asked: &[Literal], place: usize) -> Made<Vec<Literal>>
    ensures { IfOk result (λ v. Entails asked.now v.items) }
{
    let mut rest = Vec::with_capacity(alloc, asked.len())?;
    for (i, literal) in asked.iter().enumerate() {
        if i != place {
            rest.push(*literal)?;
        }
    }
    Ok(rest)
}

/// Whether the same is asked, in the same order.
pub(crate) fn are_same(first: &[Literal], second: &[Literal]) -> bool
    ensures { IsTrue result → first.now ≡ second.now }
{
    first == second
}

/// What a rule asks of a document. Its parts are rules of the same side, by number.
#[derive(Drop)]
pub(crate) enum Node<'a> {
    /// That of an expression that looks at no part.
    Simple(&'a Shape),
    /// The integers from `least` on, up to `greatest` where there is one.
    Within { least: i64, greatest: Option<i64> },
    All(Vec<usize>),
    Any(Vec<usize>),
    Struct { fields: Fields<'a>, opened: bool },
    List { front: Vec<usize>, end: NodeEnd },
}

/// What follows the fixed elements of a list: nothing, anything, or instances of a rule.
#[derive(Clone, Copy, PartialEq, Eq)]
pub(crate) enum NodeEnd {
    Closed,
    Any,
    Each(usize),
}

/// The rules of both sides.
#[derive(Drop)]
pub(crate) struct Nodes<'a> {
    pub(crate) alloc: Global,
    pub(crate) admitting: Vec<Node<'a>>,
    pub(crate) refusing: Vec<Node<'a>>,
}

impl<'a> Nodes<'a> {
    /// What a rule asks.
    pub(crate) fn of(&self, literal: Literal) -> Option<&Node<'a>>
        ensures { MatchOption result (slice_get (nodes_on self.now literal.side) literal.rule ≡ None)
            (λ n. slice_get (nodes_on self.now literal.side) literal.rule ≡ Some n.now) }
    {
        match literal.side {
            Side::Admitting => self.admitting.get(literal.rule),
            Side::Refusing => self.refusing.get(literal.rule),
        }
    }
}

/// The number at a place.
fn number_at(inner: &[usize], place: usize) -> usize
    ensures { result ≡ slice_index inner.now place }
{
    inner.get(place).copied().unwrap_or(0)
}

fn numbers_at(alloc: Global, inner: &[usize], places: &[usize]) -> Made<Vec<usize>>
    ensures { IfOk result (λ v. v.items ≡ map (slice_index inner.now) places.now) }
{
    // `collect` would ask for the room of all of them first, and go on where that is refused.
    let mut numbers = Vec::with_capacity(alloc, places.len())?;
    for place in places {
        numbers.push(number_at(inner, *place))?;
    }
    Ok(numbers)
}

fn fields_at<'a>(alloc: Global, inner: &[usize], fields: &[Field<'a>]) -> Made<Vec<Field<'a>>>
    ensures { IfOk result (λ v. map steps.field_of v.items ≡ steps.numbered_fields inner.now fields.now) }
{
    let mut all = Vec::with_capacity(alloc, fields.len())?;
    for field in fields {
        let value = number_at(inner, field.value);
        all.push(Field { value, ..*field })?;
    }
    Ok(all)
}

fn end_at(inner: &[usize], end: &Ending) -> NodeEnd
    ensures { end_of result ≡ map_rest (slice_index inner.now) (steps.ending_of end.now) }
{
    match end {
        Ending::Closed => NodeEnd::Closed,
        Ending::Any => NodeEnd::Any,
        Ending::Each(place) => NodeEnd::Each(number_at(inner, *place)),
    }
}

fn node_of<'a>(alloc: Global, inner: &[usize], rule: &Rule<'a>) -> Made<Node<'a>>
    ensures { IfOk result (λ n. asked_of n ≡ steps.numbered inner.now rule.now) }
{
    Ok(match rule {
        Rule::Simple(shape) => Node::Simple(*shape),
        Rule::All(parts) => Node::All(Vec::from_slice(alloc, parts)?),
        Rule::Any(parts) => Node::Any(Vec::from_slice(alloc, parts)?),
        Rule::Struct { fields, opened } => {
            let all = fields_at(alloc, inner, &fields.all)?;
            Node::Struct {
                fields: Fields::new(alloc, all)?,
                opened: *opened,
            }
        }
        Rule::List { front, end } => Node::List {
            front: numbers_at(alloc, inner, front)?,
            end: end_at(inner, end),
        },
    })
}

/// What numbered rules ask, where the parts that they ask of documents inside have these numbers.
pub(crate) fn nodes_of<'a>(
    alloc: Global,
    rules: &[Rule<'a>],
    inner: &[usize],
) -> Made<Vec<Node<'a>>>
    ensures { IfOk result (λ v. map asked_of v.items ≡ map (steps.numbered inner.now) rules.now) }
{
    let mut nodes = Vec::with_capacity(alloc, rules.len())?;
    for rule in rules {
        nodes.push(node_of(alloc, inner, rule)?)?;
    }
    Ok(nodes)
}
