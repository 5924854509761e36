// Along chains of causes, from the root to a rule and from the document to a value, by the words of a side; and what is told of reasons.
ghost use Rattle.std.specs.Prelude.{◌≡◌, OnOk, string_bytes};
ghost use Rattle.cs_profile.specs.Places.{at_key};
ghost use Rattle.cs_reason_words.specs.Pointer.{at_step};

use crate::entry::{Entry, Found, Told, position_in};
use cs_place::{Named, Position, Positions, Step};
use cs_reasons::{Cause, Link, Reason, Reasons, Telling};
use cs_text::{Made, Written};
use std::alloc::Global;
use std::iter::successors;

/// The pair whose alternative was followed last, by the numbers of its value and its rule, and the place of the alternative.
pub type Branch = (usize, usize, usize);

/// What is told of a chain.
#[derive(Drop)]
pub struct Way {
    /// The number of the value that it has led to.
    pub item: usize,
    /// The number of the rule there.
    pub rule: usize,
    /// How many other alternatives of that rule were as close as the one that is followed.
    as_close: usize,
    /// The place of the value in the document, or that of the key that isn't allowed (RFC 6901).
    pub pointer: String,
    /// The place of the rule: the definition's name and the path from there, or the place in the schema document.
    pub path: String,
    /// Which alternative was followed last; empty where there is none.
    pub alternative: String,
    /// The same, for what is told once for a value and an alternative.
    pub branch: Option<Branch>,
    /// How many alternatives are on the way.
    pub depth: usize,
    /// How many steps the way has.
    pub steps: usize,
}

impl Way {
    /// Follows the alternative at a place, of so many.
    pub fn follow(&mut self, place: usize, count: usize) -> Written {
        let number = place.saturating_add(1);
        self.branch = Some((self.item, self.rule, place));
        self.depth = self.depth.saturating_add(1);
        self.alternative.truncate(0);
        write!(self.alternative, "alternative {number} of {count}")?;
        if self.as_close > 0 {
            write!(self.alternative, ", {} as close", self.as_close)?;
        }
        Ok(())
    }
}

/// The link that another one is led to from; none for the pair that is explained.
pub(crate) fn above<'a, C: Drop>(links: &'a [Link<C>], link: &Link<C>) -> Option<&'a Link<C>> {
    links.get(link.up.as_ref()?.link)
}

/// The links on the chain to that at a place, from the pair that is explained on.
pub fn chain_to<C: Drop>(alloc: Global, links: &[Link<C>], place: usize) -> Made<Vec<&Link<C>>> {
    let upward = successors(links.get(place), |link| above(links, *link));
    let mut chain = Vec::new(alloc);
    for link in upward.take(links.len()) {
        chain.push(link)?; // `extend` goes on where the room that it asks for first is refused
    }
    chain.reverse();
    Ok(chain)
}

/// The rule of the link at a place, and the way to it.
pub fn walk_to<'t, W: Words<'t>>(
    alloc: Global,
    words: &W,
    links: &[Link<W::Cause>],
    place: usize,
) -> Made<(W::Node, Way)> {
    let mut way = Way {
        item: 0,
        rule: 0,
        as_close: 0,
        pointer: String::new(alloc),
        path: String::new(alloc),
        alternative: String::new(alloc),
        branch: None,
        depth: 0,
        steps: 0,
    };
    let mut node = words.root(&mut way.path)?;
    for link in chain_to(alloc, links, place)? {
        if let Some(up) = &link.up {
            way.steps = way.steps.saturating_add(1);
            if let Some(step) = words.step_of(way.item, &up.cause) {
                put_step(&mut way.pointer, &step)?;
            }
            node = words.inside(node, &up.cause, &mut way)?;
        }
        way.item = link.item;
        way.rule = link.rule;
        way.as_close = link.as_close;
    }
    Ok((node, way))
}

/// How one side tells its reasons: where causes lead, and what is wrong where one leads nowhere. Only memory can run out.
pub trait Words<'t>: Drop {
    /// Why a rule refuses an item.
    type Cause: Cause;

    /// What a rule is, as far as chains have to know.
    type Node: Copy + Drop;

    /// The rule at which chains begin, whose place is put.
    fn root(&self, path: &mut String) -> Made<Self::Node>;

    /// The step into the document that a cause of an item takes.
    fn step_of(&self, item: usize, cause: &Self::Cause) -> Option<Step<'t>>;

    /// The rule that a cause leads to from the one that the way has led to. The path is led on to it, and an alternative is followed.
    fn inside(&self, node: Self::Node, cause: &Self::Cause, way: &mut Way) -> Made<Self::Node>;

    /// What is wrong by a cause, which leads nowhere, of the rule that the way has led to. The path is led on to what says no.
    fn finding(&mut self, node: Self::Node, cause: &Self::Cause, way: &mut Way) -> Found<'t>;
}

/// What is spent at most on reasons beyond those that are asked for.
const MOST_SPENT: usize = 16_777_216;

/// What a step of a chain counts as.
const STEP: usize = 8;

/// What is told of reasons in words: each that is asked for, and further ones while that takes little, so that what several of them
/// say is told once, and counted once. Values are given their lines and columns.
pub fn told_by<'t, W: Words<'t>>(
    alloc: Global,
    words: &mut W,
    telling: Telling,
    document: Named<'_>,
    reasons: &Reasons<W::Cause>,
) -> Made<Told<'t>> {
    let mut told = Told::new(alloc, &*words, reasons)?;
    let mut spent: usize = 0;
    for (number, reason) in reasons.told.iter().enumerate() {
        if number < telling.most || spent <= MOST_SPENT {
            let bytes = tell(words, &reasons.links, number, reason, &mut told)?;
            spent = spent.saturating_add(bytes);
            told.more = told.more.saturating_sub(1);
        }
    }
    told.keep_new(alloc, telling, document.text)?;
    let mut positions = Positions::new(document.text);
    for entry in told.entries.iter_mut() {
        entry.position = position_in(document, &mut positions, entry.offset);
    }
    Ok(told)
}

/// Adds a reason in words without its place in the text, unless it is told elsewhere. Answers what that took: bytes of texts, and [`STEP`]s.
fn tell<'t, W: Words<'t>>(
    words: &mut W,
    links: &[Link<W::Cause>],
    number: usize,
    reason: &Reason<W::Cause>,
    told: &mut Told<'t>,
) -> Made<usize> {
    let alloc = *told.entries.allocator();
    let (node, mut way) = walk_to(alloc, &*words, links, reason.link)?;
    let steps = way.steps.saturating_mul(STEP);
    let Some(finding) = words.finding(node, &reason.cause, &mut way)? else {
        return Ok(steps);
    };
    if let Some(step) = &finding.step {
        put_step(&mut way.pointer, step)?;
    }
    let entry = Entry {
        value: told.put(reason.link, finding.step)?,
        finding,
        way,
        offset: 0,
        position: Position { line: 1, column: 1 },
        number,
    };
    let bytes = entry.bytes();
    told.entries.push(entry)?;
    Ok(steps.saturating_add(bytes))
}

/// Leads a pointer on to what is under a key (section 3).
#[tactic(auto, unfolding(cs_profile::specs::Places::at_key))]
fn put_key(pointer: &mut String, key: &str) -> Written
    ensures { OnOk result (string_bytes pointer.new ≡ at_key (string_bytes pointer.old) key.now) }
{
    pointer.push_str("/")?;
    for character in key.chars() {
        match character {
            '~' => pointer.push_str("~0")?,
            '/' => pointer.push_str("~1")?,
            _ => pointer.push(character)?,
        }
    }
    Ok(())
}

/// Leads a pointer on by a step. Only memory can run out.
#[tactic(auto, unfolding(cs_profile::specs::Places::at_index))]
pub fn put_step(pointer: &mut String, step: &Step<'_>) -> Written
    ensures { OnOk result (string_bytes pointer.new ≡ at_step (string_bytes pointer.old) step.now) }
{
    match step {
        Step::Key(key) => put_key(pointer, key),
        Step::Element(place) => write!(pointer, "/{place}"),
    }
}
