// The reasons of a pair, and the links that lead to them.
ghost use Rattle.std.specs.Prelude.{◌≡◌, ℕ, ◌≤◌, IfOk, OnOk};
ghost use Rattle.cs_reasons.specs.Listed.{is_before, IsFound, IsLast, IsListed, IsTold, IsUpFor};
ghost use Rattle.cs_reasons.specs.Reached.{AreReached};
ghost use Rattle.cs_reasons.specs.Told.{AreReasons};

use crate::marks::Marks;
use crate::{Cause, Explains, Link, Reason, Reasons, Up};
use std::alloc::{AllocError, Global};

/// The reasons of a refused pair, where the pairs are known that chains of causes lead to.
pub(crate) fn list<G: Explains>(
    alloc: Global,
    graph: &G,
    item: usize,
    rule: usize,
    marks: &Marks,
    most: usize,
) -> Result<Reasons<G::Cause>, AllocError>
    requires refused { G.is_refused graph.now item rule }
    requires items { marks.now.items ≡ G.item_count graph.now }
    requires rules { marks.now.rules ≡ G.rule_count graph.now }
    requires reached { AreReached G.Cause.leads_to (G.is_cause graph.now) item rule marks.now }
    ensures { IfOk result (AreReasons G.Cause.leads_to (G.is_cause graph.now) item rule most) }
{
    let mut listed = Reasons {
        links: Vec::new(alloc),
        told: Vec::new(alloc),
        count: 0,
    };
    let mut found = Vec::new(alloc);
    let mut at = marks.first_from(0, 0);
    while let Some((from, by)) = at {
        found.clear();
        graph.causes(from, by, &mut found)?;
        for cause in &found {
            list_cause(*cause, from, by, most, &mut listed)?;
        }
        at = marks.first_from(from, by + 1);
    }
    Ok(listed)
}

// Lists a cause of a pair.
fn list_cause<C: Cause>(
    cause: C,
    item: usize,
    rule: usize,
    most: usize,
    listed: &mut Reasons<C>,
) -> Result<(), AllocError>
    ensures { OnOk result (IsListed most item rule cause (C.leads_to cause) listed.old listed.new) }
{
    match cause.leads_to() {
        Some((below, by)) => lead(cause, item, rule, below, by, &mut listed.links),
        None => tell(cause, item, rule, most, listed),
    }
}

// Counts a reason of a pair, and tells it while fewer are told than so many.
fn tell<C: Cause>(
    cause: C,
    item: usize,
    rule: usize,
    most: usize,
    listed: &mut Reasons<C>,
) -> Result<(), AllocError>
    ensures { OnOk result (IsTold most item rule cause listed.old listed.new) }
{
    listed.count = listed.count.checked_add(1).ok_or(AllocError)?;
    if listed.told.len() < most {
        let link = last_link(item, rule, &mut listed.links)?;
        listed.told.push(Reason { link, cause })?;
    }
    Ok(())
}

// Lets a cause of a pair lead to the link of another pair, if that has one to which nothing leads yet.
fn lead<C: Cause>(
    cause: C,
    item: usize,
    rule: usize,
    below: usize,
    by: usize,
    links: &mut Vec<Link<C>>,
) -> Result<(), AllocError>
    ensures { OnOk result (IsUpFor item rule cause below by links.old.items links.new.items) }
{
    let Some(place) = find(links, below, by) else {
        return Ok(());
    };
    if links[place].up.is_some() {
        return Ok(());
    }
    let link = last_link(item, rule, links)?;
    links[place].up = Some(Up { link, cause });
    Ok(())
}

// The place of the link of the last pair, which it gets if it has none.
fn last_link<C: Cause>(
    item: usize,
    rule: usize,
    links: &mut Vec<Link<C>>,
) -> Result<usize, AllocError>
    ensures { IfOk result (IsLast links.old.items links.new.items item rule) }
{
    if let Some(last) = links.last()
        && last.item == item
        && last.rule == rule
    {
        return Ok(links.len() - 1);
    }
    links.push(Link {
        item,
        rule,
        up: None,
        as_close: 0,
    })?;
    Ok(links.len() - 1)
}

// The place of the link of a pair.
fn find<C: Cause>(links: &[Link<C>], item: usize, rule: usize) -> Option<usize>
    ensures { IsFound links.now item rule result }
{
    let place = links.partition_point(|link| is_earlier(link.item, link.rule, item, rule));
    if place < links.len() && links[place].item == item && links[place].rule == rule {
        return Some(place);
    }
    None
}

// Whether a pair comes before another.
#[inline]
fn is_earlier(item: usize, rule: usize, other: usize, by: usize) -> bool
    ensures { result ≡ is_before item rule other by }
{
    item < other || item == other && rule < by
}
