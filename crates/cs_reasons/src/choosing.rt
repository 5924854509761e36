// Which of the alternatives of pairs are followed.
ghost use Rattle.std.specs.Prelude.{◌≡◌, ℕ, [], Some, slice_get, OnOk};
ghost use Rattle.cs_reasons.specs.Costs.{cost_below, first_least, kept};
ghost use Rattle.cs_reasons.specs.Followed.{AreAlternatives};
ghost use Rattle.cs_reasons.specs.Reached.{AreReached};

use crate::costs::Costs;
use crate::followed::has_alternative;
use crate::marks::Marks;
use crate::{Cause, Chooses};
use std::alloc::{AllocError, Global};

/// The pairs that are followed of the alternatives of each pair that chains of causes lead to, into `chosen`, and what all
/// these pairs cost: of the alternatives of a pair that may have been meant the first that costs least.
pub(crate) fn choose<G: Chooses>(
    alloc: Global,
    graph: &G,
    item: usize,
    rule: usize,
    marks: &Marks,
    chosen: &mut Marks,
) -> Result<Costs, AllocError>
    requires refused { G.is_refused graph.now item rule }
    requires items { marks.now.items ≡ G.item_count graph.now }
    requires reached { AreReached G.Cause.leads_to (G.is_cause graph.now) item rule marks.now }
{
    let mut costs = Costs::new(alloc, graph.items(), graph.rules(), marks.used_items())?;
    let mut found = Vec::new(alloc);
    let mut near = Vec::new(alloc);
    let mut at = marks.first_from(0, 0);
    while let Some((from, by)) = at {
        found.clear();
        graph.causes(from, by, &mut found)?;
        let direct = direct_cost(graph, &found, &costs, &mut near)?;
        keep_near(graph, from, by, &found, &mut near)?;
        let cost = direct.saturating_add(choose_closest(&found, &near, &costs, chosen));
        costs.begin(from)?;
        costs.set(from, by, cost);
        at = marks.first_from(from, by + 1);
    }
    Ok(costs)
}

/// Of the causes of a pair the alternatives that may have been meant.
pub(crate) fn keep_near<G: Chooses>(
    graph: &G,
    item: usize,
    rule: usize,
    causes: &[G::Cause],
    near: &mut Vec<G::Cause>,
) -> Result<(), AllocError>
    requires refused { G.is_refused graph.now item rule }
    requires causes { (k : ℕ) (c : G.Cause) → slice_get causes.now k ≡ Some c → G.is_cause graph.now item rule c }
{
    near.clear();
    keep_alternatives(causes, near)?;
    if near.is_empty() {
        return Ok(());
    }
    graph.keep_near(item, rule, near)
}

// Adds those of the causes that are alternatives to none.
fn keep_alternatives<C: Cause>(causes: &[C], found: &mut Vec<C>) -> Result<(), AllocError>
    requires { found.old.items ≡ [] }
    ensures { OnOk result (AreAlternatives C.leads_to C.is_alternative causes.now found.new.items) }
{
    for cause in causes {
        if cause.is_alternative() {
            found.push(*cause)?;
        }
    }
    Ok(())
}

// What the causes of a pair cost that are no alternatives: those that lead nowhere what they weigh together, and each other
// one what the pair costs that it leads to.
fn direct_cost<G: Chooses>(
    graph: &G,
    causes: &[G::Cause],
    costs: &Costs,
    leaves: &mut Vec<G::Cause>,
) -> Result<u16, AllocError> {
    leaves.clear();
    let mut cost: u16 = 0;
    for cause in causes {
        if cause.is_alternative() {
            continue;
        }
        match cause.leads_to() {
            Some((item, rule)) => cost = cost.saturating_add(costs.get(item, rule)),
            None => leaves.push(*cause)?,
        }
    }
    if leaves.is_empty() {
        return Ok(cost);
    }
    let weight = u16::try_from(graph.weight(leaves)).unwrap_or(u16::MAX);
    Ok(cost.saturating_add(weight))
}

// Chooses the closest of the alternatives that may have been meant, and says what it costs: as much as one fault where
// there are alternatives and none is left.
fn choose_closest<C: Cause>(causes: &[C], near: &[C], costs: &Costs, chosen: &mut Marks) -> u16 {
    match closest(near, costs) {
        Some((cause, cost)) => {
            if let Some((item, rule)) = cause.leads_to() {
                chosen.put(item, rule);
            }
            cost
        }
        None => has_alternative(causes) as u16,
    }
}

/// The first of the alternatives that costs least, and what it costs.
pub(crate) fn closest<C: Cause>(near: &[C], costs: &Costs) -> Option<(C, u16)>
    ensures { result ≡ first_least (λ c. cost_below (kept costs.now) (C.leads_to c)) near.now }
{
    let mut best: Option<(C, u16)> = None;
    for cause in near {
        let cost = cost_of(cause, costs);
        match best {
            Some((_, least)) if least <= cost => {}
            _ => best = Some((*cause, cost)),
        }
    }
    best
}

/// What the pair costs that an alternative leads to.
pub(crate) fn cost_of<C: Cause>(cause: &C, costs: &Costs) -> u16
    ensures { result ≡ cost_below (kept costs.now) (C.leads_to cause.now) }
{
    match cause.leads_to() {
        Some((item, rule)) => costs.get(item, rule),
        None => u16::MAX,
    }
}
