// How many alternatives are as close as the one that is followed.
ghost use Rattle.std.specs.Prelude.{◌≡◌, ℕ, Some, slice_get, OnOk};
ghost use Rattle.cs_reasons.specs.Closest.{AreSameLinks};
ghost use Rattle.cs_reasons.specs.declared.reasons.Link.{Link};

use crate::choosing::{closest, cost_of, keep_near};
use crate::costs::Costs;
use crate::{Chooses, Link};
use std::alloc::{AllocError, Global};

/// Counts for each link how many other alternatives of its pair are as close as the one that is followed.
pub(crate) fn count_ties<G: Chooses>(
    alloc: Global,
    graph: &G,
    costs: &Costs,
    links: &mut Vec<Link<G::Cause>>,
) -> Result<(), AllocError>
    requires { (k : ℕ) (l : Link G.Cause) → slice_get links.old.items k ≡ Some l → G.is_refused graph.now l.item l.rule }
    ensures { OnOk result (AreSameLinks links.old.items links.new.items) }
{
    let mut found = Vec::new(alloc);
    let mut near = Vec::new(alloc);
    for place in 0..links.len() {
        let link = &links[place];
        let ties = ties(graph, link.item, link.rule, costs, &mut found, &mut near)?;
        links[place].as_close = ties;
    }
    Ok(())
}

// How many other alternatives of a pair are as close as the closest.
fn ties<G: Chooses>(
    graph: &G,
    item: usize,
    rule: usize,
    costs: &Costs,
    found: &mut Vec<G::Cause>,
    near: &mut Vec<G::Cause>,
) -> Result<usize, AllocError>
    requires { G.is_refused graph.now item rule }
{
    found.clear();
    graph.causes(item, rule, found)?;
    keep_near(graph, item, rule, found, near)?;
    let Some((_, least)) = closest(near, costs) else {
        return Ok(0);
    };
    let close = near.iter().filter(|cause| cost_of(*cause, costs) == least);
    Ok(close.count().saturating_sub(1))
}
