// The reasons of refused pairs.
ghost use Rattle.std.specs.Prelude.{IfOk};
ghost use Rattle.cs_table.specs.Judged.{AllVerdicts};
ghost use Rattle.cs_reasons.specs.Reasons.{IsFollowed};
ghost use Rattle.cs_reasons.specs.Told.{AreReasons};

use crate::choosing::choose;
use crate::followed::Followed;
use crate::listing::list;
use crate::marks::Marks;
use crate::reach::reach;
use crate::ties::count_ties;
use crate::{Chooses, Explains, Reasons};
use std::alloc::{AllocError, Global};

/// All reasons of a refused pair, of which at most so many are told. Only memory can run out.
pub fn explain_all<G: Explains>(
    alloc: Global,
    graph: &G,
    item: usize,
    rule: usize,
    most: usize,
) -> Result<Reasons<G::Cause>, AllocError>
    requires { G.is_refused graph.now item rule }
    ensures { IfOk result (AreReasons G.Cause.leads_to (G.is_cause graph.now) item rule most) }
{
    let marks = reach(alloc, graph, item, rule)?;
    list(alloc, graph, item, rule, &marks, most)
}

/// The reasons of a refused pair where of alternatives the closest one is followed, or where none is close, it is told that
/// none holds. Only memory can run out.
pub fn explain_closest<G: Chooses>(
    alloc: Global,
    graph: &G,
    item: usize,
    rule: usize,
    most: usize,
) -> Result<Reasons<G::Cause>, AllocError>
    requires { G.is_refused graph.now item rule }
    ensures { IfOk result (λ rs. (chosen : AllVerdicts) × AreReasons G.Cause.leads_to
        (IsFollowed G.Cause.leads_to (G.is_cause graph.now) G.Cause.is_alternative (G.none graph.now) chosen)
        item rule most rs) }
{
    let marks = reach(alloc, graph, item, rule)?;
    let mut chosen = Marks::new(alloc, graph.items(), graph.rules())?;
    let costs = choose(alloc, graph, item, rule, &marks, &mut chosen)?;
    let followed = Followed {
        graph,
        chosen: &chosen,
    };
    let marks = reach(alloc, &followed, item, rule)?;
    let mut reasons = list(alloc, &followed, item, rule, &marks, most)?;
    count_ties(alloc, graph, &costs, &mut reasons.links)?;
    Ok(reasons)
}
