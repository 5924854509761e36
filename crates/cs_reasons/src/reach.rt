// The pairs that chains of causes lead to.
ghost use Rattle.std.specs.Prelude.{◌≡◌, ℕ, ◌<◌, length, IfOk};
ghost use Rattle.cs_reasons.specs.Reached.{AreMarked, AreReached, IsLedTo};

use crate::marks::Marks;
use crate::{Cause, Explains};
use std::alloc::{AllocError, Global};

/// The pairs that chains of causes lead to from a refused pair.
pub(crate) fn reach<G: Explains>(
    alloc: Global,
    graph: &G,
    item: usize,
    rule: usize,
) -> Result<Marks, AllocError>
    requires { G.is_refused graph.now item rule }
    ensures items { IfOk result (λ m. m.items ≡ G.item_count graph.now) }
    ensures rules { IfOk result (λ m. m.rules ≡ G.rule_count graph.now) }
    ensures reached { IfOk result (AreReached G.Cause.leads_to (G.is_cause graph.now) item rule) }
{
    let mut marks = Marks::new(alloc, graph.items(), graph.rules())?;
    marks.mark(item, rule);
    let mut found = Vec::new(alloc);
    let mut at = Some((item, rule));
    while let Some((from, by)) = at {
        found.clear();
        graph.causes(from, by, &mut found)?;
        mark_all(&found, &mut marks);
        at = marks.last_before(from, by);
    }
    Ok(marks)
}

// Marks the pairs that causes lead to.
fn mark_all<C: Cause>(causes: &[C], marks: &mut Marks)
    requires { (j q : ℕ) → IsLedTo C.leads_to causes.now (length causes.now) j q
        → (j < marks.old.items) × (q < marks.old.rules) }
    ensures items { marks.new.items ≡ marks.old.items }
    ensures rules { marks.new.rules ≡ marks.old.rules }
    ensures marked { AreMarked C.leads_to causes.now (length causes.now) marks.old marks.new }
{
    for cause in causes {
        if let Some((item, rule)) = cause.leads_to() {
            marks.mark(item, rule);
        }
    }
}
