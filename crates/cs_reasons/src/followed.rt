// Causes of which the chosen alternatives are followed.
ghost use Rattle.std.specs.Prelude.{◌≡◌};
ghost use Rattle.cs_reasons.specs.Followed.{HasAlternative};

use crate::marks::Marks;
use crate::{Cause, Chooses, Explains};
use std::alloc::AllocError;

/// The causes of pairs, where of alternatives those are followed that were chosen.
#[derive(Drop)]
pub(crate) struct Followed<'a, G: Chooses> {
    pub(crate) graph: &'a G,
    pub(crate) chosen: &'a Marks,
}

impl<G: Chooses> Followed<'_, G> {
    ghost use Rattle.cs_reasons.specs.Followed.{is_followed};
    ghost use Rattle.cs_reasons.specs.Marked.{marked};

    // Whether a cause is followed: it is no alternative, or one that was chosen.
    fn follows(&self, cause: &G::Cause) -> bool
        ensures { result ≡ is_followed G.Cause.leads_to G.Cause.is_alternative (marked self.now.chosen.now) cause.now }
    {
        !cause.is_alternative()
            || match cause.leads_to() {
                Some((item, rule)) => self.chosen.get(item, rule),
                None => false,
            }
    }
}

impl<G: Chooses> Explains for Followed<'_, G> {
    ghost use Rattle.cs_reasons.specs.Followed.{followed_earlier};
    ghost use Rattle.cs_reasons.specs.Marked.{marked};
    ghost use Rattle.cs_reasons.specs.Reasons.{IsFollowed};

    type Cause = G::Cause;

    ghost item_count = { λ s. G.item_count s.graph.now };

    ghost rule_count = { λ s. G.rule_count s.graph.now };

    ghost is_refused = { λ s. G.is_refused s.graph.now };

    ghost is_cause = { λ s. IsFollowed G.Cause.leads_to (G.is_cause s.graph.now) G.Cause.is_alternative (G.none s.graph.now) (marked s.chosen.now) };

    ghost earlier = { λ s. followed_earlier G.Cause.leads_to G.Cause.is_alternative (G.is_cause s.graph.now) (G.is_refused s.graph.now) (G.none s.graph.now) (marked s.chosen.now) (G.earlier s.graph.now) (G.none_leads_nowhere s.graph.now) };

    ghost within = { λ s. G.within s.graph.now };

    fn items(&self) -> usize {
        self.graph.items()
    }

    fn rules(&self) -> usize {
        self.graph.rules()
    }

    fn causes(
        &self,
        item: usize,
        rule: usize,
        found: &mut Vec<G::Cause>,
    ) -> Result<(), AllocError> {
        self.graph.causes(item, rule, found)?;
        let any = has_alternative(found);
        found.retain(|cause| self.follows(cause));
        if any && !has_alternative(found) {
            found.push(self.graph.none())?;
        }
        Ok(())
    }
}

/// Whether one of the causes is an alternative.
pub(crate) fn has_alternative<C: Cause>(causes: &[C]) -> bool
    ensures { HasAlternative C.leads_to C.is_alternative causes.now result }
{
    for cause in causes {
        if cause.is_alternative() {
            return true;
        }
    }
    false
}
