// The judge of a document's values by a package's rules.
use crate::by_kind::by_kind;
use crate::marks::mark;
use crate::rules::Rule;
use crate::steps::holds;
use cs_flat::{Flat, Item};
use cs_rules::{Asks, ByKind, Known, Marks, RuleJudge};
use std::alloc::AllocError;

/// Judges the values of a document by the definitions that a root reaches and the expressions in their bodies: the items
/// of [`cs_flat::Flat`] by rules, each of which is after those that it asks of the same value.
pub type InstanceJudge<'a> = RuleJudge<'a, Rule<'a>>;

impl<'a> Asks for Rule<'a> {
    ghost use Rattle.cs_instance.specs.Numbering.{PartsBelow};
    ghost use Rattle.cs_instance.specs.Steps.{step, asked_of};
    ghost use Rattle.cs_instance.specs.Props.{parts_prop, parts_weaker};
    ghost use Rattle.cs_instance.specs.Looks.{numbers_same};

    ghost step = { step };

    ghost below = { λ s r m. PartsBelow r m (asked_of s) };

    fn holds(&self, value: &Item<'_>, _flat: &Flat<'_>, known: &Known<'_>) -> bool {
        holds(self, value, known)
    }

    fn by_kind(&self, earlier: &[ByKind]) -> ByKind {
        by_kind(self, earlier)
    }

    fn mark(&self, marks: &mut Marks) -> Result<(), AllocError> {
        mark(self, marks)
    }

    ghost looks_at_parts = { λ s i r m here here' inside inside' h k d. numbers_same i r m here here' inside inside' h k (asked_of s) };

    ghost below_more = { λ s r m n k l j. parts_weaker r m n k l j (asked_of s) };

    ghost below_prop = { λ s r m. parts_prop r m (asked_of s) };
}
