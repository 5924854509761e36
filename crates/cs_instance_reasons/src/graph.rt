// The causes of a document's refused pairs of a value and a rule.
ghost use Rattle.std.specs.Prelude.{◌≡◌, length, map};
ghost use Rattle.cs_flat.specs.Listed.{values};
ghost use Rattle.cs_rules.specs.Answers.{answer};
ghost use Rattle.cs_rules.specs.Props.{inside_prop};
ghost use Rattle.cs_rules.specs.Steps.{AreLower};
ghost use Rattle.cs_table.specs.Judged.{IsJudged, verdicts};
ghost use Rattle.cs_instance_reasons.specs.Leads.{AreEarlierParts};
ghost use Rattle.cs_instance.specs.Steps.{step, numbered};

use crate::InstanceCause;
use crate::causes::tell_causes;
use crate::near::{near, weight};
use cs_flat::Flat;
use cs_instance::Rule;
use cs_reasons::{Chooses, Explains};
use cs_rules::{Known, Rulebook};
use cs_table::Verdicts;
use std::alloc::{AllocError, Global};

type Told = Result<(), AllocError>;

/// A document, the rules that it was judged by, and the table of the verdicts.
#[derive(Drop)]
pub(crate) struct InstanceGraph<'a> {
    pub(crate) alloc: Global,
    pub(crate) book: &'a Rulebook<Rule<'a>>,
    pub(crate) flat: &'a Flat<'a>,
    pub(crate) table: &'a Verdicts,
    pub(crate) ghost items: { table.now.items ≡ length flat.now },
    pub(crate) ghost rules: { table.now.rules ≡ length book.now.numbering.rules.items },
    pub(crate) ghost judged: { ∥ IsJudged (length flat.now)
        (length book.now.numbering.rules.items)
        (answer step book.now.numbering.rules.items book.now.numbering.children.items
        (values flat.now) flat.now) (verdicts table.now) ∥₁ },
    pub(crate) ghost parts: { ∥ AreEarlierParts
        (map (numbered book.now.numbering.children.items) book.now.numbering.rules.items) ∥₁ },
    pub(crate) ghost lower: { AreLower flat.now } by { Prim.hlevel inside_prop },
}

impl Explains for InstanceGraph<'_> {
    ghost use Rattle.std.specs.Prelude.{length, map};
    ghost use Rattle.cs_table.specs.Judged.{verdicts};
    ghost use Rattle.cs_instance_reasons.specs.Leads.{leads_earlier, within_pairs};
    ghost use Rattle.cs_instance_reasons.specs.NumberedCauses.{IsRefusedPair};
    ghost use Rattle.cs_instance_reasons.specs.SeenCauses.{IsCauseAt};
    ghost use Rattle.cs_instance.specs.Steps.{numbered};

    type Cause = InstanceCause;

    ghost item_count = { λ s. length s.flat.now };

    ghost rule_count = { λ s. length s.book.now.numbering.rules.items };

    ghost is_refused = { λ s. IsRefusedPair (map (numbered s.book.now.numbering.children.items) s.book.now.numbering.rules.items) s.flat.now (verdicts s.table.now) };

    ghost is_cause = { λ s. IsCauseAt (map (numbered s.book.now.numbering.children.items) s.book.now.numbering.rules.items) s.flat.now (verdicts s.table.now) };

    fn items(&self) -> usize {
        self.flat.len()
    }

    fn rules(&self) -> usize {
        self.book.numbering.rules.len()
    }

    fn causes(&self, item: usize, rule: usize, found: &mut Vec<InstanceCause>) -> Told {
        let value = self.flat.item(item);
        let known = Known {
            item,
            children: &self.book.numbering.children,
            done: self.table,
            lengths: &[],
        };
        tell_causes(
            &self.book.numbering.rules[rule],
            &value,
            &known,
            rule,
            found,
        )
    }

    ghost earlier = { λ s. leads_earlier (map (numbered s.book.now.numbering.children.items) s.book.now.numbering.rules.items) s.flat.now (verdicts s.table.now) s.parts s.lower };

    ghost within = { λ s. within_pairs (numbered s.book.now.numbering.children.items) s.book.now.numbering.rules.items s.flat.now (verdicts s.table.now) };
}

impl Chooses for InstanceGraph<'_> {
    ghost use Rattle.std.specs.Prelude.{map, refl};
    ghost use Rattle.cs_table.specs.Judged.{verdicts};
    ghost use Rattle.cs_instance_reasons.specs.Leads.{none_other};
    ghost use Rattle.cs_instance.specs.Steps.{numbered};
    ghost use Rattle.cs_instance_reasons.specs.declared.cause.InstanceCause.TheVariants.{NoAlternative};

    ghost none = { λ _. NoAlternative };

    fn none(&self) -> InstanceCause {
        InstanceCause::NoAlternative
    }

    fn keep_near(&self, item: usize, _rule: usize, alternatives: &mut Vec<InstanceCause>) -> Told {
        *alternatives = near(self, item, alternatives)?;
        Ok(())
    }

    fn weight(&self, leaves: &[InstanceCause]) -> usize {
        weight(self, leaves)
    }

    ghost none_leads_nowhere = { λ s. refl };

    ghost none_is_other = { λ s. none_other (map (numbered s.book.now.numbering.children.items) s.book.now.numbering.rules.items) s.flat.now (verdicts s.table.now) };
}
