// Pairs of a value and a schema over a table of verdicts, with the causes of those that it refuses.
ghost use Rattle.std.specs.Prelude.{◌≡◌, length};
ghost use Rattle.cs_flat.specs.Listed.{values};
ghost use Rattle.cs_rules.specs.Answers.{answer};
ghost use Rattle.cs_rules.specs.Lengths.{AreLengths};
ghost use Rattle.cs_rules.specs.Props.{inside_prop};
ghost use Rattle.cs_rules.specs.Steps.{AreLower};
ghost use Rattle.cs_table.specs.Judged.{IsJudged, verdicts};
ghost use Rattle.cs_validate.specs.Steps.{step};

use crate::cause::PlacedCause;
use crate::causes::object_causes;
use crate::causes::values::tell_unless;
use crate::nearness::keep_near;
use cs_flat::Flat;
use cs_reasons::{Chooses, Explains};
use cs_rules::{Known, Rulebook};
use cs_table::Verdicts;
use cs_validate::Rule;
use std::alloc::AllocError;

type Told = Result<(), AllocError>;

/// The values of a document and the rules of a schema document, over the table of their verdicts.
#[derive(Drop)]
pub(crate) struct ValidGraph<'a, 'b> {
    pub(crate) book: &'a Rulebook<Rule<'b>>,
    pub(crate) flat: &'a Flat<'a>,
    pub(crate) table: &'a Verdicts,
    /// How long the texts are, as far as that is known.
    pub(crate) lengths: &'a [usize],
    ghost counted: { AreLengths flat.now lengths.now },
    ghost lower: { AreLower flat.now } by { Prim.hlevel inside_prop },
    ghost items: { table.now.items ≡ length flat.now },
    ghost rules: { table.now.rules ≡ length book.now.numbering.rules.items },
    ghost judged: { IsJudged (length flat.now) (length book.now.numbering.rules.items)
        (answer step book.now.numbering.rules.items book.now.numbering.children.items
        (values flat.now) flat.now)
        (verdicts table.now) },
}

impl Explains for ValidGraph<'_, '_> {
    ghost use Rattle.std.specs.Prelude.{◌≡◌, ◌<◌, false, length};
    ghost use Rattle.cs_table.specs.Judged.{verdicts};
    ghost use Rattle.cs_validity_reasons.specs.PlacedCauses.{IsPlacedCause};
    ghost use Rattle.cs_validity_reasons.specs.Refused.{earlier_pair};

    type Cause = PlacedCause;

    ghost item_count = { λ s. length s.flat.now };

    ghost rule_count = { λ s. length s.book.now.numbering.rules.items };

    ghost is_refused = { λ s i r. (i < length s.flat.now) × (r < length s.book.now.numbering.rules.items) × (verdicts s.table.now i r ≡ false) };

    ghost is_cause = { λ s. IsPlacedCause (verdicts s.table.now) s.flat.now s.book.now.numbering.rules.items s.book.now.numbering.children.items };

    ghost earlier = { λ s i r j q c h e. earlier_pair (verdicts s.table.now) s.flat.now s.book.now.numbering.rules.items s.book.now.numbering.children.items s.lower s.book.now.numbering.placed i r j q c h e };

    ghost within = { λ s i r h. (h.0, h.1) };

    fn items(&self) -> usize {
        self.flat.len()
    }

    fn rules(&self) -> usize {
        self.book.numbering.rules.len()
    }

    fn causes(&self, item: usize, rule: usize, found: &mut Vec<PlacedCause>) -> Told {
        let value = self.flat.item(item);
        match &self.book.numbering.rules[rule] {
            Rule::Truth(_) => tell_unless(false, PlacedCause::Never, found),
            Rule::Object(conjunction) => {
                let known = Known {
                    item,
                    children: &self.book.numbering.children,
                    done: self.table,
                    lengths: self.lengths,
                };
                object_causes(conjunction, &value, self.flat, &known, found)
            }
        }
    }
}

impl Chooses for ValidGraph<'_, '_> {
    ghost use Rattle.std.specs.Prelude.{refl};
    ghost use Rattle.cs_validity_reasons.specs.declared.cause.KeyedCause.TheVariants.{NoAlternative};
    ghost use Rattle.cs_validity_reasons.specs.Refused.{no_other};

    ghost none = { λ _. NoAlternative };

    ghost none_leads_nowhere = { λ s. refl };

    ghost none_is_other = { λ s i r c h e. no_other (verdicts s.table.now) s.flat.now s.book.now.numbering.rules.items s.book.now.numbering.children.items i r c h e };

    fn none(&self) -> PlacedCause {
        PlacedCause::NoAlternative
    }

    fn keep_near(&self, item: usize, rule: usize, alternatives: &mut Vec<PlacedCause>) -> Told {
        keep_near(self, item, alternatives)
    }

    fn weight(&self, leaves: &[PlacedCause]) -> usize {
        leaves.len()
    }
}
