// How many names the schemas of a schema document require.
ghost use Rattle.std.specs.Prelude.{◌≡◌, ◌<◌, ◌*◌, ◌-◌, ◌^◌, ◌↔◌, min, sum_by, IsTrue};
ghost use Rattle.cs_table.specs.Limit.{most_pairs};
ghost use Rattle.cs_validity_reasons.specs.Required.{names_required};
ghost use Rattle.cs_validate.specs.Steps.{asked_of};

use cs_validate::Rule;

/// How many pairs of a value and a required name there may be where reasons are told: as many as a table may have.
const MOST_PAIRS: usize = 67_108_864;

/// How many names a rule requires (Validation, section 6.5.3).
fn names_of(rule: &Rule<'_>) -> usize
    ensures { result ≡ names_required (asked_of rule.now) }
{
    match rule {
        Rule::Truth(_) => 0,
        Rule::Object(conjunction) => conjunction.keywords.required.len(),
    }
}

/// How many names these rules require, all together; the largest number where there are more.
fn names_of_all(rules: &[Rule<'_>]) -> usize
    ensures { result ≡ min (sum_by (λ r. names_required (asked_of r)) rules.now) (2 ^ 64 - 1) }
{
    let mut names = 0usize;
    for rule in rules {
        names = names.saturating_add(names_of(rule));
    }
    names
}

/// Whether so many values and the names that these rules require make more pairs than a table may have.
pub(crate) fn has_many_names(rules: &[Rule<'_>], values: usize) -> bool
    ensures { IsTrue result
        ↔ (most_pairs < values * sum_by (λ r. names_required (asked_of r)) rules.now) }
{
    values.saturating_mul(names_of_all(rules)) > MOST_PAIRS
}
