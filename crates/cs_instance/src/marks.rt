// What rules compare texts and integers with.
ghost use Rattle.std.specs.Prelude.{[], OnOk};
ghost use Rattle.cs_package.specs.Expression.{range};
ghost use Rattle.cs_package.specs.View.{expression_of};
ghost use Rattle.cs_rules.specs.Alike.{IsToldBy, HasMore};
ghost use Rattle.cs_instance.specs.Steps.{step, test_of};
ghost use Rattle.cs_instance.specs.Told.{IsTold};

use crate::rules::Rule;
use cs_package::{Comparison, Shape};
use cs_rules::Marks;
use std::alloc::AllocError;

/// Marks the limits of a range.
fn mark_range(least: i64, greatest: Option<i64>, marks: &mut Marks) -> Result<(), AllocError>
    ensures told { OnOk result (IsTold (test_of (range least greatest)) marks.new) }
    ensures more { OnOk result (HasMore marks.old marks.new) }
{
    marks.integer(least)?;
    match greatest {
        Some(limit) => marks.integer(limit),
        None => Ok(()),
    }
}

/// Marks what an expression that looks at no part compares with: its text, its integer or its limits.
#[tactic(auto, using(crate::proofs::AlikeScalars::same_marks))]
fn mark_test(shape: &Shape, marks: &mut Marks) -> Result<(), AllocError>
    ensures told { OnOk result (IsTold (test_of (expression_of [] shape.now)) marks.new) }
    ensures more { OnOk result (HasMore marks.old marks.new) }
{
    match shape.comparison() {
        Comparison::Nothing => Ok(()),
        Comparison::Text(text) => marks.text(text),
        Comparison::Integer(integer) => marks.integer(integer),
        Comparison::Range { least, greatest } => mark_range(least, greatest, marks),
    }
}

/// Marks what a rule compares with. One with parts compares nothing itself.
#[tactic(auto, using(crate::proofs::AlikeScalars::same_marks))]
pub(crate) fn mark(rule: &Rule<'_>, marks: &mut Marks) -> Result<(), AllocError>
    ensures told { OnOk result (IsToldBy (step rule.now) marks.new) }
    ensures more { OnOk result (HasMore marks.old marks.new) }
{
    match rule {
        Rule::Simple(shape) => mark_test(shape, marks),
        Rule::All(_) | Rule::Any(_) | Rule::Struct { .. } | Rule::List { .. } => Ok(()),
    }
}
