// Tables filled from the first item to the last.
ghost use Rattle.std.specs.Prelude.{◌≡◌, ℕ, ◌+◌, ◌<◌, ◌≤◌, ◌*◌, length, slice_get, slice_set, IfOk, IfErr, IfSome, OnOk, OnErr, MatchOption};
ghost use Rattle.cs_table.specs.Classes.{AreFirsts};
ghost use Rattle.cs_table.specs.Decided.{IsDecided};
ghost use Rattle.cs_table.specs.Filled.{IsFilledTo};
ghost use Rattle.cs_table.specs.Judged.{AllVerdicts, IsJudged, verdicts};
ghost use Rattle.cs_table.specs.Limit.{most_pairs};
ghost use Rattle.cs_table.specs.Refused.{IsRefusal};

use crate::{Judge, Row, TableFault, Verdicts};
use std::alloc::Global;

/// The only table in which the verdict of each pair is what the judge gives with that table. An item whose class has an
/// earlier one takes the verdicts of that one. Of any other item the judge is asked once what is decided of it, and once
/// for each pair that isn't decided beforehand.
///
/// # Errors
/// `TooManyPairs`, with how many items and rules there are, exactly where these make more than 67,108,864 pairs.
pub fn fill<J: Judge>(alloc: Global, judge: &J) -> Result<Verdicts, TableFault>
    ensures judged { IfOk result (λ t. IsJudged (J.item_count judge.now) (J.rule_count judge.now)
        (J.answer judge.now) (verdicts t)) }
    ensures unique { IfOk result (λ t. (f : AllVerdicts)
        → IsJudged (J.item_count judge.now) (J.rule_count judge.now) (J.answer judge.now) f
        → (i r : ℕ) → i < J.item_count judge.now → r < J.rule_count judge.now
        → verdicts t i r ≡ f i r) }
    ensures items { IfOk result (λ t. t.items ≡ J.item_count judge.now) }
    ensures rules { IfOk result (λ t. t.rules ≡ J.rule_count judge.now) }
    ensures count { IfOk result (λ t. length t.given
        ≡ J.item_count judge.now * J.rule_count judge.now) }
    ensures within { OnOk result (J.item_count judge.now * J.rule_count judge.now ≤ most_pairs) }
    ensures refused { IfErr result (IsRefusal (J.item_count judge.now) (J.rule_count judge.now)) }
{
    let mut done = Verdicts::new(alloc);
    refill(judge, &mut done)?;
    Ok(done)
}

/// As [`fill`], in the memory of a table that is there already. After an error that table has no item, and is one to be
/// filled again.
///
/// # Errors
/// `TooManyPairs`, with how many items and rules there are, exactly where these make more than 67,108,864 pairs.
pub fn refill<J: Judge>(judge: &J, done: &mut Verdicts) -> Result<(), TableFault>
    ensures judged { OnOk result (IsJudged (J.item_count judge.now) (J.rule_count judge.now)
        (J.answer judge.now) (verdicts done.new)) }
    ensures unique { OnOk result ((f : AllVerdicts)
        → IsJudged (J.item_count judge.now) (J.rule_count judge.now) (J.answer judge.now) f
        → (i r : ℕ) → i < J.item_count judge.now → r < J.rule_count judge.now
        → verdicts done.new i r ≡ f i r) }
    ensures items { OnOk result (done.new.items ≡ J.item_count judge.now) }
    ensures rules { OnOk result (done.new.rules ≡ J.rule_count judge.now) }
    ensures count { OnOk result (length done.new.given
        ≡ J.item_count judge.now * J.rule_count judge.now) }
    ensures within { OnOk result (J.item_count judge.now * J.rule_count judge.now ≤ most_pairs) }
    ensures refused { IfErr result (IsRefusal (J.item_count judge.now) (J.rule_count judge.now)) }
    ensures emptied { OnErr result (done.new.items ≡ 0) }
{
    let items = judge.items();
    let mut firsts = done.blank(items, judge.rules(), judge.classes())?;
    for item in 0..items {
        fill_item(judge, item, &mut firsts, done);
    }
    done.keep_firsts(firsts);
    Ok(())
}

// Gives an item its verdicts: those of the first item of its class where there is one, and else what is judged.
fn fill_item<J: Judge>(judge: &J, item: usize, firsts: &mut [Option<usize>], done: &mut Verdicts)
    requires item { item < J.item_count judge.now }
    requires before { IsFilledTo item (J.item_count judge.now) (J.rule_count judge.now)
        (J.answer judge.now) done.old }
    requires firsts { AreFirsts item (J.is_of_class judge.now) firsts.old }
    ensures filled { IsFilledTo (item + 1) (J.item_count judge.now) (J.rule_count judge.now)
        (J.answer judge.now) done.new }
    ensures firsts { AreFirsts (item + 1) (J.is_of_class judge.now) firsts.new }
{
    let class = judge.class(item);
    match first_of(firsts, class) {
        Some(first) => done.repeat_row(item, first),
        None => {
            judge_item(judge, item, done);
            set_first(firsts, class, item);
        }
    }
}

// The first item of a class.
#[inline]
fn first_of(firsts: &[Option<usize>], class: Option<usize>) -> Option<usize>
    ensures { IfSome result
        (λ j. (c : ℕ) × (class ≡ Some c) × (slice_get firsts.now c ≡ Some (Some j))) }
{
    *firsts.get(class?)?
}

// An item is the first of its class, if it has one.
#[inline]
fn set_first(firsts: &mut [Option<usize>], class: Option<usize>, item: usize)
    ensures { MatchOption class (firsts.new ≡ firsts.old)
        (λ c. firsts.new ≡ slice_set firsts.old c (Some item)) }
{
    if let Some(class) = class
        && class < firsts.len()
    {
        firsts[class] = Some(item);
    }
}

// Judges an item by the rules that aren't decided beforehand.
fn judge_item<J: Judge>(judge: &J, item: usize, done: &mut Verdicts)
    requires item { item < J.item_count judge.now }
    requires before { IsFilledTo item (J.item_count judge.now) (J.rule_count judge.now)
        (J.answer judge.now) done.old }
    ensures { IsFilledTo (item + 1) (J.item_count judge.now) (J.rule_count judge.now)
        (J.answer judge.now) done.new }
{
    match judge.decided(item) {
        Some(row) => judge_left(judge, item, row, done),
        None => judge_all(judge, item, done),
    }
}

// Takes what is decided of an item, and judges the rules that are left.
fn judge_left<J: Judge>(judge: &J, item: usize, row: Row<'_>, done: &mut Verdicts)
    requires item { item < J.item_count judge.now }
    requires decided { IsDecided (J.rule_count judge.now) (J.answer judge.now) item row }
    requires before { IsFilledTo item (J.item_count judge.now) (J.rule_count judge.now)
        (J.answer judge.now) done.old }
    ensures { IsFilledTo (item + 1) (J.item_count judge.now) (J.rule_count judge.now)
        (J.answer judge.now) done.new }
{
    done.take_row(item, row.table, row.item);
    for &left in row.left {
        let verdict = judge.judge(item, left, done);
        done.give(item, left, verdict);
    }
}

// Judges an item of which nothing is decided, by each rule.
fn judge_all<J: Judge>(judge: &J, item: usize, done: &mut Verdicts)
    requires item { item < J.item_count judge.now }
    requires before { IsFilledTo item (J.item_count judge.now) (J.rule_count judge.now)
        (J.answer judge.now) done.old }
    ensures { IsFilledTo (item + 1) (J.item_count judge.now) (J.rule_count judge.now)
        (J.answer judge.now) done.new }
{
    for rule in 0..done.rules() {
        let verdict = judge.judge(item, rule, done);
        done.give(item, rule, verdict);
    }
}
