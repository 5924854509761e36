// What is decided of each kind of values.
ghost use Rattle.std.specs.Prelude.{◌≡◌, ◌<◌, length, IfOk};
ghost use Rattle.cs_rules.specs.Kinds.{AreForetold};
ghost use Rattle.cs_rules.specs.Rows.{kind_count, verdict_at, AreOpen, AreOpenByKind, AreRowsOf};

use crate::by_kind::KIND_COUNT;
use crate::{Asks, ByKind};
use cs_table::{Judge, TableFault, Verdicts, fill};
use std::alloc::{AllocError, Global};

/// For each kind of values the verdicts that it decides, and the rules that it leaves open.
#[derive(Drop)]
pub(crate) struct Rows {
    /// An item for each kind. It says no for the rules that are left open.
    pub(crate) table: Verdicts,
    /// For each kind the rules that it leaves open, ascending.
    pub(crate) left: Vec<Vec<usize>>,
}

/// Judges kinds of values: whether a kind decides that a rule holds.
#[derive(Drop)]
struct KindJudge<'a> {
    known: &'a [ByKind],
}

impl Judge for KindJudge<'_> {
    ghost use Rattle.std.specs.Prelude.{length, refl};
    ghost use Rattle.cs_rules.specs.Rows.{kind_count, kind_answer};

    ghost item_count = { λ s. kind_count };

    ghost rule_count = { λ s. length s.known.now };

    ghost answer = { λ s. kind_answer s.known.now };

    ghost looks_back = { λ s i r f g h. refl };

    ghost same_class = { λ s i j c none. absurd none };

    fn items(&self) -> usize {
        KIND_COUNT
    }

    fn rules(&self) -> usize {
        self.known.len()
    }

    fn judge(&self, item: usize, rule: usize, _done: &Verdicts) -> bool {
        self.known[rule].row()[item].unwrap_or(false)
    }
}

/// The verdicts by kind of each rule, asked with those of the rules before it.
fn all_by_kind<R: Asks>(alloc: Global, rules: &[R]) -> Result<Vec<ByKind>, AllocError>
    ensures { IfOk result (λ known. AreForetold R.step rules.now known.items) }
{
    let mut known = Vec::with_capacity(alloc, rules.len())?;
    for rule in rules {
        let verdicts = rule.by_kind(&known);
        known.push(verdicts)?;
    }
    Ok(known)
}

/// The rules that the kind at a place leaves open, ascending.
fn open_rules(alloc: Global, known: &[ByKind], place: usize) -> Result<Vec<usize>, AllocError>
    requires { place < kind_count }
    ensures { IfOk result
        (λ rules. AreOpen (length known.now) (verdict_at known.now place) rules.items) }
{
    let mut rules = Vec::new(alloc);
    for (rule, verdicts) in known.iter().enumerate() {
        if verdicts.row()[place].is_none() {
            rules.push(rule)?;
        }
    }
    Ok(rules)
}

/// For each kind the rules that it leaves open.
fn open_by_kind(alloc: Global, known: &[ByKind]) -> Result<Vec<Vec<usize>>, AllocError>
    ensures { IfOk result (λ left. AreOpenByKind known.now left.items) }
{
    let mut left = Vec::with_capacity(alloc, KIND_COUNT)?;
    for place in 0..KIND_COUNT {
        let rules = open_rules(alloc, known, place)?;
        left.push(rules)?;
    }
    Ok(left)
}

/// The rows of these rules, where the table isn't too large.
pub(crate) fn rows_of<R: Asks>(alloc: Global, rules: &[R]) -> Result<Option<Rows>, AllocError>
    ensures { IfOk result (AreRowsOf R.step rules.now) }
{
    let known = all_by_kind(alloc, rules)?;
    let table = match fill(alloc, &KindJudge { known: &known }) {
        Ok(table) => table,
        Err(TableFault::OutOfMemory) => return Err(AllocError),
        Err(TableFault::TooManyPairs { .. }) => return Ok(None),
    };
    let left = open_by_kind(alloc, &known)?;
    Ok(Some(Rows { table, left }))
}
