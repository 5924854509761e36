// Judges of items by rules.
ghost use Rattle.std.specs.Prelude.{◌≡◌, ℕ, ◌<◌, IfSome};
ghost use Rattle.cs_table.specs.Classes.{AnswersByClass};
ghost use Rattle.cs_table.specs.Judged.{Judgement, LooksBack, verdicts};
ghost use Rattle.cs_table.specs.Decided.{IsDecided};

use crate::Verdicts;

/// What is decided of an item before its rules are judged: its verdicts, but for the rules that are left.
#[derive(Drop)]
pub struct Row<'a> {
    /// A table with the same rules, of which one item has these verdicts. It says no for the rules that are left.
    pub table: &'a Verdicts,
    pub item: usize,
    /// The rules that are left to be judged, ascending.
    pub left: &'a [usize],
}

/// Judges items by rules, where the verdicts of earlier pairs are known. Pairs are ordered by item, then by rule.
pub trait Judge {
    /// How many items there are, and how many rules.
    ghost item_count: { Self → ℕ };

    ghost rule_count: { Self → ℕ };

    /// What the judge answers for a pair, where a table gives the other verdicts.
    ghost answer: { Self → Judgement };

    /// Whether an item is of a class. Items of one class can't be told apart but by their verdicts.
    ghost is_of_class: { Self → ℕ → ℕ → Type 0 } = { λ _ _ _. ⊥ };

    /// How many items there are.
    fn items(&self) -> usize
        ensures { result ≡ item_count self.now };

    /// How many rules there are.
    fn rules(&self) -> usize
        ensures { result ≡ rule_count self.now };

    /// The verdict of a pair. `done` has the judge's sizes, and the verdicts of earlier pairs.
    fn judge(&self, item: usize, rule: usize, done: &Verdicts) -> bool
        requires item { item < item_count self.now }
        requires rule { rule < rule_count self.now }
        requires items { done.now.items ≡ item_count self.now }
        requires rules { done.now.rules ≡ rule_count self.now }
        ensures { result ≡ answer self.now item rule (verdicts done.now) };

    /// What is decided of an item by itself, if anything is: verdicts that hold whatever those on earlier items are.
    fn decided(&self, item: usize) -> Option<Row<'_>>
        requires { item < item_count self.now }
        ensures { IfSome result (IsDecided (rule_count self.now) (answer self.now) item) }
    {
        None
    }

    /// How many classes of items there are: memory is taken for each.
    fn classes(&self) -> usize {
        0
    }

    /// The class of an item, if it has one. No rule is judged for an item whose class has an earlier one.
    fn class(&self, item: usize) -> Option<usize>
        requires { item < item_count self.now }
        ensures { IfSome result (is_of_class self.now item) }
    {
        None
    }

    /// Law: any two tables that agree on the earlier pairs give the same answer.
    ghost looks_back: { (s : Self) → LooksBack (rule_count s) (answer s) };

    /// Law: items of one class that have the same verdicts by a table get the same answers by it.
    ghost same_class: { (s : Self) → AnswersByClass (rule_count s) (answer s) (is_of_class s) };
}
