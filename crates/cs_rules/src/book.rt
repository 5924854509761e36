// Books of numbered rules, which any number of documents are judged by.
ghost use Rattle.cs_rules.specs.Steps.{ArePlaced, AreLower};
ghost use Rattle.cs_rules.specs.Lengths.{AreLengths};
ghost use Rattle.cs_rules.specs.Props.{inside_prop, lengths_prop};
ghost use Rattle.cs_rules.specs.Rows.{AreRowsOf};
ghost use Rattle.cs_rules.specs.Sharing.{AreToldBy};
ghost use Rattle.cs_flat.specs.Items.{AreItems};
ghost use Rattle.cs_flat.specs.Listed.{values};

use crate::by_kind::place_of;
use crate::classes::{Classes, marks_of};
use crate::rows::{Rows, rows_of};
use crate::{Asks, Known};
use cs_flat::Flat;
use cs_table::{Judge, Row, Verdicts};
use std::alloc::{AllocError, Global};

/// Rules, each after those that it asks of the same document.
#[derive(Drop)]
pub struct Numbering<R: Asks> {
    pub rules: Vec<R>,
    /// The rules that are asked of documents inside.
    pub children: Vec<usize>,
    pub ghost placed: { ∥ ArePlaced R.below rules.items children.items ∥₁ },
}

/// Numbered rules with what is decided of each kind of values: all that judging takes and that no document changes.
pub struct Rulebook<R: Asks> {
    pub numbering: Numbering<R>,
    /// What is decided of each kind of values; none where the table for it would be too large.
    rows: Option<Rows>,
    /// Classes of scalars that no rule can tell apart.
    pub(crate) classes: Classes,
    ghost told: { ∥ AreRowsOf R.step numbering.rules.items rows ∥₁ },
    pub(crate) ghost marked: { ∥ AreToldBy R.step numbering.rules.items classes ∥₁ },
}

impl<R: Asks> Drop for Rulebook<R> {
    fn drop(self) {
        let Rulebook {
            numbering: _,
            rows: _,
            classes: _,
        } = self;
    }
}

/// Judges the values of one document by a book of rules.
#[derive(Drop)]
pub struct RulebookJudge<'a, R: Asks> {
    pub book: &'a Rulebook<R>,
    pub flat: &'a Flat<'a>,
    /// Whether values are judged by class: only where the document has as many values as there are classes.
    by_class: bool,
    /// How long the texts of the document are, if a rule asks for that.
    pub lengths: Vec<usize>,
    pub ghost lower: { AreLower flat.now } by { Prim.hlevel inside_prop },
    pub ghost shown: { ∥ AreItems (values flat.now) flat.now ∥₁ },
    pub ghost measured: { AreLengths flat.now lengths.items } by { Prim.hlevel lengths_prop },
}

impl<R: Asks> Rulebook<R> {
    ghost use Rattle.std.specs.Prelude.{◌≡◌, ◌<◌, ◌*◌, length, slice_get, IfOk, IfSome, IsNone};
    ghost use Rattle.cs_rules.specs.Classed.{HasClassAt};
    ghost use Rattle.cs_table.specs.Decided.{IsDecided};
    ghost use Rattle.cs_table.specs.Judged.{verdicts};
    ghost use Rattle.cs_table.specs.Limit.{most_pairs};
    ghost use Rattle.cs_rules.specs.Answers.{answer};
    ghost use Rattle.cs_rules.specs.Rows.{kind_count};

    /// The book of these rules.
    pub fn of(alloc: Global, numbering: Numbering<R>) -> Result<Rulebook<R>, AllocError>
        ensures { IfOk result (λ b. b.numbering ≡ numbering) }
    {
        let rows = rows_of(alloc, &numbering.rules)?;
        let classes = Classes::of(marks_of(alloc, &numbering.rules)?);
        Ok(Rulebook {
            numbering,
            rows,
            classes,
        })
    }

    /// The judge of a document by these rules. Only memory can run out, where a rule asks how long texts are.
    pub fn over<'b>(&'b self, flat: &'b Flat<'b>) -> Result<RulebookJudge<'b, R>, AllocError>
        ensures book { IfOk result (λ j. j.book.now.numbering ≡ self.now.numbering) }
        ensures flat { IfOk result (λ j. j.flat.now ≡ flat.now) }
    {
        let by_class = self.classes.count() <= flat.len();
        let lengths = self.classes.lengths_in(flat)?;
        Ok(RulebookJudge {
            book: self,
            flat,
            by_class,
            lengths,
        })
    }

    /// The verdict on a value of a document by a rule, where those of earlier pairs are done.
    #[inline]
    pub(crate) fn judge(
        &self,
        flat: &Flat<'_>,
        lengths: &[usize],
        item: usize,
        rule: usize,
        done: &Verdicts,
    ) -> bool
        requires lower { AreLower flat.now }
        requires lengths { AreLengths flat.now lengths.now }
        requires item { item < length flat.now }
        requires rule { rule < length self.now.numbering.rules.items }
        requires items { done.now.items ≡ length flat.now }
        requires rules { done.now.rules ≡ length self.now.numbering.rules.items }
        ensures { result ≡ answer R.step self.now.numbering.rules.items
            self.now.numbering.children.items (values flat.now) flat.now item rule
            (verdicts done.now) }
    {
        let value = flat.item(item);
        let known = Known {
            item,
            children: &self.numbering.children,
            done,
            lengths,
        };
        self.numbering.rules[rule].holds(&value, flat, &known)
    }

    /// What a value's kind decides, unless the table for it would be too large.
    #[inline]
    pub fn decided(&self, flat: &Flat<'_>, item: usize) -> Option<Row<'_>>
        requires { item < length flat.now }
        ensures decided { IfSome result (IsDecided (length self.now.numbering.rules.items)
            (answer R.step self.now.numbering.rules.items self.now.numbering.children.items
            (values flat.now) flat.now) item) }
        ensures none { IsNone result
            → most_pairs < kind_count * length self.now.numbering.rules.items }
    {
        let _count = flat.len(); // for the proof: each item is its value
        let rows = self.rows.as_ref()?;
        let kind = place_of(&flat.item(item));
        Some(Row {
            table: &rows.table,
            item: kind,
            left: &rows.left[kind],
        })
    }

    /// The class of a value of a document, if it is a scalar.
    #[inline]
    pub(crate) fn class(&self, flat: &Flat<'_>, lengths: &[usize], item: usize) -> Option<usize>
        requires item { item < length flat.now }
        requires lengths { AreLengths flat.now lengths.now }
        ensures { IfSome result (HasClassAt self.now.classes (slice_get flat.now item)) }
    {
        self.classes.class(&flat.item(item), item, lengths)
    }
}

impl<'a, R: Asks> Judge for RulebookJudge<'a, R> {
    ghost use Rattle.std.specs.Prelude.{◌<◌, ◌*◌, length, slice_get, IfSome, IsNone};
    ghost use Rattle.cs_rules.specs.Classed.{HasClassAt};
    ghost use Rattle.cs_rules.specs.Sharing.{answers_by_class};
    ghost use Rattle.cs_table.specs.Decided.{IsDecided};
    ghost use Rattle.cs_table.specs.Limit.{most_pairs};
    ghost use Rattle.cs_rules.specs.Answers.{answer};
    ghost use Rattle.cs_rules.specs.Rows.{kind_count};
    ghost use Rattle.cs_rules.specs.Looks.{answer_looks_back};

    ghost item_count = { λ s. length s.flat.now };

    ghost rule_count = { λ s. length s.book.now.numbering.rules.items };

    ghost answer = { λ s. answer R.step s.book.now.numbering.rules.items s.book.now.numbering.children.items (values s.flat.now) s.flat.now };

    ghost is_of_class = { λ s i c. HasClassAt s.book.now.classes (slice_get s.flat.now i) c };

    ghost same_class = { λ s. answers_by_class R.below R.step R.looks_at_parts s.book.now.numbering.rules.items s.book.now.numbering.children.items (values s.flat.now) s.flat.now s.book.now.classes s.book.now.numbering.placed s.shown s.book.now.marked };

    ghost looks_back = { λ s. answer_looks_back R.below R.step R.looks_at_parts s.book.now.numbering.rules.items s.book.now.numbering.children.items (values s.flat.now) s.flat.now s.book.now.numbering.placed s.lower };

    fn items(&self) -> usize {
        self.flat.len()
    }

    fn rules(&self) -> usize {
        self.book.numbering.rules.len()
    }

    #[inline]
    fn judge(&self, item: usize, rule: usize, done: &Verdicts) -> bool {
        self.book.judge(self.flat, &self.lengths, item, rule, done)
    }

    #[inline]
    fn decided(&self, item: usize) -> Option<Row<'_>>
        requires { item < length self.now.flat.now }
        ensures decided { IfSome result
            (IsDecided (length self.now.book.now.numbering.rules.items)
            (answer R.step self.now.book.now.numbering.rules.items
            self.now.book.now.numbering.children.items
            (values self.now.flat.now) self.now.flat.now) item) }
        ensures none { IsNone result
            → most_pairs < kind_count * length self.now.book.now.numbering.rules.items }
    {
        self.book.decided(self.flat, item)
    }

    fn classes(&self) -> usize {
        if self.by_class {
            self.book.classes.count()
        } else {
            0
        }
    }

    #[inline]
    fn class(&self, item: usize) -> Option<usize> {
        if self.by_class {
            self.book.class(self.flat, &self.lengths, item)
        } else {
            None
        }
    }
}
