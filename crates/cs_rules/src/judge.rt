// The judge of a document's values by numbered rules.
ghost use Rattle.cs_rules.specs.Steps.{AreLower};
ghost use Rattle.cs_rules.specs.Lengths.{AreLengths};
ghost use Rattle.cs_rules.specs.Props.{inside_prop, lengths_prop};
ghost use Rattle.cs_flat.specs.Items.{AreItems};
ghost use Rattle.cs_flat.specs.Listed.{values};

use crate::{Asks, Numbering, Rulebook};
use cs_flat::Flat;
use cs_table::{Judge, Row, Verdicts};
use std::alloc::{AllocError, Global};

/// Judges the values of a document by numbered rules, in a book of its own: the items of [`cs_flat::Flat`] by rules, each
/// of which is after those that it asks of the same value.
#[derive(Drop)]
pub struct RuleJudge<'a, R: Asks> {
    pub book: Rulebook<R>,
    pub flat: &'a Flat<'a>,
    /// Whether values are judged by class: only where the document has as many values as there are classes.
    by_class: bool,
    /// How long the texts of the document are, if a rule asks for that.
    lengths: Vec<usize>,
    pub ghost lower: { AreLower flat.now } by { Prim.hlevel inside_prop },
    pub ghost shown: { ∥ AreItems (values flat.now) flat.now ∥₁ },
    ghost measured: { AreLengths flat.now lengths.items } by { Prim.hlevel lengths_prop },
}

impl<'a, R: Asks> Judge for RuleJudge<'a, R> {
    ghost use Rattle.std.specs.Prelude.{◌<◌, ◌*◌, length, slice_get, IfSome, IsNone};
    ghost use Rattle.cs_rules.specs.Classed.{HasClassAt};
    ghost use Rattle.cs_rules.specs.Sharing.{answers_by_class};
    ghost use Rattle.cs_table.specs.Decided.{IsDecided};
    ghost use Rattle.cs_table.specs.Limit.{most_pairs};
    ghost use Rattle.cs_rules.specs.Answers.{answer};
    ghost use Rattle.cs_rules.specs.Rows.{kind_count};
    ghost use Rattle.cs_rules.specs.Looks.{answer_looks_back};

    ghost item_count = { λ s. length s.flat.now };

    ghost rule_count = { λ s. length s.book.numbering.rules.items };

    ghost answer = { λ s. answer R.step s.book.numbering.rules.items s.book.numbering.children.items (values s.flat.now) s.flat.now };

    ghost is_of_class = { λ s i c. HasClassAt s.book.classes (slice_get s.flat.now i) c };

    ghost same_class = { λ s. answers_by_class R.below R.step R.looks_at_parts s.book.numbering.rules.items s.book.numbering.children.items (values s.flat.now) s.flat.now s.book.classes s.book.numbering.placed s.shown s.book.marked };

    ghost looks_back = { λ s. answer_looks_back R.below R.step R.looks_at_parts s.book.numbering.rules.items s.book.numbering.children.items (values s.flat.now) s.flat.now s.book.numbering.placed s.lower };

    fn items(&self) -> usize {
        self.flat.len()
    }

    fn rules(&self) -> usize {
        self.book.numbering.rules.len()
    }

    #[inline]
    fn judge(&self, item: usize, rule: usize, done: &Verdicts) -> bool {
        self.book.judge(self.flat, &self.lengths, item, rule, done)
    }

    #[inline]
    fn decided(&self, item: usize) -> Option<Row<'_>>
        requires { item < length self.now.flat.now }
        ensures decided { IfSome result (IsDecided (length self.now.book.numbering.rules.items)
            (answer R.step self.now.book.numbering.rules.items
            self.now.book.numbering.children.items
            (values self.now.flat.now) self.now.flat.now) item) }
        ensures none { IsNone result
            → most_pairs < kind_count * length self.now.book.numbering.rules.items }
    {
        self.book.decided(self.flat, item)
    }

    fn classes(&self) -> usize {
        if self.by_class {
            self.book.classes.count()
        } else {
            0
        }
    }

    #[inline]
    fn class(&self, item: usize) -> Option<usize> {
        if self.by_class {
            self.book.class(self.flat, &self.lengths, item)
        } else {
            None
        }
    }
}

impl<'a, R: Asks> RuleJudge<'a, R> {
    ghost use Rattle.std.specs.Prelude.{◌≡◌, IfOk};

    /// The judge of these rules over this document.
    pub fn over(
        alloc: Global,
        numbering: Numbering<R>,
        flat: &'a Flat<'a>,
    ) -> Result<RuleJudge<'a, R>, AllocError>
        ensures numbering { IfOk result (λ j. j.book.numbering ≡ numbering) }
        ensures flat { IfOk result (λ j. j.flat.now ≡ flat.now) }
    {
        let book = Rulebook::of(alloc, numbering)?;
        let by_class = book.classes.count() <= flat.len();
        let lengths = book.classes.lengths_in(flat)?;
        Ok(RuleJudge {
            book,
            flat,
            by_class,
            lengths,
        })
    }
}
