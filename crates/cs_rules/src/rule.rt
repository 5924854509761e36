// What rules ask.
ghost use Rattle.std.specs.Prelude.{◌≡◌, ℕ, ◌≤◌, Some, slice_get, OnOk};
ghost use Rattle.cs_document.specs.Inside.{AscendsInside, InsideBelow};
ghost use Rattle.cs_flat.specs.Listed.{values};
ghost use Rattle.cs_flat.specs.Nodes.{node_at};
ghost use Rattle.cs_flat.specs.View.{item_view};
ghost use Rattle.cs_rules.specs.Steps.{Step, LooksAtParts};
ghost use Rattle.cs_rules.specs.Kinds.{Foretells};
ghost use Rattle.cs_rules.specs.Alike.{IsToldBy, HasMore};
ghost use Rattle.cs_rules.specs.Knowns.{verdict_here, verdict_inside, value_count, rule_count, place_count};
ghost use Rattle.cs_rules.specs.Lengths.{AreLengths};

use crate::{ByKind, Known, Marks};
use cs_flat::{Flat, Item};
use std::alloc::AllocError;

/// A rule that documents are judged by. A part that it asks of the same value is named by its number, and one that it asks
/// of a value inside by its place in a list of such rules.
pub trait Asks: Drop {
    /// What the rule asks, by the verdicts on its parts.
    ghost step: { Self → Step };

    /// Its parts asked of the same value are below the first number, and the places of the others below the second.
    ghost below: { Self → ℕ → ℕ → Type 0 };

    /// The verdict on a value of a document: the one that the verdicts known are about.
    fn holds(&self, value: &Item<'_>, flat: &Flat<'_>, known: &Known<'_>) -> bool
        requires item { slice_get flat.now known.now.item ≡ Some (item_view value.now) }
        requires parts { below self.now (rule_count known.now) (place_count known.now) }
        requires ascends { AscendsInside (item_view value.now) }
        requires children { InsideBelow (value_count known.now) (item_view value.now) }
        requires lengths { AreLengths flat.now known.now.lengths.now }
        ensures { result ≡ step self.now (verdict_here known.now) (verdict_inside known.now)
            (node_at (values flat.now) known.now.item) (item_view value.now) };

    /// The verdicts that a value's kind alone decides, where it decides those of earlier rules so.
    fn by_kind(&self, earlier: &[ByKind]) -> ByKind
        ensures { Foretells (step self.now) earlier.now result };

    /// Adds to the marks what the rule compares texts and integers with, and the lengths of texts. Only memory can run out.
    fn mark(&self, marks: &mut Marks) -> Result<(), AllocError>
        ensures told { OnOk result (IsToldBy (step self.now) marks.new) }
        ensures more { OnOk result (HasMore marks.old marks.new) };

    /// Law: the verdicts on its parts alone are looked at.
    ghost looks_at_parts: { (s : Self) → LooksAtParts (below s) (step s) };

    /// Law: what is below is below more.
    ghost below_more: { (s : Self) (r m n k : ℕ) → r ≤ n → m ≤ k → below s r m → below s n k };

    /// Law: that parts are below is a proposition.
    ghost below_prop: { (s : Self) (r m : ℕ) → IsProp (below s r m) };
}
