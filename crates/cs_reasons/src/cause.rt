// Causes of refusals.
ghost use Rattle.std.specs.Prelude.{◌≡◌, ℕ, ◌<◌, Bool, true, Option, Some, None, [], Contains, slice_get, OnOk};
ghost use Rattle.cs_table.specs.Judged.{IsEarlier};
ghost use Rattle.cs_reasons.specs.Reasons.{AreCauses};

use std::alloc::AllocError;

/// Why an item is refused by a rule.
pub trait Cause: Copy + Drop {
    ghost leads_to: { Self → Option (ℕ × ℕ) };

    ghost is_alternative: { Self → Bool };

    /// The pair of an item and a rule that is refused too and that the refusal comes from; `None` where the rule refuses
    /// the item by itself.
    fn leads_to(&self) -> Option<(usize, usize)>
        ensures { result ≡ leads_to self.now };

    /// Whether the pair that it leads to is an alternative: one of those of which one has to hold.
    fn is_alternative(&self) -> bool
        ensures { result ≡ is_alternative self.now };
}

/// Tells the causes of refused pairs of an item and a rule. Pairs are ordered by item, then by rule.
pub trait Explains {
    type Cause: Cause;

    ghost item_count: { Self → ℕ };

    ghost rule_count: { Self → ℕ };

    ghost is_refused: { Self → ℕ → ℕ → Type 0 };

    ghost is_cause: { Self → ℕ → ℕ → Self.Cause → Type 0 };

    fn items(&self) -> usize
        ensures { result ≡ item_count self.now };

    fn rules(&self) -> usize
        ensures { result ≡ rule_count self.now };

    /// Adds the causes of a refused pair to none.
    fn causes(
        &self,
        item: usize,
        rule: usize,
        found: &mut Vec<Self::Cause>,
    ) -> Result<(), AllocError>
        requires refused { is_refused self.now item rule }
        requires none { found.old.items ≡ [] }
        ensures { OnOk result (AreCauses (is_cause self.now item rule) found.new.items) };

    /// Law: a cause leads to an earlier pair, which is refused too.
    ghost earlier: { (s : Self) (i r j q : ℕ) (c : Self.Cause) → is_cause s i r c → Self.Cause.leads_to c ≡ Some (j, q) → is_refused s j q × IsEarlier j q i r };

    /// Law: refused pairs are pairs of an item and a rule.
    ghost within: { (s : Self) (i r : ℕ) → is_refused s i r → (i < item_count s) × (r < rule_count s) };
}

/// Tells which of a pair's alternatives are close to what an item was meant to be. What is chosen is no claim.
pub trait Chooses: Explains {
    ghost none: { Self → Self.Cause };

    /// What is told where none of the alternatives is close: that none of them holds.
    fn none(&self) -> Self::Cause
        ensures { result ≡ none self.now };

    /// Leaves of the alternatives of a refused pair those that may have been meant, in their order.
    fn keep_near(
        &self,
        item: usize,
        rule: usize,
        alternatives: &mut Vec<Self::Cause>,
    ) -> Result<(), AllocError>
        requires refused { Self.Explains.is_refused self.now item rule }
        requires alternatives { (k : ℕ) (c : Self.Cause) → slice_get alternatives.old.items k ≡ Some c → Self.Explains.is_cause self.now item rule c × (Self.Cause.is_alternative c ≡ true) }
        ensures { OnOk result ((c : Self.Cause) → Contains alternatives.new.items c → Contains alternatives.old.items c) };

    /// How many faults these causes of one pair, which lead nowhere, count as.
    fn weight(&self, leaves: &[Self::Cause]) -> usize;

    /// Law: it leads nowhere, and is no cause of a pair that has alternatives.
    ghost none_leads_nowhere: { (s : Self) → Self.Cause.leads_to (none s) ≡ None };

    ghost none_is_other: { (s : Self) (i r : ℕ) (c : Self.Cause) → Self.Explains.is_cause s i r c → Self.Cause.is_alternative c ≡ true → ¬ (Self.Explains.is_cause s i r (none s)) };
}
