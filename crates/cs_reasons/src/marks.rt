// Sets of pairs of an item and a rule.
ghost use Rattle.std.specs.Prelude.{◌≡◌, ℕ, ◌<◌, ◌≤◌, ◌+◌, ◌*◌, ◌^◌, true, false, length, get_or};
ghost use Rattle.cs_reasons.specs.Bits.{is_set};

use std::alloc::{AllocError, Global};

/// A set of pairs of an item and a rule.
#[derive(Drop)]
pub(crate) struct Marks {
    items: usize,
    rules: usize,
    /// A bit for each pair, item by item, eight to a byte from the lowest on.
    bytes: Vec<u8>,
    /// For each item whether it has a pair in the set, so that the others can be passed over.
    any: Vec<bool>,
    ghost fits: { items * rules < 2 ^ 64 },
    ghost sized: { items * rules ≤ 8 * length bytes.items },
    ghost flags: { length any.items ≡ items },
    ghost shown: { (i r : ℕ) → r < rules → is_set bytes.items (i * rules + r) ≡ true → get_or any.items i false ≡ true },
}

impl Marks {
    ghost use Rattle.std.specs.Prelude.{◌≢◌, IfOk};
    ghost use Rattle.cs_reasons.specs.Marked.{marked, IsLastBefore, IsFirstFrom, IsLastRule, IsFirstRule};

    /// The set without a pair.
    pub(crate) fn new(alloc: Global, items: usize, rules: usize) -> Result<Marks, AllocError>
        ensures items { IfOk result (λ m. m.items ≡ items) }
        ensures rules { IfOk result (λ m. m.rules ≡ rules) }
        ensures none { IfOk result (λ m. (i r : ℕ) → marked m i r ≡ false) }
    {
        let pairs = items.checked_mul(rules).ok_or(AllocError)?;
        let bytes = vec![in alloc; 0; pairs.div_ceil(8)]?;
        let any = vec![in alloc; false; items]?;
        Ok(Marks {
            items,
            rules,
            bytes,
            any,
        })
    }

    /// Whether a pair is in the set.
    #[inline]
    pub(crate) fn has(&self, item: usize, rule: usize) -> bool
        requires item { item < self.now.items }
        requires rule { rule < self.now.rules }
        ensures { result ≡ marked self.now item rule }
    {
        let place = item * self.rules + rule;
        self.bytes[place / 8] >> (place % 8) & 1 == 1
    }

    /// Whether a pair is in the set, which it isn't if there is no such item or rule.
    pub(crate) fn get(&self, item: usize, rule: usize) -> bool
        ensures { result ≡ marked self.now item rule }
    {
        if self.items <= item || self.rules <= rule {
            return false;
        }
        self.has(item, rule)
    }

    /// Puts a pair into the set.
    #[inline]
    pub(crate) fn mark(&mut self, item: usize, rule: usize)
        requires item { item < self.old.items }
        requires rule { rule < self.old.rules }
        ensures items { self.new.items ≡ self.old.items }
        ensures rules { self.new.rules ≡ self.old.rules }
        ensures marked { marked self.new item rule ≡ true }
        ensures others { (j q : ℕ) → (j ≡ item → q ≢ rule) → marked self.new j q ≡ marked self.old j q }
    {
        let place = item * self.rules + rule;
        self.any[item] = true;
        self.bytes[place / 8] |= 1 << (place % 8);
    }

    /// Puts a pair into the set, if there is such an item and rule.
    pub(crate) fn put(&mut self, item: usize, rule: usize) {
        if item < self.items && rule < self.rules {
            self.mark(item, rule);
        }
    }

    /// How many items have a pair in the set.
    pub(crate) fn used_items(&self) -> usize {
        self.any.iter().filter(|any| **any).count()
    }

    /// The last pair of the set before a pair.
    pub(crate) fn last_before(&self, item: usize, rule: usize) -> Option<(usize, usize)>
        requires item { item < self.now.items }
        requires rule { rule ≤ self.now.rules }
        ensures { IsLastBefore (marked self.now) item rule result }
    {
        if let Some(found) = self.last_rule(item, rule) {
            return Some((item, found));
        }
        for before in (0..item).rev() {
            if let Some(found) = self.last_rule(before, self.rules) {
                return Some((before, found));
            }
        }
        None
    }

    /// The first pair of the set from a pair on.
    pub(crate) fn first_from(&self, item: usize, rule: usize) -> Option<(usize, usize)>
        requires item { item < self.now.items }
        ensures { IsFirstFrom (marked self.now) item rule result }
    {
        if let Some(found) = self.first_rule(item, rule) {
            return Some((item, found));
        }
        for after in item + 1..self.items {
            if let Some(found) = self.first_rule(after, 0) {
                return Some((after, found));
            }
        }
        None
    }

    // The last rule before a rule that is in the set with an item.
    fn last_rule(&self, item: usize, before: usize) -> Option<usize>
        requires item { item < self.now.items }
        requires rule { before ≤ self.now.rules }
        ensures { IsLastRule (marked self.now item) before result }
    {
        if !self.any[item] {
            return None;
        }
        for rule in (0..before).rev() {
            if self.has(item, rule) {
                return Some(rule);
            }
        }
        None
    }

    // The first rule from a rule on that is in the set with an item.
    fn first_rule(&self, item: usize, from: usize) -> Option<usize>
        requires item { item < self.now.items }
        ensures { IsFirstRule (marked self.now item) from result }
    {
        if !self.any[item] {
            return None;
        }
        for rule in from..self.rules {
            if self.has(item, rule) {
                return Some(rule);
            }
        }
        None
    }
}
