// Tables of verdicts.
ghost use Rattle.std.specs.Prelude.{◌≡◌, None, replicate, IfOk};

use crate::TableFault;
use std::alloc::{AllocError, Global};
use std::marker::Model;
use std::mem;

/// How many pairs of an item and a rule a table may have.
const MOST_PAIRS: usize = 67_108_864;

/// A table with one verdict for each pair of an item and a rule. As long as it is filled, the verdicts that are still to
/// come read as `false`.
#[derive(Drop)]
pub struct Verdicts {
    items: usize,
    rules: usize,
    /// How many bytes an item has.
    width: usize,
    /// A bit for each verdict, eight to a byte from the lowest on, and each item from a byte of its own on. Those still
    /// to come are 0.
    bytes: Vec<u8>,
    /// Memory for the first item of each class while the table is filled. What it has says nothing of the table.
    firsts: Vec<Option<usize>>,
}

impl Model for Verdicts {
    ghost use Rattle.std.specs.Prelude.{◌≡◌, ◌*◌, ◌≤◌, length};
    ghost use Rattle.cs_table.specs.Judged.{Table};
    ghost use Rattle.cs_table.specs.Kept.{kept, width_of};
    ghost use Rattle.cs_table.specs.Limit.{most_pairs};

    ghost Value = { Table };

    ghost view = { λ v. record {
      items = v.items;
      rules = v.rules;
      given = kept v.bytes.items v.width v.items v.rules;
    } };

    ghost invariant = { λ v. (v.items * v.rules ≤ most_pairs)
        × (v.width ≡ width_of v.rules)
        × (length v.bytes.items ≡ v.items * v.width) };
}

/// None for each class, in this memory.
fn none_of(
    memory: &mut Vec<Option<usize>>,
    classes: usize,
) -> Result<Vec<Option<usize>>, AllocError>
    ensures { IfOk result (λ v. v.items ≡ replicate classes None) }
{
    let left = Vec::new(*memory.allocator());
    let mut firsts = mem::replace(memory, left);
    firsts.clear();
    firsts.resize(classes, None)?;
    Ok(firsts)
}

impl Verdicts {
    ghost use Rattle.std.specs.Prelude.{◌≡◌, ℕ, ◌<◌, ◌≤◌, ◌*◌, ◌||◌, None, length, replicate, IfOk, IfErr, OnOk, OnErr};
    ghost use Rattle.cs_table.specs.Filled.{AreOneSize, IsBlank, OtherItemsStay, OtherPairsStay};
    ghost use Rattle.cs_table.specs.Judged.{verdicts};
    ghost use Rattle.cs_table.specs.Limit.{most_pairs};
    ghost use Rattle.cs_table.specs.Refused.{IsRefusal};

    /// A table of no item and no rule, to be filled again.
    pub fn new(alloc: Global) -> Verdicts
        ensures items { result.items ≡ 0 }
        ensures rules { result.rules ≡ 0 }
    {
        Verdicts {
            items: 0,
            rules: 0,
            width: 0,
            bytes: Vec::new(alloc),
            firsts: Vec::new(alloc),
        }
    }

    /// How many items the table has.
    pub fn items(&self) -> usize
        ensures { result ≡ self.now.items }
    {
        self.items
    }

    /// How many rules the table has.
    pub fn rules(&self) -> usize
        ensures { result ≡ self.now.rules }
    {
        self.rules
    }

    /// How many verdicts there are: one for each pair, whether a rule was judged or its verdict decided beforehand.
    pub fn judged(&self) -> u64
        ensures { result ≡ length self.now.given }
    {
        (self.items * self.rules) as u64
    }

    /// The verdict of an item by a rule.
    #[inline]
    pub fn get(&self, item: usize, rule: usize) -> bool
        requires item { item < self.now.items }
        requires rule { rule < self.now.rules }
        ensures { result ≡ verdicts self.now item rule }
    {
        self.bytes[item * self.width + rule / 8] >> (rule % 8) & 1 == 1
    }

    /// Gives the memory for first items back, for the next time.
    pub(crate) fn keep_firsts(&mut self, firsts: Vec<Option<usize>>)
        ensures { self.new ≡ self.old }
    {
        self.firsts = firsts;
    }

    /// Makes the table one of these sizes without a verdict yet, in the memory that it has, and takes that for the first
    /// item of each class. After an error the table has no item.
    pub(crate) fn blank(
        &mut self,
        items: usize,
        rules: usize,
        classes: usize,
    ) -> Result<Vec<Option<usize>>, TableFault>
        ensures found { OnOk result (IsBlank items rules self.new) }
        ensures within { OnOk result (items * rules ≤ most_pairs) }
        ensures firsts { IfOk result (λ v. v.items ≡ replicate classes None) }
        ensures refused { IfErr result (IsRefusal items rules) }
        ensures emptied { OnErr result (self.new.items ≡ 0) }
    {
        (self.items, self.rules, self.width) = (0, 0, 0);
        self.bytes.clear();
        let Some(pairs) = items.checked_mul(rules) else {
            return Err(TableFault::TooManyPairs { items, rules });
        };
        if pairs > MOST_PAIRS {
            return Err(TableFault::TooManyPairs { items, rules });
        }
        let firsts = none_of(&mut self.firsts, classes)?;
        let width = rules.div_ceil(8);
        let count = items * width;
        self.bytes.reserve_exact(count)?; // no more than it needs
        self.bytes.resize(count, 0)?;
        (self.items, self.rules, self.width) = (items, rules, width);
        Ok(firsts)
    }

    /// Takes an item's verdicts from the item at a place of another table with as many rules.
    #[inline]
    pub(crate) fn take_row(&mut self, item: usize, table: &Verdicts, place: usize)
        requires item { item < self.old.items }
        requires rules { table.now.rules ≡ self.old.rules }
        requires place { place < table.now.items }
        ensures size { AreOneSize self.old self.new }
        ensures taken { (r : ℕ) → r < self.old.rules
            → verdicts self.new item r ≡ verdicts table.now place r }
        ensures others { OtherItemsStay item self.old self.new }
    {
        let to = item * self.width;
        let from = place * table.width;
        self.bytes[to..to + self.width].copy_from_slice(&table.bytes[from..from + table.width]);
    }

    /// Takes an item's verdicts from another item of the table.
    #[inline]
    pub(crate) fn repeat_row(&mut self, item: usize, first: usize)
        requires item { item < self.old.items }
        requires first { first < self.old.items }
        ensures size { AreOneSize self.old self.new }
        ensures taken { (r : ℕ) → r < self.old.rules
            → verdicts self.new item r ≡ verdicts self.old first r }
        ensures others { OtherItemsStay item self.old self.new }
    {
        let from = first * self.width;
        self.bytes
            .copy_within(from..from + self.width, item * self.width);
    }

    /// Gives a pair its verdict. A yes that it has already stays.
    #[inline]
    pub(crate) fn give(&mut self, item: usize, rule: usize, verdict: bool)
        requires item { item < self.old.items }
        requires rule { rule < self.old.rules }
        ensures size { AreOneSize self.old self.new }
        ensures given { verdicts self.new item rule ≡ (verdicts self.old item rule || verdict) }
        ensures others { OtherPairsStay item rule self.old self.new }
    {
        self.bytes[item * self.width + rule / 8] |= (verdict as u8) << (rule % 8);
    }
}
