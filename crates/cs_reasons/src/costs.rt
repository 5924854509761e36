// What pairs cost.
ghost use Rattle.std.specs.Prelude.{◌≡◌, IfOk, OnOk};
ghost use Rattle.cs_reasons.specs.Costs.{begun, kept, none_kept, pair_cost, place, with_cost};

use std::alloc::{AllocError, Global};

/// What pairs cost: how many faults there are below each, as its alternatives were chosen. The largest cost stands for all
/// above it. Memory is taken for the items that have such a pair alone.
#[derive(Drop)]
pub(crate) struct Costs {
    rules: usize,
    /// For each item where its costs begin.
    starts: Vec<usize>,
    /// The item whose costs were begun last.
    last: Option<usize>,
    costs: Vec<u16>,
}

impl Costs {
    /// No costs yet, with memory for those of so many of the items.
    pub(crate) fn new(
        alloc: Global,
        items: usize,
        rules: usize,
        used: usize,
    ) -> Result<Costs, AllocError>
        ensures { IfOk result (λ c. kept c ≡ none_kept items rules) }
    {
        let mut costs = Vec::new(alloc);
        costs.reserve_exact(used.checked_mul(rules).ok_or(AllocError)?)?; // no more than it needs
        Ok(Costs {
            rules,
            starts: vec![in alloc; 0; items]?,
            last: None,
            costs,
        })
    }

    /// Begins the costs of an item, unless they were begun last.
    pub(crate) fn begin(&mut self, item: usize) -> Result<(), AllocError>
        ensures { OnOk result (kept self.new ≡ begun item (kept self.old)) }
    {
        if self.last == Some(item) {
            return Ok(());
        }
        let from = self.costs.len();
        if let Some(start) = self.starts.get_mut(item) {
            *start = from;
        }
        self.last = Some(item);
        let to = from.checked_add(self.rules).ok_or(AllocError)?;
        self.costs.resize(to, 0)
    }

    /// Sets the cost of a pair of an item that was begun.
    pub(crate) fn set(&mut self, item: usize, rule: usize, cost: u16)
        ensures { kept self.new ≡ with_cost item rule cost (kept self.old) }
    {
        if let Some(place) = self.place(item, rule)
            && let Some(at) = self.costs.get_mut(place)
        {
            *at = cost;
        }
    }

    /// The cost of a pair, which is the largest one where there is no such pair.
    pub(crate) fn get(&self, item: usize, rule: usize) -> u16
        ensures { result ≡ pair_cost (kept self.now) item rule }
    {
        match self.place(item, rule) {
            Some(place) => self.costs.get(place).copied().unwrap_or(u16::MAX),
            None => u16::MAX,
        }
    }

    // Where the cost of a pair is.
    fn place(&self, item: usize, rule: usize) -> Option<usize>
        ensures { result ≡ place (kept self.now) item rule }
    {
        self.starts.get(item)?.checked_add(rule)
    }
}
