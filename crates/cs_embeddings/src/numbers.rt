// The numbers of labels.
ghost use Rattle.std.specs.Prelude.{◌≡◌, None, Some, IfOk};
ghost use Rattle.cs_embeddings.specs.NarrowedTable.{AreNumbers, Grows, Keeps, number_in, number_of};

use std::alloc::{AllocError, Global};
use std::collections::BTreeMap;

/// Different labels have different numbers.
#[derive(Drop)]
pub(crate) struct Numbers<'n, 'a> {
    /// Numbers that were there before, and stay.
    below: Option<&'n BTreeMap<&'a str, usize>>,
    /// Those that came after them.
    own: BTreeMap<&'a str, usize>,
    /// All numbers are below it.
    count: usize,
}

impl<'n, 'a> Numbers<'n, 'a> {
    pub(crate) fn nothing(alloc: Global) -> Numbers<'n, 'a>
        ensures { AreNumbers result × (result.below ≡ None) }
    {
        Numbers {
            below: None,
            own: BTreeMap::new(alloc),
            count: 0,
        }
    }

    /// These, to which others can be added while these stay as they are.
    pub(crate) fn above(alloc: Global, numbers: &'n Numbers<'_, 'a>) -> Numbers<'n, 'a>
        ensures { numbers.now.below ≡ None → AreNumbers numbers.now → AreNumbers result × Keeps numbers.now result }
    {
        Numbers {
            below: Some(&numbers.own),
            own: BTreeMap::new(alloc),
            count: numbers.count,
        }
    }

    /// The number that a label had before.
    fn get_below(&self, label: &str) -> Option<usize>
        ensures { result ≡ number_in self.now.below label.now }
    {
        match self.below {
            Some(below) => below.get(label).copied(),
            None => None,
        }
    }

    /// The number of a label that has one.
    pub(crate) fn get(&self, label: &str) -> Option<usize>
        ensures { result ≡ number_of self.now label.now }
    {
        match self.get_below(label) {
            Some(number) => Some(number),
            None => self.own.get(label).copied(),
        }
    }

    /// The number of a label. One that has none gets the next.
    pub(crate) fn of_label(&mut self, label: &'a str) -> Result<usize, AllocError>
        ensures { IfOk result (λ i. AreNumbers self.old → AreNumbers self.new × Grows self.old self.new × (number_of self.new label.now ≡ Some i)) }
    {
        if let Some(number) = self.get(label) {
            return Ok(number);
        }
        let number = self.count;
        let Some(count) = number.checked_add(1) else {
            return Err(AllocError);
        };
        self.own.insert(label, number)?;
        self.count = count;
        Ok(number)
    }
}
