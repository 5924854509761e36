// Marks: what rules compare scalars and the lengths of texts with.
use std::alloc::{AllocError, Global};
use std::marker::Model;

/// Texts and integers that rules compare scalars with, and numbers that they compare the lengths of texts with, in the order
/// in which they came.
#[derive(Drop)]
pub struct Marks {
    pub(crate) texts: Vec<String>,
    pub(crate) integers: Vec<i64>,
    pub(crate) lengths: Vec<usize>,
}

impl Model for Marks {
    ghost use Rattle.std.specs.Prelude.{map, string_bytes};
    ghost use Rattle.cs_rules.specs.Alike.{Compared};

    ghost Value = { Compared };

    ghost view = { λ m. record {
      texts = map string_bytes m.texts.items;
      integers = m.integers.items;
      lengths = m.lengths.items;
    } };
}

impl Marks {
    ghost use Rattle.std.specs.Prelude.{◌≡◌, ◌++◌, [], ◌∷◌, OnOk};

    /// No marks yet.
    pub fn new(alloc: Global) -> Marks
        ensures { result ≡ record { texts = []; integers = []; lengths = [] } }
    {
        Marks {
            texts: Vec::new(alloc),
            integers: Vec::new(alloc),
            lengths: Vec::new(alloc),
        }
    }

    /// Marks a text: no other text is like it. Only memory can run out.
    pub fn text(&mut self, text: &str) -> Result<(), AllocError>
        ensures { OnOk result ((self.new.texts ≡ self.old.texts ++ text.now ∷ [])
            × (self.new.integers ≡ self.old.integers)
            × (self.new.lengths ≡ self.old.lengths)) }
    {
        let text = String::from_str(*self.texts.allocator(), text)?;
        self.texts.push(text)?;
        Ok(())
    }

    /// Marks an integer: no other integer is like it, and none below it is like one above. Only memory can run out.
    pub fn integer(&mut self, integer: i64) -> Result<(), AllocError>
        ensures { OnOk result ((self.new.integers ≡ self.old.integers ++ integer ∷ [])
            × (self.new.texts ≡ self.old.texts) × (self.new.lengths ≡ self.old.lengths)) }
    {
        self.integers.push(integer)?;
        Ok(())
    }

    /// Marks a length: no text that is shorter is like one that has it or is longer. Only memory can run out.
    pub fn length(&mut self, least: usize) -> Result<(), AllocError>
        ensures { OnOk result ((self.new.lengths ≡ self.old.lengths ++ least ∷ [])
            × (self.new.texts ≡ self.old.texts) × (self.new.integers ≡ self.old.integers)) }
    {
        self.lengths.push(least)?;
        Ok(())
    }
}
