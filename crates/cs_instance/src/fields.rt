// The declarations of a struct literal, and the keys that they allow.
ghost use Rattle.cs_instance.specs.Keys.{AreKeysOf};

use crate::rules::Field;
use cs_package::FieldMark;
use std::alloc::{AllocError, Global};

/// The declarations of a struct literal.
#[derive(Drop)]
pub struct Fields<'a> {
    pub all: Vec<Field<'a>>,
    /// Their labels in order, so that a key is looked up by halving.
    labels: Vec<&'a str>,
    /// Whether one of them is `[string]`.
    every: bool,
    ghost keys: { ∥ AreKeysOf all.items labels.items every ∥₁ },
}

impl<'a> Fields<'a> {
    ghost use Rattle.std.specs.Prelude.{◌≡◌, map, IfOk};
    ghost use Rattle.std.specs.List.{list_any};
    ghost use Rattle.cs_instance.specs.Constraint.{allows};
    ghost use Rattle.cs_instance.specs.Steps.{field_of};

    /// Takes memory for a reference to each label, and the time to sort them.
    ///
    /// # Errors
    /// Where memory runs out.
    pub fn new(alloc: Global, all: Vec<Field<'a>>) -> Result<Fields<'a>, AllocError>
        ensures { IfOk result (λ f. f.all ≡ all.entry) }
    {
        let mut labels = Vec::with_capacity(alloc, all.len())?;
        for field in &all {
            labels.push(field.label)?;
        }
        labels.sort_unstable();
        let every = has_every(&all);
        Ok(Fields { all, labels, every })
    }

    /// Whether some declaration allows a key: that of its label, or `[string]`. The label is looked for at the next place
    /// first, where keys that are asked for in their order mostly have it.
    pub fn allow(&self, key: &str, next: &mut usize) -> bool
        ensures { result ≡ list_any (λ d. allows d key.now) (map field_of self.now.all.items) }
    {
        if self.every {
            return true;
        }
        if *next < self.labels.len() && key == self.labels[*next] {
            *next += 1;
            return true;
        }
        match self.labels.binary_search(&key) {
            Ok(place) => {
                *next = place + 1;
                true
            }
            Err(_) => false,
        }
    }
}

ghost use Rattle.std.specs.Prelude.{◌≡◌};
ghost use Rattle.std.specs.List.{list_any};
ghost use Rattle.cs_package.specs.Expression.{is_every};
ghost use Rattle.cs_package.specs.View.{mark_of};

/// Whether a declaration with this mark is for every key: that of `[string]`.
pub fn is_for_every_key(mark: FieldMark) -> bool
    ensures { result ≡ is_every (mark_of mark) }
{
    match mark {
        FieldMark::Every { .. } => true,
        FieldMark::Regular | FieldMark::Optional | FieldMark::Required => false,
    }
}

fn has_every(fields: &[Field<'_>]) -> bool
    ensures { result ≡ list_any (λ f. is_every (mark_of f.mark)) fields.now }
{
    for field in fields {
        if is_for_every_key(field.mark) {
            return true;
        }
    }
    false
}
