// The numbers of the rules of definitions.
ghost use Rattle.std.specs.Prelude.{◌≡◌, ℕ, List, Some, None, IsSome, IfOk, if◌then◌else◌};
ghost use Rattle.std.specs.Str.{bytes_eq};
ghost use Rattle.cs_profile.specs.Numbered.{names_in};
ghost use Rattle.cs_validate.specs.Placing.{place_in, number_in};

use cs_profile::SchemaDoc;
use std::alloc::{AllocError, Global};
use std::marker::Model;

/// The numbers of the definitions that have some.
#[derive(Drop)]
pub(crate) struct Numbers<'a> {
    document: &'a SchemaDoc,
    /// By the place of a definition among the definitions, which are by name in byte order.
    by_place: Vec<Option<usize>>,
}

impl<'a> Model for Numbers<'a> {
    ghost use Rattle.std.specs.Prelude.{◌≡◌, length};
    ghost use Rattle.cs_profile.specs.Numbered.{names_in};
    ghost use Rattle.cs_validate.specs.Placing.{Numbers};

    ghost Value = { Numbers };

    ghost view = { λ s. (names_in s.document.now.definitions, s.by_place.items) };

    ghost invariant = { λ s. length s.by_place.items ≡ length s.document.now.definitions };
}

impl<'a> Numbers<'a> {
    /// No definition has a number yet.
    pub(crate) fn new(alloc: Global, document: &'a SchemaDoc) -> Result<Numbers<'a>, AllocError>
        ensures names { IfOk result (λ s. s.0 ≡ names_in document.now.definitions) }
        ensures none { IfOk result (λ s. (n : List ℕ) → number_in s n ≡ None) }
    {
        let by_place = vec![in alloc; None; document.definitions().len()]?;
        Ok(Numbers { document, by_place })
    }

    /// The number of the definition of a name, if it has one.
    pub(crate) fn get(&self, name: &str) -> Option<usize>
        ensures { result ≡ number_in self.now name.now }
    {
        let place = self.document.number(name)?;
        self.by_place[place]
    }

    /// The definition of a name gets its number.
    pub(crate) fn set(&mut self, name: &str, number: usize)
        requires { IsSome (place_in self.old name.now) }
        ensures names { self.new.0 ≡ self.old.0 }
        ensures numbers { (m : List ℕ) → number_in self.new m
            ≡ (if bytes_eq name.now m then Some number else number_in self.old m) }
    {
        if let Some(place) = self.document.number(name) {
            self.by_place[place] = Some(number);
        }
    }
}
