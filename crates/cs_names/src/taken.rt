// The names of definitions that are taken, and the first number that makes a name free.
ghost use Rattle.std.specs.Prelude.{◌≡◌, ◌++◌, ◌||◌, ℕ, Bool, List, false, map, IfOk, OnOk, string_bytes};
ghost use Rattle.std.specs.List.{flat_map};
ghost use Rattle.std.specs.Str.{bytes_eq};
ghost use Rattle.cs_grammar.specs.Tree.{DefinitionTree, definitions};
ghost use Rattle.cs_grammar.specs.View.{definition_view, file_view};
ghost use Rattle.cs_names.specs.Lifted as Spec;
ghost use Rattle.cs_names.specs.Lifted.{all_numbers};
ghost use Rattle.cs_names.specs.Taken.{TellsDefined, TellsTaken, IsBehind, is_named};

use crate::texts::numbered;
use cs_grammar::{Definition, File};
use std::alloc::{AllocError, Global};
use std::collections::{BTreeMap, BTreeSet};

/// The names of definitions that are taken: those of the definitions of files, and those that were given since.
#[derive(Drop)]
pub struct TakenNames<'a> {
    alloc: Global,
    defined: BTreeSet<&'a str>,
    given: BTreeSet<String>,
    /// For a name that was wanted and taken, the number that made it free: what is taken only grows, so no number before it does so again.
    numbers: BTreeMap<String, usize>,
}

/// Adds the names of definitions.
fn add_defined<'a>(
    defined: &mut BTreeSet<&'a str>,
    definitions: &'a Vec<Definition>,
) -> Result<(), AllocError>
    ensures { OnOk result ((ds : List DefinitionTree) → TellsDefined defined.old ds
        → TellsDefined defined.new (ds ++ map definition_view definitions.now.items)) }
{
    for definition in definitions {
        defined.insert(definition.name.as_str())?;
    }
    Ok(())
}

/// The names of the definitions of files.
fn defined_in<'a>(alloc: Global, files: &'a [File]) -> Result<BTreeSet<&'a str>, AllocError>
    ensures { IfOk result (λ d. TellsDefined d (flat_map definitions (map file_view files.now))) }
{
    let mut defined = BTreeSet::new(alloc);
    for file in files {
        add_defined(&mut defined, &file.definitions)?;
    }
    Ok(defined)
}

impl<'a> TakenNames<'a> {
    /// The names of the definitions of files.
    ///
    /// # Errors
    /// Memory ran out.
    pub fn of(alloc: Global, files: &'a [File]) -> Result<TakenNames<'a>, AllocError>
        ensures { IfOk result (λ t. TellsTaken t (flat_map definitions (map file_view files.now)) (λ s. false)) }
    {
        Ok(TakenNames {
            alloc,
            defined: defined_in(alloc, files)?,
            given: BTreeSet::new(alloc),
            numbers: BTreeMap::new(alloc),
        })
    }

    /// Whether a name was given.
    pub fn is_given(&self, name: &str) -> bool
        ensures { (all : List DefinitionTree) (given : List ℕ → Bool) → TellsTaken self.now all given → result ≡ given name.now }
    {
        self.given.contains(name)
    }

    /// Whether a name is taken.
    fn is_taken(&self, name: &str) -> bool
        ensures { (all : List DefinitionTree) (given : List ℕ → Bool) → TellsTaken self.now all given → result ≡ is_named all given name.now }
    {
        self.defined.contains(name) || self.given.contains(name)
    }

    /// A number before which none makes the name free.
    fn first_number(&self, wanted: &str) -> usize
        ensures { (all : List DefinitionTree) (given : List ℕ → Bool) → TellsTaken self.now all given → IsBehind (is_named all given) wanted.now result }
    {
        match self.numbers.get(wanted) {
            Some(number) => *number,
            None => 1,
        }
    }

    /// The first number that makes the name free, and the name with it, where none before `first` does. If there were none, there would be no memory
    /// for it either.
    fn first_free(&self, wanted: &str, first: usize) -> Result<(usize, String), AllocError>
        ensures found { (all : List DefinitionTree) (given : List ℕ → Bool) → TellsTaken self.now all given → IsBehind (is_named all given) wanted.now first
            → IfOk result (λ r. string_bytes r.1 ≡ Spec.first_free (is_named all given) wanted.now 1 all_numbers) }
        ensures apart { (all : List DefinitionTree) (given : List ℕ → Bool) → TellsTaken self.now all given
            → IfOk result (λ r. is_named all given (string_bytes r.1) ≡ false) }
        ensures behind { (all : List DefinitionTree) (given : List ℕ → Bool) → TellsTaken self.now all given → IsBehind (is_named all given) wanted.now first
            → IfOk result (λ r. IsBehind (is_named all given) wanted.now r.0) }
    {
        for number in first..usize::MAX {
            let name = numbered(self.alloc, wanted, number)?;
            if !self.is_taken(&name) {
                return Ok((number, name));
            }
        }
        Err(AllocError)
    }

    /// The name, with the least number from 1 behind it where it is taken. It is free until it is given.
    ///
    /// # Errors
    /// Memory ran out.
    pub fn free(&mut self, wanted: String) -> Result<String, AllocError>
        ensures found { (all : List DefinitionTree) (given : List ℕ → Bool) → TellsTaken self.old all given
            → IfOk result (λ s. string_bytes s ≡ Spec.free (is_named all given) (string_bytes wanted)) }
        ensures apart { (all : List DefinitionTree) (given : List ℕ → Bool) → TellsTaken self.old all given
            → IfOk result (λ s. is_named all given (string_bytes s) ≡ false) }
        ensures kept { OnOk result ((all : List DefinitionTree) (given : List ℕ → Bool) → TellsTaken self.old all given → TellsTaken self.new all given) }
    {
        if !self.is_taken(&wanted) {
            return Ok(wanted);
        }
        let first = self.first_number(&wanted);
        let (number, name) = self.first_free(&wanted, first)?;
        self.numbers.insert(wanted, number)?;
        Ok(name)
    }

    /// Gives a name: from then on it is taken.
    ///
    /// # Errors
    /// Memory ran out.
    pub fn give(&mut self, name: String) -> Result<(), AllocError>
        ensures { OnOk result ((all : List DefinitionTree) (given : List ℕ → Bool) → TellsTaken self.old all given
            → TellsTaken self.new all (λ s. given s || bytes_eq (string_bytes name) s)) }
    {
        self.given.insert(name)?;
        Ok(())
    }
}
