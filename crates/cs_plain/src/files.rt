// Files with plain values in the places of their names.
ghost use Rattle.std.specs.Prelude.{◌≡◌, ◌++◌, ◌∷◌, [], true, ℕ, Bool, List, Option, map, filter, IfOk, OnOk, string_bytes};
ghost use Rattle.std.specs.List.{flat_map};
ghost use Rattle.std.specs.Option.{option_map};
ghost use Rattle.cs_grammar.specs.Tree.{Tree};
ghost use Rattle.cs_grammar.specs.View.{definition_view, file_view};
ghost use Rattle.cs_plain.specs.Bodies as Spec;
ghost use Rattle.cs_plain.specs.Bodies.{TellsBodies};
ghost use Rattle.cs_plain.specs.Checks.{TellsPlacing};
ghost use Rattle.cs_plain.specs.Placed as Placed;
ghost use Rattle.cs_plain.specs.Placed.{placed_definition, gone_if, gone_in, is_kept, without_gone};
ghost use Rattle.cs_plain.specs.References as Referred;
ghost use Rattle.cs_plain.specs.References.{TellsTexts};

use crate::bodies::Bodies;
use crate::kinds::kinds_in;
use crate::placed::Placing;
use crate::references::references_in;
use crate::standing::Standing;
use cs_grammar::{Definition, File, copied_names};
use std::alloc::{AllocError, Global};
use std::collections::BTreeSet;
use std::mem;

/// The same name of a package clause, if there is one.
fn copied_clause(clause: &Option<String>) -> Result<Option<String>, AllocError>
    ensures { IfOk result (λ o. option_map string_bytes o ≡ option_map string_bytes clause.now) }
{
    match clause {
        Some(name) => Ok(Some(name.clone()?)),
        None => Ok(None),
    }
}

impl<'a> Placing<'_, '_, 'a> {
    fn placed_definition(&self, definition: &'a Definition) -> Result<Definition, AllocError>
        ensures { (value : List ℕ → Option Tree) (hides : List ℕ → Bool) → TellsPlacing self.now value hides
            → IfOk result (λ d. definition_view d ≡ placed_definition value hides (definition_view definition.now)) }
    {
        let name = definition.name.clone()?;
        let body = self.placed(Standing::Alone, &definition.body)?;
        Ok(Definition {
            name,
            at: definition.at,
            body,
        })
    }

    fn placed_definitions(
        &self,
        definitions: &'a [Definition],
    ) -> Result<Vec<Definition>, AllocError>
        ensures { (value : List ℕ → Option Tree) (hides : List ℕ → Bool) → TellsPlacing self.now value hides
            → IfOk result (λ v. map definition_view v.items ≡ map (placed_definition value hides) (map definition_view definitions.now)) }
    {
        let mut placed = Vec::with_capacity(self.alloc, definitions.len())?;
        for definition in definitions {
            placed.push(self.placed_definition(definition)?)?;
        }
        Ok(placed)
    }

    /// The file with values in their places.
    fn placed_file(&self, file: &'a File) -> Result<File, AllocError>
        ensures { (value : List ℕ → Option Tree) (hides : List ℕ → Bool) → TellsPlacing self.now value hides
            → IfOk result (λ f. file_view f ≡ Placed.placed_file value hides (file_view file.now)) }
    {
        let definitions = self.placed_definitions(&file.definitions)?;
        let names = copied_names(self.alloc, &file.names)?;
        let package = copied_clause(&file.package)?;
        Ok(File {
            package,
            definitions,
            names,
        })
    }
}

/// The file with values in their places, where all files have these bodies, and values name these kinds.
fn placed_here<'a>(
    alloc: Global,
    names: &BTreeSet<&str>,
    all: &Bodies<'a>,
    kinds: &BTreeSet<&'a str>,
    file: &'a File,
) -> Result<File, AllocError>
    ensures { (ns ks : List (List ℕ)) (bs : List Spec.Body) → TellsTexts names.now ns → TellsBodies all.now bs → TellsTexts kinds.now ks
        → IfOk result (λ f. file_view f ≡ Placed.placed_here ns bs ks (file_view file.now)) }
{
    let here = Bodies::of_definitions(alloc, &file.definitions)?;
    let placing = Placing {
        alloc,
        names,
        all,
        here: &here,
        kinds,
    };
    placing.placed_file(file)
}

/// The files with values in their places.
fn placed_files(
    alloc: Global,
    names: &BTreeSet<&str>,
    files: &[File],
) -> Result<Vec<File>, AllocError>
    ensures { (ns : List (List ℕ)) → TellsTexts names.now ns
        → IfOk result (λ v. map file_view v.items ≡ Placed.placed_files ns (map file_view files.now)) }
{
    let all = Bodies::of(alloc, files)?;
    let kinds = kinds_in(alloc, names, files)?;
    let mut placed = Vec::with_capacity(alloc, files.len())?;
    for file in files {
        placed.push(placed_here(alloc, names, &all, &kinds, file)?)?;
    }
    Ok(placed)
}

// ---- definitions that are gone

/// Adds a definition that was referred to, and isn't any more.
fn add_if_gone<'a>(
    gone: &mut BTreeSet<&'a str>,
    before: &BTreeSet<&str>,
    after: &BTreeSet<&str>,
    definition: &'a Definition,
) -> Result<(), AllocError>
    ensures { OnOk result ((ss bs cs : List (List ℕ)) → TellsTexts gone.old ss → TellsTexts before.now bs → TellsTexts after.now cs
        → TellsTexts gone.new (ss ++ gone_if bs cs (definition_view definition.now))) }
{
    let name = definition.name.as_str();
    if before.contains(name) && !after.contains(name) {
        gone.insert(name)?;
    }
    Ok(())
}

/// Adds those of a file.
fn add_gone<'a>(
    gone: &mut BTreeSet<&'a str>,
    before: &BTreeSet<&str>,
    after: &BTreeSet<&str>,
    definitions: &'a [Definition],
) -> Result<(), AllocError>
    ensures { OnOk result ((ss bs cs : List (List ℕ)) → TellsTexts gone.old ss → TellsTexts before.now bs → TellsTexts after.now cs
        → TellsTexts gone.new (ss ++ flat_map (gone_if bs cs) (map definition_view definitions.now))) }
{
    for definition in definitions {
        add_if_gone(gone, before, after, definition)?;
    }
    Ok(())
}

/// The definitions of files that were referred to, and aren't any more.
fn gone_in<'a>(
    alloc: Global,
    before: &BTreeSet<&str>,
    after: &BTreeSet<&str>,
    files: &'a [File],
) -> Result<BTreeSet<&'a str>, AllocError>
    ensures { (bs cs : List (List ℕ)) → TellsTexts before.now bs → TellsTexts after.now cs
        → IfOk result (λ t. TellsTexts t (gone_in bs cs (map file_view files.now))) }
{
    let mut gone = BTreeSet::new(alloc);
    for file in files {
        add_gone(&mut gone, before, after, &file.definitions)?;
    }
    Ok(gone)
}

/// Those that files refer to, and these files don't.
fn gone_since<'a>(
    alloc: Global,
    files: &'a [File],
    placed: &[File],
) -> Result<BTreeSet<&'a str>, AllocError>
    ensures { IfOk result (λ t. TellsTexts t (gone_in (Referred.references_in true (map file_view files.now))
        (Referred.references_in true (map file_view placed.now)) (map file_view files.now))) }
{
    let before = references_in(alloc, files, true)?;
    let after = references_in(alloc, placed, true)?;
    gone_in(alloc, &before, &after, files)
}

/// Keeps a definition that isn't gone.
fn keep(
    kept: &mut Vec<Definition>,
    gone: &BTreeSet<&str>,
    definition: Definition,
) -> Result<(), AllocError>
    ensures { OnOk result ((ss : List (List ℕ)) → TellsTexts gone.now ss
        → map definition_view kept.new.items ≡ map definition_view kept.old.items ++ filter (is_kept ss) (definition_view definition ∷ [])) }
{
    if gone.contains(definition.name.as_str()) {
        return Ok(());
    }
    kept.push(definition)?;
    Ok(())
}

/// The definitions that aren't gone.
fn kept_definitions(
    alloc: Global,
    gone: &BTreeSet<&str>,
    definitions: Vec<Definition>,
) -> Result<Vec<Definition>, AllocError>
    ensures { (ss : List (List ℕ)) → TellsTexts gone.now ss
        → IfOk result (λ v. map definition_view v.items ≡ filter (is_kept ss) (map definition_view definitions.items)) }
{
    let mut kept = Vec::with_capacity(alloc, definitions.len())?;
    for definition in definitions {
        keep(&mut kept, gone, definition)?;
    }
    Ok(kept)
}

/// A file without them.
fn kept_file(alloc: Global, gone: &BTreeSet<&str>, mut file: File) -> Result<File, AllocError>
    ensures { (ss : List (List ℕ)) → TellsTexts gone.now ss → IfOk result (λ f. file_view f ≡ without_gone ss (file_view file)) }
{
    let definitions = mem::replace(&mut file.definitions, Vec::new(alloc));
    file.definitions = kept_definitions(alloc, gone, definitions)?;
    Ok(file)
}

/// Files without them.
fn kept_files(
    alloc: Global,
    gone: &BTreeSet<&str>,
    files: Vec<File>,
) -> Result<Vec<File>, AllocError>
    ensures { (ss : List (List ℕ)) → TellsTexts gone.now ss
        → IfOk result (λ v. map file_view v.items ≡ map (without_gone ss) (map file_view files.items)) }
{
    let mut kept = Vec::with_capacity(alloc, files.len())?;
    for file in files {
        kept.push(kept_file(alloc, gone, file)?)?;
    }
    Ok(kept)
}

/// The files, in which the plain values of the definitions of these names are in the places of references to them, each in its file (own rule). What nothing
/// refers to any more is gone.
///
/// # Errors
/// Memory ran out.
pub fn in_places(
    alloc: Global,
    names: &BTreeSet<&str>,
    files: &[File],
) -> Result<Vec<File>, AllocError>
    ensures { (ns : List (List ℕ)) → TellsTexts names.now ns
        → IfOk result (λ v. map file_view v.items ≡ Placed.in_places ns (map file_view files.now)) }
{
    let placed = placed_files(alloc, names, files)?;
    let gone = gone_since(alloc, files, &placed)?;
    kept_files(alloc, &gone, placed)
}
