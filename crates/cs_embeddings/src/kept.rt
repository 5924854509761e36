// What is left of the definitions of files, the bodies of one name put together.
ghost use Rattle.std.specs.Prelude.{◌≡◌, List, [], ◌∷◌, ◌++◌, map, Some, IfOk, OnOk};
ghost use Rattle.std.specs.List.{AllByRecursion, flat_map};
ghost use Rattle.cs_grammar.specs.Tree.{DefinitionTree, definitions};
ghost use Rattle.cs_grammar.specs.View.{definition_view, file_view};
ghost use Rattle.cs_embeddings.specs.Alternatives.{Brought};
ghost use Rattle.cs_embeddings.specs.Bodies as Spec;
ghost use Rattle.cs_embeddings.specs.Checks.{TellsTables};
ghost use Rattle.cs_embeddings.specs.Gathered.{is_gathered};
ghost use Rattle.cs_embeddings.specs.GatheredTable.{AreSound, KeepsBodies, StandsFor, TellsLabels, declared_view, gathered_view, left_view};

use crate::embedded::Embeddable;
use crate::gathered::{Declared, Gathered, Labels};
use cs_grammar::{Definition, File};
use std::alloc::{AllocError, Global};

/// What is left of a definition in its file.
#[derive(Drop)]
pub(crate) struct Kept<'a> {
    pub(crate) standing: Gathered<'a>,
    /// The offset of its name, where its parts are of several files.
    pub(crate) place: Option<usize>,
}

/// A file with what is left in it.
#[derive(Drop)]
pub(crate) struct KeptFile<'a> {
    pub(crate) package: &'a Option<String>,
    pub(crate) bodies: Vec<Kept<'a>>,
}

/// Adds definitions, as declarations of their names.
fn add_declared<'a>(
    all: &mut Vec<Declared<'a>>,
    definitions: &'a [Definition],
) -> Result<(), AllocError>
    ensures { OnOk result (map declared_view all.new.items ≡ map declared_view all.old.items
        ++ map Spec.as_declared (map definition_view definitions.now)) }
{
    for definition in definitions {
        all.push(Declared::of_definition(definition))?;
    }
    Ok(())
}

/// Definitions, as declarations of their names.
fn declared_definitions(
    alloc: Global,
    definitions: &[Definition],
) -> Result<Vec<Declared<'_>>, AllocError>
    ensures { IfOk result (λ v. map declared_view v.items ≡ map Spec.as_declared (map definition_view definitions.now)) }
{
    let mut all = Vec::with_capacity(alloc, definitions.len())?;
    add_declared(&mut all, definitions)?;
    Ok(all)
}

/// The definitions of files, as declarations of their names.
fn declared_in_files(alloc: Global, files: &[File]) -> Result<Vec<Declared<'_>>, AllocError>
    ensures { IfOk result (λ v. map declared_view v.items ≡ map Spec.as_declared (flat_map definitions (map file_view files.now))) }
{
    let mut all = Vec::new(alloc);
    for file in files {
        add_declared(&mut all, &file.definitions)?;
    }
    Ok(all)
}

/// The place of the parts of what stands for a definition, where its file declares these labels.
fn part_place(here: &Labels<'_>, standing: &Gathered<'_>) -> Option<usize>
    ensures { (ds : List DefinitionTree) (ls : List Brought) (d : Brought) → TellsLabels here.now ds ls []
        → StandsFor (Some standing.now) (is_gathered ds (map Spec.as_declared ds) d) ds (map Spec.as_declared ds) d → (gathered_view standing.now).label.text ≡ d.label.text
        → result ≡ Spec.part_place ds ls d (gathered_view standing.now) }
{
    match standing {
        Gathered::One(_) => None,
        Gathered::Several(together) => {
            if here.count(together.label) < together.values.len() {
                together.place
            } else {
                None
            }
        }
    }
}

/// What is left of the definitions of a file. `labels` are those of all files, of which those before it are met.
fn kept_bodies<'a>(
    alloc: Global,
    embeddable: &Embeddable<'_, 'a>,
    labels: &mut Labels<'a>,
    definitions: &'a [Definition],
) -> Result<Vec<Kept<'a>>, AllocError>
    ensures { (ds : List DefinitionTree) (before : List Brought) → TellsTables embeddable.now ds → TellsLabels labels.old ds (map Spec.as_declared ds) before
        → KeepsBodies result labels.new ds before (map Spec.as_declared (map definition_view definitions.now)) }
{
    let declared = declared_definitions(alloc, definitions)?;
    let here = Labels::of(alloc, &declared)?;
    let mut kept = Vec::with_capacity(alloc, declared.len())?;
    for body in &declared {
        if let Some(standing) = labels.meet(embeddable, *body)? {
            let place = part_place(&here, &standing);
            kept.push(Kept { standing, place })?;
        }
    }
    Ok(kept)
}

/// Files with what is left in each: the bodies of a name that are put together are where the first of them is.
pub(crate) fn kept_files<'a>(
    alloc: Global,
    embeddable: &Embeddable<'_, 'a>,
    files: &'a [File],
) -> Result<Vec<KeptFile<'a>>, AllocError>
    ensures found { IfOk result (λ v. let fs = map file_view files.now in let ds = flat_map definitions fs in
        TellsTables embeddable.now ds → map left_view v.items ≡ Spec.left_in fs) }
    ensures sound { IfOk result (λ v. let ds = flat_map definitions (map file_view files.now) in
        TellsTables embeddable.now ds → AllByRecursion (AreSound ds) v.items) }
{
    let declared = declared_in_files(alloc, files)?;
    let mut labels = Labels::of(alloc, &declared)?;
    let mut kept = Vec::with_capacity(alloc, files.len())?;
    for file in files {
        let bodies = kept_bodies(alloc, embeddable, &mut labels, &file.definitions)?;
        let package = &file.package;
        kept.push(KeptFile { package, bodies })?;
    }
    Ok(kept)
}
