// What files stand for without their embeddings.
ghost use Rattle.std.specs.Prelude.{◌≡◌, true, List, [], map, IfOk, IfErr, IsOkUnless};
ghost use Rattle.std.specs.List.{AllByRecursion, flat_map};
ghost use Rattle.cs_grammar.specs.Height.{height, height_definitions};
ghost use Rattle.cs_grammar.specs.Limits.{most_height};
ghost use Rattle.cs_grammar.specs.Tree.{DefinitionTree, body, definitions};
ghost use Rattle.cs_grammar.specs.View.{definition_view, file_view};
ghost use Rattle.cs_embeddings.specs.Checks.{TellsTables, AreWell, Finds, flaw_view};
ghost use Rattle.cs_embeddings.specs.NarrowedTable.{TellsEmbeddable};
ghost use Rattle.cs_embeddings.specs.Bodies.{joined_body, joined_left, body_clashes};
ghost use Rattle.cs_embeddings.specs.Flaws as Spec;
ghost use Rattle.cs_embeddings.specs.GatheredTable.{AreSound, IsSound, body_view, left_view};
ghost use Rattle.cs_embeddings.specs.Made.{AreLeftWell, IsBodyWell, FindsFlaw, MakesPart, MakesDefinitions, MakesFiles};
ghost use Rattle.cs_embeddings.specs.Size.{size, size_of_definitions};
ghost use Rattle.cs_embeddings.specs.Without.{IsJoined, IsWithin, IsRefusal, found_from, flaws_of_files, clashes_of_files, joined_files};

use crate::EmbeddingFault;
use crate::definitions::Bodies;
use crate::embedded::Embeddable;
use crate::flaws::{Flaw, Flaws};
use crate::joined::{Joiner, Room};
use crate::kept::{Kept, KeptFile, kept_files};
use crate::narrowed::Narrowing;
use cs_grammar::{Definition, File};
use std::alloc::Global;

/// How high a body may be.
const MOST_HEIGHT: usize = 28;

/// How many nodes the bodies may have.
const MOST_NODES: usize = 50_000;

/// The files that files of the wide profile stand for, each at its place: each struct literal with embeddings is the disjunction of what it
/// can be, or the only one (CUE, structs: embedding), and so are the bodies of a definition that are put together, where the first of
/// them is. Marks of defaults stay.
///
/// Each field carries where it is declared (`Site`): a field of several declarations where the first of them is that isn't optional, or the
/// first, and their labels in their order; what a reference brought, that reference, the outermost one. No clause speaks of it here.
///
/// # Errors
/// `UnknownName` or `NoStruct` with the first embedding at fault, by file and then by text. Where there is none: `Reopened` with the first
/// value that an embedding would open, `TooHigh` with a file of which a body would be higher than 28, or `TooLarge` where the bodies would
/// have more than 50,000 nodes. `OutOfMemory`.
pub fn without_embeddings(alloc: Global, files: &[File]) -> Result<Vec<File>, EmbeddingFault>
    ensures found { IfOk result (λ v. IsJoined (map file_view files.now) (map file_view v.items)) }
    ensures within { IfOk result (λ v. IsWithin (map file_view v.items)) }
    ensures refused { IfErr result (λ e. IsRefusal e (map file_view files.now)) }
    ensures only { flaws_of_files (map file_view files.now) ≡ [] → clashes_of_files (map file_view files.now) ≡ []
        → IsWithin (joined_files (map file_view files.now)) → IsOkUnless result EmbeddingFault.OutOfMemory }
{
    let bodies = Bodies::of(alloc, files)?;
    let embeddable = Embeddable::of(alloc, &bodies)?;
    let narrowing = Narrowing::of(alloc, &embeddable)?;
    let flaws = Flaws {
        bodies: &bodies,
        embeddable: &embeddable,
        narrowing: &narrowing,
    };
    check_files(&flaws, files)?;
    let kept = kept_files(alloc, &embeddable, files)?;
    joined_files(alloc, &embeddable, &kept)
}

/// Looks for the first flaw.
fn check_files<'a>(flaws: &Flaws<'_, '_, 'a>, files: &'a [File]) -> Result<(), EmbeddingFault>
    ensures { (ds : List DefinitionTree) → TellsEmbeddable flaws.now ds
        → FindsFlaw result (found_from (Spec.flaws ds) 0 (map file_view files.now)) }
{
    for (file, parsed) in files.iter().enumerate() {
        match check_bodies(flaws, &parsed.definitions) {
            Ok(()) => {}
            Err(Flaw::Unknown { at }) => {
                return Err(EmbeddingFault::UnknownName { file, offset: at });
            }
            Err(Flaw::NoStruct { at }) => {
                return Err(EmbeddingFault::NoStruct { file, offset: at });
            }
            Err(Flaw::OutOfMemory) => return Err(EmbeddingFault::OutOfMemory),
        }
    }
    Ok(())
}

/// Looks for the first flaw of a file.
fn check_bodies<'a>(flaws: &Flaws<'_, '_, 'a>, definitions: &'a [Definition]) -> Result<(), Flaw>
    ensures { (ds : List DefinitionTree) → TellsEmbeddable flaws.now ds
        → Finds flaw_view result (flat_map (λ d. Spec.flaws ds (body d)) (map definition_view definitions.now)) }
{
    for definition in definitions {
        flaws.check(&definition.body)?;
    }
    Ok(())
}

/// The files that are meant by what is left in each.
fn joined_files<'a>(
    alloc: Global,
    embeddable: &Embeddable<'_, 'a>,
    files: &[KeptFile<'a>],
) -> Result<Vec<File>, EmbeddingFault>
    ensures { (ds : List DefinitionTree) → TellsTables embeddable.now ds → AreWell ds → AllByRecursion (AreSound ds) files.now
        → AllByRecursion (AreLeftWell ds) (map left_view files.now) → MakesFiles result ds (map left_view files.now) }
{
    let mut joined = Vec::with_capacity(alloc, files.len())?;
    let mut nodes = MOST_NODES;
    for (file, kept) in files.iter().enumerate() {
        let joiner = Joiner {
            alloc,
            embeddable,
            file,
        };
        joined.push(joined_file(joiner, kept, &mut nodes)?)?;
    }
    Ok(joined)
}

/// The file that is meant: its definitions alone, since files come here without other names. `nodes` counts those that are left of what there may be.
fn joined_file<'a>(
    joiner: Joiner<'_, 'a>,
    file: &KeptFile<'a>,
    nodes: &mut usize,
) -> Result<File, EmbeddingFault>
    ensures { (ds : List DefinitionTree) → TellsTables joiner.entry.embeddable.now ds → AreWell ds → AreSound ds file.now → AreLeftWell ds (left_view file.now)
        → let meant = joined_left ds (left_view file.now) in let own = definitions meant in
        MakesPart file_view result joiner.entry.file most_height nodes.old nodes.new (height_definitions own) (size_of_definitions own) meant
        (flat_map (body_clashes ds) (left_view file.now).bodies) }
{
    let definitions = joined_definitions(joiner, &file.bodies, nodes)?;
    let package = match file.package {
        Some(name) => Some(name.clone()?),
        None => None,
    };
    Ok(File {
        package,
        definitions,
        names: Vec::new(joiner.alloc),
    })
}

/// The definitions that are meant.
fn joined_definitions<'a>(
    joiner: Joiner<'_, 'a>,
    bodies: &[Kept<'a>],
    nodes: &mut usize,
) -> Result<Vec<Definition>, EmbeddingFault>
    ensures { (ds : List DefinitionTree) → TellsTables joiner.entry.embeddable.now ds → AreWell ds → AllByRecursion (λ k. IsSound ds k.standing) bodies.now
        → AllByRecursion (IsBodyWell ds) (map body_view bodies.now)
        → MakesDefinitions result joiner.entry.file nodes.old nodes.new ds (map body_view bodies.now) }
{
    let mut joined = Vec::with_capacity(joiner.alloc, bodies.len())?;
    for body in bodies {
        joined.push(joined_definition(joiner, body, nodes)?)?;
    }
    Ok(joined)
}

/// The definition that is meant.
fn joined_definition<'a>(
    joiner: Joiner<'_, 'a>,
    kept: &Kept<'a>,
    nodes: &mut usize,
) -> Result<Definition, EmbeddingFault>
    ensures { (ds : List DefinitionTree) → TellsTables joiner.entry.embeddable.now ds → AreWell ds → IsSound ds kept.now.standing
        → IsBodyWell ds (body_view kept.now) → let meant = joined_body ds (body_view kept.now) in
        MakesPart definition_view result joiner.entry.file most_height nodes.old nodes.new (height (body meant)) (size (body meant)) meant
        (body_clashes ds (body_view kept.now)) }
{
    let room = Room {
        place: kept.place,
        by: None,
        is_whole: true,
        levels: MOST_HEIGHT,
    };
    let standing = &kept.standing;
    let name = String::from_str(joiner.alloc, standing.label())?;
    let body = joiner.joined_standing(standing, room, nodes)?;
    let at = standing.place().unwrap_or(0);
    Ok(Definition { name, at, body })
}
