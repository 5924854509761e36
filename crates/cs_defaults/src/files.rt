// What files stand for without their marks.
ghost use Rattle.std.specs.Prelude.{◌≡◌, ℕ, Bool, true, List, [], map, IfOk, IfErr, IsOkUnless};
ghost use Rattle.std.specs.List.{flat_map};
ghost use Rattle.cs_grammar.specs.Tree.{body};
ghost use Rattle.cs_grammar.specs.View.{definition_view, file_view};
ghost use Rattle.cs_defaults.specs.Absent as Absent;
ghost use Rattle.cs_defaults.specs.Checks.{Finds, FindsIn, FindsAny, TellsHanding};
ghost use Rattle.cs_defaults.specs.Marks.{misplaced};
ghost use Rattle.cs_defaults.specs.Widened.{IsUnmarked, IsRefusal, mark_faults, places_from};

use crate::DefaultFault;
use crate::absent::Clashes;
use crate::leading::Handing;
use crate::marks::check_marks;
use crate::unmarked::Unmarking;
use cs_grammar::{Definition, File};
use std::alloc::Global;

/// The files that files of the wide profile stand for, each at its place: without marks, and with the fields optional that are regular
/// and have a default (CUE, default values). What is present has to be as the unmarked disjunctions ask, and nothing is filled in.
///
/// # Errors
/// `Mark` with the first mark out of place, by file and then by text, or else with the first default that another declaration of its
/// label could exclude. `OutOfMemory`.
pub fn without_marks(alloc: Global, files: &[File]) -> Result<Vec<File>, DefaultFault>
    ensures found { IfOk result (λ v. IsUnmarked (map file_view files.now) (map file_view v.items)) }
    ensures refused { IfErr result (λ e. IsRefusal e (map file_view files.now)) }
    ensures only { mark_faults (map file_view files.now) ≡ []
        → IsOkUnless result DefaultFault.OutOfMemory }
{
    check_places(files)?;
    let handing = Handing::of(alloc, files)?;
    check_clashes(alloc, &handing, files)?;
    let unmarking = Unmarking {
        alloc,
        handing: &handing,
    };
    Ok(unmarking.unmarked_files(files)?)
}

/// Looks for the first mark out of place.
fn check_places(files: &[File]) -> Result<(), DefaultFault>
    ensures { FindsAny result (places_from (misplaced true) 0 (map file_view files.now)) }
{
    for (file, parsed) in files.iter().enumerate() {
        match check_bodies(&parsed.definitions) {
            Ok(()) => {}
            Err(offset) => return Err(DefaultFault::Mark { file, offset }),
        }
    }
    Ok(())
}

/// Looks for the first mark out of place in a file.
fn check_bodies(definitions: &[Definition]) -> Result<(), usize>
    ensures { Finds result (flat_map (λ d. misplaced true (body d)) (map definition_view definitions.now)) }
{
    for definition in definitions {
        check_marks(&definition.body, true)?;
    }
    Ok(())
}

/// Looks for the first default that could be excluded.
fn check_clashes(alloc: Global, handing: &Handing<'_>, files: &[File]) -> Result<(), DefaultFault>
    ensures { (has : List ℕ → Bool) → TellsHanding handing.now has
        → FindsAny result (places_from (Absent.clashes has) 0 (map file_view files.now)) }
{
    for (file, parsed) in files.iter().enumerate() {
        let clashes = Clashes {
            alloc,
            handing,
            file,
        };
        check_file(&clashes, &parsed.definitions)?;
    }
    Ok(())
}

/// Looks for the first default of a file that could be excluded.
fn check_file(clashes: &Clashes<'_, '_>, definitions: &[Definition]) -> Result<(), DefaultFault>
    ensures { (has : List ℕ → Bool) → TellsHanding clashes.now.handing.now has
        → FindsIn result clashes.now.file (flat_map (λ d. Absent.clashes has (body d)) (map definition_view definitions.now)) }
{
    for definition in definitions {
        clashes.check(&definition.body)?;
    }
    Ok(())
}
