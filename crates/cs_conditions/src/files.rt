// What files stand for without conditions.
ghost use Rattle.std.specs.Prelude.{◌≡◌, [], map, IfOk, IfErr, IsOkUnless};
ghost use Rattle.std.specs.List.{flat_map};
ghost use Rattle.cs_grammar.specs.Tree.{body};
ghost use Rattle.cs_grammar.specs.View.{definition_view, file_view};
ghost use Rattle.cs_conditions.specs.Checks.{TellsKnown, Finds, FindsAny};
ghost use Rattle.cs_conditions.specs.Conditions.{AreChosen, IsRefusal, condition_faults, found_from};
ghost use Rattle.cs_conditions.specs.Faults.{flaws};
ghost use Rattle.cs_conditions.specs.Known.{Knowledge};

use crate::ConditionFault;
use crate::choice::Choosing;
use crate::flaws::{Flaw, Stop};
use crate::known::Known;
use cs_grammar::{Definition, File};
use std::alloc::Global;

/// The files that files of the wide profile stand for, each at its place: each struct literal under conditions is embedded as the disjunction of
/// what it can be (CUE, comprehensions). Embeddings and marks of defaults stay.
///
/// # Errors
/// `LeftOut` or `MayBeAbsent` with the first condition at fault, by file and then by text. `OutOfMemory`.
pub fn without_conditions(alloc: Global, files: &[File]) -> Result<Vec<File>, ConditionFault>
    ensures found { IfOk result (λ v. AreChosen (map file_view files.now) (map file_view v.items)) }
    ensures refused { IfErr result (λ e. IsRefusal e (map file_view files.now)) }
    ensures only { condition_faults (map file_view files.now) ≡ []
        → IsOkUnless result ConditionFault.OutOfMemory }
{
    let known = Known::of(alloc, files)?;
    check_files(&known, files)?;
    let choosing = Choosing {
        alloc,
        known: &known,
    };
    Ok(choosing.chosen_files(files)?)
}

/// Looks for the first condition at fault.
fn check_files<'a>(known: &Known<'a>, files: &'a [File]) -> Result<(), ConditionFault>
    ensures { (knowledge : Knowledge) → TellsKnown known.now knowledge
        → FindsAny result (found_from (flaws knowledge) 0 (map file_view files.now)) }
{
    for (file, parsed) in files.iter().enumerate() {
        match check_bodies(known, &parsed.definitions) {
            Ok(()) => {}
            Err(Stop::OutOfMemory) => return Err(ConditionFault::OutOfMemory),
            Err(Stop::Flawed(Flaw::LeftOut { at })) => {
                return Err(ConditionFault::LeftOut { file, offset: at });
            }
            Err(Stop::Flawed(Flaw::MayBeAbsent { at })) => {
                return Err(ConditionFault::MayBeAbsent { file, offset: at });
            }
        }
    }
    Ok(())
}

/// Looks for the first condition at fault in a file.
fn check_bodies<'a>(known: &Known<'a>, definitions: &'a [Definition]) -> Result<(), Stop>
    ensures { (knowledge : Knowledge) → TellsKnown known.now knowledge
        → Finds result (flat_map (λ d. flaws knowledge (body d)) (map definition_view definitions.now)) }
{
    for definition in definitions {
        known.check(&definition.body)?;
    }
    Ok(())
}
