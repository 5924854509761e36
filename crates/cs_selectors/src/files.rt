// What files stand for without selectors.
ghost use Rattle.std.specs.Prelude.{◌≡◌, List, [], map, IfOk, IfErr, IsOkUnless};
ghost use Rattle.cs_grammar.specs.Tree.{DefinitionTree};
ghost use Rattle.cs_grammar.specs.View.{file_view};
ghost use Rattle.cs_plain.specs.Bodies.{Body};
ghost use Rattle.cs_plain.specs.Placed as Placed;
ghost use Rattle.cs_plain.specs.References.{TellsTexts};
ghost use Rattle.cs_selectors.specs.Checks.{TellsGifts, given_view};
ghost use Rattle.cs_selectors.specs.Given as Gifts;
ghost use Rattle.cs_selectors.specs.Given.{given_names};
ghost use Rattle.cs_selectors.specs.Selectors.{AreFew, AreUnselected, IsRefusal, selector_faults, unselected_from};

use crate::SelectorFault;
use crate::added::unselected_files;
use crate::given::{Given, Giving};
use crate::uses::uses_in;
use cs_grammar::File;
use cs_plain::{Bodies, in_places};
use std::alloc::{AllocError, Global};
use std::collections::BTreeSet;

/// How many selectors files may have.
const MOST_SELECTORS: usize = 4_096;

/// The names of definitions that are made.
fn given_names<'g>(alloc: Global, order: &'g [Given<'_>]) -> Result<BTreeSet<&'g str>, AllocError>
    ensures { IfOk result (λ t. TellsTexts t (given_names (map given_view order.now))) }
{
    let mut names = BTreeSet::new(alloc);
    for given in order {
        names.insert(given.name.as_str())?;
    }
    Ok(names)
}

/// The files without selectors, with the definitions that these are given.
fn given_files<'a>(giving: &Giving<'_, 'a>, files: &'a [File]) -> Result<Vec<File>, AllocError>
    ensures { (all : List DefinitionTree) (bs : List Body) (gs : List Gifts.Given) → TellsGifts giving.now all bs gs
        → IfOk result (λ v. map file_view v.items ≡ Placed.in_places (given_names gs) (unselected_from gs 0 (map file_view files.now))) }
{
    let names = given_names(giving.alloc, &giving.order)?;
    let unselected = unselected_files(giving, files)?;
    in_places(giving.alloc, &names, &unselected)
}

/// The files that files of the wide profile stand for, each at its place: each selector is the reference to a definition of its own, which has the values
/// that the selector asks for, is where the first selector is that asks for them, and stands behind the definitions of that file (CUE, selectors). Where
/// what it asks for is plain (no parts, a kind, or at most eight of these as operands of `&` or `|`), that is in the place of the selectors in the file of the
/// first of them, but where it would mean something else; a definition that nothing refers to then is gone. Conditions, embeddings and marks of defaults stay.
///
/// # Errors
/// `TooLarge` of more than 4,096 selectors; or else `LeftOut`, `UnknownName` or `NotRegular` with the first selector at fault, by file and then by text.
/// `OutOfMemory`.
pub fn without_selectors(alloc: Global, files: &[File]) -> Result<Vec<File>, SelectorFault>
    ensures found { IfOk result (λ v. AreUnselected (map file_view files.now) (map file_view v.items)) }
    ensures refused { IfErr result (λ e. IsRefusal e (map file_view files.now)) }
    ensures only { AreFew (map file_view files.now) → selector_faults (map file_view files.now) ≡ []
        → IsOkUnless result SelectorFault.OutOfMemory }
{
    let bodies = Bodies::of(alloc, files)?;
    let selectors = uses_in(alloc, files)?;
    if selectors.len() > MOST_SELECTORS {
        return Err(SelectorFault::TooLarge);
    }
    let giving = Giving::of(alloc, files, &bodies, &selectors)?;
    Ok(given_files(&giving, files)?)
}
