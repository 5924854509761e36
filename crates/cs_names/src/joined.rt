// Which names are at fault by what else stands in the files.
ghost use Rattle.std.specs.Prelude.{◌≡◌, ◌++◌, ◌&&◌, ℕ, List, [], true, false, map, IfOk};
ghost use Rattle.cs_grammar.specs.Tree.{DefinitionTree};
ghost use Rattle.cs_grammar.specs.View.{file_view};
ghost use Rattle.cs_names.specs.Checks.{TellsLifts, FindsAny, lifted_view};
ghost use Rattle.cs_names.specs.Joined as Spec;
ghost use Rattle.cs_names.specs.Joined.{unused, again, joined, inner_text};
ghost use Rattle.cs_names.specs.Lifted.{Lifts};
ghost use Rattle.cs_plain.specs.References.{TellsTexts, is_among, references_in};

use crate::NameFault;
use crate::flaws::{Flaw, fault_of};
use crate::held::check_held;
use crate::joins::{definitions_join, is_again};
use crate::lifting::{Lifted, Lifting, Origin};
use cs_grammar::File;
use cs_plain::references_in;
use std::alloc::AllocError;
use std::collections::BTreeSet;

/// Whether `let` binds what is lifted, and it isn't referred to.
fn is_unused(referred: &BTreeSet<&str>, lifted: &Lifted<'_>) -> bool
    ensures { (ss : List (List ℕ)) → TellsTexts referred.now ss → result ≡ Spec.is_unused ss (lifted_view lifted.now) }
{
    match lifted.origin {
        Origin::Let => !referred.contains(lifted.name.as_str()),
        Origin::File | Origin::Unclosed | Origin::Literal => false,
    }
}

/// Looks for the first `let` that nothing names.
fn check_unused(referred: &BTreeSet<&str>, order: &[Lifted<'_>]) -> Result<(), NameFault>
    ensures { (ss : List (List ℕ)) → TellsTexts referred.now ss → FindsAny result (unused ss (map lifted_view order.now)) }
{
    for lifted in order {
        if is_unused(referred, lifted) {
            let (file, at) = lifted.place;
            return Err(fault_of(file, Flaw::Unknown { at }));
        }
    }
    Ok(())
}

/// Whether a literal declares what is lifted, and not by `let`.
fn is_inner(origin: Origin) -> bool
    ensures { result ≡ Spec.is_inner origin }
{
    match origin {
        Origin::Literal => true,
        Origin::File | Origin::Unclosed | Origin::Let => false,
    }
}

/// Whether a literal declares a name that was seen already; else it is put there.
fn is_declared_again<'a>(
    seen: &mut BTreeSet<&'a str>,
    lifted: &Lifted<'a>,
) -> Result<bool, AllocError>
    ensures found { (ss : List (List ℕ)) → TellsTexts seen.old ss
        → IfOk result (λ b. b ≡ (Spec.is_inner lifted.now.origin && is_among ss lifted.now.text.now)) }
    ensures seen { (ss : List (List ℕ)) → TellsTexts seen.old ss
        → IfOk result (λ b. b ≡ false → TellsTexts seen.new (ss ++ inner_text (lifted_view lifted.now))) }
{
    if is_inner(lifted.origin) {
        is_again(seen, lifted.text)
    } else {
        Ok(false)
    }
}

/// Looks for the first name that a literal declares behind another one.
fn check_again<'a>(lifting: &Lifting<'a>) -> Result<(), NameFault>
    ensures { FindsAny result (again [] (map lifted_view lifting.now.order.items)) }
{
    let mut seen = BTreeSet::new(lifting.alloc);
    for lifted in &lifting.order {
        let is_seen = is_declared_again(&mut seen, lifted)?;
        if is_seen {
            let flaw = Flaw::Again { at: lifted.place.1 };
            return Err(fault_of(lifted.place.0, flaw));
        }
    }
    Ok(())
}

/// Looks for the first name that is at fault by what stands in the files without names.
pub(crate) fn check_named<'a>(lifting: &Lifting<'a>, named: &[File]) -> Result<(), NameFault>
    ensures { (all : List DefinitionTree) (ts : Lifts) → TellsLifts lifting.now all ts → FindsAny result
        (unused (references_in true (map file_view named.now)) ts ++ joined (map file_view named.now) ts) }
{
    let referred = references_in(lifting.alloc, named, true)?;
    check_unused(&referred, &lifting.order)?;
    if definitions_join(lifting.alloc, named)? {
        check_again(lifting)?;
        check_held(lifting, named)?;
    }
    Ok(())
}
