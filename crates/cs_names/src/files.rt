// What files stand for without names.
ghost use Rattle.std.specs.Prelude.{◌≡◌, [], map, IfOk, IfErr, IsOkUnless};
ghost use Rattle.cs_grammar.specs.View.{file_view};
ghost use Rattle.cs_names.specs.Checks.{TellsLifts, TellsScope};
ghost use Rattle.cs_names.specs.Lifted as Lifted;
ghost use Rattle.cs_names.specs.Lifted.{all_definitions, lifts};
ghost use Rattle.cs_names.specs.Names.{AreNamed, IsRefusal, name_faults};

use crate::NameFault;
use crate::flaws::check_files;
use crate::inside::named_files;
use crate::joined::check_named;
use crate::lifting::Lifting;
use crate::nested::paths_in;
use crate::scopes::Scope;
use crate::values::value_names;
use cs_grammar::File;
use cs_plain::in_places;
use std::alloc::Global;

/// The files that files of the wide profile stand for, each at its place: each name of a scope is a definition of its own, and what names it refers to
/// that (CUE, declarations and scopes, definitions and hidden fields, let clauses), a selector of a nested definition too (CUE, selectors). Other selectors,
/// which select from definitions then, conditions, embeddings and marks of defaults stay. In the file that declares it, a name that is no definition, is
/// declared once and is plain is put in the places of its references where it means the same (own rule): what has no parts, a kind, or at most eight of these
/// as operands of `&` or `|`. A definition that nothing refers to any more is gone.
///
/// # Errors
/// `LeftOut`, `UnknownName` or `NamesField` with the first name or selector at fault by itself, by file and then by text; `UnknownName` with the first
/// `let` that nothing names; `Redeclared`, in files that join literals, with the first name that a literal declares again, or else the first that is no
/// definition, holds a literal and is named otherwise than as an embedding, or as an operand of `&` beside such names and literals. `OutOfMemory`.
pub fn without_names(alloc: Global, files: &[File]) -> Result<Vec<File>, NameFault>
    ensures found { IfOk result (λ v. AreNamed (map file_view files.now) (map file_view v.items)) }
    ensures refused { IfErr result (λ e. IsRefusal e (map file_view files.now)) }
    ensures only { name_faults (map file_view files.now) ≡ []
        → IsOkUnless result NameFault.OutOfMemory }
{
    let paths = paths_in(alloc, files)?;
    let shared = Scope::shared(alloc, files, &paths)?;
    let lifting = Lifting::of(alloc, &shared, files)?;
    lifted_files(&lifting, &shared, files)
}

/// The same, of which this is lifted and shared.
fn lifted_files<'a>(
    lifting: &Lifting<'a>,
    shared: &Scope<'a>,
    files: &'a [File],
) -> Result<Vec<File>, NameFault>
    ensures found { let fs = map file_view files.now in TellsLifts lifting.now (all_definitions fs) (lifts fs) → TellsScope shared.now (Lifted.shared fs)
        → IfOk result (λ v. AreNamed fs (map file_view v.items)) }
    ensures refused { let fs = map file_view files.now in TellsLifts lifting.now (all_definitions fs) (lifts fs) → TellsScope shared.now (Lifted.shared fs)
        → IfErr result (λ e. IsRefusal e fs) }
    ensures only { let fs = map file_view files.now in TellsLifts lifting.now (all_definitions fs) (lifts fs) → TellsScope shared.now (Lifted.shared fs)
        → name_faults fs ≡ [] → IsOkUnless result NameFault.OutOfMemory }
{
    check_files(lifting, shared, files)?;
    let named = named_files(lifting, shared, files)?;
    check_named(lifting, &named)?;
    let names = value_names(lifting)?;
    Ok(in_places(lifting.alloc, &names, &named)?)
}
