// The names whose plain values are put in their places.
ghost use Rattle.std.specs.Prelude.{◌++◌, ℕ, List, IfOk, OnOk};
ghost use Rattle.cs_grammar.specs.Tree.{DefinitionTree};
ghost use Rattle.cs_names.specs.Checks.{TellsLifts, lifted_view};
ghost use Rattle.cs_names.specs.Lifted.{Lifts};
ghost use Rattle.cs_names.specs.Named as Spec;
ghost use Rattle.cs_plain.specs.References.{TellsTexts};

use crate::lifting::{Lifted, Lifting};
use crate::texts::is_definition;
use std::alloc::AllocError;
use std::collections::BTreeSet;

/// Adds the name of the definition of a name that is no definition itself.
fn add_name<'l>(names: &mut BTreeSet<&'l str>, lifted: &'l Lifted<'_>) -> Result<(), AllocError>
    ensures { OnOk result ((ss : List (List ℕ)) → TellsTexts names.old ss
        → TellsTexts names.new (ss ++ Spec.value_name (lifted_view lifted.now))) }
{
    if is_definition(lifted.text) {
        return Ok(());
    }
    names.insert(lifted.name.as_str())?;
    Ok(())
}

/// The names of the definitions of names that are no definitions themselves: where they are plain, they are put in the places of these.
pub(crate) fn value_names<'l>(lifting: &'l Lifting<'_>) -> Result<BTreeSet<&'l str>, AllocError>
    ensures { (all : List DefinitionTree) (ts : Lifts) → TellsLifts lifting.now all ts → IfOk result (λ t. TellsTexts t (Spec.value_names ts)) }
{
    let mut names = BTreeSet::new(lifting.alloc);
    for lifted in &lifting.order {
        add_name(&mut names, lifted)?;
    }
    Ok(names)
}
