// Plain refinement: a closed definition is narrowed by a struct literal with some of its labels.

ghost use Rattle.std.specs.Prelude.{◌≡◌, ◌↔◌, ◌++◌, [], ◌∷◌, List, ℕ, map, length, slice_get, IfOk, OnOk, None, Some, IfSome, IsSome, MatchOption};
ghost use Rattle.cs_grammar.specs.View.{expr_view, exprs_view, fields_view, definition_view};
ghost use Rattle.cs_grammar.specs.Tree.{DefinitionTree, FileTree};
ghost use Rattle.cs_package.specs.Environment.{Environment};
ghost use Rattle.cs_resolve.specs.Declarations.{bodies_of};
ghost use Rattle.cs_resolve.specs.ClosedBases as ClosedBases;
ghost use Rattle.cs_resolve.specs.Refinement as Refinement;
ghost use Rattle.cs_resolve.specs.Refinement.{IsBase, Refinements, AreRefinements};
ghost use Rattle.cs_resolve.specs.Resolved.{IsPackage};
ghost use Rattle.cs_resolve.specs.Narrowed.{HoldsTexts, HoldsFound, HoldBases, HoldsSole, NumbersBase, Has, StillHas, Sound, Grown, Refines, IsAmong, Lists, StillLists, IsClassified, AreClassified, Closed, sole_entry};
ghost use Rattle.cs_resolve.specs.Steps.{declared_in};

use crate::narrowing::{FieldLabels, body_narrowing, closed_literal, narrows, operands_narrowing};
use cs_grammar::{Definition, Expr, Field, File};
use indexmap::IndexMap;
use std::alloc::{AllocError, Global};
use std::collections::BTreeSet;

/// The closed bases by name, each with the number of the set of its labels. A refinement shares the set of its base.
#[derive(Drop)]
pub(crate) struct Bases<'a> {
    sets: Vec<FieldLabels<'a>>,
    numbers: IndexMap<&'a str, usize>,
}

/// The sole body of each name, and none where a name has several.
type SoleBodies<'a> = IndexMap<&'a str, Option<&'a Expr>>;

/// The definitions that may narrow a base, by its name.
type RefinerTable<'a> = IndexMap<&'a str, Vec<&'a str>>;

/// The labels of the closed base of that name.
fn labels_of<'b, 'a>(bases: &'b Bases<'a>, name: &str) -> Option<&'b FieldLabels<'a>>
    ensures { (bs : ClosedBases.Bases) → HoldBases bases.now bs
        → MatchOption result (bs name.now ≡ None) (λ s. HoldsFound (bs name.now) s.now) }
{
    let number = bases.numbers.get(name)?;
    bases.sets.get(*number)
}

/// Whether the operands of a conjunction are a plain refinement of one of the bases.
pub(crate) fn is_refinement(bases: &Bases<'_>, operands: &Vec<Expr>) -> bool
    ensures { (bs : ClosedBases.Bases) → HoldBases bases.now bs
        → result ≡ ClosedBases.is_refinement bs (exprs_view operands.now.items) }
{
    let Some(narrowing) = operands_narrowing(operands) else {
        return false;
    };
    match labels_of(bases, narrowing.base) {
        Some(labels) => narrows(narrowing.fields, labels),
        None => false,
    }
}

/// Records the body of a definition, the sole one of its name unless the name has one already.
fn record_body<'a>(
    bodies: &mut SoleBodies<'a>,
    definition: &'a Definition,
) -> Result<(), AllocError>
    ensures { OnOk result ((ds : List DefinitionTree) → HoldsSole bodies.old ds
        → HoldsSole bodies.new (ds ++ definition_view definition.now ∷ [])) }
{
    let name = definition.name.as_str();
    if bodies.contains_key(name) {
        bodies.insert(name, None)?;
    } else {
        bodies.insert(name, Some(&definition.body))?;
    }
    Ok(())
}

fn record_all_bodies<'a>(
    bodies: &mut SoleBodies<'a>,
    definitions: &'a Vec<Definition>,
) -> Result<(), AllocError>
    ensures { OnOk result ((ds : List DefinitionTree) → HoldsSole bodies.old ds
        → HoldsSole bodies.new (ds ++ map definition_view definitions.now.items)) }
{
    for definition in definitions {
        record_body(bodies, definition)?;
    }
    Ok(())
}

/// The sole bodies of the names that files declare.
fn sole_bodies(alloc: Global, files: &Vec<File>) -> Result<SoleBodies<'_>, AllocError>
    ensures { IfOk result (λ m. HoldsSole m (declared_in files.now.items)) }
{
    let mut bodies = IndexMap::new(alloc);
    for file in files {
        record_all_bodies(&mut bodies, &file.definitions)?;
    }
    Ok(bodies)
}

/// The labels of fields, `[string]` as if it were one.
///
/// # Errors
/// Memory ran out.
pub(crate) fn field_labels(
    alloc: Global,
    fields: &Vec<Field>,
) -> Result<FieldLabels<'_>, AllocError>
    ensures { IfOk result (λ s. HoldsTexts s (Refinement.texts (fields_view fields.now.items))) }
{
    let mut labels = BTreeSet::new(alloc);
    for field in fields {
        labels.insert(field.label.as_str())?;
    }
    Ok(labels)
}

/// Adds a definition whose only body is a closed literal.
fn add_literal<'a>(
    alloc: Global,
    bases: &mut Bases<'a>,
    name: &'a str,
    fields: &'a Vec<Field>,
) -> Result<(), AllocError>
    ensures kept { OnOk result (StillHas bases.old bases.new) }
    ensures added { OnOk result (Has bases.new name.now) }
    ensures sound { OnOk result ((ds : List DefinitionTree)
        → IsBase ds name.now (Refinement.texts (fields_view fields.now.items))
        → Sound ds bases.old → Sound ds bases.new) }
{
    let labels = field_labels(alloc, fields)?;
    let number = bases.sets.len();
    bases.sets.push(labels)?;
    bases.numbers.insert(name, number)?;
    Ok(())
}

/// Lists a definition among those that may narrow a base.
fn add_refiner<'a>(
    alloc: Global,
    refiners: &mut RefinerTable<'a>,
    base: &'a str,
    name: &'a str,
) -> Result<(), AllocError>
    ensures kept { OnOk result (StillLists refiners.old refiners.new) }
    ensures added { OnOk result (Lists refiners.new base.now name.now) }
{
    let mut names = match refiners.swap_remove(base) {
        Some(names) => names,
        None => Vec::new(alloc),
    };
    names.push(name)?;
    drop(refiners.insert(base, names)?);
    Ok(())
}

/// The name at a place of the table, with its body, if it has only one.
fn sole_body_at<'a>(bodies: &SoleBodies<'a>, place: usize) -> Option<(&'a str, &'a Expr)>
    ensures sole { (ds : List DefinitionTree) → HoldsSole bodies.now ds
        → IfSome result (λ p. bodies_of p.0.now ds ≡ expr_view p.1.now ∷ []) }
    ensures found { result ≡ sole_entry (slice_get bodies.now.entries place) }
{
    let (name, sole) = bodies.get_index(place)?;
    let body = (*sole)?;
    Some((*name, body))
}

/// Adds a definition to the bases where its body is a closed literal, and lists it where its body narrows one.
fn classify_body<'a>(
    alloc: Global,
    bases: &mut Bases<'a>,
    refiners: &mut RefinerTable<'a>,
    definition: (&'a str, &'a Expr),
) -> Result<(), AllocError>
    ensures kept { OnOk result (StillHas bases.old bases.new) }
    ensures listed { OnOk result (StillLists refiners.old refiners.new) }
    ensures classified { OnOk result (IsClassified bases.new refiners.new definition.entry.0.now
        (expr_view definition.entry.1.now)) }
    ensures sound { OnOk result ((ds : List DefinitionTree)
        → bodies_of definition.entry.0.now ds ≡ expr_view definition.entry.1.now ∷ []
        → Sound ds bases.old → Sound ds bases.new) }
{
    let (name, body) = definition;
    if let Some(fields) = closed_literal(body) {
        return add_literal(alloc, bases, name, fields);
    }
    if let Some(narrowing) = body_narrowing(body) {
        return add_refiner(alloc, refiners, narrowing.base, name);
    }
    Ok(())
}

fn classify_bodies<'a>(
    alloc: Global,
    bodies: &SoleBodies<'a>,
    bases: &mut Bases<'a>,
    refiners: &mut RefinerTable<'a>,
) -> Result<(), AllocError>
    ensures { OnOk result ((ds : List DefinitionTree) → HoldsSole bodies.now ds
        → Sound ds bases.old → Sound ds bases.new × AreClassified ds bases.new refiners.new) }
{
    for place in 0..bodies.len() {
        if let Some(definition) = sole_body_at(bodies, place) {
            classify_body(alloc, bases, refiners, definition)?;
        }
    }
    Ok(())
}

/// The number of the labels of the base that a definition refines, if its only body is a refinement of one of these.
fn refined_number(bodies: &SoleBodies<'_>, bases: &Bases<'_>, name: &str) -> Option<usize>
    ensures sound { (ds : List DefinitionTree) → HoldsSole bodies.now ds → Sound ds bases.now
        → IfSome result (NumbersBase ds bases.now name.now) }
    ensures found { (ds : List DefinitionTree) → HoldsSole bodies.now ds → Sound ds bases.now
        → (m : List ℕ) → Has bases.now m → Refines ds name.now m → IsSome result }
{
    let body = (*bodies.get(name)?)?;
    let narrowing = body_narrowing(body)?;
    let number = *bases.numbers.get(narrowing.base)?;
    let labels = bases.sets.get(number)?;
    if narrows(narrowing.fields, labels) {
        Some(number)
    } else {
        None
    }
}

/// Adds a definition if it refines one of the bases.
fn add_refinement<'a>(
    bodies: &SoleBodies<'a>,
    bases: &mut Bases<'a>,
    name: &'a str,
) -> Result<(), AllocError>
    ensures grown { OnOk result (Grown bases.old bases.new) }
    ensures sound { OnOk result ((ds : List DefinitionTree) → HoldsSole bodies.now ds
        → Sound ds bases.old → Sound ds bases.new
        × ((m : List ℕ) → Has bases.old m → Refines ds name.now m → Has bases.new name.now)) }
{
    if let Some(number) = refined_number(bodies, bases, name) {
        bases.numbers.insert(name, number)?;
    }
    Ok(())
}

fn add_refinements<'a>(
    bodies: &SoleBodies<'a>,
    bases: &mut Bases<'a>,
    names: &Vec<&'a str>,
) -> Result<(), AllocError>
    ensures grown { OnOk result (Grown bases.old bases.new) }
    ensures sound { OnOk result ((ds : List DefinitionTree) → HoldsSole bodies.now ds
        → Sound ds bases.old → Sound ds bases.new × ((m n : List ℕ)
        → IsAmong n names.now.items → Has bases.old m → Refines ds n m → Has bases.new n)) }
{
    for name in names {
        add_refinement(bodies, bases, *name)?;
    }
    Ok(())
}

/// Adds all refinements. Each name is found at most once, so there are no more places to look at than names.
fn find_refinements<'a>(
    bodies: &SoleBodies<'a>,
    refiners: &RefinerTable<'a>,
    bases: &mut Bases<'a>,
) -> Result<(), AllocError>
    ensures grown { OnOk result (Grown bases.old bases.new) }
    ensures sound { OnOk result ((ds : List DefinitionTree) → HoldsSole bodies.now ds
        → AreClassified ds bases.old refiners.now → Sound ds bases.old
        → Sound ds bases.new × Closed ds bases.new (length bodies.now.entries)) }
{
    for place in 0..bodies.len() {
        if let Some((name, _)) = bases.numbers.get_index(place)
            && let Some(names) = refiners.get(*name)
        {
            add_refinements(bodies, bases, names)?;
        }
    }
    Ok(())
}

/// The closed bases of files. Its time is that of putting their labels in order.
///
/// # Errors
/// `AllocError`, where memory runs out.
pub(crate) fn bases_of(alloc: Global, files: &Vec<File>) -> Result<Bases<'_>, AllocError>
    ensures { IfOk result (λ b. HoldBases b (ClosedBases.bases (declared_in files.now.items))) }
{
    let bodies = sole_bodies(alloc, files)?;
    bases_among(alloc, &bodies)
}

/// The closed bases among the names with a sole body.
fn bases_among<'a>(alloc: Global, bodies: &SoleBodies<'a>) -> Result<Bases<'a>, AllocError>
    ensures { (ds : List DefinitionTree) → HoldsSole bodies.now ds
        → IfOk result (λ b. HoldBases b (ClosedBases.bases ds)) }
{
    let mut bases = Bases {
        sets: Vec::new(alloc),
        numbers: IndexMap::new(alloc),
    };
    add_bases(alloc, bodies, &mut bases)?;
    Ok(bases)
}

/// Adds the closed literals, and all that refine them, to a table that has none.
fn add_bases<'a>(
    alloc: Global,
    bodies: &SoleBodies<'a>,
    bases: &mut Bases<'a>,
) -> Result<(), AllocError>
    ensures { OnOk result ((ds : List DefinitionTree) → HoldsSole bodies.now ds
        → Sound ds bases.old → HoldBases bases.new (ClosedBases.bases ds)) }
{
    let mut refiners = IndexMap::new(alloc);
    classify_bodies(alloc, bodies, bases, &mut refiners)?;
    find_refinements(bodies, &refiners, bases)
}

/// A law: closed bases that are computed, in as many steps as there are definitions, are those of the least relation: each is
/// a closed literal, or a plain refinement of another. So there are plain refinements of definitions, and no others, and
/// files are a package of one environment.
pub fn refinement_law()
    ensures bases { (ds : List DefinitionTree) (n : List ℕ) (ls : List (List ℕ))
        → (ClosedBases.bases ds n ≡ Some ls) ↔ IsBase ds n ls }
    ensures found { (ds : List DefinitionTree)
        → AreRefinements ds (ClosedBases.is_refinement (ClosedBases.bases ds)) }
    ensures one { (ds : List DefinitionTree) (rs qs : Refinements)
        → AreRefinements ds rs → AreRefinements ds qs → rs ≡ qs }
    ensures environment { (fs : List FileTree) (E F : Environment)
        → IsPackage fs E → IsPackage fs F → E ≡ F }
{}
