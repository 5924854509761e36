// From files to a package.
ghost use Rattle.std.specs.Prelude.{◌≡◌, ℕ, List, [], ◌∷◌, ◌++◌, map, length, string_bytes, OnOk, IfOk, IfErr, IsOkUnless};
ghost use Rattle.std.specs.List.{AllByRecursion};
ghost use Rattle.cs_grammar.specs.Tree.{Tree, DefinitionTree, definition, defined_name};
ghost use Rattle.cs_grammar.specs.View.{definition_view, file_view};
ghost use Rattle.cs_grammar.specs.DefaultForms.{IsDefaultFile};
ghost use Rattle.cs_grammar.specs.Written.{IsWrittenFile};
ghost use Rattle.cs_resolve.specs.Declarations.{distinct, names, places_of, faults_from};
ghost use Rattle.cs_package.specs.Environment.{Environment, written};
ghost use Rattle.cs_resolve.specs.Refinement.{Refinements};
ghost use Rattle.cs_resolve.specs.ClosedBases as ClosedBases;
ghost use Rattle.cs_resolve.specs.Narrowed.{HoldBases, TellsRefinements};
ghost use Rattle.cs_resolve.specs.PackageName.{IsOnePackage};
ghost use Rattle.cs_resolve.specs.Refusal.{AreSpelled, IsRefusal};
ghost use Rattle.cs_resolve.specs.Resolved.{IsPackage, IsSmall};
ghost use Rattle.cs_resolve.specs.Steps.{declared_in, known_names, AreBodiesOf, HoldsNames, IsShapeOf, Resolves, ResolvesIn};
ghost use Rattle.cs_resolve.specs.WellFormed.{IsWellFormedDefinition, AreWellFormedFiles};
ghost use Rattle.cs_package.specs.View.{names_of, IsTable};

use crate::opening::check_opened;
use crate::package_name::differing_file;
use crate::refinement::{Bases, bases_of};
use crate::shapes::Resolver;
use crate::size::{MOST_DEFINITIONS, has_few_nodes};
use crate::{Package, ResolveFault, Shape};
use cs_grammar::{Definition, File};
use cs_package::{NameTable, package_of};
use indexmap::IndexMap;
use std::alloc::{AllocError, Global};
use std::collections::BTreeSet;

/// The package that the files declare: each name, in order of first declaration, with its bodies, by file and
/// then by text (CUE, definitions).
///
/// # Errors
/// The first condition that the files fail, as the clause `refused` says: `PackageName`, `TooLarge`, `UnknownName` or
/// `FieldReference`, `NotOpened`. `OutOfMemory`.
pub fn resolve(alloc: Global, files: Vec<File>) -> Result<Package, ResolveFault>
    requires { AreSpelled (map file_view files.items) }
    ensures found { IfOk result (λ p. IsPackage (map file_view files.items) p) }
    ensures refused { IfErr result (λ e. IsRefusal e (map file_view files.items)) }
    ensures only { (E : Environment) → IsPackage (map file_view files.items) E
        → IsOkUnless result ResolveFault.OutOfMemory }
{
    package_of_files(alloc, &files)
}

/// The same of files that can be written down, without forms of the wide profile: those that a text of the default profile spells, or that
/// were made of such.
///
/// # Errors
/// As those of `resolve`.
pub fn resolve_written(alloc: Global, files: Vec<File>) -> Result<Package, ResolveFault>
    requires written { AllByRecursion IsWrittenFile (map file_view files.items) }
    requires default_forms { AllByRecursion IsDefaultFile (map file_view files.items) }
    ensures found { IfOk result (λ p. IsPackage (map file_view files.items) p) }
    ensures refused { IfErr result (λ e. IsRefusal e (map file_view files.items)) }
    ensures only { (E : Environment) → IsPackage (map file_view files.items) E
        → IsOkUnless result ResolveFault.OutOfMemory }
{
    package_of_files(alloc, &files)
}

/// The package that well-formed files declare.
fn package_of_files(alloc: Global, files: &Vec<File>) -> Result<Package, ResolveFault>
    requires { AreWellFormedFiles (map file_view files.now.items) }
    ensures found { IfOk result (λ p. IsPackage (map file_view files.now.items) p) }
    ensures refused { IfErr result (λ e. IsRefusal e (map file_view files.now.items)) }
    ensures only { (E : Environment) → IsPackage (map file_view files.now.items) E
        → IsOkUnless result ResolveFault.OutOfMemory }
{
    if let Some(file) = differing_file(files) {
        return Err(ResolveFault::PackageName { file });
    }
    let count = name_count(alloc, files)?;
    if count > MOST_DEFINITIONS || !has_few_nodes(files) {
        return Err(ResolveFault::TooLarge { definitions: count });
    }
    let bases = bases_of(alloc, files)?;
    small_package(alloc, &bases, files)
}

/// The package that files declare by their closed bases, where they name one and are small enough.
fn small_package(
    alloc: Global,
    bases: &Bases<'_>,
    files: &Vec<File>,
) -> Result<Package, ResolveFault>
    requires formed { AreWellFormedFiles (map file_view files.now.items) }
    requires agree { IsOnePackage (map file_view files.now.items) }
    requires small { IsSmall (map file_view files.now.items) }
    requires held { HoldBases bases.now (ClosedBases.bases (declared_in files.now.items)) }
    ensures found { IfOk result (λ p. IsPackage (map file_view files.now.items) p) }
    ensures refused { IfErr result (λ e. IsRefusal e (map file_view files.now.items)) }
    ensures only { (E : Environment) → IsPackage (map file_view files.now.items) E
        → IsOkUnless result ResolveFault.OutOfMemory }
{
    let names = declared_names(alloc, files)?;
    let bodies = declared_bodies(alloc, &names, bases, files)?;
    check_opened(alloc, bases, files)?;
    Ok(package_of(names, bodies))
}

/// Puts the names of definitions among these.
fn put_names<'a>(
    names: &mut BTreeSet<&'a str>,
    definitions: &'a Vec<Definition>,
) -> Result<(), AllocError>
    ensures { OnOk result ((ns : List (List ℕ)) → HoldsNames names.old ns → HoldsNames names.new
        (ns ++ map defined_name (map definition_view definitions.now.items))) }
{
    for definition in definitions {
        names.insert(definition.name.as_str())?;
    }
    Ok(())
}

/// How many names files declare. They are counted in order, since who writes them can give many of them one hash.
fn name_count(alloc: Global, files: &Vec<File>) -> Result<usize, AllocError>
    ensures { IfOk result (λ n. n ≡ length (names (declared_in files.now.items))) }
{
    let mut names = BTreeSet::new(alloc);
    for file in files {
        put_names(&mut names, &file.definitions)?;
    }
    Ok(names.len())
}

/// The names that files declare.
fn declared_names(alloc: Global, files: &Vec<File>) -> Result<NameTable, AllocError>
    requires { AreWellFormedFiles (map file_view files.now.items) }
    ensures table { IfOk result (λ t. IsTable t.entries) }
    ensures found { IfOk result (λ t. names_of t.entries ≡ names (declared_in files.now.items)) }
{
    let mut names = IndexMap::new(alloc);
    for file in files {
        add_names(alloc, &mut names, &file.definitions)?;
    }
    Ok(names)
}

/// Adds the names that a file declares and that are not there yet.
fn add_names(
    alloc: Global,
    names: &mut NameTable,
    definitions: &Vec<Definition>,
) -> Result<(), AllocError>
    requires table { IsTable names.old.entries }
    requires named { AllByRecursion IsWellFormedDefinition
        (map definition_view definitions.now.items) }
    ensures table { OnOk result (IsTable names.new.entries) }
    ensures added { OnOk result ((ns : List (List ℕ))
        → names_of names.old.entries ≡ distinct ns
        → names_of names.new.entries
        ≡ distinct (ns ++ map defined_name (map definition_view definitions.now.items))) }
{
    for definition in definitions {
        if names.contains_key(definition.name.as_str()) {
            continue;
        }
        let name = definition.name.clone()?;
        let written = written_name(alloc, &name)?;
        drop(names.insert(name, written)?);
    }
    Ok(())
}

/// A name as it is written, with `#`.
fn written_name(alloc: Global, name: &String) -> Result<String, AllocError>
    ensures { IfOk result (λ w. string_bytes w ≡ written (string_bytes name.now)) }
{
    let mut written = String::from_str(alloc, "#")?;
    written.push_str(name.as_str())?;
    Ok(written)
}

/// The bodies that files declare, those of each name at its place.
fn declared_bodies(
    alloc: Global,
    names: &NameTable,
    bases: &Bases<'_>,
    files: &Vec<File>,
) -> Result<Vec<Vec<Shape>>, ResolveFault>
    requires { IsTable names.now.entries }
    ensures { (rs : Refinements) → TellsRefinements bases.now rs → Resolves result
        (λ v. AreBodiesOf rs (names_of names.now.entries) v.items (declared_in files.now.items))
        (faults_from 0 (names_of names.now.entries) (map file_view files.now.items)) }
{
    let mut bodies = no_bodies(alloc, names.len())?;
    for (number, file) in files.iter().enumerate() {
        let resolver = Resolver {
            alloc,
            names,
            bases,
            file: number,
        };
        add_bodies(&resolver, &mut bodies, &file.definitions)?;
    }
    Ok(bodies)
}

/// An empty list of bodies for each of so many names.
fn no_bodies(alloc: Global, count: usize) -> Result<Vec<Vec<Shape>>, AllocError>
    ensures long { IfOk result (λ v. length v.items ≡ count) }
    ensures empty { IfOk result (λ v. AllByRecursion (λ b. b.items ≡ []) v.items) }
{
    let mut bodies = Vec::with_capacity(alloc, count)?;
    for _ in 0..count {
        bodies.push(Vec::new(alloc))?;
    }
    Ok(bodies)
}

/// Adds the bodies that a file declares, each to those of its name.
fn add_bodies(
    resolver: &Resolver<'_, '_>,
    bodies: &mut Vec<Vec<Shape>>,
    definitions: &Vec<Definition>,
) -> Result<(), ResolveFault>
    requires table { IsTable resolver.now.names.now.entries }
    requires long { length resolver.now.names.now.entries ≡ length bodies.old.items }
    ensures long { length bodies.new.items ≡ length bodies.old.items }
    ensures added { OnOk result ((rs : Refinements) (ds : List DefinitionTree)
        → TellsRefinements resolver.now.bases.now rs
        → AreBodiesOf rs (known_names resolver.now) bodies.old.items ds
        → AreBodiesOf rs (known_names resolver.now) bodies.new.items
        (ds ++ map definition_view definitions.now.items)) }
    ensures faults { ResolvesIn result resolver.now (λ rs ns _. Unit {0})
        (places_of (map definition_view definitions.now.items)) }
{
    for definition in definitions {
        let shape = resolver.body_shape(&definition.body)?;
        add_body(resolver.names, bodies, definition.name.as_str(), shape)?;
    }
    Ok(())
}

/// Adds a body to those of a name, if the table has it.
fn add_body(
    names: &NameTable,
    bodies: &mut Vec<Vec<Shape>>,
    name: &str,
    shape: Shape,
) -> Result<(), AllocError>
    requires table { IsTable names.now.entries }
    requires long { length names.now.entries ≡ length bodies.old.items }
    ensures long { length bodies.new.items ≡ length bodies.old.items }
    ensures added { OnOk result ((rs : Refinements) (ds : List DefinitionTree) (o : ℕ) (t : Tree)
        → AreBodiesOf rs (names_of names.now.entries) bodies.old.items ds
        → IsShapeOf rs (names_of names.now.entries) shape t
        → AreBodiesOf rs (names_of names.now.entries) bodies.new.items
        (ds ++ definition name.now o t ∷ [])) }
{
    if let Some(i) = names.get_index_of(name) {
        bodies[i].push(shape)?;
    }
    Ok(())
}
