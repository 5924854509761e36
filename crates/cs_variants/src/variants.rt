// Packages in which something is put at a place, and the names of copies.
ghost use Rattle.std.specs.Prelude.{OnOk, IsTrue};
ghost use Rattle.std.specs.List.{AllByRecursion};
ghost use Rattle.cs_package.specs.Environment.{IsDefinitionName};
ghost use Rattle.cs_package.specs.View.{IsTable};
ghost use Rattle.cs_variants.specs.Sound.{IsSound};

use crate::copies::Way;
use crate::places::{Change, Made, Place};
use crate::walks::Walk;
use cs_guard::{GuardFault, Guarded, guard};
use cs_package::{Inside, NameTable, Shape, ShapeEnd, package_of};
use indexmap::IndexMap;
use std::alloc::{AllocError, Global};
use std::iter::successors;

/// Where a change is made: at one reference to the definition of its place, or at all of them.
#[derive(Clone, Copy)]
pub enum Where {
    Once,
    Everywhere,
}

/// The definitions of a variant: the number of each in the package that it is made of, and its bodies, copied from there.
#[derive(Drop)]
pub(crate) struct Draft<'w, 'a> {
    pub(crate) walk: &'w Walk<'a>,
    /// Whether what a document may lack is left out, but for what is on the way to a place: optional keys, a map's keys where it has
    /// no others, and elements that repeat.
    pub(crate) is_least: bool,
    definitions: Vec<usize>,
    bodies: Vec<Vec<Shape>>,
}

impl Walk<'_> {
    /// The package with copies of the definitions on the way to a place, the root's last, where each step of the way is forced and
    /// the change is made at the place; none where such a package isn't guarded. What the root doesn't reach has no bodies there.
    /// Where the change is made everywhere, the definition of the place is changed itself. What a document may lack is left out
    /// where the least is asked for: its questions lead to far fewer others. Only memory can run out.
    pub fn variant(&self, place: &Place<'_>, at: Where, is_least: bool) -> Made<Option<Guarded>> {
        let mut draft = Draft {
            walk: self,
            is_least,
            definitions: Vec::new(self.alloc),
            bodies: Vec::new(self.alloc),
        };
        draft.put_all(place, at)?;
        draft.put_way(place, at)?;
        let bodies = draft.bodies;
        self.guarded(&draft.definitions, bodies)
    }

    /// The package of one definition, `_`, in place of the root. Only memory can run out.
    pub fn of_everything(&self) -> Made<Option<Guarded>> {
        let anything = vec![in self.alloc; Shape::Top]?;
        self.guarded(&[self.root], vec![in self.alloc; anything]?)
    }

    /// The package of copies of these definitions with these bodies, where it is guarded, each reference is to one of them, and
    /// each `&` and `|` has two operands or more. This is looked at here, instead of being said of each change.
    fn guarded(&self, definitions: &[usize], bodies: Vec<Vec<Shape>>) -> Made<Option<Guarded>> {
        let mut names = IndexMap::new(self.alloc);
        for definition in definitions {
            if *definition < self.package.count() {
                put_name(self.alloc, &mut names, self.package.bare_name(*definition))?;
            }
        }
        let count = names.len();
        if count != bodies.len() || !are_all_sound(count, &bodies) {
            return Ok(None);
        }
        match guard(self.alloc, package_of(names, bodies)) {
            Ok(guarded) => Ok(Some(guarded)),
            Err(GuardFault::OutOfMemory) => Err(AllocError),
            Err(GuardFault::Cycle { .. } | GuardFault::ChainTooLong { .. }) => Ok(None),
        }
    }
}

impl Draft<'_, '_> {
    /// Puts copies of all definitions, of which that of a place is changed in its stead where all references to it are meant.
    fn put_all(&mut self, place: &Place<'_>, at: Where) -> Made<()> {
        for definition in 0..self.walk.package.count() {
            let is_changed = matches!(at, Where::Everywhere) && definition == place.definition;
            let way = is_changed.then_some((place.steps.as_slice(), place.change));
            self.put_copy(definition, way)?;
        }
        Ok(())
    }

    /// Puts copies of the definitions on the way to a place behind the others, on the way back to the root, which is the last one:
    /// the last definition counts as the root. The first copy has the change, and each further one refers to the copy before it.
    /// Where all references are meant, the definition of the place is there already, unless it is the root.
    fn put_way(&mut self, place: &Place<'_>, at: Where) -> Made<()> {
        let walk = self.walk;
        let (first, mut change) = match (at, walk.reference_to(place.entry)) {
            (Where::Everywhere, Some(from)) => (from, Change::Definition(place.definition)),
            (Where::Everywhere, None) | (Where::Once, _) => (place, place.change),
        };
        let way_back = successors(Some(first), |place| walk.reference_to(place.entry));
        for place in way_back.take(walk.reached.len()) {
            let way = Some((place.steps.as_slice(), change));
            change = Change::Definition(self.put_copy(place.definition, way)?);
        }
        Ok(())
    }

    /// Puts a copy of a definition behind the others, with what a way puts in it; its number.
    fn put_copy(&mut self, definition: usize, way: Way<'_>) -> Made<usize> {
        let number = self.bodies.len();
        let copies = self.copy_shapes(self.walk.bodies(definition), way)?;
        self.bodies.push(copies)?;
        self.definitions.push(definition)?;
        Ok(number)
    }
}

/// Puts a name among these, with as many `_` behind it as make it a new one, beside itself as it is written, with `#`.
fn put_name(alloc: Global, names: &mut NameTable, name: &str) -> Made<()>
    requires table { IsTable names.old.entries }
    requires spelled { IsDefinitionName name.now }
    ensures { OnOk result (IsTable names.new.entries) }
{
    let mut fresh = String::from_str(alloc, name)?;
    for _ in 0..names.len() {
        if !names.contains_key(fresh.as_str()) {
            break;
        }
        fresh.push_str("_")?;
    }
    let mut written = String::from_str(alloc, "#")?;
    written.push_str(fresh.as_str())?;
    drop(names.insert(fresh, written)?);
    Ok(())
}

fn are_all_sound(count: usize, bodies: &[Vec<Shape>]) -> bool
    ensures { IsTrue result → AllByRecursion (λ v. AllByRecursion (IsSound count) v.items) bodies.now }
{
    bodies.iter().all(|shapes| are_sound(count, shapes))
}

#[cycle(sound)]
fn are_sound(count: usize, shapes: &[Shape]) -> bool
    ensures { IsTrue result → AllByRecursion (IsSound count) shapes.now }
{
    for shape in shapes {
        if !is_sound(count, shape) {
            return false;
        }
    }
    true
}

#[cycle(sound)]
fn is_sound(count: usize, shape: &Shape) -> bool
    ensures { IsTrue result → IsSound count shape.now }
{
    match shape.inside() {
        Inside::Simple(_) => true,
        Inside::Definition(number) => number < count,
        Inside::And(shapes) | Inside::Or(shapes) => shapes.len() >= 2 && are_sound(count, shapes),
        Inside::Struct { parts, .. } => {
            for part in parts {
                if !is_sound(count, &part.value) {
                    return false;
                }
            }
            true
        }
        Inside::List { front, end } => match end {
            ShapeEnd::Closed | ShapeEnd::Any => are_sound(count, front),
            ShapeEnd::Each(shape) => are_sound(count, front) && is_sound(count, shape),
        },
    }
}
