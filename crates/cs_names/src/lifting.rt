// What is lifted: the definitions of names, by where these are declared.
ghost use Rattle.std.specs.Prelude.{◌≡◌, ◌++◌, ◌&&◌, ◌||◌, ℕ, List, [], ◌∷◌, Some, None, false, map, IfOk, OnOk, option_map, string_bytes};
ghost use Rattle.std.specs.BTreeSet.{contains_text};
ghost use Rattle.std.specs.Str.{bytes_eq};
ghost use Rattle.cs_grammar.specs.Tree.{DefinitionTree};
ghost use Rattle.cs_grammar.specs.View.{expr_view, name_view, file_view};
ghost use Rattle.cs_names.specs.Checks.{TellsLifts, TellsScope};
ghost use Rattle.cs_names.specs.Lifted as Spec;
ghost use Rattle.cs_names.specs.Lifted.{Lifts, free, with_lifted, lift_own, lift_top, origin_of, known, is_open_origin, all_definitions};
ghost use Rattle.cs_names.specs.Scopes as Scopes;

use crate::flaws::is_repeated;
use crate::scopes::Scope;
use crate::taken::TakenNames;
use crate::texts::{inner_name, is_definition, is_marked, top_name};
use cs_grammar::{Expr, File, Name, atom};
use std::alloc::{AllocError, Global};
use std::collections::{BTreeMap, BTreeSet};

/// What declares a name: a file, `let`, or a literal.
#[derive(Clone, Copy)]
pub enum Origin {
    File,
    /// A file, by one literal that isn't closed before it is joined.
    Unclosed,
    Let,
    Literal,
}

/// A name that is lifted.
#[derive(Drop)]
pub(crate) struct Lifted<'a> {
    /// The number of the file, and the offset, of its first declaration in its scope.
    pub(crate) place: (usize, usize),
    pub(crate) text: &'a str,
    /// The name of its definition.
    pub(crate) name: String,
    pub(crate) origin: Origin,
}

/// What is lifted.
#[derive(Drop)]
pub(crate) struct Lifting<'a> {
    pub(crate) alloc: Global,
    /// The names of the definitions of the files, and of those that are lifted.
    names: TakenNames<'a>,
    /// The latter by where the names are declared.
    known: BTreeMap<(usize, usize), String>,
    /// The names of those that aren't closed before they are joined.
    unclosed: BTreeSet<String>,
    /// All of it, in order.
    pub(crate) order: Vec<Lifted<'a>>,
}

/// What declares a name of a literal.
fn origin_of(name: &str) -> Origin
    ensures { result ≡ origin_of name.now }
{
    if is_marked(name) {
        Origin::Literal
    } else {
        Origin::Let
    }
}

/// Whether a value is a literal that embeds nothing.
fn is_literal(value: &Expr) -> bool
    ensures { result ≡ Spec.is_literal (expr_view value.now) }
{
    match value {
        Expr::Struct { .. } => true,
        Expr::And(_) | Expr::Or(_) | Expr::Paren(_) | Expr::List { .. } | Expr::Wide(_) => false,
        atom!() | Expr::Name { .. } | Expr::Reference { .. } => false,
    }
}

/// What declares a name of a file, beside what all files share.
fn top_origin(shared: &Scope<'_>, name: &Name) -> Origin
    ensures { (every : Scopes.Scope) → TellsScope shared.now every → result ≡ Spec.top_origin every (name_view name.now) }
{
    if name.is_bound {
        Origin::Let
    } else if is_literal(&name.value)
        && !is_definition(&name.label)
        && !is_repeated(shared, &name.label)
    {
        Origin::Unclosed
    } else {
        Origin::File
    }
}

/// Adds the name of a definition, if what it holds isn't closed before it is joined.
fn add_unclosed(
    unclosed: &mut BTreeSet<String>,
    name: &String,
    origin: Origin,
) -> Result<(), AllocError>
    ensures { OnOk result ((s : List ℕ) → contains_text unclosed.new s
        ≡ (contains_text unclosed.old s || (is_open_origin origin && bytes_eq (string_bytes name.now) s))) }
{
    match origin {
        Origin::Unclosed => {
            unclosed.insert(name.clone()?)?;
            Ok(())
        }
        Origin::File | Origin::Let | Origin::Literal => Ok(()),
    }
}

impl<'a> Lifting<'a> {
    /// Nothing, beside the definitions of the files.
    pub(crate) fn new(alloc: Global, files: &'a [File]) -> Result<Lifting<'a>, AllocError>
        ensures { IfOk result (λ l. TellsLifts l (all_definitions (map file_view files.now)) []) }
    {
        Ok(Lifting {
            alloc,
            names: TakenNames::of(alloc, files)?,
            known: BTreeMap::new(alloc),
            unclosed: BTreeSet::new(alloc),
            order: Vec::new(alloc),
        })
    }

    /// Whether a definition that is lifted has that name.
    pub(crate) fn is_lifted(&self, name: &str) -> bool
        ensures { (all : List DefinitionTree) (ts : Lifts) → TellsLifts self.now all ts → result ≡ Spec.is_lifted ts name.now }
    {
        self.names.is_given(name)
    }

    /// Whether what the definition of that name holds isn't closed before it is joined.
    pub(crate) fn is_unclosed(&self, name: &str) -> bool
        ensures { (all : List DefinitionTree) (ts : Lifts) → TellsLifts self.now all ts → result ≡ Spec.is_open ts name.now }
    {
        self.unclosed.contains(name)
    }

    /// The name of the definition of what is declared at a place.
    pub(crate) fn known(&self, place: (usize, usize)) -> Option<&str>
        ensures { (all : List DefinitionTree) (ts : Lifts) → TellsLifts self.now all ts → option_map (λ n. n.now) result ≡ known ts place }
    {
        match self.known.get(&place) {
            Some(name) => Some(name.as_str()),
            None => None,
        }
    }

    /// The name, with a number behind it where it is taken.
    fn free(&mut self, wanted: String) -> Result<String, AllocError>
        ensures found { (all : List DefinitionTree) (ts : Lifts) → TellsLifts self.old all ts
            → IfOk result (λ s. string_bytes s ≡ free (Spec.is_taken all ts) (string_bytes wanted)) }
        ensures apart { (all : List DefinitionTree) (ts : Lifts) → TellsLifts self.old all ts
            → IfOk result (λ s. Spec.is_taken all ts (string_bytes s) ≡ false) }
        ensures kept { OnOk result ((all : List DefinitionTree) (ts : Lifts) → TellsLifts self.old all ts → TellsLifts self.new all ts) }
    {
        self.names.free(wanted)
    }

    /// Adds what is declared at a place for the first time.
    fn add(
        &mut self,
        place: (usize, usize),
        text: &'a str,
        name: String,
        origin: Origin,
    ) -> Result<(), AllocError>
        ensures { OnOk result ((all : List DefinitionTree) (ts : Lifts) → TellsLifts self.old all ts → known ts place ≡ None
            → Spec.is_taken all ts (string_bytes name) ≡ false
            → TellsLifts self.new all (ts ++ record { place = place; text = text.now; name = string_bytes name; origin = origin } ∷ [])) }
    {
        self.names.give(name.clone()?)?;
        self.known.insert(place, name.clone()?)?;
        add_unclosed(&mut self.unclosed, &name, origin)?;
        self.order.push(Lifted {
            place,
            text,
            name,
            origin,
        })?;
        Ok(())
    }

    /// Adds what is declared at a place, if it isn't there already.
    fn lift(
        &mut self,
        place: (usize, usize),
        text: &'a str,
        wanted: String,
        origin: Origin,
    ) -> Result<(), AllocError>
        ensures { OnOk result ((all : List DefinitionTree) (ts : Lifts) → TellsLifts self.old all ts
            → TellsLifts self.new all (with_lifted all ts place text.now (string_bytes wanted) origin)) }
    {
        if self.known.contains_key(&place) {
            return Ok(());
        }
        let name = self.free(wanted)?;
        self.add(place, text, name, origin)
    }

    /// Adds the name of a literal that is declared at a place, inside of a definition.
    pub(crate) fn lift_own(
        &mut self,
        outer: &str,
        place: (usize, usize),
        name: &'a str,
    ) -> Result<(), AllocError>
        ensures { OnOk result ((all : List DefinitionTree) (ts : Lifts) → TellsLifts self.old all ts
            → TellsLifts self.new all (lift_own all outer.now (Some place) name.now ts)) }
    {
        let wanted = inner_name(self.alloc, outer, name)?;
        self.lift(place, name, wanted, origin_of(name))
    }

    /// Adds a name of a file that is declared at a place.
    pub(crate) fn lift_top(
        &mut self,
        shared: &Scope<'a>,
        place: (usize, usize),
        name: &'a Name,
    ) -> Result<(), AllocError>
        ensures { OnOk result ((all : List DefinitionTree) (ts : Lifts) (every : Scopes.Scope) → TellsLifts self.old all ts → TellsScope shared.now every
            → TellsLifts self.new all (lift_top all every (Some place) (name_view name.now) ts)) }
    {
        let wanted = top_name(self.alloc, &name.label)?;
        self.lift(place, &name.label, wanted, top_origin(shared, name))
    }

    /// The definition inside of which the value of a name stands, or else another one.
    pub(crate) fn within(&self, place: (usize, usize), outer: &str) -> Result<String, AllocError>
        ensures { (all : List DefinitionTree) (ts : Lifts) → TellsLifts self.now all ts
            → IfOk result (λ s. string_bytes s ≡ Spec.within ts outer.now (Some place)) }
    {
        match self.known(place) {
            Some(name) => String::from_str(self.alloc, name),
            None => String::from_str(self.alloc, outer),
        }
    }
}
