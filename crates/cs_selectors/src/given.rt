// The definitions that selectors are made.
ghost use Rattle.std.specs.Prelude.{◌≡◌, ◌∷◌, [], ◌++◌, List, None, false, map, IfOk, OnOk, option_map, string_bytes};
ghost use Rattle.std.specs.List.{flat_map};
ghost use Rattle.cs_grammar.specs.Tree.{DefinitionTree};
ghost use Rattle.cs_grammar.specs.View.{file_view, selector_view};
ghost use Rattle.cs_names.specs.Lifted.{all_definitions};
ghost use Rattle.cs_plain.specs.Bodies.{Body, TellsBodies};
ghost use Rattle.cs_selectors.specs.Checks.{TellsGifts, Finds, FailsAny, FindsAny, lack_on, name_at, use_view, texts_at, tree_at};
ghost use Rattle.cs_selectors.specs.Given as Spec;
ghost use Rattle.cs_selectors.specs.Given.{with_given, with_all};
ghost use Rattle.cs_selectors.specs.Reached.{lack, texts};
ghost use Rattle.cs_selectors.specs.Selectors.{fault_of};

use crate::SelectorFault;
use crate::lack::{Lack, Stop};
use crate::reached::{reached, some_left_out};
use crate::uses::Use;
use cs_grammar::{Expr, File, Selector};
use cs_names::TakenNames;
use cs_plain::Bodies;
use std::alloc::{AllocError, Global};
use std::collections::BTreeMap;

/// A definition that is made.
#[derive(Drop)]
pub(crate) struct Given<'a> {
    /// The definition before the labels, and then they.
    path: Vec<&'a str>,
    pub(crate) name: String,
    /// Where the first of the selectors is: the number of the file, and the offset.
    pub(crate) home: (usize, usize),
    /// The values that the selectors ask for.
    pub(crate) values: Vec<&'a Expr>,
}

/// The definitions that are made.
#[derive(Drop)]
pub(crate) struct Giving<'b, 'a> {
    pub(crate) alloc: Global,
    bodies: &'b Bodies<'a>,
    /// The names of the definitions of the files, and of those that are made.
    names: TakenNames<'a>,
    /// The latter by the definition before the labels, and these.
    known: BTreeMap<Vec<&'a str>, String>,
    /// All of them, in order.
    pub(crate) order: Vec<Given<'a>>,
}

/// The definition before labels, and then they.
pub(crate) fn path_of<'a>(
    alloc: Global,
    head: &'a str,
    labels: &'a [Selector],
) -> Result<Vec<&'a str>, AllocError>
    ensures { IfOk result (λ v. texts_at v.items ≡ head.now ∷ texts (map selector_view labels.now)) }
{
    let mut path = Vec::new(alloc);
    path.push(head)?;
    for label in labels {
        path.push(label.label.as_str())?;
    }
    Ok(path)
}

/// The name of the definition that such selectors are to be made.
fn wanted(alloc: Global, head: &str, labels: &[Selector]) -> Result<String, AllocError>
    ensures { IfOk result (λ s. string_bytes s ≡ Spec.wanted head.now (texts (map selector_view labels.now))) }
{
    let mut name = String::from_str(alloc, head)?;
    for label in labels {
        name.push_str("_")?;
        name.push_str(&label.label)?;
    }
    Ok(name)
}

/// What a selector at a place lacks, as a refusal.
fn fault_of(place: (usize, usize), lack: Lack) -> SelectorFault
    ensures { FailsAny result ((place, lack) ∷ []) }
{
    let (file, offset) = place;
    match lack {
        Lack::LeftOut => SelectorFault::LeftOut { file, offset },
        Lack::Unknown => SelectorFault::UnknownName { file, offset },
        Lack::NotRegular => SelectorFault::NotRegular { file, offset },
    }
}

impl<'b, 'a> Giving<'b, 'a> {
    /// None, beside the definitions of the files, which have these bodies.
    fn new(
        alloc: Global,
        files: &'a [File],
        bodies: &'b Bodies<'a>,
    ) -> Result<Giving<'b, 'a>, AllocError>
        ensures { (bs : List Body) → TellsBodies bodies.now bs
            → IfOk result (λ g. TellsGifts g (all_definitions (map file_view files.now)) bs []) }
    {
        Ok(Giving {
            alloc,
            bodies,
            names: TakenNames::of(alloc, files)?,
            known: BTreeMap::new(alloc),
            order: Vec::new(alloc),
        })
    }

    /// The name of the definition that is made of selectors with such a path.
    pub(crate) fn known(&self, path: &[&'a str]) -> Option<&str>
        ensures { option_map (λ n. n.now) result ≡ name_at self.now (texts_at path.now) }
    {
        match self.known.get(path) {
            Some(name) => Some(name.as_str()),
            None => None,
        }
    }

    /// Adds the definition for selectors with a path that aren't there yet.
    fn add(
        &mut self,
        path: Vec<&'a str>,
        name: String,
        home: (usize, usize),
        values: Vec<&'a Expr>,
    ) -> Result<(), AllocError>
        ensures { OnOk result ((all : List DefinitionTree) (bs : List Body) (gs : List Spec.Given) → TellsGifts self.old all bs gs
            → Spec.known gs (texts_at path.entry.items) ≡ None → Spec.is_taken all gs (string_bytes name) ≡ false
            → lack_on bs (texts_at path.entry.items) ≡ None
            → TellsGifts self.new all bs
            (gs ++ record { path = texts_at path.entry.items; name = string_bytes name; home = home; values = map tree_at values.entry.items } ∷ [])) }
    {
        self.names.give(name.clone()?)?;
        self.known.insert(path.clone()?, name.clone()?)?;
        self.order.push(Given {
            path,
            name,
            home,
            values,
        })?;
        Ok(())
    }

    /// A name that is free, for selectors that reach these values.
    fn make(
        &mut self,
        path: Vec<&'a str>,
        selector: &Use<'a>,
        values: Vec<&'a Expr>,
    ) -> Result<(), AllocError>
        ensures { OnOk result ((all : List DefinitionTree) (bs : List Body) (gs : List Spec.Given) → TellsGifts self.old all bs gs
            → texts_at path.entry.items ≡ Spec.path (use_view selector.now)
            → map tree_at values.entry.items ≡ (Spec.given all bs gs (use_view selector.now)).values
            → Spec.known gs (texts_at path.entry.items) ≡ None → lack_on bs (texts_at path.entry.items) ≡ None
            → TellsGifts self.new all bs (gs ++ Spec.given all bs gs (use_view selector.now) ∷ [])) }
    {
        let wanted = wanted(self.alloc, selector.head, selector.labels)?;
        let name = self.names.free(wanted)?;
        self.add(path, name, selector.place, values)
    }

    /// Adds the definition that a selector is made, if it isn't there already. `Err` has what it lacks.
    fn give(&mut self, selector: &Use<'a>) -> Result<(), Stop>
        ensures found { (all : List DefinitionTree) (bs : List Body) (gs : List Spec.Given) → TellsGifts self.old all bs gs
            → Finds result (lack bs (use_view selector.now)) }
        ensures given { OnOk result ((all : List DefinitionTree) (bs : List Body) (gs : List Spec.Given) → TellsGifts self.old all bs gs
            → TellsGifts self.new all bs (with_given all bs gs (use_view selector.now))) }
    {
        if some_left_out(selector.labels) {
            return Err(Stop::Lacks(Lack::LeftOut));
        }
        let path = path_of(self.alloc, selector.head, selector.labels)?;
        if self.known.contains_key(path.as_slice()) {
            return Ok(());
        }
        let bodies = self.bodies.of_name(selector.head);
        let values = reached(self.alloc, bodies, selector.labels)?;
        self.make(path, selector, values)?;
        Ok(())
    }

    /// The same of selectors, in their order. `Err` has what the first one lacks that lacks anything.
    fn give_all(&mut self, selectors: &[Use<'a>]) -> Result<(), SelectorFault>
        ensures found { (all : List DefinitionTree) (bs : List Body) (gs : List Spec.Given) → TellsGifts self.old all bs gs
            → FindsAny result (flat_map (fault_of bs) (map use_view selectors.now)) }
        ensures given { OnOk result ((all : List DefinitionTree) (bs : List Body) (gs : List Spec.Given) → TellsGifts self.old all bs gs
            → TellsGifts self.new all bs (with_all all bs gs (map use_view selectors.now))) }
    {
        for selector in selectors {
            match self.give(selector) {
                Ok(()) => {}
                Err(Stop::OutOfMemory) => return Err(SelectorFault::OutOfMemory),
                Err(Stop::Lacks(lack)) => return Err(fault_of(selector.place, lack)),
            }
        }
        Ok(())
    }

    /// Those of all selectors of files, whose definitions have these bodies.
    pub(crate) fn of(
        alloc: Global,
        files: &'a [File],
        bodies: &'b Bodies<'a>,
        selectors: &[Use<'a>],
    ) -> Result<Giving<'b, 'a>, SelectorFault>
        ensures found { (bs : List Body) → TellsBodies bodies.now bs → FindsAny result (flat_map (fault_of bs) (map use_view selectors.now)) }
        ensures given { (bs : List Body) → TellsBodies bodies.now bs → IfOk result (λ g. TellsGifts g (all_definitions (map file_view files.now)) bs
            (with_all (all_definitions (map file_view files.now)) bs [] (map use_view selectors.now))) }
    {
        let mut giving = Giving::new(alloc, files, bodies)?;
        giving.give_all(selectors)?;
        Ok(giving)
    }
}
