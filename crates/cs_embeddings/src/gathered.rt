// Declarations of one label that are put together.
ghost use Rattle.std.specs.Prelude.{◌≡◌, ℕ, false, List, [], ◌∷◌, ◌++◌, map, length, Some, IfOk, OnOk};
ghost use Rattle.std.specs.List.{AllByRecursion};
ghost use Rattle.cs_grammar.specs.Tree.{DefinitionTree};
ghost use Rattle.cs_grammar.specs.View.{definition_view};
ghost use Rattle.cs_embeddings.specs.Alternatives as Alternatives;
ghost use Rattle.cs_embeddings.specs.Checks.{TellsTables};
ghost use Rattle.cs_embeddings.specs.GatheredTable.{IsTogether, TellsLabel, TellsLabels, Stands, MeetsLabel, IsSound, declared_view, gathered_view};
ghost use Rattle.cs_embeddings.specs.Views.{brought_view};
ghost use Rattle.cs_embeddings.specs.Gathered as Spec;
ghost use Rattle.cs_embeddings.specs.Bodies.{as_declared};
ghost use Rattle.cs_embeddings.specs.Sited as Sited;

use crate::alternatives::Brought;
use crate::clashes::is_every;
use crate::embedded::Embeddable;
use crate::held::is_plain;
use cs_grammar::{Definition, Expr, FieldMark, Site};
use std::alloc::{AllocError, Global};
use std::collections::BTreeMap;

/// How many declarations of a label are put together at most.
pub(crate) const MOST_GATHERED: usize = 64;

/// A mark, or the one behind it where it is optional.
fn mark_or(first: FieldMark, behind: FieldMark) -> FieldMark
    ensures { result ≡ Spec.mark_or first behind }
{
    match first {
        FieldMark::Optional => behind,
        FieldMark::Regular | FieldMark::Required | FieldMark::Every { .. } => first,
    }
}

fn is_optional(mark: FieldMark) -> bool
    ensures { result ≡ Sited.is_optional mark }
{
    matches!(mark, FieldMark::Optional)
}

/// A declaration of a label.
#[derive(Clone, Copy)]
pub(crate) struct Declared<'a> {
    pub(crate) label: &'a str,
    /// Whether the label is in quotes.
    pub(crate) quoted: bool,
    /// Whether a condition asks for it.
    pub(crate) asked: bool,
    /// The offset at which it is declared, if it is a name of its literal's scope.
    pub(crate) scoped: Option<usize>,
    pub(crate) mark: FieldMark,
    pub(crate) value: &'a Expr,
    /// The offset of the reference that brought it, or of the definition that it is.
    pub(crate) place: Option<usize>,
    /// The offset of the embedding that brought it.
    pub(crate) embedding: Option<usize>,
    /// The offset of its label.
    at: usize,
    /// The offset of the reference that brought it into its literal.
    pub(crate) by: Option<usize>,
}

impl<'a> Declared<'a> {
    fn of_brought(brought: Brought<'a>) -> Declared<'a>
        ensures seen { declared_view result ≡ brought_view brought.entry }
        ensures sited { (result.at ≡ brought.entry.field.now.site.at) × (result.by ≡ brought.entry.by) }
    {
        Declared {
            label: brought.field.label.as_str(),
            quoted: brought.field.quoted,
            asked: brought.field.asked,
            scoped: brought.field.scoped,
            mark: brought.field.mark,
            value: &brought.field.value,
            place: brought.place,
            embedding: brought.embedding,
            at: brought.field.site.at,
            by: brought.by,
        }
    }

    /// Whether it is put together with no other: it is `[string]`, a condition made it, or its value is plain.
    fn stays_alone(self) -> bool
        ensures { result ≡ Spec.stays_alone (declared_view self.entry) }
    {
        is_every(self.mark) || self.asked || is_plain(self.value)
    }

    /// Where it is declared, with no other.
    fn site(self, alloc: Global) -> Site
        ensures { Sited.IsAt result (Some self.entry) × (result.all.items ≡ []) }
    {
        Site {
            at: self.at,
            by: self.by,
            all: Vec::new(alloc),
        }
    }

    pub(crate) fn of_definition(definition: &'a Definition) -> Declared<'a>
        ensures { declared_view result ≡ as_declared (definition_view definition.now) }
    {
        Declared {
            label: definition.name.as_str(),
            quoted: false,
            asked: false,
            scoped: None,
            mark: FieldMark::Regular,
            value: &definition.body,
            place: Some(definition.at),
            embedding: None,
            at: definition.at,
            by: None,
        }
    }
}

/// The declaration that tells where its label is declared: the one that did before, unless that is optional and the further one isn't.
fn lead_or<'a>(lead: Option<Declared<'a>>, further: Declared<'a>) -> Declared<'a>
    ensures { result ≡ Sited.lead_or lead.entry further.entry }
{
    let Some(first) = lead else {
        return further;
    };
    if is_optional(first.mark) && !is_optional(further.mark) {
        further
    } else {
        first
    }
}

/// What an alternative declares.
pub(crate) fn declared_of<'a>(
    alloc: Global,
    declarations: &[Brought<'a>],
) -> Result<Vec<Declared<'a>>, AllocError>
    ensures { IfOk result (λ v. map declared_view v.items ≡ map brought_view declarations.now) }
{
    let mut all = Vec::with_capacity(alloc, declarations.len())?;
    for brought in declarations {
        all.push(Declared::of_brought(*brought))?;
    }
    Ok(all)
}

/// All declarations of a label that may be put together.
#[derive(Drop)]
pub(crate) struct Together<'a> {
    pub(crate) label: &'a str,
    /// Whether the label is in quotes in all of them.
    pub(crate) quoted: bool,
    /// Optional where all are, or else the mark of the first that isn't.
    pub(crate) mark: FieldMark,
    /// The offset of the first reference that brought one.
    pub(crate) place: Option<usize>,
    pub(crate) values: Vec<&'a Expr>,
    /// They themselves, which have these values.
    pub(crate) declared: Vec<Declared<'a>>,
}

impl<'a> Together<'a> {
    /// None yet.
    fn nothing(alloc: Global, label: &'a str) -> Together<'a>
        ensures seen { IsTogether result label.now [] }
        ensures all { result.declared.items ≡ [] }
    {
        Together {
            label,
            quoted: true,
            mark: FieldMark::Optional,
            place: None,
            values: Vec::new(alloc),
            declared: Vec::new(alloc),
        }
    }

    /// Adds a declaration.
    fn add(&mut self, declared: Declared<'a>) -> Result<(), AllocError>
        ensures seen { OnOk result ((s : List ℕ) (bs : List Alternatives.Brought) → IsTogether self.old s bs
            → IsTogether self.new s (bs ++ declared_view declared.entry ∷ [])) }
        ensures all { OnOk result (self.new.declared.items ≡ self.old.declared.items ++ declared.entry ∷ []) }
    {
        self.quoted &= declared.quoted;
        self.mark = mark_or(self.mark, declared.mark);
        self.place = self.place.or(declared.place);
        self.values.push(declared.value)?;
        self.declared.push(declared)?;
        Ok(())
    }

    /// Where they are declared.
    fn site(&self, alloc: Global) -> Result<Site, AllocError>
        ensures { IfOk result (λ s. Sited.IsSited s self.now.declared.items) }
    {
        let mut all = Vec::with_capacity(alloc, self.declared.len())?;
        let mut lead = None;
        for declared in &self.declared {
            all.push(declared.at)?;
            lead = Some(lead_or(lead, *declared));
        }
        match lead {
            Some(Declared { at, by, .. }) => Ok(Site { at, by, all }),
            None => Ok(Site {
                at: 0,
                by: None,
                all,
            }),
        }
    }

    /// Whether they are put together.
    fn is_gathered(&self, embeddable: &Embeddable<'_, 'a>) -> bool
        ensures { (ds : List DefinitionTree) (s : List ℕ) (bs : List Alternatives.Brought) → TellsTables embeddable.now ds → IsTogether self.now s bs
            → result ≡ Spec.gathers ds bs }
    {
        self.values.len() <= MOST_GATHERED && embeddable.unites(&self.values)
    }
}

/// A declaration, or those of one label that are put together.
#[derive(Drop)]
pub(crate) enum Gathered<'a> {
    One(Declared<'a>),
    Several(Together<'a>),
}

impl<'a> Gathered<'a> {
    pub(crate) fn label(&self) -> &'a str
        ensures { result.now ≡ (gathered_view self.now).label.text }
    {
        match self {
            Gathered::One(declared) => declared.label,
            Gathered::Several(together) => together.label,
        }
    }

    /// Whether its label is in quotes.
    pub(crate) fn is_quoted(&self) -> bool
        ensures { result ≡ (gathered_view self.now).label.quotes }
    {
        match self {
            Gathered::One(declared) => declared.quoted,
            Gathered::Several(together) => together.quoted,
        }
    }

    /// Whether a condition asks for it. Those that are put together were written.
    pub(crate) fn is_asked(&self) -> bool
        ensures { result ≡ (gathered_view self.now).label.asked }
    {
        match self {
            Gathered::One(declared) => declared.asked,
            Gathered::Several(_) => false,
        }
    }

    /// Where it is declared, if it is a name of its literal's scope. Those that are put together are fields.
    pub(crate) fn scoped(&self) -> Option<usize>
        ensures { result ≡ (gathered_view self.now).label.scoped }
    {
        match self {
            Gathered::One(declared) => declared.scoped,
            Gathered::Several(_) => None,
        }
    }

    pub(crate) fn mark(&self) -> FieldMark
        ensures { result ≡ (gathered_view self.now).mark }
    {
        match self {
            Gathered::One(declared) => declared.mark,
            Gathered::Several(together) => together.mark,
        }
    }

    pub(crate) fn place(&self) -> Option<usize>
        ensures { result ≡ (gathered_view self.now).place }
    {
        match self {
            Gathered::One(declared) => declared.place,
            Gathered::Several(together) => together.place,
        }
    }

    /// Where it is declared. No definition speaks of it.
    pub(crate) fn site(&self, alloc: Global) -> Result<Site, AllocError>
        ensures { IfOk result (λ s. Sited.IsSiteOf s self.now) }
    {
        match self {
            Gathered::One(declared) => Ok(declared.site(alloc)),
            Gathered::Several(together) => together.site(alloc),
        }
    }
}

/// What is known of a label: all its declarations that may be put together, or, once one of them was met, whether they are put together.
#[derive(Drop)]
enum Label<'a> {
    Unmet(Together<'a>),
    Met { is_gathered: bool },
}

impl<'a> Label<'a> {
    /// The declarations of a label so far, none of which was met.
    fn together(alloc: Global, label: &'a str, known: Option<Label<'a>>) -> Together<'a>
        ensures { (ds : List DefinitionTree) (bs : List Alternatives.Brought) → TellsLabel known.entry ds label.now bs []
            → IsTogether result label.now (Spec.those_of label.now bs) }
    {
        match known {
            Some(Label::Unmet(together)) => together,
            Some(Label::Met { .. }) | None => Together::nothing(alloc, label),
        }
    }

    /// How many declarations are known, where none was met.
    fn count(&self) -> usize
        ensures { (ds : List DefinitionTree) (s : List ℕ) (all : List Alternatives.Brought) → TellsLabel (Some self.now) ds s all []
            → result ≡ length (Spec.those_of s all) }
    {
        match self {
            Label::Unmet(together) => together.values.len(),
            Label::Met { .. } => 0,
        }
    }

    /// Whether the declarations of its label are put together, and what stands for a declaration where that is known of the label.
    fn standing(
        known: Option<Label<'a>>,
        embeddable: &Embeddable<'_, 'a>,
        declared: Declared<'a>,
    ) -> (bool, Option<Gathered<'a>>)
        requires { Spec.stays_alone (declared_view declared) ≡ false }
        ensures { (ds : List DefinitionTree) (all before : List Alternatives.Brought) → TellsTables embeddable.now ds
            → TellsLabel known.entry ds (declared_view declared.entry).label.text all before
            → Stands result.0 result.1 ds all before (declared_view declared.entry) }
    {
        match known {
            Some(Label::Unmet(together)) => {
                if together.is_gathered(embeddable) {
                    (true, Some(Gathered::Several(together)))
                } else {
                    (false, Some(Gathered::One(declared)))
                }
            }
            Some(Label::Met { is_gathered: true }) => (true, None),
            Some(Label::Met { is_gathered: false }) | None => {
                (false, Some(Gathered::One(declared)))
            }
        }
    }
}

/// The labels of declarations.
#[derive(Drop)]
pub(crate) struct Labels<'a> {
    by_text: BTreeMap<&'a str, Label<'a>>,
}

impl<'a> Labels<'a> {
    /// Those of the declarations, none of which was met.
    pub(crate) fn of(alloc: Global, declarations: &[Declared<'a>]) -> Result<Labels<'a>, AllocError>
        ensures { IfOk result (λ l. (ds : List DefinitionTree) → TellsLabels l ds (map declared_view declarations.now) []) }
    {
        let mut labels = Labels {
            by_text: BTreeMap::new(alloc),
        };
        for declared in declarations {
            if !declared.stays_alone() {
                labels.add(alloc, *declared)?;
            }
        }
        Ok(labels)
    }

    /// Adds a declaration to those of its label, of which none was met.
    fn add(&mut self, alloc: Global, declared: Declared<'a>) -> Result<(), AllocError>
        requires { Spec.stays_alone (declared_view declared) ≡ false }
        ensures { OnOk result ((ds : List DefinitionTree) (bs : List Alternatives.Brought) → TellsLabels self.old ds bs []
            → TellsLabels self.new ds (bs ++ declared_view declared.entry ∷ []) []) }
    {
        let label = declared.label;
        let known = self.by_text.remove(label);
        let mut together = Label::together(alloc, label, known);
        together.add(declared)?;
        self.by_text.insert(label, Label::Unmet(together))?;
        Ok(())
    }

    /// How many declarations of a label may be put together, where none was met.
    pub(crate) fn count(&self, label: &str) -> usize
        ensures { (ds : List DefinitionTree) (all : List Alternatives.Brought) → TellsLabels self.now ds all []
            → result ≡ length (Spec.those_of label.now all) }
    {
        match self.by_text.get(label) {
            Some(known) => known.count(),
            None => 0,
        }
    }

    /// What stands for a declaration: itself, all of its label at the first of these, or nothing at the others.
    pub(crate) fn meet(
        &mut self,
        embeddable: &Embeddable<'_, 'a>,
        declared: Declared<'a>,
    ) -> Result<Option<Gathered<'a>>, AllocError>
        ensures { (ds : List DefinitionTree) (all before : List Alternatives.Brought) → TellsTables embeddable.now ds → TellsLabels self.old ds all before
            → MeetsLabel result self.new ds all before (declared_view declared.entry) }
    {
        if declared.stays_alone() {
            return Ok(Some(Gathered::One(declared)));
        }
        let label = declared.label;
        let known = self.by_text.remove(label);
        let (is_gathered, standing) = Label::standing(known, embeddable, declared);
        self.by_text.insert(label, Label::Met { is_gathered })?;
        Ok(standing)
    }
}

/// Declarations, those of one label put together.
pub(crate) fn gather<'a>(
    alloc: Global,
    embeddable: &Embeddable<'_, 'a>,
    declarations: &[Declared<'a>],
) -> Result<Vec<Gathered<'a>>, AllocError>
    ensures found { IfOk result (λ v. (ds : List DefinitionTree) → TellsTables embeddable.now ds
        → map gathered_view v.items ≡ Spec.gathered ds (map declared_view declarations.now)) }
    ensures sound { IfOk result (λ v. (ds : List DefinitionTree) → TellsTables embeddable.now ds → AllByRecursion (IsSound ds) v.items) }
{
    let mut labels = Labels::of(alloc, declarations)?;
    let mut gathered = Vec::with_capacity(alloc, declarations.len())?;
    for declared in declarations {
        if let Some(standing) = labels.meet(embeddable, *declared)? {
            gathered.push(standing)?;
        }
    }
    Ok(gathered)
}
