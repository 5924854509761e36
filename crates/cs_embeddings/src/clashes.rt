// What an embedding would open.
ghost use Rattle.std.specs.Prelude.{◌≡◌, ℕ, List, [], ◌∷◌, ◌++◌, map, Option, IfOk, OnOk, slice_get};
ghost use Rattle.std.specs.List.{filter, list_any};
ghost use Rattle.cs_grammar.specs.View.{expr_view};
ghost use Rattle.cs_embeddings.specs.Alternatives as Alternatives;
ghost use Rattle.cs_embeddings.specs.ClashTable.{TellsEmbeddings, TellsGroup, TellsGroups, TellsSeen, TellsValues, held_at, is_of_label, is_elsewhere, is_of_every, is_unlike, opens};
ghost use Rattle.cs_embeddings.specs.Views.{brought_view};
ghost use Rattle.cs_embeddings.specs.Clashes as Spec;
ghost use Rattle.cs_embeddings.specs.Gathered.{is_every};

use crate::alternatives::Brought;
use crate::held::holds;
use crate::shut::is_shut;
use cs_grammar::{Expr, FieldMark, referred};
use std::alloc::{AllocError, Global};
use std::collections::BTreeMap;

/// Whether both refer to one definition.
fn is_same_reference(first: &Expr, second: &Expr) -> bool
    ensures { result ≡ Spec.is_same_reference (expr_view first.now) (expr_view second.now) }
{
    match (referred(first), referred(second)) {
        (Some(name), Some(other)) => name == other,
        (Some(_) | None, _) => false,
    }
}

/// Whether both stand in the literal itself, or one embedding brought both.
fn is_same_embedding(first: Option<usize>, second: Option<usize>) -> bool
    ensures { result ≡ Spec.is_same_embedding first second }
{
    first == second
}

/// The offset of the first struct literal or reference of a declaration; `None` of a plain one, and of one that a condition made.
fn held_at(brought: Brought<'_>) -> Option<usize>
    ensures { result ≡ held_at (brought_view brought.entry) }
{
    if brought.field.asked {
        return None;
    }
    holds(&brought.field.value)
}

/// Whether an embedding brought a declaration, and something that is shut stands in it.
fn may_open(brought: Brought<'_>) -> bool
    ensures { result ≡ Spec.may_open (brought_view brought.entry) }
{
    brought.embedding.is_some() && is_shut(true, &brought.field.value)
}

/// Whether a declaration is of every label.
pub(crate) fn is_every(mark: FieldMark) -> bool
    ensures { result ≡ is_every mark }
{
    matches!(mark, FieldMark::Every { .. })
}

/// The values of declarations.
#[derive(Clone, Copy)]
enum Values<'a> {
    Nothing,
    /// The first one: the others are the same reference.
    Alike(&'a Expr),
    /// Two aren't the same reference, so no value is the same as each of them.
    Apart,
}

impl<'a> Values<'a> {
    /// Whether one of them isn't the same reference as a value.
    fn differ(self, value: &Expr) -> bool
        ensures { (before : List Alternatives.Brought) → TellsValues self.entry before
            → result ≡ list_any (is_unlike (expr_view value.now)) before }
    {
        match self {
            Values::Nothing => false,
            Values::Alike(first) => !is_same_reference(first, value),
            Values::Apart => true,
        }
    }

    /// These and that of one declaration more.
    fn with(self, value: &'a Expr) -> Values<'a>
        ensures { (before : List Alternatives.Brought) (d : Alternatives.Brought) → d.value ≡ expr_view value.now
            → TellsValues self.entry before → TellsValues result (before ++ d ∷ []) }
    {
        match self {
            Values::Nothing => Values::Alike(value),
            Values::Alike(first) => {
                if is_same_reference(first, value) {
                    Values::Alike(first)
                } else {
                    Values::Apart
                }
            }
            Values::Apart => Values::Apart,
        }
    }
}

/// Where declarations come from.
#[derive(Clone, Copy)]
enum Embeddings {
    Nowhere,
    /// All from one embedding, or from the literal itself.
    One(Option<usize>),
    Several,
}

impl Embeddings {
    /// Whether one of them comes from elsewhere.
    fn has_other(self, embedding: Option<usize>) -> bool
        ensures { (before : List Alternatives.Brought) → TellsEmbeddings self before → result ≡ list_any (is_elsewhere embedding) before }
    {
        match self {
            Embeddings::Nowhere => false,
            Embeddings::One(first) => !is_same_embedding(first, embedding),
            Embeddings::Several => true,
        }
    }

    /// These and that of one declaration more.
    fn with(self, embedding: Option<usize>) -> Embeddings
        ensures { (before : List Alternatives.Brought) (d : Alternatives.Brought) → d.embedding ≡ embedding
            → TellsEmbeddings self before → TellsEmbeddings result (before ++ d ∷ []) }
    {
        match self {
            Embeddings::Nowhere => Embeddings::One(embedding),
            Embeddings::One(first) => {
                if is_same_embedding(first, embedding) {
                    Embeddings::One(first)
                } else {
                    Embeddings::Several
                }
            }
            Embeddings::Several => Embeddings::Several,
        }
    }
}

/// Declarations, as far as it says which others are apart from one of them.
#[derive(Clone, Copy)]
struct Group<'a> {
    /// The first one.
    first: Option<Brought<'a>>,
    /// The values of those that come from where the first one does.
    own: Values<'a>,
    /// The values of those that come from elsewhere.
    others: Values<'a>,
    /// Where those come from that are apart from the first one.
    apart: Embeddings,
}

impl<'a> Group<'a> {
    fn nothing() -> Group<'a>
        ensures { TellsGroup result [] }
    {
        Group {
            first: None,
            own: Values::Nothing,
            others: Values::Nothing,
            apart: Embeddings::Nowhere,
        }
    }

    /// Whether a declaration is apart from one of them. Where it is the same reference as all that come from where the first one does, it is
    /// apart from those that the first one is apart from, but for those that come from where it comes from.
    fn differs(self, brought: Brought<'a>) -> bool
        ensures { (before : List Alternatives.Brought) → TellsGroup self.entry before
            → result ≡ list_any (λ c. Spec.are_apart c (brought_view brought.entry)) before }
    {
        let Some(first) = self.first else {
            return false;
        };
        let value = &brought.field.value;
        if is_same_embedding(first.embedding, brought.embedding) {
            self.others.differ(value)
        } else {
            self.own.differ(value) || self.apart.has_other(brought.embedding)
        }
    }

    /// These and one more.
    fn with(self, brought: Brought<'a>) -> Group<'a>
        ensures { (before : List Alternatives.Brought) → TellsGroup self.entry before → TellsGroup result (before ++ brought_view brought.entry ∷ []) }
    {
        let first = self.first.unwrap_or(brought);
        let group = Group {
            first: Some(first),
            ..self
        };
        let value = &brought.field.value;
        if is_same_embedding(first.embedding, brought.embedding) {
            return Group {
                own: self.own.with(value),
                ..group
            };
        }
        let others = self.others.with(value);
        if is_same_reference(&first.field.value, value) {
            return Group { others, ..group };
        }
        Group {
            others,
            apart: self.apart.with(brought.embedding),
            ..group
        }
    }
}

/// Declarations, and those of them that may open.
#[derive(Clone, Copy)]
struct Groups<'a> {
    all: Group<'a>,
    opening: Group<'a>,
}

impl<'a> Groups<'a> {
    fn nothing() -> Groups<'a>
        ensures { TellsGroups result [] }
    {
        Groups {
            all: Group::nothing(),
            opening: Group::nothing(),
        }
    }

    /// Whether one of them and a declaration are apart, and one of both may open.
    fn differs(self, brought: Brought<'a>, may_open: bool) -> bool
        ensures { (before : List Alternatives.Brought) → may_open ≡ Spec.may_open (brought_view brought.entry) → TellsGroups self.entry before
            → result ≡ list_any (opens (brought_view brought.entry)) before }
    {
        if may_open {
            self.all.differs(brought)
        } else {
            self.opening.differs(brought)
        }
    }

    /// These and one more.
    fn with(self, brought: Brought<'a>, may_open: bool) -> Groups<'a>
        ensures { (before : List Alternatives.Brought) → may_open ≡ Spec.may_open (brought_view brought.entry) → TellsGroups self.entry before
            → TellsGroups result (before ++ brought_view brought.entry ∷ []) }
    {
        let all = self.all.with(brought);
        if may_open {
            Groups {
                all,
                opening: self.opening.with(brought),
            }
        } else {
            Groups { all, ..self }
        }
    }
}

/// The declarations so far that aren't plain, but for those that conditions made.
#[derive(Drop)]
struct Seen<'a> {
    all: Groups<'a>,
    /// Those of `[string]`.
    every: Groups<'a>,
    by_label: BTreeMap<&'a str, Groups<'a>>,
}

impl<'a> Seen<'a> {
    /// Those of a label.
    fn of_label(&self, label: &str) -> Groups<'a>
        ensures { (before : List Alternatives.Brought) → TellsSeen self.now before → TellsGroups result (filter (is_of_label label.now) before) }
    {
        match self.by_label.get(label) {
            Some(known) => *known,
            None => Groups::nothing(),
        }
    }

    /// Whether a declaration differs from one of them.
    fn differs(&self, brought: Brought<'a>, may_open: bool) -> bool
        ensures { (before : List Alternatives.Brought) → may_open ≡ Spec.may_open (brought_view brought.entry) → TellsSeen self.now before
            → result ≡ list_any (λ c. Spec.differ c (brought_view brought.entry)) before }
    {
        if is_every(brought.field.mark) {
            return self.all.differs(brought, may_open);
        }
        let own = self.of_label(brought.field.label.as_str());
        self.every.differs(brought, may_open) || own.differs(brought, may_open)
    }

    /// Those of `[string]`, and a declaration more where it is one.
    fn every_with(&self, brought: Brought<'a>, may_open: bool) -> Groups<'a>
        ensures { (before : List Alternatives.Brought) → may_open ≡ Spec.may_open (brought_view brought.entry) → TellsSeen self.now before
            → TellsGroups result (filter is_of_every (before ++ brought_view brought.entry ∷ [])) }
    {
        if is_every(brought.field.mark) {
            self.every.with(brought, may_open)
        } else {
            self.every
        }
    }

    /// Adds a declaration.
    fn add(&mut self, brought: Brought<'a>, may_open: bool) -> Result<(), AllocError>
        ensures { OnOk result ((before : List Alternatives.Brought) → may_open ≡ Spec.may_open (brought_view brought.entry) → TellsSeen self.old before
            → TellsSeen self.new (before ++ brought_view brought.entry ∷ [])) }
    {
        let label = brought.field.label.as_str();
        let own = self.of_label(label).with(brought, may_open);
        let every = self.every_with(brought, may_open);
        self.by_label.insert(label, own)?;
        self.every = every;
        self.all = self.all.with(brought, may_open);
        Ok(())
    }
}

/// The offset of the first declaration that differs from one before it, where neither is plain and authors wrote both; `None` where none does.
pub(crate) fn first_clash(
    alloc: Global,
    declarations: &[Brought<'_>],
) -> Result<Option<usize>, AllocError>
    ensures { IfOk result (λ o. o ≡ slice_get (Spec.clashes_behind [] (Spec.held (map brought_view declarations.now))) 0) }
{
    let mut seen = Seen {
        all: Groups::nothing(),
        every: Groups::nothing(),
        by_label: BTreeMap::new(alloc),
    };
    for brought in declarations {
        let Some(at) = held_at(*brought) else {
            continue;
        };
        let may_open = may_open(*brought);
        if seen.differs(*brought, may_open) {
            return Ok(Some(brought.place.unwrap_or(at)));
        }
        seen.add(*brought, may_open)?;
    }
    Ok(None)
}
