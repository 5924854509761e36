// What a struct literal says of a field that a condition asks for.
ghost use Rattle.std.specs.Prelude.{◌≡◌, is_some, IfOk, OnOk};
ghost use Rattle.cs_grammar.specs.View.{declaration_view, declarations_view, field_view, field_seen};
ghost use Rattle.cs_conditions.specs.Asked as Spec;
ghost use Rattle.cs_conditions.specs.Known.{Knowledge};
ghost use Rattle.cs_conditions.specs.Checks as Check;
ghost use Rattle.cs_conditions.specs.Checks.{TellsKnown, TellsAsked, IsAskedWith, asked_in, asked_view, literal_view, with_field};

use crate::kinds::{Kinds, all_kinds, either};
use crate::known::Known;
use crate::plain::has_literal;
use cs_grammar::{Declaration, Expr, Field, FieldMark};
use std::alloc::AllocError;
use std::collections::BTreeMap;

/// What a literal says of a field, but for its default.
#[derive(Clone, Copy)]
pub struct Said {
    /// One label of it is a name.
    pub is_named: bool,
    pub is_always: bool,
    /// Those that all its values have.
    pub kinds: Kinds,
    /// A struct literal is one of what a value of it admits by itself.
    pub has_literal: bool,
}

/// What a literal says of a field, and its default.
#[derive(Clone, Copy)]
pub(crate) struct Asked<'a> {
    pub(crate) said: Said,
    pub(crate) default: Option<&'a Expr>,
}

/// What a literal says of each field, by the labels that it declares: it is made once, since each condition of the literal looks for its field.
#[derive(Drop)]
pub(crate) struct AskedTable<'a> {
    table: BTreeMap<&'a str, Asked<'a>>,
}

/// What a literal says in which the field isn't declared.
fn unsaid() -> Said
    ensures { result ≡ Spec.unsaid }
{
    Said {
        is_named: false,
        is_always: false,
        kinds: all_kinds(),
        has_literal: false,
    }
}

/// The same, without a default.
fn unasked<'a>() -> Asked<'a>
    ensures { asked_view result ≡ Check.unasked }
{
    Asked {
        said: unsaid(),
        default: None,
    }
}

/// Whether a declaration is one of the field of that label.
pub(crate) fn is_of(label: &str, field: &Field) -> bool
    ensures { result ≡ Spec.is_of label.now (field_view field.now).label (field_view field.now).mark }
{
    match field.mark {
        FieldMark::Regular | FieldMark::Optional | FieldMark::Required => field.label.as_str()
            == label,
        FieldMark::Every { .. } => false,
    }
}

fn is_every(mark: FieldMark) -> bool
    ensures { result ≡ Spec.is_every mark }
{
    match mark {
        FieldMark::Regular | FieldMark::Optional | FieldMark::Required => false,
        FieldMark::Every { .. } => true,
    }
}

/// Whether a declaration, which has a default or none, asks for its field.
fn asks_always(mark: FieldMark, with_default: bool) -> bool
    ensures { result ≡ Spec.asks_always mark with_default }
{
    match mark {
        FieldMark::Regular => !with_default,
        FieldMark::Required => true,
        FieldMark::Optional | FieldMark::Every { .. } => false,
    }
}

/// The first of two defaults.
fn or_else<'a>(first: Option<&'a Expr>, second: Option<&'a Expr>) -> Option<&'a Expr>
    ensures { literal_view result ≡ Spec.or_else (literal_view first.entry) (literal_view second.entry) }
{
    match first {
        Some(literal) => Some(literal),
        None => second,
    }
}

impl<'a> AskedTable<'a> {
    /// What the literal says of the field of that label.
    pub(crate) fn of_label(&self, label: &str) -> Asked<'a>
        ensures { asked_view result ≡ asked_in self.now label.now }
    {
        match self.table.get(label) {
            Some(asked) => *asked,
            None => unasked(),
        }
    }
}

impl<'a> Known<'a> {
    /// What a literal with these declarations says of each field.
    pub(crate) fn asked(
        &self,
        declarations: &'a [Declaration],
    ) -> Result<AskedTable<'a>, AllocError>
        ensures { IfOk result (λ t. (known : Knowledge) → TellsKnown self.now known
            → TellsAsked t known (declarations_view declarations.now)) }
    {
        let mut asked = AskedTable {
            table: BTreeMap::new(self.alloc),
        };
        for declaration in declarations {
            self.add_declaration(&mut asked, declaration)?;
        }
        Ok(asked)
    }

    /// Adds a declaration, if it is one of a field.
    fn add_declaration(
        &self,
        asked: &mut AskedTable<'a>,
        declaration: &'a Declaration,
    ) -> Result<(), AllocError>
        ensures { OnOk result ((known : Knowledge) → TellsKnown self.now known
            → IsAskedWith known asked.old (declaration_view declaration.now) asked.new) }
    {
        match declaration {
            Declaration::Field(field) => self.add_field(asked, field),
            Declaration::Embedded { .. } | Declaration::Conditional { .. } => Ok(()),
        }
    }

    /// Adds a declaration of a field, and not of `[string]`.
    fn add_field(&self, asked: &mut AskedTable<'a>, field: &'a Field) -> Result<(), AllocError>
        ensures { OnOk result ((known : Knowledge) → TellsKnown self.now known
            → IsAskedWith known asked.old (field_seen (field_view field.now)) asked.new) }
    {
        if is_every(field.mark) {
            return Ok(());
        }
        let label = field.label.as_str();
        let more = self.with_value(asked.of_label(label), field);
        asked.table.insert(label, more)?;
        Ok(())
    }

    /// What is said of a field with a declaration of it more.
    fn with_value(&self, asked: Asked<'a>, field: &'a Field) -> Asked<'a>
        ensures { (known : Knowledge) → TellsKnown self.now known
            → asked_view result ≡ Check.asked_field known (asked_view asked.entry) (field_view field.now) }
    {
        let default = self.default_of(field);
        Asked {
            said: self.said_with(asked.said, field, default.is_some()),
            default: or_else(asked.default, default),
        }
    }

    /// The same but for the default: the declaration has one or none.
    fn said_with(&self, said: Said, field: &'a Field, with_default: bool) -> Said
        ensures { (known : Knowledge) → TellsKnown self.now known
            → with_default ≡ is_some (Spec.default_of known (field_view field.now).mark (field_view field.now).value)
            → result ≡ with_field known said (field_view field.now) }
    {
        Said {
            is_named: either(said.is_named, !field.quoted),
            is_always: either(said.is_always, asks_always(field.mark, with_default)),
            kinds: said.kinds.meet(self.kinds.of_value(&field.value)),
            has_literal: either(said.has_literal, has_literal(&field.value)),
        }
    }

    /// The default of a declaration.
    fn default_of(&self, field: &'a Field) -> Option<&'a Expr>
        ensures { (known : Knowledge) → TellsKnown self.now known
            → literal_view result ≡ Spec.default_of known (field_view field.now).mark (field_view field.now).value }
    {
        match field.mark {
            FieldMark::Regular => self.defaults.of_value(&field.value),
            FieldMark::Optional | FieldMark::Required | FieldMark::Every { .. } => None,
        }
    }
}
