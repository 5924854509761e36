// The disjunction of what a literal under conditions can be.
ghost use Rattle.std.specs.Prelude.{◌≡◌, ◌++◌, ◌∷◌, [], true, false, map, IfOk};
ghost use Rattle.cs_grammar.specs.Tree.{struct, Declarations};
ghost use Rattle.cs_grammar.specs.View.{expr_view, field_view, fields_of, declaration_view, condition_view, field_seen};
ghost use Rattle.cs_conditions.specs.Choice as Spec;
ghost use Rattle.cs_conditions.specs.Choice.{made_in, taken, choices, choice};
ghost use Rattle.cs_conditions.specs.Known.{Knowledge};
ghost use Rattle.cs_conditions.specs.Checks.{TellsAsked, all_held};

use crate::asked::AskedTable;
use crate::known::Known;
use crate::values::{mark_where, one_of, value_where};
use cs_grammar::{Condition, Declaration, Expr, Field, Site, Wide};
use std::alloc::{AllocError, Global};

/// Makes what literals under conditions stand for.
#[derive(Clone, Copy)]
pub(crate) struct Choosing<'k, 'a> {
    pub(crate) alloc: Global,
    pub(crate) known: &'k Known<'a>,
}

impl Choosing<'_, '_> {
    /// The declaration of its field by which a condition holds, or doesn't, in a literal of which this is told.
    fn made(
        &self,
        table: &AskedTable<'_>,
        condition: &Condition,
        holds: bool,
    ) -> Result<Field, AllocError>
        ensures { (known : Knowledge) (all : Declarations) → TellsAsked table.now known all
            → IfOk result (λ f. field_view f ≡ made_in known all (condition_view condition.now) holds) }
    {
        let asked = table.of_label(&condition.label);
        let is_met = holds == condition.is_met;
        let at = condition.at;
        let label = condition.label.clone()?;
        let value = value_where(self.alloc, &condition.test, is_met, asked.said.kinds, at)?;
        Ok(Field {
            label,
            quoted: false,
            asked: true,
            scoped: None,
            mark: mark_where(&condition.test, is_met, asked.default),
            value,
            site: Site {
                at,
                by: None,
                all: Vec::new(self.alloc),
            },
        })
    }

    /// Those by which all conditions hold.
    fn held(
        &self,
        table: &AskedTable<'_>,
        conditions: &[Condition],
    ) -> Result<Vec<Field>, AllocError>
        ensures { (known : Knowledge) (all : Declarations) → TellsAsked table.now known all
            → IfOk result (λ v. map field_view v.items ≡ all_held (made_in known all) (map condition_view conditions.now)) }
    {
        let mut held = Vec::new(self.alloc);
        for condition in conditions {
            held.push(self.made(table, condition, true)?)?;
        }
        Ok(held)
    }

    /// The same as declarations beside what is embedded.
    fn held_declarations(
        &self,
        table: &AskedTable<'_>,
        conditions: &[Condition],
    ) -> Result<Vec<Declaration>, AllocError>
        ensures { (known : Knowledge) (all : Declarations) → TellsAsked table.now known all
            → IfOk result (λ v. map declaration_view v.items
            ≡ map field_seen (all_held (made_in known all) (map condition_view conditions.now))) }
    {
        let mut held = Vec::new(self.alloc);
        for condition in conditions {
            let field = self.made(table, condition, true)?;
            held.push(Declaration::Field(field))?;
        }
        Ok(held)
    }

    /// All conditions hold, and what is under them is embedded.
    fn taken(
        &self,
        table: &AskedTable<'_>,
        conditions: &[Condition],
        at: usize,
        value: Expr,
    ) -> Result<Expr, AllocError>
        ensures { (known : Knowledge) (all : Declarations) → TellsAsked table.now known all
            → IfOk result (λ e. expr_view e ≡ taken at (expr_view value)
            (all_held (made_in known all) (map condition_view conditions.now))) }
    {
        let mut declarations = self.held_declarations(table, conditions)?;
        declarations.push(Declaration::Embedded { at, value })?;
        Ok(Expr::Wide(Wide::Merged {
            at,
            declarations,
            opened: false,
        }))
    }

    /// The conditions before hold, and one doesn't.
    fn failing(
        &self,
        table: &AskedTable<'_>,
        before: &[Condition],
        condition: &Condition,
        at: usize,
    ) -> Result<Expr, AllocError>
        ensures { (known : Knowledge) (all : Declarations) → TellsAsked table.now known all
            → IfOk result (λ e. let by = made_in known all in
            expr_view e ≡ struct at (fields_of (all_held by (map condition_view before.now) ++ by (condition_view condition.now) false ∷ [])) false) }
    {
        let mut fields = self.held(table, before)?;
        fields.push(self.made(table, condition, false)?)?;
        Ok(Expr::Struct {
            at,
            fields,
            opened: false,
        })
    }

    /// The alternatives: all conditions hold, or one fails behind others that hold, the last one first.
    fn choices(
        &self,
        table: &AskedTable<'_>,
        conditions: &[Condition],
        at: usize,
        value: Expr,
    ) -> Result<Vec<Expr>, AllocError>
        ensures { (known : Knowledge) (all : Declarations) → TellsAsked table.now known all
            → IfOk result (λ v. map expr_view v.items
            ≡ choices (made_in known all) at (expr_view value) [] (map condition_view conditions.now)) }
    {
        let mut choices = Vec::new(self.alloc);
        choices.push(self.taken(table, conditions, at, value)?)?;
        for passed in 0..conditions.len() {
            let place = conditions.len() - 1 - passed;
            let (before, condition) = (&conditions[..place], &conditions[place]);
            choices.push(self.failing(table, before, condition, at)?)?;
        }
        Ok(choices)
    }

    /// What a literal is under conditions, in a literal of which this is told.
    pub(crate) fn choice(
        &self,
        table: &AskedTable<'_>,
        conditions: &[Condition],
        at: usize,
        value: Expr,
    ) -> Result<Expr, AllocError>
        ensures { (known : Knowledge) (all : Declarations) → TellsAsked table.now known all
            → IfOk result (λ e. expr_view e ≡ choice known all at (map condition_view conditions.now) (expr_view value)) }
    {
        let choices = self.choices(table, conditions, at, value)?;
        Ok(one_of(choices))
    }
}
