// Operands of `&` that are put into one literal.
ghost use Rattle.std.specs.Prelude.{◌≡◌, List, IfOk, map};
ghost use Rattle.cs_grammar.specs.Tree.{DefinitionTree};
ghost use Rattle.cs_grammar.specs.View.{expr_view, exprs_view, declarations_view};
ghost use Rattle.cs_names.specs.Checks.{TellsLifts};
ghost use Rattle.cs_names.specs.Joined as Joined;
ghost use Rattle.cs_names.specs.Lifted.{Lifts, is_open};
ghost use Rattle.cs_names.specs.Named as Spec;

use crate::lifting::Lifting;
use cs_grammar::{Declaration, Expr, Wide, atom};
use std::alloc::{AllocError, Global};

/// Whether one of them is a reference.
fn some_reference(operands: &[Expr]) -> bool
    ensures { result ≡ Spec.some_reference (exprs_view operands.now) }
{
    for operand in operands {
        if let Expr::Reference { .. } = operand {
            return true;
        }
    }
    false
}

/// Where one of them begins.
fn beginning(operand: &Expr) -> usize
    ensures { result ≡ Spec.beginning (expr_view operand.now) }
{
    match operand {
        Expr::Reference { at, .. } | Expr::Struct { at, .. } => *at,
        Expr::And(_) | Expr::Or(_) | Expr::Paren(_) | Expr::List { .. } | Expr::Wide(_) => 0,
        atom!() | Expr::Name { .. } => 0,
    }
}

/// Where the first of them begins.
fn first_beginning(operands: &[Expr]) -> usize
    ensures { result ≡ Spec.first_beginning (exprs_view operands.now) }
{
    match operands.first() {
        Some(operand) => beginning(operand),
        None => 0,
    }
}

/// Each of them, embedded.
fn embedding(alloc: Global, operands: Vec<Expr>) -> Result<Vec<Declaration>, AllocError>
    ensures { IfOk result (λ v. declarations_view v.items ≡ Spec.embedding (exprs_view operands.items)) }
{
    let mut embedding = Vec::with_capacity(alloc, operands.len())?;
    for value in operands {
        let at = beginning(&value);
        embedding.push(Declaration::Embedded { at, value })?;
    }
    Ok(embedding)
}

impl<'a> Lifting<'a> {
    /// Whether an operand is a literal, or the reference to a definition that isn't closed before it is joined.
    fn is_unclosed_operand(&self, operand: &Expr) -> bool
        ensures { (all : List DefinitionTree) (ts : Lifts) → TellsLifts self.now all ts
            → result ≡ Spec.is_unclosed_operand (is_open ts) (expr_view operand.now) }
    {
        match operand {
            Expr::Reference { text, .. } => self.is_unclosed(text),
            Expr::Struct { .. } => true,
            Expr::And(_) | Expr::Or(_) | Expr::Paren(_) | Expr::List { .. } | Expr::Wide(_) =>
                false,
            atom!() | Expr::Name { .. } => false,
        }
    }

    /// Whether each of them is.
    fn are_unclosed(&self, operands: &[Expr]) -> bool
        ensures { (all : List DefinitionTree) (ts : Lifts) → TellsLifts self.now all ts
            → result ≡ Spec.are_unclosed (is_open ts) (exprs_view operands.now) }
    {
        for operand in operands {
            if !self.is_unclosed_operand(operand) {
                return false;
            }
        }
        true
    }

    /// The operands of `&`, or the literal that embeds them, where none is closed and one is a name: CUE joins what they hold, and closes it then.
    pub(crate) fn together(&self, operands: Vec<Expr>) -> Result<Expr, AllocError>
        ensures { (all : List DefinitionTree) (ts : Lifts) → TellsLifts self.now all ts
            → IfOk result (λ e. expr_view e ≡ Spec.together (is_open ts) (exprs_view operands.items)) }
    {
        if !some_reference(&operands) || !self.are_unclosed(&operands) {
            return Ok(Expr::And(operands));
        }
        let at = first_beginning(&operands);
        let declarations = embedding(self.alloc, operands)?;
        Ok(Expr::Wide(Wide::Merged {
            at,
            declarations,
            opened: false,
        }))
    }
}
