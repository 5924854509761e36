// What a field is where a condition holds, and where it doesn't.
ghost use Rattle.std.specs.Prelude.{◌≡◌, ◌++◌, ℕ, ℤ, Bool, not, map, IfOk, OnOk};
ghost use Rattle.cs_grammar.specs.View.{expr_view, test_view, scalar_view, relation_of};
ghost use Rattle.cs_grammar.specs.Tree.{atom, named};
ghost use Rattle.cs_conditions.specs.Choice as Spec;
ghost use Rattle.cs_conditions.specs.Choice.{relation_if, when, with_kinds, other_kinds, other_than, of_its_kind, value_where, literal_of, is_truth, is_same, is_related, passes, mark_where};
ghost use Rattle.cs_conditions.specs.Checks.{literal_seen, literal_view};

use crate::kinds::Kinds;
use cs_grammar::{Expr, FieldMark, ListEnd, Relation, Scalar, Test, bound};
use std::alloc::{AllocError, Global};

/// The relation that holds of the integers of which the other doesn't.
fn opposite(relation: Relation) -> Relation
    ensures { relation_of result ≡ Spec.opposite (relation_of relation) }
{
    match relation {
        Relation::Less => Relation::AtLeast,
        Relation::AtMost => Relation::More,
        Relation::More => Relation::AtMost,
        Relation::AtLeast => Relation::Less,
    }
}

fn relation_if(is_met: bool, relation: Relation) -> Relation
    ensures { relation_of result ≡ relation_if is_met (relation_of relation) }
{
    if is_met { relation } else { opposite(relation) }
}

/// Adds an expression, if it is to be there.
fn put(all: &mut Vec<Expr>, is_there: bool, expr: Expr) -> Result<(), AllocError>
    ensures { OnOk result (map expr_view all.new.items ≡ map expr_view all.old.items ++ when is_there (expr_view expr)) }
{
    if is_there {
        all.push(expr)?;
    }
    Ok(())
}

/// A predeclared name.
fn name(alloc: Global, name: &str, at: usize) -> Result<Expr, AllocError>
    ensures { IfOk result (λ e. expr_view e ≡ named name.now at) }
{
    let text = String::from_str(alloc, name)?;
    Ok(Expr::Name { text, at })
}

/// `[...]`.
fn any_list(alloc: Global) -> Expr
    ensures { expr_view result ≡ Spec.any_list }
{
    Expr::List {
        front: Vec::new(alloc),
        end: ListEnd::Any,
    }
}

/// `{...}`.
fn any_map(alloc: Global, at: usize) -> Expr
    ensures { expr_view result ≡ Spec.any_map at }
{
    Expr::Struct {
        at,
        fields: Vec::new(alloc),
        opened: true,
    }
}

/// Adds all documents of kinds, for each kind in its order.
fn put_kinds(alloc: Global, all: &mut Vec<Expr>, kinds: Kinds, at: usize) -> Result<(), AllocError>
    ensures { OnOk result (map expr_view all.new.items ≡ with_kinds (map expr_view all.old.items) kinds at) }
{
    put_named_kinds(alloc, all, kinds, at)?;
    put(all, kinds.null, Expr::Null)?;
    put(all, kinds.list, any_list(alloc))?;
    put(all, kinds.map, any_map(alloc, at))
}

/// Adds those that have a name.
fn put_named_kinds(
    alloc: Global,
    all: &mut Vec<Expr>,
    kinds: Kinds,
    at: usize,
) -> Result<(), AllocError>
    ensures { OnOk result (map expr_view all.new.items ≡ Spec.with_named_kinds (map expr_view all.old.items) kinds at) }
{
    let number = name(alloc, "number", at)?;
    put(all, kinds.number, number)?;
    let text = name(alloc, "string", at)?;
    put(all, kinds.text, text)?;
    let truth = name(alloc, "bool", at)?;
    put(all, kinds.truth, truth)
}

/// One of the expressions: of none none, and one alone stands alone.
pub(crate) fn one_of(mut exprs: Vec<Expr>) -> Expr
    ensures { expr_view result ≡ Spec.one_of (map expr_view exprs.items) }
{
    if exprs.len() > 1 {
        return Expr::Or(exprs);
    }
    match exprs.pop() {
        Some(expr) => expr,
        None => Expr::Bottom,
    }
}

/// Adds the documents of the kind of a literal that are another than it.
fn put_own_kind(all: &mut Vec<Expr>, scalar: &Scalar, kinds: Kinds) -> Result<(), AllocError>
    ensures { OnOk result (map expr_view all.new.items
        ≡ map expr_view all.old.items ++ of_its_kind (scalar_view scalar.now) kinds) }
{
    match scalar {
        Scalar::Null => Ok(()),
        Scalar::Bool(truth) => put(all, kinds.truth, Expr::Bool(!*truth)),
        Scalar::Int(integer) => put(all, kinds.number, Expr::NotInt(*integer)),
        Scalar::Text(text) => put(all, kinds.text, Expr::NotText(text.clone()?)),
    }
}

/// The kinds without that of a literal.
fn other_kinds(scalar: &Scalar, kinds: Kinds) -> Kinds
    ensures { result ≡ other_kinds (scalar_view scalar.now) kinds }
{
    let mut others = kinds;
    match scalar {
        Scalar::Null => others.null = false,
        Scalar::Bool(_) => others.truth = false,
        Scalar::Int(_) => others.number = false,
        Scalar::Text(_) => others.text = false,
    }
    others
}

/// Whether there is another kind than null.
fn has_value(kinds: Kinds) -> bool
    ensures { result ≡ Spec.has_value kinds }
{
    kinds.number || kinds.text || kinds.truth || kinds.list || kinds.map
}

/// Any document of the kinds but null.
fn other_than_null(kinds: Kinds) -> Expr
    ensures { expr_view result ≡ Spec.other_than_null kinds }
{
    if has_value(kinds) {
        Expr::NotNull
    } else {
        Expr::Bottom
    }
}

/// Any document of the kinds but a literal, which isn't null.
fn another(alloc: Global, scalar: &Scalar, kinds: Kinds, at: usize) -> Result<Expr, AllocError>
    ensures { IfOk result (λ e. expr_view e ≡ Spec.another (scalar_view scalar.now) kinds at) }
{
    let mut all = Vec::new(alloc);
    put_own_kind(&mut all, scalar, kinds)?;
    put_kinds(alloc, &mut all, other_kinds(scalar, kinds), at)?;
    Ok(one_of(all))
}

/// Any document of the kinds but a literal.
fn other_than(alloc: Global, scalar: &Scalar, kinds: Kinds, at: usize) -> Result<Expr, AllocError>
    ensures { IfOk result (λ e. expr_view e ≡ other_than (scalar_view scalar.now) kinds at) }
{
    match scalar {
        Scalar::Null => Ok(other_than_null(kinds)),
        Scalar::Bool(_) | Scalar::Int(_) | Scalar::Text(_) => another(alloc, scalar, kinds, at),
    }
}

/// A literal as an expression.
fn copy_literal(scalar: &Scalar) -> Result<Expr, AllocError>
    ensures { IfOk result (λ e. expr_view e ≡ atom (scalar_view scalar.now)) }
{
    match scalar {
        Scalar::Null => Ok(Expr::Null),
        Scalar::Bool(truth) => Ok(Expr::Bool(*truth)),
        Scalar::Int(integer) => Ok(Expr::Int(*integer)),
        Scalar::Text(text) => Ok(Expr::Text(text.clone()?)),
    }
}

/// What a field of these kinds is where a test is met, or isn't.
pub(crate) fn value_where(
    alloc: Global,
    test: &Test,
    is_met: bool,
    kinds: Kinds,
    at: usize,
) -> Result<Expr, AllocError>
    ensures { IfOk result (λ e. expr_view e ≡ value_where (test_view test.now) is_met kinds at) }
{
    match test {
        Test::Present if is_met => Ok(Expr::Top),
        Test::Present => Ok(Expr::Bottom),
        Test::True => Ok(Expr::Bool(is_met)),
        Test::Equals(scalar) if is_met => copy_literal(scalar),
        Test::Equals(scalar) => other_than(alloc, scalar, kinds, at),
        Test::Compares { relation, limit } => Ok(Expr::Bound {
            relation: relation_if(is_met, *relation),
            limit: *limit,
        }),
    }
}

/// The literal that a default is: none of a list or a struct.
#[derive(Clone, Copy)]
pub(crate) enum Literal<'a> {
    None,
    Null,
    Bool(bool),
    Int(i64),
    Text(&'a str),
}

/// The literal that an expression is, parentheses aside.
fn literal_of(expr: &Expr) -> Literal<'_>
    ensures { literal_seen result ≡ literal_of (expr_view expr.now) }
{
    match expr {
        Expr::Null => Literal::Null,
        Expr::Bool(truth) => Literal::Bool(*truth),
        Expr::Int(integer) => Literal::Int(*integer),
        Expr::Text(text) => Literal::Text(text),
        Expr::Paren(inside) => literal_of(inside),
        Expr::Top
        | Expr::Bottom
        | bound!()
        | Expr::Name { .. }
        | Expr::Reference { .. }
        | Expr::And(_)
        | Expr::Or(_)
        | Expr::Struct { .. }
        | Expr::List { .. }
        | Expr::Wide(_) => Literal::None,
    }
}

fn is_truth(truth: bool, literal: Literal<'_>) -> bool
    ensures { result ≡ is_truth truth (literal_seen literal.entry) }
{
    matches!(literal, Literal::Bool(other) if truth == other)
}

/// Whether a literal is the same as another.
fn is_same(scalar: &Scalar, literal: Literal<'_>) -> bool
    ensures { result ≡ is_same (scalar_view scalar.now) (literal_seen literal.entry) }
{
    match scalar {
        Scalar::Null => matches!(literal, Literal::Null),
        Scalar::Bool(truth) => is_truth(*truth, literal),
        Scalar::Int(integer) => matches!(literal, Literal::Int(other) if *integer == other),
        Scalar::Text(text) => matches!(literal, Literal::Text(other) if text.as_str() == other),
    }
}

fn is_related(relation: Relation, limit: i64, n: i64) -> bool
    ensures { result ≡ is_related (relation_of relation) limit n }
{
    match relation {
        Relation::Less => n < limit,
        Relation::AtMost => n <= limit,
        Relation::More => n > limit,
        Relation::AtLeast => n >= limit,
    }
}

/// Whether a literal is an integer in that relation.
fn is_integer_related(relation: Relation, limit: i64, literal: Literal<'_>) -> bool
    ensures { result ≡ Spec.is_integer (is_related (relation_of relation) limit) (literal_seen literal.entry) }
{
    matches!(literal, Literal::Int(n) if is_related(relation, limit, n))
}

/// Whether a test is met of a literal, or isn't.
fn passes(test: &Test, is_met: bool, literal: Literal<'_>) -> bool
    ensures { result ≡ passes (test_view test.now) is_met (literal_seen literal.entry) }
{
    match test {
        Test::Present => is_met,
        Test::True => is_truth(is_met, literal),
        Test::Equals(scalar) => is_same(scalar, literal) == is_met,
        Test::Compares { relation, limit } => {
            is_integer_related(relation_if(is_met, *relation), *limit, literal)
        }
    }
}

fn optional_or_required(is_optional: bool) -> FieldMark
    ensures { result ≡ Spec.optional_or_required is_optional }
{
    if is_optional {
        FieldMark::Optional
    } else {
        FieldMark::Required
    }
}

/// The mark of a field where a test is met, or isn't: with a default it may be missing where that passes, and only there.
pub(crate) fn mark_where(test: &Test, is_met: bool, default: Option<&Expr>) -> FieldMark
    ensures { result ≡ mark_where (test_view test.now) is_met (literal_view default.entry) }
{
    match default {
        Some(expr) => optional_or_required(passes(test, is_met, literal_of(expr))),
        None => mark_without(test, is_met),
    }
}

/// The same of a field without a default.
fn mark_without(test: &Test, is_met: bool) -> FieldMark
    ensures { result ≡ Spec.mark_without (test_view test.now) is_met }
{
    match test {
        Test::Present => optional_or_required(!is_met),
        Test::True | Test::Equals(_) | Test::Compares { .. } => FieldMark::Regular,
    }
}
