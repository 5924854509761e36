// The opening rule: a conjunction of two or more operands that hold a struct literal or a reference asks each struct
// literal in its operands to end with `...`. The `&` of a plain refinement asks nothing.

ghost use Rattle.std.specs.Prelude.{◌≡◌, ◌+◌, ◌++◌, [], ◌∷◌, List, ℕ, map, nat_lt, IfOk, OnOk, ◌||◌, ◌↔◌, Contains};
ghost use Rattle.cs_grammar.specs.View.{expr_view, exprs_view, end_view, fields_view, definition_view, file_view};
ghost use Rattle.cs_grammar.specs.Tree.{FileTree};
ghost use Rattle.cs_resolve.specs.Opening.{one, every_key, Named, values, named_bodies, IsOpened};
ghost use Rattle.cs_resolve.specs.Refinement.{Refinements};
ghost use Rattle.cs_resolve.specs.Narrowed.{TellsRefinements};
ghost use Rattle.cs_resolve.specs.Unopened as Unopened;
ghost use Rattle.cs_resolve.specs.Unopened.{IsUnopenedAt, unopened, unopened_all, unopened_fields, unopened_end, unopened_definitions, unopened_files};
ghost use Rattle.cs_resolve.specs.Steps.{declared_in};
ghost use Rattle.cs_resolve.specs.Checks.{Checks, CountsAs, FindsUnopened, Repeats, TellsLabels, is_every_key, with_own_name, named_by, named_values, unplain};

use crate::ResolveFault;
use crate::plain::has_literal_or_reference;
use crate::refinement::{Bases, is_refinement};
use cs_grammar::{Definition, Expr, Field, FieldMark, File, ListEnd};
use std::alloc::{AllocError, Global};
use std::collections::BTreeMap;

/// How many values there are, as far as the rule asks.
#[derive(Clone, Copy)]
enum Count {
    None,
    One,
    Several,
}

impl Count {
    /// The count of these values and others together.
    fn plus(self, other: Count) -> Count
        ensures { (j k : ℕ) → CountsAs self j → CountsAs other k → CountsAs result (j + k) }
    {
        match (self, other) {
            (Count::None, count) | (count, Count::None) => count,
            _ => Count::Several,
        }
    }

    fn is_several(self) -> bool
        ensures { (k : ℕ) → CountsAs self k → result ≡ nat_lt 1 k }
    {
        match self {
            Count::None | Count::One => false,
            Count::Several => true,
        }
    }
}

/// The names that have a value that isn't plain, each with how many of them it has.
type RepeatTable<'a> = BTreeMap<&'a str, Count>;

/// The table of a struct literal's labels, and how many values of `[string]` aren't plain.
#[derive(Drop)]
struct LabelRepeats<'a> {
    names: RepeatTable<'a>,
    every: Count,
}

/// The check of a file: its number, and the closed bases of the package.
#[derive(Clone, Copy)]
struct OpeningCheck<'b, 'a> {
    alloc: Global,
    bases: &'b Bases<'a>,
    file: usize,
}

/// Whether a conjunction of these operands asks its literals to end with `...`.
fn demands_open(operands: &Vec<Expr>) -> bool
    ensures { result ≡ Unopened.demands_open (map expr_view operands.now.items) }
{
    operands
        .iter()
        .filter(|operand| has_literal_or_reference(operand))
        .count()
        > 1
}

/// Whether operands that `&` joins ask their literals to end with `...`. Those of a plain refinement don't.
fn joined_demand_open(bases: &Bases<'_>, operands: &Vec<Expr>) -> bool
    ensures { (rs : Refinements) → TellsRefinements bases.now rs
        → result ≡ Unopened.joined_demand_open rs (exprs_view operands.now.items) }
{
    demands_open(operands) && !is_refinement(bases, operands)
}

/// How many values of a name aren't plain.
fn count_of(repeats: &RepeatTable<'_>, name: &str) -> Count
    ensures { (ns : List Named) → Repeats repeats.now ns
        → CountsAs result (unplain (one name.now) ns) }
{
    repeats.get(name).copied().unwrap_or(Count::None)
}

/// Notes a value under its name.
fn note<'a>(repeats: &mut RepeatTable<'a>, name: &'a str, value: &Expr) -> Result<(), AllocError>
    ensures { OnOk result ((ns : List Named) → Repeats repeats.old ns → Repeats repeats.new
        (ns ++ record { name = one name.now; value = expr_view value.now } ∷ [])) }
{
    if has_literal_or_reference(value) {
        let count = count_of(repeats, name).plus(Count::One);
        repeats.insert(name, count)?;
    }
    Ok(())
}

/// Whether the values of a name ask their literals to end with `...`.
fn name_demands_open(repeats: &RepeatTable<'_>, name: &str) -> bool
    ensures { (ns : List Named) → Repeats repeats.now ns
        → result ≡ Unopened.demands_open (values (one name.now) ns) }
{
    count_of(repeats, name).is_several()
}

/// Whether a field is `[string]: T`.
fn is_every(field: &Field) -> bool
    ensures { result ≡ is_every_key (named_by field.now).name }
{
    match field.mark {
        FieldMark::Every { .. } => true,
        FieldMark::Regular | FieldMark::Optional | FieldMark::Required => false,
    }
}

/// Notes the value of a field under its label. That of `[string]` has none.
fn note_label<'a>(repeats: &mut RepeatTable<'a>, field: &'a Field) -> Result<(), AllocError>
    ensures { OnOk result ((ns : List Named) → Repeats repeats.old (with_own_name ns)
        → Repeats repeats.new (with_own_name (ns ++ named_by field.now ∷ []))) }
{
    if is_every(field) {
        return Ok(());
    }
    note(repeats, field.label.as_str(), &field.value)
}

/// The table of a struct literal's labels, without `[string]`.
fn name_repeats(alloc: Global, fields: &Vec<Field>) -> Result<RepeatTable<'_>, AllocError>
    ensures { IfOk result (λ m. Repeats m (with_own_name (named_values fields.now.items))) }
{
    let mut repeats = BTreeMap::new(alloc);
    for field in fields {
        note_label(&mut repeats, field)?;
    }
    Ok(repeats)
}

/// Counts the value of a field where it is that of `[string]` and isn't plain.
fn count_every(every: Count, field: &Field) -> Count
    ensures { (ns : List Named) → CountsAs every (unplain every_key ns)
        → CountsAs result (unplain every_key (ns ++ named_by field.now ∷ [])) }
{
    if is_every(field) && has_literal_or_reference(&field.value) {
        every.plus(Count::One)
    } else {
        every
    }
}

/// How many values of `[string]` aren't plain.
fn every_repeats(fields: &Vec<Field>) -> Count
    ensures { CountsAs result (unplain every_key (named_values fields.now.items)) }
{
    let mut every = Count::None;
    for field in fields {
        every = count_every(every, field);
    }
    every
}

/// What the values of a struct literal repeat: its labels, and `[string]`.
fn label_repeats(alloc: Global, fields: &Vec<Field>) -> Result<LabelRepeats<'_>, AllocError>
    ensures { IfOk result (λ r. TellsLabels r (named_values fields.now.items)) }
{
    let names = name_repeats(alloc, fields)?;
    let every = every_repeats(fields);
    Ok(LabelRepeats { names, every })
}

/// Whether the conjunction of a label asks its literals to end with `...`: its own values and those of `[string]`.
fn label_demands_open(repeats: &LabelRepeats<'_>, label: &str) -> bool
    ensures { (ns : List Named) → TellsLabels repeats.now ns
        → result ≡ Unopened.demands_open (values (one label.now) ns) }
{
    count_of(&repeats.names, label)
        .plus(repeats.every)
        .is_several()
}

/// Whether the conjunction of a field's label, or of `[string]` alone, asks its literals to end with `...`.
fn field_demands_open(repeats: &LabelRepeats<'_>, field: &Field) -> bool
    ensures { (ns : List Named) → TellsLabels repeats.now ns
        → result ≡ Unopened.demands_open (values (named_by field.now).name ns) }
{
    if is_every(field) {
        repeats.every.is_several()
    } else {
        label_demands_open(repeats, field.label.as_str())
    }
}

/// Whether some conjunction of a struct literal's values asks its literals to end with `...`.
fn some_demand_open(repeats: &LabelRepeats<'_>, fields: &Vec<Field>) -> bool
    ensures { TellsLabels repeats.now (named_values fields.now.items)
        → result ≡ Unopened.demands_open_of every_key (named_values fields.now.items) }
{
    for field in fields {
        if field_demands_open(repeats, field) {
            return true;
        }
    }
    false
}

/// Whether a conjunction that holds a field's value asks its literals to end with `...`. A value of `[string]` is in that
/// of each label; `some` says whether one of them asks.
fn demands_open_of(repeats: &LabelRepeats<'_>, some: bool, field: &Field) -> bool
    ensures { (ns : List Named) → TellsLabels repeats.now ns
        → some ≡ Unopened.demands_open_of every_key ns
        → result ≡ Unopened.demands_open_of (named_by field.now).name ns }
{
    if is_every(field) {
        some
    } else {
        label_demands_open(repeats, field.label.as_str())
    }
}

/// Notes the bodies of a file, each under the name of its definition.
fn note_bodies<'a>(
    repeats: &mut RepeatTable<'a>,
    definitions: &'a Vec<Definition>,
) -> Result<(), AllocError>
    ensures { OnOk result ((ns : List Named) → Repeats repeats.old ns
        → Repeats repeats.new (ns ++ named_bodies (map definition_view definitions.now.items))) }
{
    for definition in definitions {
        note(repeats, definition.name.as_str(), &definition.body)?;
    }
    Ok(())
}

/// The table of the definitions of files.
fn body_repeats(alloc: Global, files: &Vec<File>) -> Result<RepeatTable<'_>, AllocError>
    ensures { IfOk result (λ m. Repeats m (named_bodies (declared_in files.now.items))) }
{
    let mut repeats = BTreeMap::new(alloc);
    for file in files {
        note_bodies(&mut repeats, &file.definitions)?;
    }
    Ok(repeats)
}

impl OpeningCheck<'_, '_> {
    /// Checks the literals in an expression. Where `demanded`, a conjunction around it asks them to end with `...`.
    #[cycle(opening)]
    fn check_expr(&self, demanded: bool, expr: &Expr) -> Result<(), ResolveFault>
        ensures { FindsUnopened result self.now (λ rs. unopened rs demanded (expr_view expr.now)) }
    {
        match expr {
            Expr::And(operands) => {
                let demanded = demanded || joined_demand_open(self.bases, operands);
                self.check_all(demanded, operands)
            }
            Expr::Or(operands) => self.check_all(demanded, operands),
            Expr::Paren(inner) => self.check_expr(demanded, inner),
            Expr::Struct { at, fields, opened } => {
                if demanded && !*opened {
                    return Err(ResolveFault::NotOpened {
                        file: self.file,
                        offset: *at,
                    });
                }
                self.check_fields(demanded, fields)
            }
            Expr::List { front, end } => {
                self.check_all(demanded, front)?;
                self.check_end(demanded, end)
            }
            // The others have no parts.
            _ => Ok(()),
        }
    }

    #[cycle(opening)]
    fn check_all(&self, demanded: bool, operands: &Vec<Expr>) -> Result<(), ResolveFault>
        ensures { FindsUnopened result self.now
            (λ rs. unopened_all rs demanded (exprs_view operands.now.items)) }
    {
        for operand in operands {
            self.check_expr(demanded, operand)?;
        }
        Ok(())
    }

    #[cycle(opening)]
    fn check_fields(&self, demanded: bool, fields: &Vec<Field>) -> Result<(), ResolveFault>
        ensures { FindsUnopened result self.now (λ rs. unopened_fields rs demanded
            (named_values fields.now.items) (fields_view fields.now.items)) }
    {
        let repeats = label_repeats(self.alloc, fields)?;
        let some = some_demand_open(&repeats, fields);
        for field in fields {
            let demanded_here = demanded || demands_open_of(&repeats, some, field);
            self.check_expr(demanded_here, &field.value)?;
        }
        Ok(())
    }

    #[cycle(opening)]
    fn check_end(&self, demanded: bool, end: &ListEnd) -> Result<(), ResolveFault>
        ensures { FindsUnopened result self.now
            (λ rs. unopened_end rs demanded (end_view end.now)) }
    {
        match end {
            ListEnd::Closed | ListEnd::Any => Ok(()),
            ListEnd::Each(inner) => self.check_expr(demanded, inner),
        }
    }

    /// Checks the literals of definitions.
    fn check_definitions(
        &self,
        repeats: &RepeatTable<'_>,
        definitions: &Vec<Definition>,
    ) -> Result<(), ResolveFault>
        ensures { (all : List Named) → Repeats repeats.now all → FindsUnopened result self.now
            (λ rs. unopened_definitions rs all (map definition_view definitions.now.items)) }
    {
        for definition in definitions {
            let demanded = name_demands_open(repeats, definition.name.as_str());
            self.check_expr(demanded, &definition.body)?;
        }
        Ok(())
    }
}

/// Checks the struct literals of files, of which these are the closed bases. The refusal names the first one, by file and
/// then by offset, that doesn't end with `...` though a conjunction asks it.
pub(crate) fn check_opened(
    alloc: Global,
    bases: &Bases<'_>,
    files: &Vec<File>,
) -> Result<(), ResolveFault>
    ensures { (rs : Refinements) → TellsRefinements bases.now rs
        → Checks result (λ p. ResolveFault.NotOpened p.0 p.1)
        (unopened_files rs (map file_view files.now.items)) }
{
    let repeats = body_repeats(alloc, files)?;
    for (number, file) in files.iter().enumerate() {
        let check = OpeningCheck {
            alloc,
            bases,
            file: number,
        };
        check.check_definitions(&repeats, &file.definitions)?;
    }
    Ok(())
}

/// A law, whatever the plain refinements are: no literal is at fault exactly where each conjunction has at most one
/// operand that isn't plain, or all struct literals in its operands end with `...`; and the literals at fault are just
/// those that don't end with `...` though a conjunction that holds them asks it.
pub fn opening_law()
    ensures kept { (rs : Refinements) (fs : List FileTree)
        → (unopened_files rs fs ≡ []) ↔ IsOpened rs fs }
    ensures at_fault { (rs : Refinements) (fs : List FileTree) (i o : ℕ)
        → Contains (unopened_files rs fs) (i, o) ↔ IsUnopenedAt rs fs i o }
{}
