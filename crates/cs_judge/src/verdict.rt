// The verdict on a document by numbered rules, with a report of the reasons that are asked for.
ghost use Rattle.std.specs.Prelude.{◌≡◌, ℕ, List, OnOk, IfOk};
ghost use Rattle.cs_flat.specs.Listed.{document_in};
ghost use Rattle.cs_grammar.specs.declared.profile.Profile.{Profile};
ghost use Rattle.cs_judge.specs.Explained.{asked_form, root_form, schema_form, ReportsAsked};
ghost use Rattle.cs_judge.specs.Judged.{call_on};
ghost use Rattle.cs_judge.specs.Prepared.{AreNumbersOf};
ghost use Rattle.cs_judge.specs.Verdicts.{IsReadAs, IsVerdict, IsCallVerdict, accepts};
ghost use Rattle.cs_reason_words.specs.Valid.{Reports};
ghost use Rattle.cs_tool.specs.Runs.{agree};
ghost use Rattle.cs_tool.specs.Sides.{AreSidesOf};
ghost use Rattle.cs_tool.specs.declared.rules.Rules.{Rules};

use crate::text_judge::{Judged, Why};
use cs_flat::{Flat, Item};
use cs_instance::RootRules;
use cs_instance_reasons::{InstanceCause, explain_instance};
use cs_instance_report::report_instance;
use cs_place::{Made, Named};
use cs_reasons::{Reasons, Telling};
use cs_table::Verdicts;
use cs_tool::Fault;
use cs_validate::SchemaRules;
use cs_validity_reasons::{Explanation, explain_validity};
use cs_validity_report::report_validity;
use std::alloc::Global;

/// Where there are more reasons than so many, none is looked at but those that are asked for.
const MOST_COUNTED: usize = 1_000_000;

/// How many reasons are looked at where fewer are asked for.
const MOST_REASONS: usize = 10_000;

/// How many steps their chains may have, all together.
const MOST_STEPS: usize = 2_000_000;

/// The rules that were read, numbered.
#[derive(Drop)]
pub(crate) enum NumberedRules<'a> {
    Root(RootRules<'a>),
    Schema(SchemaRules<'a>),
    Both(RootRules<'a>, SchemaRules<'a>),
}

/// A document as the list of its values, and what is asked about it.
#[derive(Clone, Copy)]
struct Case<'a> {
    alloc: Global,
    document: Named<'a>,
    flat: &'a Flat<'a>,
    why: Option<Why<'a>>,
}

/// A side on which documents are judged: the definition, or the schema.
#[derive(Clone, Copy)]
enum Side<'a> {
    Root(&'a RootRules<'a>),
    Schema(&'a SchemaRules<'a>),
}

/// Why a side refuses a document, if it does.
enum Told<'a> {
    Root(&'a RootRules<'a>, Option<Reasons<InstanceCause>>),
    Schema(&'a SchemaRules<'a>, Explanation<'a>),
}

// By hand, so that each `?` beside one calls this.
impl Drop for Told<'_> {
    fn drop(self) {
        match self {
            Told::Root(_, _) => {}
            Told::Schema(_, _) => {}
        }
    }
}

/// The verdict by the rules, as the call that judges by them answers. The reasons that are asked for are added to the report.
pub(crate) fn verdict(
    alloc: Global,
    rules: &NumberedRules<'_>,
    document: Named<'_>,
    flat: &Flat<'_>,
    why: Option<Why<'_>>,
    table: &mut Verdicts,
    report: &mut Vec<u8>,
) -> Judged
    ensures { (R : Rules) (text : List ℕ) → AreNumbersOf R rules.now → IsReadAs text (document_in flat.now)
        → IsCallVerdict (call_on R text) (asked_form why.entry) report.old.items report.new.items result }
{
    let case = Case {
        alloc,
        document,
        flat,
        why,
    };
    match rules {
        NumberedRules::Root(rules) => Side::Root(rules).verdict(case, table, report),
        NumberedRules::Schema(rules) => Side::Schema(rules).verdict(case, table, report),
        NumberedRules::Both(root_side, schema_side) => {
            both_verdicts(root_side, schema_side, case, table, report)
        }
    }
}

/// The verdict by both sides, as `agree` answers. The definition tells the reasons, or in the output formats of JSON Schema the schema.
fn both_verdicts(
    root_side: &RootRules<'_>,
    schema_side: &SchemaRules<'_>,
    case: Case<'_>,
    table: &mut Verdicts,
    report: &mut Vec<u8>,
) -> Judged
    ensures { (profile : Profile) (sources : List (List ℕ)) (root text : List ℕ)
        → AreSidesOf profile sources root root_side.now.0 root_side.now.1 schema_side.now
        → IsReadAs text (document_in case.entry.flat.now)
        → IsCallVerdict (agree profile sources root text) (asked_form case.entry.why) report.old.items report.new.items result }
{
    let (why, of_schema) = asked_of_sides(case.why);
    let is_instance = Side::Root(root_side).verdict(Case { why, ..case }, table, report)?;
    let why = of_schema;
    let is_valid = Side::Schema(schema_side).verdict(Case { why, ..case }, table, report)?;
    Ok(is_instance && is_valid)
}

/// What is asked of the definition and of the schema, where a document is judged by both: in the output formats of JSON Schema the schema.
fn asked_of_sides<'a>(why: Option<Why<'a>>) -> (Option<Why<'a>>, Option<Why<'a>>)
    ensures root { asked_form result.0 ≡ root_form (asked_form why.entry) }
    ensures schema { asked_form result.1 ≡ schema_form (asked_form why.entry) }
{
    match why {
        Some(asked) if asked.form.is_standard() => (None, why),
        _ => (why, None),
    }
}

impl<'a> Side<'a> {
    /// The verdict by the side. The reasons that are asked for are added to the report.
    fn verdict(self, case: Case<'_>, table: &mut Verdicts, out: &mut Vec<u8>) -> Judged
        ensures verdict { IsVerdict self.entry (document_in case.entry.flat.now) result (λ b. b) }
        ensures says { IfOk result (λ b. ReportsAsked (asked_form case.entry.why) b out.old.items out.new.items) }
    {
        let Some(why) = case.why else {
            return self.truth(case.flat, table);
        };
        let told = self.told(case, why, table)?;
        told.report(case, why, out)?;
        Ok(told.is_none())
    }

    /// The verdict alone.
    fn truth(self, flat: &Flat<'_>, table: &mut Verdicts) -> Judged
        ensures { IsVerdict self.entry (document_in flat.now) result (λ b. b) }
    {
        match self {
            Side::Root(rules) => Ok(rules.verdict(flat, table)?),
            Side::Schema(rules) => Ok(rules.verdict(flat, table)?),
        }
    }

    /// The verdict with the reasons that are asked for, and further ones, all of them where they are few: what several of them say is one
    /// line, so lines are counted by all of them.
    fn told(self, case: Case<'a>, why: Why<'_>, table: &mut Verdicts) -> Result<Told<'a>, Fault>
        ensures { IsVerdict self.entry (document_in case.entry.flat.now) result accepts }
    {
        let told = self.explain(case, why.telling, table)?;
        match told.further(case, why, table.rules())? {
            None => Ok(told),
            Some(telling) => {
                drop(told);
                self.explain(case, telling, table)
            }
        }
    }

    /// The verdict with as many of the reasons.
    fn explain(
        self,
        case: Case<'a>,
        telling: Telling,
        table: &mut Verdicts,
    ) -> Result<Told<'a>, Fault>
        ensures { IsVerdict self.entry (document_in case.entry.flat.now) result accepts }
    {
        let (alloc, flat) = (case.alloc, case.flat);
        match self {
            Side::Root(rules) => {
                let reasons = explain_instance(rules, alloc, flat, table, telling)?;
                Ok(Told::Root(rules, reasons))
            }
            Side::Schema(rules) => {
                let explanation = explain_validity(rules, alloc, flat, table, telling)?;
                Ok(Told::Schema(rules, explanation))
            }
        }
    }
}

impl Told<'_> {
    /// Whether the side accepts the document.
    fn is_none(&self) -> bool
        ensures { result ≡ accepts self.now }
    {
        match self {
            Told::Root(_, reasons) => reasons.is_none(),
            Told::Schema(_, explanation) => explanation.is_valid(),
        }
    }

    /// Adds the reasons to the report, or in the forms of JSON that there are none.
    fn report(&self, case: Case<'_>, why: Why<'_>, out: &mut Vec<u8>) -> Made<()>
        ensures { OnOk result (Reports why.entry.form (accepts self.now) out.old.items out.new.items) }
    {
        let (alloc, document, flat) = (case.alloc, case.document, case.flat);
        let (form, telling, sources) = (why.form, why.telling, why.sources);
        match self {
            Told::Root(rules, told) => {
                let told = told.as_ref();
                report_instance(
                    alloc, form, telling, rules, sources, document, flat, told, out,
                )
            }
            Told::Schema(rules, told) => {
                report_validity(alloc, form, telling, rules, document, flat, told, out)
            }
        }
    }

    /// What is asked again by so many rules: more reasons than are told, where these are looked at.
    fn further(&self, case: Case<'_>, why: Why<'_>, rules: usize) -> Made<Option<Telling>> {
        let (count, told) = self.counts();
        if !why.form.has_reasons() || count <= told || count > MOST_COUNTED {
            return Ok(None);
        }
        let most = looked_at(case, rules)?.min(count);
        let all = why.telling.all;
        Ok((most > told).then_some(Telling { most, all }))
    }

    /// How many reasons there are, and how many of them are told.
    fn counts(&self) -> (usize, usize) {
        match self {
            Told::Root(_, Some(reasons)) => (reasons.count, reasons.told.len()),
            Told::Schema(_, Explanation::Invalid(reasons)) => (reasons.count, reasons.told.len()),
            Told::Root(_, None) => (0, 0),
            Told::Schema(_, Explanation::Valid | Explanation::Untold) => (0, 0),
        }
    }
}

/// How many reasons are looked at. A chain has a step for each value on its way and each rule at most, and all chains together have one
/// for each value and each rule.
fn looked_at(case: Case<'_>, rules: usize) -> Made<usize> {
    if case.flat.len().saturating_mul(rules) <= MOST_STEPS {
        return Ok(MOST_REASONS);
    }
    let steps = levels_of(case.alloc, case.flat)?.saturating_mul(rules);
    Ok(MOST_STEPS.checked_div(steps).unwrap_or(0).min(MOST_REASONS))
}

/// How many levels a document has: 1 where it is no list and no map.
fn levels_of(alloc: Global, flat: &Flat<'_>) -> Made<usize> {
    let mut levels: Vec<u8> = Vec::with_capacity(alloc, flat.len())?;
    for item in 0..flat.len() {
        let level_at = |place: usize| levels.get(place).copied().unwrap_or(0);
        let inside = match flat.item(item) {
            Item::List(elements) => elements.iter().map(|place| level_at(*place)).max(),
            Item::Object(members) => members.iter().map(|member| level_at(member.1)).max(),
            Item::Null | Item::Bool(_) | Item::Int(_) | Item::Text(_) => None,
        };
        levels.push(inside.unwrap_or(0).saturating_add(1))?;
    }
    Ok(levels.last().copied().unwrap_or(1) as usize)
}
