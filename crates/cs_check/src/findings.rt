// What a check of sources or of a schema finds, in lines.
ghost use Rattle.std.specs.Prelude.{◌≡◌, ◌↔◌, [], IfOk, None};
ghost use Rattle.cs_check.specs.Told.{AreAccepted};
ghost use Rattle.cs_grammar.specs.declared.profile.Profile.TheVariants as profiles;
ghost use Rattle.cs_profile.specs.declared.keyword.Vocabulary.TheVariants as vocabularies;
ghost use Rattle.cs_tool.specs.CallRefusals.{IsSchemaText};
ghost use Rattle.cs_tool.specs.Given.{bytes_in};
ghost use Rattle.cs_widen.specs.Schemas.{SchemaMeans};

use crate::MOST_FAULTS;
use crate::findings::Checked::{Faulty, Warned, Well};
use crate::schema::check_schema;
use crate::sources::check;
use crate::warnings::warning_lines;
use cs_fault_words::{About, Profile, put_finding};
use cs_place::Named;
use cs_profile::Vocabulary;
use cs_sources::sources_of;
use cs_tool::{Fault, accepted_package};
use cs_widen::schema_stands_for_in;
use std::alloc::Global;

/// What came of a check.
#[derive(Clone, Copy)]
pub enum Checked {
    /// Nothing was found.
    Well,
    /// There are warnings alone.
    Warned,
    /// There are faults.
    Faulty,
}

/// What was found, with a line for each finding.
#[derive(Drop)]
pub struct Findings {
    pub checked: Checked,
    pub lines: String,
}

/// What is found, unless memory runs out.
type Found = Result<Findings, Fault>;

/// What is found in the sources in a profile: a line for each fault, 50 at most; where there is none, one for each definition that is found to
/// have no instance. `named` has the sources with their names, in their order.
///
/// That what is told is so is proved where it is found: by `check` and `warned`. The words and the places in lines are tested. Only memory can run out.
pub fn source_findings<'a>(
    alloc: Global,
    profile: Profile,
    sources: &[&[u8]],
    named: &'a [Named<'a>],
    root: Option<&'a str>,
) -> Result<Findings, Fault>
    ensures accepted { IfOk result (λ f. ¬ (f.checked ≡ Checked.Faulty) → AreAccepted profile (bytes_in sources.now)) }
    ensures refused { root.entry ≡ None → IfOk result (λ f. f.checked ≡ Checked.Faulty → ¬ (AreAccepted profile (bytes_in sources.now))) }
{
    let about = About::of(named, root.unwrap_or(""));
    let faults = check(alloc, profile, sources)?;
    if !faults.is_empty() {
        return told(alloc, sources, &faults, About { profile, ..about });
    }
    package_findings(alloc, profile, sources, root, about)
}

/// What is found in the package of sources without faults: that it hasn't the root, or else its warnings.
fn package_findings(
    alloc: Global,
    profile: Profile,
    sources: &[&[u8]],
    root: Option<&str>,
    about: About<'_>,
) -> Found
    ensures { root.entry ≡ None → IfOk result (λ f. ¬ (f.checked ≡ Checked.Faulty)) }
{
    let package = accepted_package(alloc, profile, sources)?;
    if root.is_some_and(|name| package.package().find(name).is_none()) {
        return told(alloc, sources, &[Fault::UnknownRoot], about);
    }
    let lines = warning_lines(alloc, &package, about.sources)?;
    let checked = if lines.is_empty() { Well } else { Warned };
    Ok(Findings { checked, lines })
}

/// What is found in a schema: a line for each fault, 50 at most.
///
/// That what is told is so is proved where it is found, by `check_schema`. The words and the places in lines are tested. Only memory can run out.
pub fn schema_findings(alloc: Global, schema: Named<'_>) -> Result<Findings, Fault>
    ensures accepted { IfOk result (λ f. ¬ (f.checked ≡ Checked.Faulty) → IsSchemaText vocabularies.Default schema.entry.text.now) }
    ensures refused { IfOk result (λ f. f.checked ≡ Checked.Faulty → ¬ (IsSchemaText vocabularies.Default schema.entry.text.now)) }
{
    findings_of(alloc, Vocabulary::Default, schema, schema.text)
}

/// What is found in the text of a schema in the wide profile, as by [`schema_findings`], of the schema that is meant and by the keywords of that
/// profile. Only memory can run out.
pub fn wide_schema_findings(alloc: Global, schema: Named<'_>) -> Result<Findings, Fault>
    ensures accepted { IfOk result (λ f. ¬ (f.checked ≡ Checked.Faulty) → SchemaMeans profiles.Wide schema.entry.text.now (IsSchemaText vocabularies.Wide)) }
    ensures refused { IfOk result (λ f. f.checked ≡ Checked.Faulty
        → SchemaMeans profiles.Wide schema.entry.text.now (λ judged. ¬ (IsSchemaText vocabularies.Wide judged))) }
{
    match schema_stands_for_in(alloc, Profile::Wide, schema.text)? {
        Some(meant) => findings_of(alloc, Vocabulary::Wide, schema, &meant),
        None => findings_of(alloc, Vocabulary::Wide, schema, schema.text),
    }
}

/// What is found in a schema's text by the keywords of a vocabulary, where it is shown as another one with the same places.
fn findings_of(alloc: Global, vocabulary: Vocabulary, shown: Named<'_>, text: &[u8]) -> Found
    ensures accepted { IfOk result (λ f. ¬ (f.checked ≡ Checked.Faulty) → IsSchemaText vocabulary text.now) }
    ensures refused { IfOk result (λ f. f.checked ≡ Checked.Faulty → ¬ (IsSchemaText vocabulary text.now)) }
{
    let faults = check_schema(alloc, vocabulary, text)?;
    let about = About::of(&[], "");
    let schema = Some(shown);
    told(alloc, &[], &faults, About { schema, ..about })
}

/// A line for each of these faults, and whether there are some. What has to be opened in the default profile the wide one puts together, unless it has a
/// fault there. They tell nothing of that where what is put together is at fault itself, or there may be more.
fn told(alloc: Global, sources: &[&[u8]], faults: &[Fault], about: About<'_>) -> Found
    ensures { IfOk result (λ f. (f.checked ≡ Checked.Faulty) ↔ ¬ (faults.now ≡ [])) }
{
    let must_open = |fault: &Fault| matches!(fault, Fault::NotOpened { .. });
    let may_join = about.profile == Profile::Default && faults.iter().any(must_open);
    let mut wide = Vec::new(alloc);
    if may_join {
        wide = check(alloc, Profile::Wide, sources)?;
    }
    // One that is none of what is put together: not one of its names, and not that it is too large or too high.
    let is_apart = |fault: &Fault| match fault {
        Fault::FieldReference { .. } => are_at(faults, fault),
        Fault::TooLarge { .. } | Fault::TooHigh { .. } => false,
        _ => true,
    };
    let is_known = may_join && wide.len() < MOST_FAULTS && wide.iter().all(is_apart);
    let mut lines = String::new(alloc);
    let cut = sources_of(alloc, about.profile, about.sources)?;
    for fault in faults {
        let is_joined = is_known && !are_at(&wide, fault);
        put_finding(&mut lines, fault, About { is_joined, ..about }, &cut)?;
    }
    let checked = if faults.is_empty() { Well } else { Faulty };
    Ok(Findings { checked, lines })
}

/// Whether one of these faults is at the place of the sources that another one is at.
fn are_at(faults: &[Fault], fault: &Fault) -> bool {
    let is_there = |other: &Fault| other.file() == fault.file() && other.offset() == fault.offset();
    faults.iter().any(is_there)
}
