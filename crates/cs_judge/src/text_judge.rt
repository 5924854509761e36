// Judging texts one after another by the same rules, and what is told of the verdicts.
use crate::verdict::{NumberedRules, verdict};
use cs_flat::flatten;
use cs_guard::Guarded;
use cs_instance_report::Written;
use cs_json::{Document, Scratch, read_document};
use cs_place::{Made, Named};
use cs_reason_words::Form;
use cs_reasons::Telling;
use cs_schema::SchemaDoc;
use cs_table::Verdicts;
use cs_tool::{
    Fault, Rules, number_root, number_schema, read_both, read_root, read_schema_text, slices_of,
};
use std::alloc::{AllocError, Global};
use std::marker::Model;

/// A verdict, or the refusal of a text.
pub(crate) type Judged = Result<bool, Fault>;
/// What writing gives, or holding what is written.
pub(crate) type Done = Result<(), Fault>;

/// How documents are explained.
#[derive(Clone, Copy)]
pub struct Why<'a> {
    /// The sources that the rules were read from; none where there is a schema.
    pub sources: &'a Written<'a>,
    pub form: Form,
    pub telling: Telling,
}

/// What was read of rules, with the name of a root.
#[derive(Drop)]
enum ReadRules<'a> {
    Root(Guarded, &'a str),
    Schema(SchemaDoc),
    Both(Guarded, &'a str, SchemaDoc),
}

/// Rules that were read, for any number of documents.
pub struct Prepared<'a> {
    rules: &'a Rules,
    read: ReadRules<'a>,
}

// What lets rules or a judge go calls these. By a derive each such place would prove anew how all that they own is let go.
impl Drop for Prepared<'_> {
    fn drop(self) {
        let Prepared { rules: _, read: _ } = self;
    }
}

impl<'a> Model for Prepared<'a> {
    ghost use Rattle.cs_tool.specs.declared.rules.Rules.{Rules};
    ghost use Rattle.cs_judge.specs.Prepared.{IsReadOf};

    ghost Value = { Rules };

    ghost view = { λ p. p.rules.now };

    ghost invariant = { λ p. IsReadOf p.rules.now p.read };
}

/// Judges texts one after another by the same rules. Its buffers and its table are used again.
pub struct TextJudge<'a> {
    rules: &'a Rules,
    numbered: NumberedRules<'a>,
    scratch: Scratch,
    table: Verdicts,
}

impl Drop for TextJudge<'_> {
    fn drop(self) {
        let TextJudge {
            rules: _,
            numbered: _,
            scratch: _,
            table: _,
        } = self;
    }
}

impl<'a> Model for TextJudge<'a> {
    ghost use Rattle.cs_tool.specs.declared.rules.Rules.{Rules};
    ghost use Rattle.cs_judge.specs.Prepared.{AreNumbersOf};

    ghost Value = { Rules };

    ghost view = { λ j. j.rules.now };

    ghost invariant = { λ j. AreNumbersOf j.rules.now j.numbered };
}

ghost use Rattle.std.specs.Prelude.{◌≡◌, ◌++◌, ℕ, List, OnOk, OnErr, IfOk, IfErr, IsOkUnless};
ghost use Rattle.cs_judge.specs.Explained.{asked_form, IsReport, Tells};
ghost use Rattle.cs_judge.specs.Judged.{call_on, AreReadable};
ghost use Rattle.cs_judge.specs.Prepared.{IsReadOf, AreNumbersOf};
ghost use Rattle.cs_judge.specs.Verdicts.{IsCallVerdict};
ghost use Rattle.cs_tool.specs.Runs.{IsCallAnswer, IsCallRefusal, IsReadyCall, verdict_text, line_of};

/// Reads rules once for any number of documents.
///
/// # Errors
/// Those of the calls `vet`, `validate_by` and `agree` that come before any of the document.
pub fn prepare<'a>(alloc: Global, rules: &'a Rules) -> Result<Prepared<'a>, Fault>
    ensures rules { IfOk result (λ p. p ≡ rules.now) }
    ensures refused { (text : List ℕ) → IfErr result (IsCallRefusal (call_on rules.now text)) }
    ensures only { AreReadable rules.now → IsOkUnless result Fault.OutOfMemory }
{
    let read = match rules {
        Rules::Root {
            profile,
            sources,
            root,
        } => {
            let guarded = read_root(alloc, *profile, &slices_of(alloc, sources)?, root)?;
            ReadRules::Root(guarded, root)
        }
        Rules::Schema { vocabulary, schema } => {
            ReadRules::Schema(read_schema_text(alloc, *vocabulary, schema)?)
        }
        Rules::Both {
            profile,
            sources,
            root,
        } => {
            let sources = slices_of(alloc, sources)?;
            let (guarded, schema) = read_both(alloc, *profile, &sources, root)?;
            ReadRules::Both(guarded, root, schema)
        }
    };
    Ok(Prepared { rules, read })
}

impl Prepared<'_> {
    /// Numbers the rules. Only memory can run out.
    pub fn judge(&self, alloc: Global) -> Result<TextJudge<'_>, Fault>
        ensures rules { IfOk result (λ j. j ≡ self.now) }
        ensures memory { IsOkUnless result Fault.OutOfMemory }
    {
        let numbered = match &self.read {
            ReadRules::Root(guarded, root) => {
                NumberedRules::Root(number_root(alloc, guarded, root)?)
            }
            ReadRules::Schema(schema) => NumberedRules::Schema(number_schema(alloc, schema)?),
            ReadRules::Both(guarded, root, schema) => {
                let root_side = number_root(alloc, guarded, root)?;
                NumberedRules::Both(root_side, number_schema(alloc, schema)?)
            }
        };
        Ok(TextJudge {
            rules: self.rules,
            numbered,
            scratch: Scratch::new(alloc),
            table: Verdicts::new(alloc),
        })
    }
}

impl TextJudge<'_> {
    /// What the call on the document's text answers: `vet`, `validate_by` or `agree`. Adds the verdict's line, where no reasons are asked for.
    /// Else it adds what is told in the form that is asked for: in lines the verdict's line, and behind `invalid` a line for each reason;
    /// in the others one line, the object of JSON. `agree` takes the reasons of the definition, and in the output formats of JSON Schema
    /// those of the schema.
    ///
    /// # Errors
    /// Those of that call; nothing is added then. The next text is judged all the same.
    pub fn explain(
        &mut self,
        document: Named<'_>,
        why: Option<Why<'_>>,
        output: &mut Vec<u8>,
    ) -> Result<bool, Fault>
        ensures found { IfOk result (λ b. IsCallAnswer (call_on self.old document.entry.text.now) b (verdict_text b)) }
        ensures refused { IfErr result (IsCallRefusal (call_on self.old document.entry.text.now)) }
        ensures only { IsReadyCall (call_on self.old document.entry.text.now) → IsOkUnless result Fault.OutOfMemory }
        ensures same { self.new ≡ self.old }
        ensures told { IfOk result (λ b. Tells (asked_form why.entry) b output.old.items output.new.items) }
        ensures kept { OnErr result (output.new.items ≡ output.old.items) }
    {
        let mut report = Vec::new(*output.allocator());
        let truth = self.answer(document, why, &mut report)?;
        tell(form_of(why), truth, &report, output)?;
        Ok(truth)
    }

    /// What the call on the document's text answers. The reasons that are asked for are added to the report.
    fn answer(&mut self, document: Named<'_>, why: Option<Why<'_>>, report: &mut Vec<u8>) -> Judged
        ensures verdict { IsCallVerdict (call_on self.old document.entry.text.now) (asked_form why.entry) report.old.items report.new.items result }
        ensures same { self.new ≡ self.old }
    {
        let alloc = *report.allocator();
        let (rules, table) = (&self.numbered, &mut self.table);
        match read_document(alloc, document.text, &mut self.scratch)? {
            Document::Listed(flat) => verdict(alloc, rules, document, &flat, why, table, report),
            Document::Tree(doc) => {
                let flat = flatten(alloc, &doc)?;
                verdict(alloc, rules, document, &flat, why, table, report)
            }
        }
    }
}

/// The form in which reasons are told; none where none are asked for.
pub(crate) fn form_of(why: Option<Why<'_>>) -> Option<Form>
    ensures { result ≡ asked_form why.entry }
{
    Some(why?.form)
}

/// The line of a verdict.
pub(crate) fn verdict_line(truth: bool) -> &'static [u8]
    ensures { result.now ≡ line_of (verdict_text truth) }
{
    if truth { b"valid\n" } else { b"invalid\n" }
}

/// Adds what is told of a verdict: its line where no reasons are asked for; in lines the same, and the report behind `invalid`; in the
/// other forms the report.
fn tell(form: Option<Form>, truth: bool, report: &[u8], output: &mut Vec<u8>) -> Made<()>
    ensures told { IsReport form truth report.now → OnOk result (Tells form truth output.old.items output.new.items) }
    ensures kept { OnErr result (output.new.items ≡ output.old.items) }
{
    match form {
        None => output.extend_from_slice(verdict_line(truth)),
        Some(Form::Lines) if truth => output.extend_from_slice(verdict_line(true)),
        Some(Form::Lines) => add_both(verdict_line(false), report, output),
        Some(Form::Object(_)) => output.extend_from_slice(report),
    }
}

/// Adds both texts, or nothing.
fn add_both(first: &[u8], second: &[u8], output: &mut Vec<u8>) -> Made<()>
    ensures all { OnOk result (output.new.items ≡ output.old.items ++ first.now ++ second.now) }
    ensures kept { OnErr result (output.new.items ≡ output.old.items) }
{
    let start = output.len();
    output.extend_from_slice(first)?;
    if output.extend_from_slice(second).is_err() {
        output.truncate(start);
        return Err(AllocError);
    }
    Ok(())
}
