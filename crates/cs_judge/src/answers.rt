// Answers to texts, and how they are written: of a document at once, and of lines held back until the input is read again.
ghost use Rattle.std.specs.Prelude.{◌≡◌, ◌⊎◌, ◌+◌, ◌≤◌, ◌++◌, ℕ, List, [], Some, length, take, drop, Err, OnOk, IfOk, IfErr};
ghost use Rattle.std.specs.Io.KnownBytes.{Appends};
ghost use Rattle.cs_judge.specs.Explained.{asked_form, IsToldAnswer, LeavesTold, IsTold, IsDocumentFront, IsBehindFront, IsWrittenOf, document_member, members_text, behind, told_line, WritesLabelled, LeavesLabelled};
ghost use Rattle.cs_judge.specs.Judged.{call_on};
ghost use Rattle.cs_judge.specs.Lines.{Answer, IsTextAnswer, answer_line, worse, outcome_of_answer, most_held};
ghost use Rattle.cs_judge.specs.Writing.{Writes, WritesSome, Holds};
ghost use Rattle.cs_tool.specs.Runs.{IsReadyCall};

use crate::text_judge::{Done, Judged, TextJudge, Why, form_of, verdict_line};
use cs_place::{Label, Named};
use cs_reason_words::Form;
use cs_tool::{Fault, MEMBER_ROOM, put, put_error, write_part, write_text};
use itoa::Buffer;
use json::Writer;
use std::alloc::{AllocError, Global};
use std::io::Write;
use std::marker::Model;

/// The line of an answer has at most these bytes: a number of 10 digits, and 7 bytes round it.
const ANSWER_ROOM: usize = 32;

/// What came of texts that were judged one after another. Its number is the status of a program that judges them.
#[derive(Clone, Copy)]
pub enum LinesOutcome {
    /// Each is valid.
    AllValid = 0,
    /// None is refused, and one at least is invalid.
    SomeInvalid = 1,
    /// One at least is refused.
    SomeRefused = 2,
}

impl LinesOutcome {
    /// The outcome of the texts of both.
    pub fn with(self, other: LinesOutcome) -> LinesOutcome
        ensures { result ≡ worse self other }
    {
        match (self, other) {
            (LinesOutcome::AllValid, _) => other,
            (LinesOutcome::SomeInvalid, LinesOutcome::SomeRefused) => other,
            (LinesOutcome::SomeInvalid | LinesOutcome::SomeRefused, _) => self,
        }
    }
}

/// The outcome of one text.
pub(crate) fn outcome_of(answer: &Judged) -> LinesOutcome
    ensures { result ≡ outcome_of_answer answer.now }
{
    match answer {
        Ok(true) => LinesOutcome::AllValid,
        Ok(false) => LinesOutcome::SomeInvalid,
        Err(_) => LinesOutcome::SomeRefused,
    }
}

/// The line of an answer. That of a refusal is put in the room.
pub(crate) fn line_of<'a>(answer: &Judged, room: &'a mut [u8]) -> &'a [u8]
    requires { ANSWER_ROOM ≤ length room.old }
    ensures { result.now ≡ answer_line answer.now }
{
    match answer {
        Ok(valid) => verdict_line(*valid),
        Err(fault) => {
            let end = put(room, 0, b"error ");
            let end = put(room, end, Buffer::new().format(fault.number()).as_bytes());
            let end = put(room, end, b"\n");
            &room[..end]
        }
    }
}

/// Judges the document, writes what [`TextJudge::explain`] tells of it, and flushes.
///
/// A refusal of the call is handed on, with nothing written. `WriteFailed`: what the writer took is a front of what is told.
pub fn run_document<W: Write>(
    alloc: Global,
    judge: &mut TextJudge<'_>,
    document: Named<'_>,
    why: Option<Why<'_>>,
    output: &mut W,
) -> Result<bool, Fault>
    ensures done { IfOk result (λ truth. (told : List ℕ) × IsToldAnswer judge.old document.entry.text.now (asked_form why.entry) truth told
        × Appends (W.contents output.old) (W.contents output.new) told) }
    ensures refused { IfErr result (λ e. LeavesTold judge.old document.entry.text.now (asked_form why.entry) e
        (W.contents output.old) (W.contents output.new)) }
    ensures only { IsReadyCall (call_on judge.old document.entry.text.now)
        → IfErr result (λ e. (e ≡ Fault.OutOfMemory) ⊎ (e ≡ Fault.WriteFailed)) }
    ensures same { judge.new ≡ judge.old }
{
    let mut told = Vec::new(alloc);
    let truth = judge.explain(document, why, &mut told)?;
    write_text(output, &told)?;
    Ok(truth)
}

/// Judges the text, and writes what is told of it under its label; then flushes. In lines, and where no reasons are asked for, that is
/// `LABEL: valid`, `LABEL: invalid` or `LABEL: error N`, where the label is shown and N is the number of the refusal, and in lines one at
/// least behind `invalid`; else one object, whose first member is `document`, the name itself, with `error` for a refusal.
///
/// `WriteFailed` alone: the writer took a front of that.
pub fn write_document<W: Write>(
    alloc: Global,
    judge: &mut TextJudge<'_>,
    text: &[u8],
    label: &Label<'_>,
    why: Option<Why<'_>>,
    output: &mut W,
) -> Result<LinesOutcome, Fault>
    ensures done { IfOk result (λ outcome. (answer : Answer) × IsTextAnswer judge.old text.now answer × (outcome ≡ outcome_of_answer answer)
        × WritesLabelled (asked_form why.entry) label.now answer (W.contents output.old) (W.contents output.new)) }
    ensures refused { IfErr result (λ e. (e ≡ Fault.WriteFailed) × (answer : Answer) × IsTextAnswer judge.old text.now answer
        × LeavesLabelled (asked_form why.entry) label.now answer (W.contents output.old) (W.contents output.new)) }
    ensures same { judge.new ≡ judge.old }
{
    let (name, line) = (label.name(), 1);
    let mut told = Vec::new(alloc);
    let answer = judge.explain(Named { name, text, line }, why, &mut told);
    write_told(alloc, form_of(why), &answer, label, &told, output)?;
    Ok(outcome_of(&answer))
}

/// Writes the refusal of a document that couldn't be read, as [`write_document`] does.
///
/// `WriteFailed` alone: the writer took a front of that.
pub fn write_unread<W: Write>(
    alloc: Global,
    fault: Fault,
    label: &Label<'_>,
    why: Option<Why<'_>>,
    output: &mut W,
) -> Result<LinesOutcome, Fault>
    ensures done { IfOk result (λ outcome. (outcome ≡ LinesOutcome.SomeRefused)
        × WritesLabelled (asked_form why.entry) label.now (Err fault) (W.contents output.old) (W.contents output.new)) }
    ensures refused { IfErr result (λ e. (e ≡ Fault.WriteFailed) × LeavesLabelled (asked_form why.entry) label.now (Err fault)
        (W.contents output.old) (W.contents output.new)) }
{
    write_told(alloc, form_of(why), &Err(fault), label, b"", output)?;
    Ok(LinesOutcome::SomeRefused)
}

/// Writes an answer under a name, with what is told of it; then flushes.
fn write_told<W: Write>(
    alloc: Global,
    form: Option<Form>,
    answer: &Judged,
    label: &Label<'_>,
    told: &[u8],
    output: &mut W,
) -> Done
    ensures { IfOk answer.now (λ b. IsTold form b told.now) → WritesSome result (W.contents output.old) (W.contents output.new)
        (IsWrittenOf form label.now answer.now) }
{
    let mut room = [0u8; MEMBER_ROOM];
    match form {
        None => write_line(answer, label, told, output),
        Some(Form::Lines) => write_line(answer, label, told, output),
        Some(Form::Object(_)) => {
            let members = members_of(answer, told, &mut room);
            write_object(alloc, label.name(), members, output)
        }
    }
}

/// Writes what is told of an answer behind a label, or of a refusal the line; then flushes.
fn write_line<W: Write>(answer: &Judged, label: &Label<'_>, told: &[u8], output: &mut W) -> Done
    ensures { Writes result (W.contents output.old) (W.contents output.new) (behind label.now (told_line answer.now told.now)) }
{
    let mut room = [0u8; ANSWER_ROOM];
    write_part(output, label.shown().as_bytes())?;
    write_part(output, b": ")?;
    match answer {
        Ok(_) => write_text(output, told),
        Err(_) => write_text(output, line_of(answer, &mut room)),
    }
}

/// Writes these members behind the front of the object of a document of that name; then flushes.
fn write_object<W: Write>(alloc: Global, name: &str, members: &[u8], output: &mut W) -> Done
    ensures { WritesSome result (W.contents output.old) (W.contents output.new) (IsBehindFront name.now members.now) }
{
    write_front(alloc, name, output)?;
    write_text(output, members)
}

/// Writes what the object of a document of that name begins with. The name is left out where memory runs out.
fn write_front<W: Write>(alloc: Global, name: &str, output: &mut W) -> Done
    ensures { WritesSome result (W.contents output.old) (W.contents output.new) (IsDocumentFront name.now) }
{
    match document_front(alloc, name) {
        Ok(front) => write_part(output, &front),
        Err(AllocError) => write_part(output, b"{"),
    }
}

/// The beginning of the object of a document of that name, with its first member.
fn document_front(alloc: Global, name: &str) -> Result<Vec<u8>, AllocError>
    ensures { IfOk result (λ front. front.items ≡ document_member name.now) }
{
    let mut out = Writer::new(Vec::new(alloc));
    out.begin_object()?;
    out.key("document")?;
    out.string(name)?;
    let mut front = out.into_inner();
    front.push(b',')?;
    Ok(front)
}

/// What follows the front of an object that tells an answer: what is told behind its first byte, or a refusal, which is put in the room.
pub(crate) fn members_of<'a>(answer: &Judged, told: &'a [u8], room: &'a mut [u8]) -> &'a [u8]
    requires { MEMBER_ROOM ≤ length room.old }
    ensures { result.now ≡ members_text answer.now told.now }
{
    match answer {
        Ok(_) => match told {
            [] => told,
            [_, members @ ..] => members,
        },
        Err(fault) => {
            let end = put_error(room, 0, fault);
            let end = put(room, end, b"}\n");
            &room[..end]
        }
    }
}

/// The bytes that are held at most.
const HELD: usize = 65_536;

/// The lines of the last answers, which aren't written yet.
#[derive(Drop)]
pub(crate) struct HeldAnswers {
    bytes: Vec<u8>,
    end: usize,
}

impl Model for HeldAnswers {
    ghost Value = { List ℕ };

    ghost view = { λ h. take h.end h.bytes.items };

    ghost invariant = { λ h. (h.end ≤ most_held) × (length h.bytes.items ≡ most_held) };
}

impl HeldAnswers {
    /// No answer.
    pub(crate) fn new(alloc: Global) -> Result<HeldAnswers, AllocError>
        ensures { IfOk result (λ h. h ≡ []) }
    {
        let bytes = vec![in alloc; 0u8; HELD]?;
        Ok(HeldAnswers { bytes, end: 0 })
    }

    /// Holds one more text. Writes what is held where there is no room, and the text too where it is longer than what may be held.
    pub(crate) fn hold_text<W: Write>(&mut self, text: &[u8], output: &mut W) -> Done
        ensures { Holds result (W.contents output.old) (W.contents output.new) (self.old ++ text.now) self.new }
    {
        if text.len() > HELD - self.end {
            write_part(output, &self.bytes[..self.end])?;
            self.end = 0;
        }
        if text.len() > HELD {
            return write_part(output, text);
        }
        self.end = put(&mut self.bytes, self.end, text);
        Ok(())
    }

    /// Writes what is held, and flushes.
    pub(crate) fn write_out<W: Write>(&mut self, output: &mut W) -> Done
        ensures written { Writes result (W.contents output.old) (W.contents output.new) self.old }
        ensures empty { OnOk result (self.new ≡ []) }
    {
        write_text(output, &self.bytes[..self.end])?;
        self.end = 0;
        Ok(())
    }
}
