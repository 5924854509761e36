// A run over the lines of an input, which is read in pieces.
ghost use Rattle.std.specs.Prelude.{◌≡◌, ◌↔◌, ◌⊎◌, ◌+◌, ◌-◌, ◌^◌, ◌<◌, ◌≤◌, ◌++◌, ◌∷◌, [], ℕ, List, Option, Some, min, length, take, Err, OnOk, OnErr, IfOk, IfErr, IsTrue};
ghost use Rattle.cs_judge.specs.Answering.{IsAnswered, GoesOver, AnswersLine, Finishes};
ghost use Rattle.cs_judge.specs.Begun.{HoldsFront};
ghost use Rattle.cs_judge.specs.Explained.{asked_form, IsTold, Tells, input_member, IsWritten};
ghost use Rattle.cs_judge.specs.Lines.{IsLineAnswer};
ghost use Rattle.cs_judge.specs.Runs.{IsDone, LeavesLines, IsOfRules};
ghost use Rattle.cs_judge.specs.Writing.{HoldsSome};

use crate::answers::{HeldAnswers, LinesOutcome, line_of, members_of, outcome_of};
use crate::text_judge::{Done, Judged, TextJudge, Why, form_of, verdict_line};
use cs_place::Named;
use cs_reason_words::Form;
use cs_tool::{Fault, MEMBER_ROOM, MOST_INPUT_BYTES, put};
use itoa::Buffer;
use memchr::memchr;
use std::alloc::Global;
use std::io::{Read, Write};

/// How many bytes are asked for at a time.
const CHUNK: usize = 65_536;

/// A run between two reads, with what is told of its lines.
#[derive(Drop)]
struct LineRun<'a> {
    begun: BegunLine,
    held: HeldAnswers,
    outcome: LinesOutcome,
    /// The name of the input, and the number of the line that is begun.
    line: Named<'a>,
    /// What is told of the line before.
    told: Vec<u8>,
    /// The reasons in lines that aren't written yet.
    notes: HeldAnswers,
}

/// Judges each line of the input by the judge's rules, and writes for it one line to `output`: `valid`, `invalid`, or `error N` with the
/// number of the refusal that the single call has for the line's text. A line ends before a newline or at the input's end, where it has a
/// byte; a line of more than 67,108,864 bytes is `error 28`. Where reasons are asked for in lines, they go to `notes`, each with the name of
/// the input and the number of its line. In the other forms there is in place of the line one object, whose first member is `input`, that
/// number: behind it what is told of the line alone, or `error` for a refusal. Both are flushed before the next read.
///
/// A refusal of a line is its answer, want of memory too. `OutOfMemory` comes only before the first read.
/// `ReadFailed`: the answers to the lines that end before that read are written, and no more. `WriteFailed`: the writer took a front of the
/// answers, or `notes` failed.
///
/// What the clauses say of bytes, they say of a reader and a writer whose bytes are known. That 30 and 31 come only where a
/// read, a write or a flush failed, and when the answers are flushed, is tested.
pub fn run_lines<R: Read, W: Write, E: Write>(
    alloc: Global,
    mut judge: TextJudge<'_>,
    name: &str,
    why: Option<Why<'_>>,
    input: &mut R,
    output: &mut W,
    notes: &mut E,
) -> Result<LinesOutcome, Fault>
    ensures done { IfOk result (IsDone (asked_form why.entry) judge.entry
        (R.remaining input.old) (W.contents output.old) (W.contents output.new)) }
    ensures refused { IfErr result (λ e. LeavesLines (asked_form why.entry) judge.entry e
        (R.remaining input.old) (R.remaining input.new) (W.contents output.old) (W.contents output.new)) }
    ensures unread { IfErr result (λ e. IsOfRules e → (input.new ≡ input.old) × (output.new ≡ output.old)) }
    ensures only { IfErr result (λ e. (e ≡ Fault.OutOfMemory) ⊎ (e ≡ Fault.ReadFailed) ⊎ (e ≡ Fault.WriteFailed)) }
{
    let bytes = Vec::new(alloc);
    let (text, line, kept) = (b"", 1, Kept::All);
    let held = HeldAnswers::new(alloc)?;
    let mut run = LineRun {
        begun: BegunLine { bytes, kept },
        held,
        outcome: LinesOutcome::AllValid,
        line: Named { name, text, line },
        told: Vec::new(alloc),
        notes: HeldAnswers::new(alloc)?,
    };
    let mut chunk = vec![in alloc; 0u8; CHUNK]?;
    answer_chunks(&mut judge, &mut run, why, &mut chunk, input, output, notes)
}

/// Answers the lines of the input, as many bytes at a time as the chunk has.
fn answer_chunks<R: Read, W: Write, E: Write>(
    judge: &mut TextJudge<'_>,
    run: &mut LineRun<'_>,
    why: Option<Why<'_>>,
    chunk: &mut [u8],
    input: &mut R,
    output: &mut W,
    notes: &mut E,
) -> Result<LinesOutcome, Fault>
    requires room { 0 < length chunk.old }
    requires start { IsAnswered (asked_form why) judge.old (W.contents output.old) (W.contents output.old) [] run.old }
    requires none { run.old.held ≡ [] }
    ensures done { IfOk result (IsDone (asked_form why.entry) judge.old
        (R.remaining input.old) (W.contents output.old) (W.contents output.new)) }
    ensures refused { IfErr result (λ e. LeavesLines (asked_form why.entry) judge.old e
        (R.remaining input.old) (R.remaining input.new) (W.contents output.old) (W.contents output.new)) }
    ensures kind { IfErr result (λ e. (e ≡ Fault.ReadFailed) ⊎ (e ≡ Fault.WriteFailed)) }
{
    for _ in 0..u64::MAX {
        let Ok(count) = input.read(chunk) else {
            return Err(Fault::ReadFailed);
        };
        if count == 0 {
            run.finish(judge, why, output, notes)?;
            return Ok(run.outcome);
        }
        run.answer_chunk(judge, why, &chunk[..count], output, notes)?;
        run.notes.write_out(notes)?;
        run.held.write_out(output)?;
    }
    Err(Fault::ReadFailed)
}

impl LineRun<'_> {
    /// Answers each line that ends in the chunk, and keeps the front of the line after them.
    fn answer_chunk<W: Write, E: Write>(
        &mut self,
        judge: &mut TextJudge<'_>,
        why: Option<Why<'_>>,
        chunk: &[u8],
        output: &mut W,
        notes: &mut E,
    ) -> Done
        ensures over { GoesOver result (asked_form why.entry) judge.old chunk.now
            (W.contents output.old) (W.contents output.new) self.old self.new }
        ensures same { judge.new ≡ judge.old }
    {
        let mut at = 0;
        while let Some(count) = memchr(b'\n', &chunk[at..]) {
            self.answer_line(judge, why, &chunk[at..at + count], output, notes)?;
            at += count + 1;
        }
        self.begun.add(&chunk[at..]);
        Ok(())
    }

    /// Answers the line that ends with the piece.
    fn answer_line<W: Write, E: Write>(
        &mut self,
        judge: &mut TextJudge<'_>,
        why: Option<Why<'_>>,
        piece: &[u8],
        output: &mut W,
        notes: &mut E,
    ) -> Done
        ensures line { AnswersLine result (asked_form why.entry) judge.old piece.now
            (W.contents output.old) (W.contents output.new) self.old self.new }
        ensures begun { HoldsFront self.new.begun [] }
        ensures same { judge.new ≡ judge.old }
    {
        self.told.clear();
        let answer = self
            .begun
            .finish(judge, piece, self.line, why, &mut self.told);
        self.outcome = self.outcome.with(outcome_of(&answer));
        let form = form_of(why);
        note(&mut self.notes, &self.told, notes)?;
        let number = self.line.line;
        self.line.line = number.saturating_add(1);
        hold_told(&mut self.held, form, number, &answer, &self.told, output)
    }

    /// Answers the line without a newline, where the input ends in one, and writes what is held.
    fn finish<W: Write, E: Write>(
        &mut self,
        judge: &mut TextJudge<'_>,
        why: Option<Why<'_>>,
        output: &mut W,
        notes: &mut E,
    ) -> Done
        ensures { Finishes result (asked_form why.entry) judge.old
            (W.contents output.old) (W.contents output.new) self.old self.new }
    {
        if !self.begun.is_empty() {
            self.answer_line(judge, why, &[], output, notes)?;
        }
        self.notes.write_out(notes)?;
        self.held.write_out(output)
    }
}

/// Holds the reasons of a line, in lines: what is told in the other forms doesn't begin as these do.
fn note<E: Write>(held: &mut HeldAnswers, told: &[u8], notes: &mut E) -> Done
    ensures kind { OnErr result (result ≡ Err Fault.WriteFailed) }
{
    let reasons = told.strip_prefix(verdict_line(false));
    held.hold_text(reasons.unwrap_or(b""), notes)
}

/// Holds what is written of the answer to a line of that number: its line, or in the forms for programs its object.
fn hold_told<W: Write>(
    held: &mut HeldAnswers,
    form: Option<Form>,
    number: usize,
    answer: &Judged,
    told: &[u8],
    output: &mut W,
) -> Done
    ensures { IfOk answer.now (λ b. IsTold form b told.now) → HoldsSome result (W.contents output.old) (W.contents output.new)
        held.old held.new (IsWritten form number answer.now) }
{
    let mut room = [0u8; MEMBER_ROOM];
    match form {
        None => held.hold_text(line_of(answer, &mut room), output),
        Some(Form::Lines) => held.hold_text(line_of(answer, &mut room), output),
        Some(Form::Object(_)) => {
            held.hold_text(front_of(number, &mut room), output)?;
            held.hold_text(members_of(answer, told, &mut room), output)
        }
    }
}

/// What the object of a line of that number begins with, its first member, which is put in the room.
fn front_of(number: usize, room: &mut [u8]) -> &[u8]
    requires { 35 ≤ length room.old }
    ensures { result.now ≡ input_member number }
{
    let end = put(room, 0, b"{\"input\":");
    let end = put(room, end, Buffer::new().format(number).as_bytes());
    let end = put(room, end, b",");
    &room[..end]
}

/// What is kept of the front of a line.
#[derive(Clone, Copy)]
enum Kept {
    /// All of its bytes.
    All,
    /// None: it has more bytes than a text may have.
    TooLong,
    /// None: memory ran out.
    OutOfMemory,
}

/// The front of a line, up to where the input is read. Its memory is used again for the next line.
#[derive(Drop)]
struct BegunLine {
    bytes: Vec<u8>,
    kept: Kept,
}

impl BegunLine {
    /// Whether the line has no byte yet.
    fn is_empty(&self) -> bool
        ensures tells { (front : List ℕ) → HoldsFront self.now front → IsTrue result ↔ (front ≡ []) }
        ensures begun { IsTrue result → HoldsFront self.now [] }
    {
        matches!(self.kept, Kept::All) && self.bytes.is_empty()
    }

    /// Takes the next piece of the line. Where it can't be kept, no more is.
    fn add(&mut self, piece: &[u8])
        ensures { (front : List ℕ) → HoldsFront self.old front → HoldsFront self.new (front ++ piece.now) }
    {
        if let Kept::All = self.kept {
            if piece.len() > MOST_INPUT_BYTES.saturating_sub(self.bytes.len()) {
                self.kept = Kept::TooLong;
            } else if !piece.is_empty() && self.bytes.extend_from_slice(piece).is_err() {
                self.kept = Kept::OutOfMemory;
            }
        }
    }

    /// Answers the line that ends with the piece, adds what is told of it under its name and number, and begins the next one. A line that
    /// is one piece is judged where it is.
    fn finish(
        &mut self,
        judge: &mut TextJudge<'_>,
        piece: &[u8],
        line: Named<'_>,
        why: Option<Why<'_>>,
        told: &mut Vec<u8>,
    ) -> Result<bool, Fault>
        ensures answer { (front : List ℕ) → HoldsFront self.old front → IsLineAnswer judge.old (front ++ piece.now) result }
        ensures empty { HoldsFront self.new [] }
        ensures told { IfOk result (λ b. Tells (asked_form why.entry) b told.old.items told.new.items) }
        ensures same { judge.new ≡ judge.old }
    {
        if self.is_empty() && piece.len() <= MOST_INPUT_BYTES {
            return judge.explain(with_text(line, piece), why, told);
        }
        self.add(piece);
        let answer = match self.kept {
            Kept::All => judge.explain(with_text(line, &self.bytes), why, told),
            Kept::TooLong => Err(Fault::InputTooLong),
            Kept::OutOfMemory => Err(Fault::OutOfMemory),
        };
        self.bytes.clear();
        self.kept = Kept::All;
        answer
    }
}

/// The line of that name and number with its text.
fn with_text<'a>(line: Named<'a>, text: &'a [u8]) -> Named<'a>
    ensures { result.text.now ≡ text.now }
{
    Named { text, ..line }
}
