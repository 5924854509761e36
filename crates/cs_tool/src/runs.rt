// A request over a reader and a writer.
ghost use Rattle.std.specs.Prelude.{◌≡◌, ◌+◌, ◌⊎◌, ℕ, List, IfOk, IfErr, IsOkUnless};
ghost use Rattle.std.specs.Io.KnownBytes.{Appends};
ghost use Rattle.cs_tool.specs.Streams.{LosesAtMost, chunk_bytes};
ghost use Rattle.cs_tool.specs.Given.{bytes_in};
ghost use Rattle.cs_tool.specs.Runs.{sources_or, text_or, call_of, IsAnswer, IsCallAnswer, IsCallRefusal, IsReadyCall, IsReadyRequest, ReadsInput, most_of, Leaves, verdict_text, line_of};

use crate::Fault;
use crate::calls::{agree, validate, vet};
use crate::exports::export;
use crate::request::Request;
use crate::requested::input_of;
use crate::slices::slices_of;
use crate::writes::write_text;
use std::alloc::{AllocError, Global};
use std::io::{Read, Write};

/// What a call answers: its truth value, and its text with a newline.
#[derive(Drop)]
struct Answer {
    truth: bool,
    line: Vec<u8>,
}

/// Answers the request: its call's truth value, and `true` for `Export`. Writes the answer's text (the schema, `valid`
/// or `invalid`) and a newline, then flushes. Where the request has no files, the bytes of the input up to its end are
/// the one source, and where it has no document, they are the document; otherwise the input is not read.
///
/// A refusal of the call is handed on, with nothing written. `ReadFailed` comes only where the input is read, and leaves
/// nothing written. `SourcesTooLong` comes also where the input has more bytes than sources may have, and `InputTooLong`
/// where it has more than a document may have; reading stops there, at most one chunk of 4,096 bytes past the limit.
/// `WriteFailed`: what the writer took is a front of the text with its newline.
///
/// What the clauses say of bytes, they say of a reader and a writer whose bytes are known. That 30 and 31 come only
/// where a read, a write or the flush failed or a write took no byte, and that the flush is called, is tested.
pub fn run<R: Read, W: Write>(
    alloc: Global,
    request: Request,
    input: &mut R,
    output: &mut W,
) -> Result<bool, Fault>
    ensures done { IfOk result (λ truth. (text : List ℕ)
        × IsAnswer request (R.remaining input.old) truth text
        × Appends (W.contents output.old) (W.contents output.new) (line_of text)) }
    ensures refused { IfErr result (λ e. Leaves request (R.remaining input.old) e
        (W.contents output.old) (W.contents output.new)) }
    ensures only { IsReadyRequest request
        → IfErr result (λ e. (e ≡ Fault.OutOfMemory) ⊎ (e ≡ Fault.WriteFailed)) }
    ensures unread { ¬ (ReadsInput request) → input.new ≡ input.old }
    ensures stops { LosesAtMost (most_of request + chunk_bytes)
        (R.remaining input.old) (R.remaining input.new) }
{
    let bytes = input_of(alloc, &request, input)?;
    let answer = answer_to(alloc, &request, &bytes)?;
    write_text(output, &answer.line)?;
    Ok(answer.truth)
}

/// What the request's call answers, where the input has these bytes.
fn answer_to(alloc: Global, request: &Request, input: &[u8]) -> Result<Answer, Fault>
    ensures found { IfOk result (λ a. (text : List ℕ)
        × IsCallAnswer (call_of request.now input.now) a.truth text × (a.line.items ≡ line_of text)) }
    ensures refused { IfErr result (IsCallRefusal (call_of request.now input.now)) }
    ensures only { IsReadyCall (call_of request.now input.now)
        → IsOkUnless result Fault.OutOfMemory }
{
    match request {
        Request::Export { files, root } => {
            let sources = sources_or_input(alloc, files, input)?;
            let mut line = export(alloc, &sources, root)?;
            line.push(b'\n')?;
            Ok(Answer { truth: true, line })
        }
        Request::Vet { files, root, doc } => {
            let sources = sources_or_input(alloc, files, input)?;
            let truth = vet(alloc, &sources, root, doc)?;
            Ok(verdict(alloc, truth)?)
        }
        Request::Validate { schema, doc } => {
            let truth = validate(alloc, schema, doc_or_input(doc, input))?;
            Ok(verdict(alloc, truth)?)
        }
        Request::Agree { files, root, doc } => {
            let sources = sources_or_input(alloc, files, input)?;
            let truth = agree(alloc, &sources, root, doc)?;
            Ok(verdict(alloc, truth)?)
        }
    }
}

/// A verdict's answer.
fn verdict(alloc: Global, truth: bool) -> Result<Answer, AllocError>
    ensures { IfOk result (λ a. (a.truth ≡ truth) × (a.line.items ≡ line_of (verdict_text truth))) }
{
    let text: &[u8] = if truth { b"valid\n" } else { b"invalid\n" };
    let line = text.to_vec(alloc)?;
    Ok(Answer { truth, line })
}

/// The bytes of each file, or those of the input where there are no files.
fn sources_or_input<'a>(
    alloc: Global,
    files: &'a [Vec<u8>],
    input: &'a [u8],
) -> Result<Vec<&'a [u8]>, AllocError>
    ensures { IfOk result (λ v. bytes_in v.items ≡ sources_or files.now input.now) }
{
    if files.is_empty() {
        return Ok(vec![in alloc; input]?);
    }
    slices_of(alloc, files)
}

/// The document, or the bytes of the input where there is none.
fn doc_or_input<'a>(doc: &'a Option<Vec<u8>>, input: &'a [u8]) -> &'a [u8]
    ensures { result.now ≡ text_or doc.now input.now }
{
    match doc {
        Some(doc) => doc.as_slice(),
        None => input,
    }
}
