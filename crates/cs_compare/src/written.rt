// What is written of comparisons.
ghost use Rattle.std.specs.Prelude.{◌≡◌, ◌++◌, ◌&&◌, IfOk, IfErr};
ghost use Rattle.std.specs.Io.KnownBytes.{Appends};
ghost use Rattle.cs_compare.specs.Written.{is_compatible, answer_of, comparison_text, both_text, LeavesText};

use crate::comparison::Comparison;
use cs_tool::{Fault, write_text};
use std::alloc::{AllocError, Global};
use std::io::Write;

/// A comparison, and why the document that it shows is refused: lines, or an object of JSON.
#[derive(Drop)]
pub struct Told {
    pub comparison: Comparison,
    pub reasons: Vec<u8>,
}

impl Told {
    /// Whether no document breaks.
    fn is_compatible(&self) -> bool
        ensures { result ≡ is_compatible self.now.comparison }
    {
        match self.comparison {
            Comparison::Compatible => true,
            Comparison::Breaking(_) => false,
        }
    }

    /// The answer in lines, or as an object without a newline.
    fn answer(&self, alloc: Global, is_json: bool) -> Result<Vec<u8>, AllocError>
        ensures { IfOk result (λ v. v.items ≡ answer_of is_json self.now) }
    {
        match &self.comparison {
            Comparison::Compatible if is_json => b"{\"compatible\":true}".to_vec(alloc),
            Comparison::Compatible => b"compatible\n".to_vec(alloc),
            Comparison::Breaking(shown) if is_json => {
                let front = b"{\"compatible\":false,\"document\":";
                framed(alloc, front, shown, b",\"report\":", &self.reasons, b"}")
            }
            Comparison::Breaking(shown) => {
                framed(alloc, b"breaking\n", shown, b"\n", &self.reasons, b"")
            }
        }
    }

    /// What is written of the answer to one direction.
    fn text(&self, alloc: Global, is_json: bool) -> Result<Vec<u8>, AllocError>
        ensures { IfOk result (λ v. v.items ≡ comparison_text is_json self.now) }
    {
        let mut text = self.answer(alloc, is_json)?;
        if !is_json {
            return Ok(text);
        }
        text.extend_from_slice(b"\n")?;
        Ok(text)
    }
}

/// Two texts with what stands before, between and behind them.
fn framed(
    alloc: Global,
    front: &[u8],
    first: &[u8],
    between: &[u8],
    second: &[u8],
    end: &[u8],
) -> Result<Vec<u8>, AllocError>
    ensures { IfOk result (λ v. v.items
        ≡ front.now ++ first.now ++ between.now ++ second.now ++ end.now) }
{
    let mut text = front.to_vec(alloc)?;
    text.extend_from_slice(first)?;
    text.extend_from_slice(between)?;
    text.extend_from_slice(second)?;
    text.extend_from_slice(end)?;
    Ok(text)
}

/// What is written of the answers to both directions.
fn text_of_both(
    alloc: Global,
    backward: &Told,
    forward: &Told,
    is_json: bool,
) -> Result<Vec<u8>, AllocError>
    ensures { IfOk result (λ v. v.items ≡ both_text is_json backward.now forward.now) }
{
    let first = backward.answer(alloc, is_json)?;
    let second = forward.answer(alloc, is_json)?;
    if is_json {
        framed(
            alloc,
            b"{\"backward\":",
            &first,
            b",\"forward\":",
            &second,
            b"}\n",
        )
    } else {
        framed(alloc, b"backward: ", &first, b"forward: ", &second, b"")
    }
}

/// Writes a comparison, and flushes: `compatible`, or `breaking` and below it the document with the reasons; or an object. Gives
/// whether it is `compatible`.
///
/// # Errors
/// `OutOfMemory`, with nothing written. `WriteFailed`: what the writer took is a front of the text.
pub fn write_comparison<W: Write>(
    alloc: Global,
    told: &Told,
    is_json: bool,
    output: &mut W,
) -> Result<bool, Fault>
    ensures done { IfOk result (λ b. (b ≡ is_compatible told.now.comparison)
        × Appends (W.contents output.old) (W.contents output.new)
        (comparison_text is_json told.now)) }
    ensures refused { IfErr result (λ e. LeavesText (comparison_text is_json told.now) e
        (W.contents output.old) (W.contents output.new)) }
{
    let text = told.text(alloc, is_json)?;
    write_text(output, &text)?;
    Ok(told.is_compatible())
}

/// Writes the comparisons of two editions in both directions, each with its name before it, and flushes: whether old documents are
/// new ones, and whether new documents are old ones. Gives whether both are `compatible`.
///
/// # Errors
/// Those of [`write_comparison`].
pub fn write_both<W: Write>(
    alloc: Global,
    backward: &Told,
    forward: &Told,
    is_json: bool,
    output: &mut W,
) -> Result<bool, Fault>
    ensures done { IfOk result (λ b.
        (b ≡ (is_compatible backward.now.comparison && is_compatible forward.now.comparison))
        × Appends (W.contents output.old) (W.contents output.new)
        (both_text is_json backward.now forward.now)) }
    ensures refused { IfErr result (λ e. LeavesText (both_text is_json backward.now forward.now) e
        (W.contents output.old) (W.contents output.new)) }
{
    let text = text_of_both(alloc, backward, forward, is_json)?;
    write_text(output, &text)?;
    Ok(backward.is_compatible() && forward.is_compatible())
}
