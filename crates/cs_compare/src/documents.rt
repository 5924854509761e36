// What is written of the texts of documents.
ghost use Rattle.std.specs.Prelude.{◌≡◌, IfOk, IfErr};
ghost use Rattle.std.specs.Io.KnownBytes.{Appends};
ghost use Rattle.cs_compare.specs.Written.{lines_text, has_some, LeavesText};

use cs_tool::{Fault, write_text};
use std::alloc::{AllocError, Global};
use std::io::Write;

/// Writes a line for each of these texts, and flushes. Gives whether there is one.
///
/// # Errors
/// `OutOfMemory`, with nothing written. `WriteFailed`: what the writer took is a front of the lines.
pub fn write_lines<W: Write>(
    alloc: Global,
    texts: &[Vec<u8>],
    output: &mut W,
) -> Result<bool, Fault>
    ensures done { IfOk result (λ b. (b ≡ has_some texts.now)
        × Appends (W.contents output.old) (W.contents output.new) (lines_text texts.now)) }
    ensures refused { IfErr result (λ e. LeavesText (lines_text texts.now) e
        (W.contents output.old) (W.contents output.new)) }
{
    let text = lines_of(alloc, texts)?;
    write_text(output, &text)?;
    Ok(!texts.is_empty())
}

/// A line for each of these texts.
fn lines_of(alloc: Global, texts: &[Vec<u8>]) -> Result<Vec<u8>, AllocError>
    ensures { IfOk result (λ v. v.items ≡ lines_text texts.now) }
{
    let mut lines = Vec::new(alloc);
    for text in texts {
        lines.extend_from_slice(text)?;
        lines.extend_from_slice(b"\n")?;
    }
    Ok(lines)
}
