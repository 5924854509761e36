// Writing an answer, or the line of a refusal.
ghost use Rattle.std.specs.Prelude.{◌≡◌, ◌+◌, ◌≤◌, [], ◌++◌, length, take, OnOk, OnErr, Err};
ghost use Rattle.std.specs.Io.KnownBytes.{Appends};
ghost use Rattle.cs_tool.specs.Streams.{AppendsFront};
ghost use Rattle.cs_tool.specs.Refusals.{fault_line};

use crate::Fault;
use itoa::Buffer;
use std::io::Write;

/// A line has two numbers of at most 20 digits, and 11 bytes round them.
const LINE_ROOM: usize = 64;

/// Writes the text and flushes. After an error the writer has a front of the text.
pub fn write_text<W: Write>(output: &mut W, text: &[u8]) -> Result<(), Fault>
    ensures all { OnOk result (Appends (W.contents output.old) (W.contents output.new) text.now) }
    ensures front { OnErr result
        (AppendsFront (W.contents output.old) (W.contents output.new) text.now) }
    ensures kind { OnErr result (result ≡ Err Fault.WriteFailed) }
{
    write_part(output, text)?;
    flush(output)
}

/// Writes the fault's line.
pub fn write_fault<W: Write>(fault: &Fault, output: &mut W) -> Result<(), Fault>
    ensures all { OnOk result
        (Appends (W.contents output.old) (W.contents output.new) (fault_line fault.now)) }
    ensures front { OnErr result
        (AppendsFront (W.contents output.old) (W.contents output.new) (fault_line fault.now)) }
    ensures kind { OnErr result (result ≡ Err Fault.WriteFailed) }
{
    let mut line = [0u8; LINE_ROOM];
    let end = fill_line(fault, &mut line);
    write_text(output, &line[..end])
}

/// Puts the fault's line at the front, and returns how long it is.
fn fill_line(fault: &Fault, line: &mut [u8; LINE_ROOM]) -> usize
    ensures within { result ≤ LINE_ROOM }
    ensures text { take result line.new ≡ fault_line fault.now }
{
    let line = &mut line[..];
    let mut end = put(line, 0, b"error ");
    end = put(line, end, Buffer::new().format(fault.number()).as_bytes());
    if let Some(offset) = fault.offset() {
        end = put(line, end, b" at ");
        end = put(line, end, Buffer::new().format(offset).as_bytes());
    }
    put(line, end, b"\n")
}

/// Puts a part at a place, and returns where it ends.
pub fn put(line: &mut [u8], at: usize, part: &[u8]) -> usize
    requires { at + length part.now ≤ length line.old }
    ensures end { result ≡ at + length part.now }
    ensures text { take result line.new ≡ take at line.old ++ part.now }
{
    let end = at + part.len();
    line[at..end].copy_from_slice(part);
    end
}

/// Every error counts, an interruption too.
pub fn write_part<W: Write>(output: &mut W, text: &[u8]) -> Result<(), Fault>
    ensures all { OnOk result (Appends (W.contents output.old) (W.contents output.new) text.now) }
    ensures front { OnErr result
        (AppendsFront (W.contents output.old) (W.contents output.new) text.now) }
    ensures kind { OnErr result (result ≡ Err Fault.WriteFailed) }
{
    let mut at = 0;
    while at < text.len() {
        match output.write(&text[at..]) {
            Ok(count) if count > 0 => at += count,
            _ => return Err(Fault::WriteFailed),
        }
    }
    Ok(())
}

fn flush<W: Write>(output: &mut W) -> Result<(), Fault>
    ensures kept { Appends (W.contents output.old) (W.contents output.new) [] }
    ensures kind { OnErr result (result ≡ Err Fault.WriteFailed) }
{
    match output.flush() {
        Ok(()) => Ok(()),
        Err(_) => Err(Fault::WriteFailed),
    }
}
