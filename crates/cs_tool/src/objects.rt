// The objects of JSON that tell refusals.
ghost use Rattle.std.specs.Prelude.{◌≡◌, ◌+◌, ◌≤◌, ◌++◌, ℕ, List, OnOk, OnErr, Err, codes, length, take};
ghost use Rattle.std.specs.Io.KnownBytes.{Appends};
ghost use Rattle.cs_tool.specs.Objects.{error_member, IsFaultObject};

use crate::Fault;
use crate::writes::{put, write_part, write_text};
use itoa::Buffer;
use json::Writer;
use std::alloc::{AllocError, Global};
use std::io::Write;

/// A member with a number of at most 20 digits, and what stands round it.
pub const MEMBER_ROOM: usize = 40;

/// Writes the object that tells the fault, and a newline: `error`, its number; then where the fault has them `file`, the name
/// that `names` has at the file's place; `offset`; `names`; `place` and `name`. Where memory runs out it has the number alone.
///
/// `WriteFailed` alone.
pub fn write_fault_json<W: Write>(
    alloc: Global,
    fault: &Fault,
    names: &[&str],
    output: &mut W,
) -> Result<(), Fault>
    ensures all { OnOk result ((object : List ℕ) × IsFaultObject fault.now object
        × Appends (W.contents output.old) (W.contents output.new) object) }
    ensures kind { OnErr result (result ≡ Err Fault.WriteFailed) }
{
    let details = details_of(alloc, fault, names).unwrap_or(Vec::new(alloc));
    write_object(fault, &details, output)
}

/// Writes the object of the fault's number and these further members, and a newline.
fn write_object<W: Write>(fault: &Fault, details: &[u8], output: &mut W) -> Result<(), Fault>
    ensures all { OnOk result (Appends (W.contents output.old) (W.contents output.new)
        (codes "{" ++ error_member fault.now ++ details.now ++ codes "}\n")) }
    ensures kind { OnErr result (result ≡ Err Fault.WriteFailed) }
{
    let mut line = [0u8; MEMBER_ROOM];
    let line = &mut line[..];
    let start = put(line, 0, b"{");
    let end = put_error(line, start, fault);
    write_part(output, &line[..end])?;
    write_part(output, details)?;
    write_text(output, b"}\n")
}

/// Puts the member with the fault's number at a place, and returns where it ends.
pub fn put_error(line: &mut [u8], at: usize, fault: &Fault) -> usize
    requires { at + 30 ≤ length line.old }
    ensures within { result ≤ at + 30 }
    ensures text { take result line.new ≡ take at line.old ++ error_member fault.now }
{
    let end = put(line, at, b"\"error\":");
    put(line, end, Buffer::new().format(fault.number()).as_bytes())
}

/// What the fault carries beside its number: further members, each after a comma.
fn details_of(alloc: Global, fault: &Fault, names: &[&str]) -> Result<Vec<u8>, AllocError> {
    let mut out = Writer::new(Vec::new(alloc));
    out.begin_object()?;
    put_source(fault, names, &mut out)?;
    put_names(fault, &mut out)?;
    put_place(fault, &mut out)?;
    let members = out.into_inner();
    with_comma(alloc, &members)
}

/// The members of an object that is open, after a comma where there is one.
fn with_comma(alloc: Global, object: &[u8]) -> Result<Vec<u8>, AllocError> {
    let mut members = Vec::new(alloc);
    match object {
        [] | [_] => {}
        [_, rest @ ..] => {
            members.push(b',')?;
            members.extend_from_slice(rest)?;
        }
    }
    Ok(members)
}

/// The file and the offset.
fn put_source(fault: &Fault, names: &[&str], out: &mut Writer) -> Result<(), AllocError> {
    if let Some(name) = fault.file().and_then(|file| names.get(file)) {
        out.key("file")?;
        out.string(name)?;
    }
    if let Some(offset) = fault.offset() {
        out.key("offset")?;
        out.u64(offset as u64)?;
    }
    Ok(())
}

/// The names of a cycle or a loop.
fn put_names(fault: &Fault, out: &mut Writer) -> Result<(), AllocError> {
    match fault {
        Fault::Cycle { names } | Fault::Loop { names } => {
            out.key("names")?;
            out.begin_array()?;
            for name in names {
                out.string(name.as_str())?;
            }
            out.end_array()
        }
        _ => Ok(()),
    }
}

/// The place in a schema, and the name there.
fn put_place(fault: &Fault, out: &mut Writer) -> Result<(), AllocError> {
    match fault {
        Fault::Keyword { place, name }
        | Fault::Shape { place, name }
        | Fault::Reference { place, name } => {
            out.key("place")?;
            out.string(place.as_str())?;
            out.key("name")?;
            out.string(name.as_str())
        }
        _ => Ok(()),
    }
}
