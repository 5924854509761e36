// Reading to the end of an input, up to a limit.
ghost use Rattle.std.specs.Prelude.{◌≡◌, ◌+◌, ◌≤◌, ◌⊎◌, length, IfOk, IfSome, IfNone, IfErr, OnErr, Err};
ghost use Rattle.cs_tool.specs.Streams.{IsWholeInput, IsLonger, LosesAtMost, chunk_bytes};

use crate::Fault;
use std::alloc::Global;
use std::io::Read;

const CHUNK: usize = 4096;

/// All bytes up to the input's end, or `None` where more than `limit` come: no more than one chunk of 4,096 bytes is read past
/// the limit. For what a program hands to a call or to `run`.
///
/// `ReadFailed` where a read failed, an interrupted one too; `OutOfMemory`.
pub fn read_up_to<R: Read>(
    alloc: Global,
    input: &mut R,
    limit: usize,
) -> Result<Option<Vec<u8>>, Fault>
    ensures whole { IfOk result
        (λ o. IfSome o (λ b. IsWholeInput (R.remaining input.old) b.items)) }
    ensures within { IfOk result (λ o. IfSome o (λ b. length b.items ≤ limit)) }
    ensures longer { IfOk result (λ o. IfNone o (IsLonger limit (R.remaining input.old))) }
    ensures stops { LosesAtMost (limit + chunk_bytes)
        (R.remaining input.old) (R.remaining input.new) }
    ensures kind { IfErr result (λ e. (e ≡ Fault.OutOfMemory) ⊎ (e ≡ Fault.ReadFailed)) }
{
    let mut bytes = Vec::new(alloc);
    let mut chunk = [0u8; CHUNK];
    loop {
        let Ok(count) = input.read(&mut chunk) else {
            return Err(Fault::ReadFailed);
        };
        if count == 0 {
            return Ok(Some(bytes));
        }
        if count > limit - bytes.len() {
            return Ok(None);
        }
        bytes.extend_from_slice(&chunk[..count])?;
    }
}
