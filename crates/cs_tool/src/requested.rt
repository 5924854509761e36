// The input of a request, which is read where the request asks for it.
ghost use Rattle.std.specs.Prelude.{◌≡◌, ◌+◌, [], IsOkAnd, IfOk, IfErr};
ghost use Rattle.cs_tool.specs.Streams.{LosesAtMost, chunk_bytes};
ghost use Rattle.cs_tool.specs.Runs.{ReadsInput, most_of, IsInput, InputRefusal};

use crate::Fault;
use crate::packages::MOST_BYTES;
use crate::reads::read_up_to;
use crate::request::Request;
use std::alloc::Global;
use std::io::Read;

/// The bytes that an input other than sources may have: 67,108,864.
pub const MOST_INPUT_BYTES: usize = 67_108_864;

/// The bytes of the input where the request asks for it, and none elsewhere.
pub(crate) fn input_of<R: Read>(
    alloc: Global,
    request: &Request,
    input: &mut R,
) -> Result<Vec<u8>, Fault>
    ensures found { IfOk result (λ v. IsInput request.now (R.remaining input.old) v.items) }
    ensures refused { IfErr result (InputRefusal request.now (R.remaining input.old)) }
    ensures none { ¬ (ReadsInput request.now) → IsOkAnd result (λ v. v.items ≡ []) }
    ensures unread { ¬ (ReadsInput request.now) → input.new ≡ input.old }
    ensures stops { LosesAtMost (most_of request.now + chunk_bytes)
        (R.remaining input.old) (R.remaining input.new) }
{
    match request {
        Request::Validate { doc: None, .. } => {
            read_up_to(alloc, input, MOST_INPUT_BYTES)?.ok_or(Fault::InputTooLong)
        }
        Request::Export { files, .. } | Request::Vet { files, .. } | Request::Agree { files, .. }
            if files.is_empty() => {
            read_up_to(alloc, input, MOST_BYTES)?.ok_or(Fault::SourcesTooLong)
        }
        _ => Ok(Vec::new(alloc)),
    }
}
