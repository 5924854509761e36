// A call of the tool, made twice on the same inputs.
use crate::rows::put_answer;
use cs_tool::{Fault, Request, agree, export, run, validate, vet};
use std::alloc::{AllocError, Global};

/// What a call is made on.
#[derive(Clone, Copy)]
pub struct Inputs<'a> {
    /// The source, or the schema of `validate`.
    pub text: &'a [u8],
    pub root: &'a str,
    pub doc: &'a [u8],
}

/// What the call answers the first time and the second time, a line each: its text, or the line of a refusal, as where memory runs out.
pub fn answered_twice(alloc: Global, call: &str, inputs: Inputs<'_>) -> Result<Vec<u8>, Fault> {
    let mut lines = Vec::new(alloc);
    for _ in 0..2 {
        let answer = answer(alloc, call, inputs);
        put_answer(&mut lines, &answer)?;
    }
    Ok(lines)
}

/// The text that the call answers, without a newline.
fn answer(alloc: Global, call: &str, inputs: Inputs<'_>) -> Result<Vec<u8>, Fault> {
    match call {
        "export" => export(alloc, &[inputs.text], inputs.root),
        "run" => run_over(alloc, inputs),
        _ => {
            let truth = verdict(alloc, call, inputs)?;
            Ok(text_of(alloc, truth)?)
        },
    }
}

fn verdict(alloc: Global, call: &str, inputs: Inputs<'_>) -> Result<bool, Fault> {
    match call {
        "vet" => vet(alloc, &[inputs.text], inputs.root, inputs.doc),
        "agree" => agree(alloc, &[inputs.text], inputs.root, inputs.doc),
        _ => validate(alloc, inputs.text, inputs.doc),
    }
}

fn text_of(alloc: Global, truth: bool) -> Result<Vec<u8>, AllocError> {
    let text: &[u8] = if truth { b"valid" } else { b"invalid" };
    text.to_vec(alloc)
}

/// What `run` writes for the request of `agree`, whose source it reads.
fn run_over(alloc: Global, inputs: Inputs<'_>) -> Result<Vec<u8>, Fault> {
    // `valid` or `invalid` and a newline, so that the writer never grows
    let mut output = Vec::with_capacity(alloc, 8)?;
    write_over(alloc, inputs, &mut output)?;
    output.pop();
    Ok(output)
}

fn write_over(alloc: Global, inputs: Inputs<'_>, output: &mut Vec<u8>) -> Result<bool, Fault> {
    let request = request_of(alloc, inputs)?;
    let mut input = inputs.text;
    run(alloc, request, &mut input, output)
}

fn request_of(alloc: Global, inputs: Inputs<'_>) -> Result<Request, AllocError> {
    let files = Vec::new(alloc);
    let root = String::from_str(alloc, inputs.root)?;
    let doc = inputs.doc.to_vec(alloc)?;
    Ok(Request::Agree { files, root, doc })
}
