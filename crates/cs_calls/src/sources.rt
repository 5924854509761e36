// The steps that a source goes through.
use crate::documents::width;
use crate::step::Step;
use cs_compile::compile;
use cs_guard::{Guarded, guard};
use cs_json::{Doc, write_doc};
use cs_resolve::{Package, resolve};
use cs_schema::{SchemaDoc, to_doc};
use cs_syntax::{File, Profile, SyntaxFault, Token, lex_in, parse_file};
use cs_tool::Fault;
use std::alloc::Global;

/// What the last of so many times counts.
pub fn counted(alloc: Global, source: &str, step: Step, times: u32) -> Result<usize, Fault> {
    let mut count = 0;
    for _ in 0..times {
        count = count_of(alloc, source, step)?;
    }
    Ok(count)
}

/// How many tokens a source has, or how many definitions; or how large the schema of its first definition is.
fn count_of(alloc: Global, source: &str, step: Step) -> Result<usize, Fault> {
    match step {
        Step::Lex => {
            let tokens = cut(alloc, Profile::Default, source)?;
            Ok(tokens.len())
        }
        Step::Parse => {
            let file = parsed(alloc, source)?;
            Ok(file.definitions.len())
        }
        Step::Resolve => {
            let package = package_of(alloc, source)?;
            Ok(package.count())
        }
        _ => guarded(alloc, source, step),
    }
}

/// How many definitions the guarded package of the source has; or how large the schema of its first definition is.
fn guarded(alloc: Global, source: &str, step: Step) -> Result<usize, Fault> {
    let package = guard(alloc, package_of(alloc, source)?)?;
    match step {
        Step::Guard => Ok(package.package().count()),
        _ => compiled(alloc, &package, step),
    }
}

/// How many definitions the schema of the first definition has, or how large its document is.
fn compiled(alloc: Global, package: &Guarded, step: Step) -> Result<usize, Fault> {
    if package.package().count() == 0 {
        return Err(Fault::UnknownRoot);
    }
    let schema = compile(alloc, package, package.package().name(0))?;
    match step {
        Step::Compile => Ok(schema.definitions().len()),
        _ => exported(alloc, &schema, step),
    }
}

/// How many keys the document of a schema has at the top, or how many bytes its text has.
fn exported(alloc: Global, schema: &SchemaDoc, step: Step) -> Result<usize, Fault> {
    let doc = to_doc(alloc, schema)?;
    match step {
        Step::Document => Ok(width(&doc)),
        _ => written(alloc, &doc),
    }
}

fn written(alloc: Global, doc: &Doc) -> Result<usize, Fault> {
    let text = write_doc(alloc, doc)?;
    Ok(text.len())
}

/// The tokens of a source.
pub fn cut<'a>(alloc: Global, profile: Profile, source: &'a str) -> Result<Vec<Token<'a>>, Fault> {
    match lex_in(alloc, profile, source) {
        Ok(tokens) => Ok(tokens),
        Err(fault) => Err(of_syntax(fault)),
    }
}

/// The file that a source spells.
pub fn parsed(alloc: Global, source: &str) -> Result<File, Fault> {
    match parse_file(alloc, source) {
        Ok(file) => Ok(file),
        Err(fault) => Err(of_syntax(fault)),
    }
}

/// What a fault of the one source is.
fn of_syntax(fault: SyntaxFault) -> Fault {
    match fault {
        SyntaxFault::OutOfMemory => Fault::OutOfMemory,
        SyntaxFault::NoToken { offset } => Fault::NoToken { file: 0, offset },
        SyntaxFault::Syntax { offset } => Fault::Syntax { file: 0, offset },
        SyntaxFault::LeftOut { offset } => Fault::LeftOut { file: 0, offset },
        SyntaxFault::IntegerRange { offset } => Fault::IntegerRange { file: 0, offset },
        SyntaxFault::TooHigh => Fault::TooHigh { file: 0 },
    }
}

/// The package of one source.
fn package_of(alloc: Global, source: &str) -> Result<Package, Fault> {
    let mut files = Vec::new(alloc);
    let file = match parse_file(alloc, source) {
        Ok(file) => file,
        Err(fault) => return Err(of_syntax(fault)),
    };
    files.push(file)?;
    Ok(resolve(alloc, files)?)
}
