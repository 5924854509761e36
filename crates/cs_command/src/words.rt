// The commands of the program and their words. A word that differs little from one of another command is made of it.
use crate::{Group, Subcommand, Word};
use clap::ArgAction;
use clap::builder::ValueParser;
use cs_format::{NAMES, NAMES_BY_SCHEMA};

/// A word that differs from another one in these fields, or in its name, its help and these.
macro_rules! word {
    ($like:expr, $name:literal: $help:literal $(, $field:ident: $value:expr)*) => {
        Word { id: $name, long: Some($name), help: $help, $($field: $value,)* ..$like }
    };
    ($like:expr, $($field:ident: $value:expr),*) => {
        Word { $($field: $value,)* ..$like }
    };
}

/// What each word without a value is made of.
const FLAG: Word = Word {
    id: "",
    long: None,
    short: None,
    help: "",
    value_names: &[],
    action: ArgAction::SetTrue,
    values: (0, 0),
    value_parser: ValueParser::Bool,
    takes_hyphens: false,
    missing_values: &[],
    is_required: false,
    required_unless: &[],
    conflicts_with: &[],
    needs: &[],
};

/// What each word with a value is made of.
const VALUE: Word =
    word!(FLAG, action: ArgAction::Set, values: (1, 1), value_parser: ValueParser::String);

/// What each word is made of whose values are the words after it.
const VALUES: Word = word!(VALUE, action: ArgAction::Append, values: (1, usize::MAX));

const ROOT: Word = word!(VALUE, "root": "The root definition with its #, quoted for the shell",
    value_names: &["'#NAME'"], takes_hyphens: true, is_required: true);

/// The same word for a command that can do without it.
const OPTIONAL_ROOT: Word = word!(ROOT, is_required: false);

/// Each file is a use of its own.
const FILES: Word =
    word!(VALUE, id: "FILE", help: "The files of CUE; standard input where there is none",
    action: ArgAction::Append);

/// The files of one side of a comparison: the words after it, up to the next word of the command.
const SIDE: Word = word!(VALUES, value_names: &["FILE"], is_required: true);

const DOCUMENT: Word =
    word!(VALUE, "doc": "The file of the JSON document", value_names: &["DOCUMENT"]);

/// The document of a command with sources. Documents come by one of three words.
const DOCUMENT_OF_SOURCES: Word = word!(DOCUMENT, required_unless: &["docs", "lines"]);

/// The words after it are files, whatever they look like, so that another program can append them.
const DOCUMENTS: Word =
    word!(VALUES, "docs": "The files of JSON documents, all words after it: a line for each",
    value_names: &["DOCUMENT"], takes_hyphens: true, conflicts_with: &["doc", "lines"]);

const LINES: Word = word!(FLAG, "lines": "Judges a document a line, and prints a line for each");

/// Standard input has the lines, or the source, and not both.
const LINES_OF_SOURCES: Word = word!(LINES, needs: &["input"]);

/// What is a named file, the document or a source.
const INPUT: Group = ("input", &["doc", "FILE"]);

/// The reasons of the closest alternatives, or with `=all` of all. A word after it is no value, so that it can stand before files.
const WHY: Word = word!(VALUE,
    "why": "Says why a document is invalid, a line for each reason: of alternatives the closest, or all; and why a call is refused",
    value_names: &["ALTERNATIVES"], values: (0, 1), value_parser: ValueParser::Names(&["closest", "all"]),
    missing_values: &["closest"]);

/// `--why` of a command that judges no document.
const WHY_REFUSED: Word = word!(FLAG, id: "why_refused", long: Some("why"),
    help: "Says why a call is refused, with the place and what to do");

const MOST: Word =
    word!(VALUE, "most": "How many reasons are told at most; 20 where it isn't given",
    value_names: &["NUMBER"], value_parser: ValueParser::Unsigned(1, 1_000_000), needs: &["reasons"]);

/// In one of these formats an answer tells the reasons too.
const FORMAT: Word =
    word!(VALUE, "format": "Prints an object of JSON in place of the answer, with the reasons",
    value_names: &["FORMAT"], value_parser: ValueParser::Names(NAMES));

/// The same word for a command that judges by a schema.
const FORMAT_OF_SCHEMA: Word = word!(FORMAT, value_parser: ValueParser::Names(NAMES_BY_SCHEMA));

/// What asks for reasons.
const REASONS: Group = ("reasons", &["why", "format"]);

/// Which forms of CUE are taken: those of the default profile where it isn't given.
const PROFILE: Word = word!(VALUE,
    "profile": "Takes ordinary CUE that stands for other CUE too: defaults, as `port: int | *8080`",
    value_names: &["PROFILE"], value_parser: ValueParser::Names(&["wide"]));

/// A command by its name, what it does, an example of its words, all of them, and their groups.
macro_rules! command {
    ($name:literal: $about:literal, $example:literal, [$($word:expr),*], [$($group:ident),*]) => {
        Subcommand {
            name: $name,
            about: $about,
            example: concat!("Example: cue2schema ", $name, " ", $example),
            words: &[$($word),*],
            groups: &[$($group),*],
        }
    };
}

/// All of them, in the order of the program's help. An array, since the prover gives up on a slice of so many tables within tables.
pub(crate) const COMMANDS: [Subcommand; 10] = [
    command!("export": "Writes the JSON Schema of a definition", "--root '#Port' port.cue > port.schema.json", [
        // The words for every definition can take the place of the root.
        word!(OPTIONAL_ROOT, required_unless: &["all", "openapi"]),
        word!(FLAG, "all": "Writes every definition, and none as the root", conflicts_with: &["root"]),
        word!(FLAG, "openapi":
            "Writes the schemas as components of OpenAPI: every definition, or with a root those that it needs"),
        word!(FLAG, "describe":
            "Writes the comments of definitions and fields as their descriptions, and in the wide profile default marks as `default`"),
        word!(FLAG, "pretty": "Writes a line for each member and element, indented by two blanks"),
        // A run that is refused leaves the file as it was.
        word!(VALUE, "output": "The file that the schema is written to; standard output where it isn't given",
            short: Some('o'), value_names: &["FILE"]),
        PROFILE, WHY_REFUSED, FILES], []),
    command!("list": "Lists the definitions of CUE files, a line for each", "port.cue", [
        word!(FORMAT, help: "Prints an object of JSON in place of the lines"),
        PROFILE, WHY_REFUSED, FILES], []),
    command!("widen": "Writes the definitions of CUE files as one source, in one layout", "port.cue", [
        PROFILE, word!(FORMAT, help: "Prints an object of JSON in place of the line of a refusal"),
        WHY_REFUSED, FILES], []),
    command!("vet": "Says whether a JSON document is an instance of a definition", "--root '#Port' --doc port.json port.cue",
        [ROOT, DOCUMENT_OF_SOURCES, DOCUMENTS, LINES_OF_SOURCES, PROFILE, WHY, MOST, FORMAT, FILES], [INPUT, REASONS]),
    command!("validate": "Says whether a JSON document is valid against a schema", "--schema port.schema.json --doc port.json", [
        word!(VALUE, "schema": "The file of the JSON Schema", value_names: &["SCHEMA"], is_required: true),
        word!(DOCUMENT, help: "The file of the JSON document; standard input where there is none"),
        DOCUMENTS, LINES,
        word!(PROFILE, help: "Takes the schemas that an export in the same profile can have: with `default` as a note"),
        WHY, MOST, FORMAT_OF_SCHEMA], [REASONS]),
    command!("agree": "Says what `vet` says, judged by the exported schema too", "--root '#Port' --doc port.json port.cue",
        [ROOT, DOCUMENT_OF_SOURCES, DOCUMENTS, LINES_OF_SOURCES, PROFILE, WHY, MOST, FORMAT_OF_SCHEMA, FILES], [INPUT, REASONS]),
    command!("check":
        "Tells all faults of CUE files or of a schema, and the definitions that nothing is an instance of", "port.cue", [
        OPTIONAL_ROOT,
        // A schema in the place of sources.
        word!(VALUE, "schema": "The file of a JSON Schema, whose faults are told in the place of those of CUE files",
            value_names: &["SCHEMA"], conflicts_with: &["root", "FILE"]),
        PROFILE, word!(FLAG, "strict": "Ends with status 1 where there are warnings alone"), FILES], []),
    command!("compare":
        "Says whether each document of an old definition is one of the new definition, and shows one that isn't",
        "--root '#Port' --old v1/port.cue --new port.cue", [
        ROOT,
        word!(OPTIONAL_ROOT, "new-root": "The root definition of the new files, where it has another name there"),
        word!(SIDE, "old": "The files of CUE before the change"),
        word!(SIDE, "new": "The files of CUE after the change"),
        word!(FLAG, "both": "Says too whether each document of the new definition is one of the old definition"),
        PROFILE,
        // Why the other definition refuses the document that is shown.
        word!(WHY, help:
            "Says why the document that is shown is refused, a line for each reason: of alternatives the closest, or all; and why a call is refused"),
        MOST, FORMAT], [REASONS]),
    command!("samples": "Writes documents of a definition, a line of JSON for each", "--root '#Port' port.cue", [
        ROOT,
        word!(FLAG, "invalid": "Writes documents that aren't instances of the definition, each for one rule that it breaks"),
        word!(MOST, help: "How many documents are written at most; 100 where it isn't given",
            value_parser: ValueParser::Unsigned(1, 10_000), needs: &[]),
        word!(FLAG, "strict": "Ends with status 1 where there are more documents, or rules without one"),
        PROFILE, WHY_REFUSED, FILES], []),
    command!("explain": "Says what the number of a refusal means, and what to do", "11", [
        word!(VALUE, id: "NUMBER", help: "The number of a refusal, as `error 11` says it",
            value_parser: ValueParser::Unsigned(0, u32::MAX as u64), is_required: true)], []),
];
