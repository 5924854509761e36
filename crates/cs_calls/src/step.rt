// The words that name steps.

/// What is measured, or made twice, or the calls of rows.
#[derive(Clone, Copy)]
pub enum Step {
    Rows,
    Again,
    Lex,
    Parse,
    Resolve,
    Guard,
    Compile,
    Document,
    Text,
    Read,
    List,
    Flatten,
    Copy,
    Fill,
}

/// The word of each step.
const STEPS: &[(&str, Step)] = &[
    ("rows", Step::Rows),
    ("again", Step::Again),
    ("lex", Step::Lex),
    ("parse", Step::Parse),
    ("resolve", Step::Resolve),
    ("guard", Step::Guard),
    ("compile", Step::Compile),
    ("document", Step::Document),
    ("text", Step::Text),
    ("read", Step::Read),
    ("list", Step::List),
    ("flatten", Step::Flatten),
    ("copy", Step::Copy),
    ("fill", Step::Fill),
];

/// The step of a word, if there is one.
pub fn step_of(word: &str) -> Option<Step> {
    for (name, step) in STEPS {
        if *name == word {
            return Some(*step);
        }
    }
    None
}
