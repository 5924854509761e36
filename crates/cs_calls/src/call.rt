// The calls that rows name, by their words.

/// A call, and what its row has and what it answers.
#[derive(Clone, Copy)]
pub enum Call {
    /// A source; its tokens: sort, text and start.
    Tokens,
    /// The same in the wide profile.
    WideTokens,
    /// A source; the bodies of its definitions.
    Bodies,
    /// Two sources; how many definitions have notes.
    Notes,
    /// The same in the wide profile.
    WideNotes,
    /// A text; what is written of a copy of its document.
    Text,
    /// Two texts; whether they are one document.
    Same,
    /// A text; the way in which it is read as the list of its values.
    Way,
    /// A text; the values in the list of its document.
    Items,
    /// The text of a map, a place, and keys; the numbers of their values, each looked for by itself and from that place on.
    Keys,
    /// A text, and paths into it; the places of its document and of the paths.
    Places,
    /// The same; the place of the last path, or of the document where there is no path.
    Place,
    /// A schema; what is written of it.
    Schema,
    /// The same with the wide vocabulary.
    WideSchema,
    /// A source, a root, and a document; how many judgements its table has, and the verdict.
    Instance,
    /// The same; the verdict by a table in which every verdict is no.
    InstanceByRefusals,
    /// A schema, and a document; how many judgements its table has, how many are asked for, the verdict in the table, and that of
    /// the document.
    Validity,
    /// The same; the verdict by a table in which every verdict is no.
    ValidityByRefusals,
    /// What `validity` answers, with the wide vocabulary.
    WideValidity,
    /// The same; whether the document is valid.
    ValidateBy,
    /// How many items, rules and classes of items there are; how many judgements the table has, and how many are asked for.
    Filling,
}

/// The word of each call.
const CALLS: &[(&str, Call)] = &[
    ("tokens", Call::Tokens),
    ("wide_tokens", Call::WideTokens),
    ("bodies", Call::Bodies),
    ("notes", Call::Notes),
    ("wide_notes", Call::WideNotes),
    ("text", Call::Text),
    ("same", Call::Same),
    ("way", Call::Way),
    ("items", Call::Items),
    ("keys", Call::Keys),
    ("places", Call::Places),
    ("place", Call::Place),
    ("schema", Call::Schema),
    ("wide_schema", Call::WideSchema),
    ("instance", Call::Instance),
    ("instance_by_refusals", Call::InstanceByRefusals),
    ("validity", Call::Validity),
    ("validity_by_refusals", Call::ValidityByRefusals),
    ("wide_validity", Call::WideValidity),
    ("validate_by", Call::ValidateBy),
    ("filling", Call::Filling),
];

/// The call of a word, if there is one.
pub fn call_of(word: &str) -> Option<Call> {
    for (name, call) in CALLS {
        if *name == word {
            return Some(*call);
        }
    }
    None
}
