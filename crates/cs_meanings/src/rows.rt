// What each number means, and what to do.

/// What a number of refusals means, and what to do about it.
#[derive(Clone, Copy)]
pub struct Explanation {
    pub number: u32,
    pub meaning: &'static str,
    pub remedy: &'static str,
}

/// All of them, in the order of their numbers: for each number first what it means, then its forms. They are the rows of
/// docs/REFUSALS.md, with which `tools/explained.py` compares them.
pub const EXPLANATIONS: &[Explanation] = &[
    Explanation {
        number: 1,
        meaning: "The sources have more than 1,048,576 bytes together.",
        remedy: "Split the package: give only the files that the root needs.",
    },
    Explanation {
        number: 2,
        meaning: "A source isn't UTF-8.",
        remedy: "Save the file as UTF-8, without a byte order mark.",
    },
    Explanation {
        number: 3,
        meaning: "No token of the profile begins here.",
        remedy: "Write integers in decimal or hexadecimal, and texts in double quotes. Floats and attributes are left out. At 0 it may be a byte order mark, which few editors show: save the file without it.",
    },
    Explanation {
        number: 4,
        meaning: "A token is out of place.",
        remedy: "It may be correct CUE too, of a form that is left out and begins like one of the profile: an embedded or nested definition, `if`, `for` or `let` in a struct, a pattern, an alias, a call, a difference, or a limit that isn't a literal. The offset is that of the first token out of place, which may be the end of the source.",
    },
    Explanation {
        number: 4,
        meaning: "an embedded definition",
        remedy: "Write its fields out.",
    },
    Explanation {
        number: 4,
        meaning: "a nested definition",
        remedy: "Move it to the top of the file.",
    },
    Explanation {
        number: 4,
        meaning: "a condition in a struct",
        remedy: "Write the cases as alternatives.",
    },
    Explanation {
        number: 4,
        meaning: "a pattern",
        remedy: "Only `string` may be in the brackets of a label.",
    },
    Explanation {
        number: 4,
        meaning: "a call",
        remedy: "Take it out: structs in definitions are closed.",
    },
    Explanation {
        number: 4,
        meaning: "a limit that isn't a literal",
        remedy: "Fields can't be compared.",
    },
    Explanation {
        number: 5,
        meaning: "A form of CUE that is left out.",
        remedy: "Write it in another way, or take it out. It is a token that only forms outside the profile have, such as `*`, `+`, `.`, `=~`, hidden names, `import`, and `let`, `for` and `if` where no label may begin.",
    },
    Explanation {
        number: 5,
        meaning: "a default",
        remedy: "Leave the mark out and make the field optional: `mode?: \"prod\" | \"dev\"`. Without the `?` documents have to have the field.",
    },
    Explanation {
        number: 5,
        meaning: "a regular expression",
        remedy: "`string` is what remains.",
    },
    Explanation {
        number: 5,
        meaning: "an import",
        remedy: "Take it out, and write by hand what it gives.",
    },
    Explanation {
        number: 5,
        meaning: "a hidden definition",
        remedy: "Take the `_` away.",
    },
    Explanation {
        number: 6,
        meaning: "An integer doesn't fit in 64 signed bits.",
        remedy: "Use a smaller integer, or leave the bound out where it admits every integer of 64 bits.",
    },
    Explanation {
        number: 7,
        meaning: "An expression is higher than 28: structs, lists, parentheses, `&` and `|` nest too deep.",
        remedy: "Give an inner part a definition of its own and refer to it.",
    },
    Explanation {
        number: 8,
        meaning: "A file names another package than the first one named. A file without a clause joins any package.",
        remedy: "Export the files of one package at a time, or correct the clause.",
    },
    Explanation {
        number: 9,
        meaning: "A name, or a reference to a definition, that isn't declared.",
        remedy: "Declare the definition, give its file too, or correct the name. Floats and `bytes` are left out.",
    },
    Explanation {
        number: 9,
        meaning: "The same, with a reference.",
        remedy: "Declare the definition, or give the file that declares it.",
    },
    Explanation {
        number: 10,
        meaning: "A name that names a field of a struct around it. JSON Schema can't say what depends on data.",
        remedy: "Write the field's type out or give it a definition.",
    },
    Explanation {
        number: 11,
        meaning: "A struct literal has to end with `...` and doesn't.",
        remedy: "Where structs are joined, each struct literal has to say that more keys may come. To add keys, write all of them into one struct literal, which stays closed, or end both struct literals with `...`, also the one that a reference stands for. To narrow a closed definition, join it to a struct of its own labels alone, whose values hold no struct and no reference.",
    },
    Explanation {
        number: 12,
        meaning: "Definitions refer to one another in a cycle, and nothing that the rule looks for ends it.",
        remedy: "To keep the meaning, write the reference as an alternative to `_|_` in its field or element: nothing satisfies `_|_`, so it adds no document. Or write the alternatives of the definition out in the field.",
    },
    Explanation {
        number: 13,
        meaning: "The package doesn't declare the root.",
        remedy: "Write the root with its `#`, as it is declared, and give the file that declares it.",
    },
    Explanation {
        number: 14,
        meaning: "More than 1,000 definitions, or more than 50,000 nodes of expressions; a parenthesis isn't a node.",
        remedy: "Split the package by roots.",
    },
    Explanation {
        number: 15,
        meaning: "Memory ran out, at any point of the run.",
        remedy: "Give the program more memory.",
    },
    Explanation {
        number: 16,
        meaning: "A chain of more than 64 references as in 12, and no cycle.",
        remedy: "Nest less deeply, or write one of the references as an alternative to `_|_`.",
    },
    Explanation {
        number: 17,
        meaning: "`compare` or `samples` met its limits, and says nothing: 100,000 questions, 5,000,000 steps of search, or in a document 100,000 values or 127 levels.",
        remedy: "Ask of a smaller definition, or split unions that meet in a conjunction.",
    },
    Explanation {
        number: 20,
        meaning: "The schema's text isn't JSON that `serde_json` reads: also where it nests more than 127 levels deep, or begins with a byte order mark.",
        remedy: "Correct the JSON.",
    },
    Explanation {
        number: 21,
        meaning: "A keyword outside the profile, or `$schema` or `$defs` below the root. It is never ignored, since that could change validity.",
        remedy: "Say it by other keywords, or take it out where it says nothing.",
    },
    Explanation {
        number: 22,
        meaning: "A keyword's value has the wrong form.",
        remedy: "Correct the value.",
    },
    Explanation {
        number: 22,
        meaning: "A schema that is neither a truth value nor an object.",
        remedy: "Write `true`, `false` or an object.",
    },
    Explanation {
        number: 23,
        meaning: "A `$ref` to a name that `$defs` doesn't have.",
        remedy: "Define the name.",
    },
    Explanation {
        number: 24,
        meaning: "Definitions refer to one another in a loop by `$ref`, `allOf`, `anyOf` and `not` alone.",
        remedy: "Put the reference under `properties`, `additionalProperties`, `prefixItems` or `items`, or take it out.",
    },
    Explanation {
        number: 25,
        meaning: "The document's text isn't JSON that `serde_json` reads: also where it nests more than 127 levels deep, or begins with a byte order mark.",
        remedy: "Correct the JSON.",
    },
    Explanation {
        number: 26,
        meaning: "A number isn't an integer, or doesn't fit in 64 signed bits.",
        remedy: "Write integers, without a fraction or an exponent.",
    },
    Explanation {
        number: 26,
        meaning: "A number in the schema's text isn't an integer of 64 signed bits.",
        remedy: "Write integers.",
    },
    Explanation {
        number: 26,
        meaning: "`-0` is no integer to `serde_json`.",
        remedy: "Write `0`.",
    },
    Explanation {
        number: 27,
        meaning: "More than 67,108,864 pairs of a value in the document and a rule.",
        remedy: "Judge the parts of the document one by one, split the package by roots, or leave out definitions that nothing refers to.",
    },
    Explanation {
        number: 28,
        meaning: "A schema or a document has more than 67,108,864 bytes. It is read no further.",
        remedy: "Give a smaller one.",
    },
    Explanation {
        number: 30,
        meaning: "A read failed.",
        remedy: "Look at the path and its rights.",
    },
    Explanation {
        number: 31,
        meaning: "A write failed. What was written is the beginning of the text.",
        remedy: "Write elsewhere.",
    },
];
