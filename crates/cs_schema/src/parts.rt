use cs_profile::{Keyword, KeywordValue, Keywords, Schema};
use std::alloc::Global;
use std::collections::BTreeMap;

/// The keywords of an object, with its definitions where it is the root.
#[derive(Drop)]
pub(crate) struct Parts {
    pub(crate) keywords: Keywords,
    pub(crate) definitions: BTreeMap<String, Schema>,
}

impl Parts {
    ghost use Rattle.std.specs.Prelude.{◌≡◌, [], false, true};
    ghost use Rattle.cs_document.specs.Document.{no_members};
    ghost use Rattle.cs_profile.specs.Shapes.{stands};
    ghost use Rattle.cs_profile.specs.SchemaDocument.{present, with_value};
    ghost use Rattle.cs_schema.specs.Reading.{slots};

    /// No keywords and no definitions.
    pub(crate) fn new(alloc: Global) -> Parts
        ensures none { present (slots result) ≡ no_members }
        ensures definitions { result.definitions.entries ≡ [] }
    {
        Parts {
            keywords: Keywords::empty(alloc),
            definitions: BTreeMap::new(alloc),
        }
    }

    /// The keywords alone.
    pub(crate) fn into_keywords(self) -> Keywords
        ensures { result ≡ self.keywords }
    {
        let Parts {
            keywords,
            definitions,
        } = self;
        drop(definitions);
        keywords
    }

    /// The parts with a value for a keyword.
    pub(crate) fn set(self, alloc: Global, keyword: Keyword, value: KeywordValue) -> Parts
        ensures slots { slots result ≡ with_value keyword value (slots self) }
        ensures below { stands false keyword ≡ true
            → result.definitions.entries ≡ self.definitions.entries }
    {
        match keyword {
            Keyword::Defs => Parts {
                definitions: value.named_schemas(alloc),
                ..self
            },
            _ => Parts {
                keywords: self.keywords.set(alloc, keyword, value),
                definitions: self.definitions,
            },
        }
    }
}
