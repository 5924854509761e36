// The keywords of notes.
ghost use Rattle.std.specs.Prelude.{◌≡◌};
ghost use Rattle.cs_describe.specs.Described.{note_name};

/// What is put into the document of a schema (JSON Schema Validation 2020-12, sections 9.1 and 9.2).
#[derive(Clone, Copy)]
pub enum Note {
    Description,
    Default,
}

impl Note {
    /// Its keyword.
    pub(crate) fn name(self) -> &'static str
        ensures { result.now ≡ note_name self }
    {
        match self {
            Note::Description => "description",
            Note::Default => "default",
        }
    }
}
