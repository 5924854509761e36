// The calls of a run with their bytes.

/// What a run is asked to do: the call of its name, on these bytes. Where `files` is empty, the bytes of the input are the
/// one source, and where `doc` is absent, they are the document. A root is named with its `#`.
#[derive(Drop)]
pub enum Request {
    /// The text of the schema of the root definition.
    Export {
        files: Vec<Vec<u8>>,
        root: String,
    },
    /// Whether the document is an instance of the root definition.
    Vet {
        files: Vec<Vec<u8>>,
        root: String,
        doc: Vec<u8>,
    },
    /// Whether the document is valid against the schema, which has only keywords of the default profile.
    Validate {
        schema: Vec<u8>,
        doc: Option<Vec<u8>>,
    },
    /// What `Vet` answers, judged by the exported schema too.
    Agree {
        files: Vec<Vec<u8>>,
        root: String,
        doc: Vec<u8>,
    },
}
