// The notes for schemas.
ghost use Rattle.cs_describe.specs.Described.{HasNoNotes};

use cs_document::Doc;
use std::alloc::Global;
use std::collections::BTreeMap;

/// The notes for a schema: its own, and those for the schemas in it, by keyword.
#[cycle(notes)]
#[derive(Drop)]
pub struct Notes {
    /// The description of the schema itself.
    pub text: Option<String>,
    /// The default of the schema itself.
    pub default: Option<Doc>,
    /// `properties`, by label
    pub properties: BTreeMap<String, Notes>,
    /// `allOf`, by place
    pub all_of: Vec<Notes>,
    /// `anyOf`, by place
    pub any_of: Vec<Notes>,
    /// `prefixItems`, by place
    pub prefix: Vec<Notes>,
    /// `items`
    pub rest: Option<Box<Notes>>,
    /// `additionalProperties`
    pub additional: Option<Box<Notes>>,
}

impl Notes {
    /// No note, neither for the schema nor for those in it.
    pub fn new(alloc: Global) -> Notes
        ensures { HasNoNotes result }
    {
        Notes {
            text: None,
            default: None,
            properties: BTreeMap::new(alloc),
            all_of: Vec::new(alloc),
            any_of: Vec::new(alloc),
            prefix: Vec::new(alloc),
            rest: None,
            additional: None,
        }
    }
}
