// A root schema with its definitions.
ghost use Rattle.std.specs.Prelude.{◌≡◌, ◌<◌, ◌↔◌, ℕ, List, option_map, IsSome, IfSome, IfOk, IfErr, OnOk, IsOkUnless};
ghost use Rattle.cs_profile.specs.Keywords.{defined};
ghost use Rattle.cs_profile.specs.Trim.{trim};
ghost use Rattle.cs_profile.specs.SchemaDocument.{schema_view, schema_value, document_of, definition_of, IsWhole, IsWellFormed};
ghost use Rattle.cs_profile.specs.Loops.{RefersDirectly, NoLoop, IsRank};
ghost use Rattle.cs_profile.specs.Numbered.{number_of_name};
ghost use Rattle.cs_profile.specs.Refusal.{IsLoopRefusal};

use crate::references::{Numbers, graph_of_definitions, names_of_numbers, numbers_of_definitions};
use crate::{Schema, SchemaFault};
use cs_graph::{GraphFault, heights};
use std::alloc::Global;
use std::collections::BTreeMap;
use std::marker::Model;

/// A schema document: a root schema with its definitions (JSON Schema Core 2020-12, sections 4.3.1 and 8.2.4).
/// It has only keywords of the profile, each `$ref` names a definition, and no definition reaches itself directly.
pub struct SchemaDoc {
    root: Schema,
    definitions: BTreeMap<String, Schema>,
    numbers: Numbers,
    /// The rank of each definition, by its number.
    ranks: Vec<usize>,
}

impl Drop for SchemaDoc {
    fn drop(self) {
        let SchemaDoc {
            root: _,
            definitions: _,
            numbers: _,
            ranks: _,
        } = self;
    }
}

impl Model for SchemaDoc {
    ghost use Rattle.cs_profile.specs.SchemaDocument.{SchemaValue, schema_value};
    ghost use Rattle.cs_profile.specs.Numbered.{AreRanks};

    ghost Value = { SchemaValue };

    ghost use Rattle.std.specs.Coded.{codes};
    ghost use Rattle.cs_profile.specs.contracts.schema.Schema as row;

    ghost coded = { Prim.hlevel (codes, row.the_row.coded) };

    ghost view = { λ s. schema_value s.root s.definitions.entries };

    ghost invariant = { λ s.
        AreRanks (schema_value s.root s.definitions.entries) s.numbers.entries s.ranks.items };
}

impl SchemaDoc {
    /// The schema document of a root and its definitions. Only memory can run out.
    pub fn new(
        alloc: Global,
        root: Schema,
        definitions: BTreeMap<String, Schema>,
    ) -> Result<SchemaDoc, SchemaFault>
        requires { IsWhole (schema_value root definitions.entries) }
        ensures found { IfOk result (λ s. s ≡ schema_value root definitions.entries) }
        ensures memory { IsOkUnless result SchemaFault.OutOfMemory }
    {
        SchemaDoc::checked(alloc, root, definitions)
    }

    /// The schema document of a root and its definitions, where no definition reaches itself directly.
    ///
    /// # Errors
    /// `Loop`, with the names of definitions of which each refers directly to the next and the last to the first; no
    /// name comes twice, and the least in byte order comes first.
    pub fn checked(
        alloc: Global,
        root: Schema,
        definitions: BTreeMap<String, Schema>,
    ) -> Result<SchemaDoc, SchemaFault>
        requires { IsWellFormed (schema_value root definitions.entries) }
        ensures found { IfOk result (λ s. s ≡ schema_value root definitions.entries) }
        ensures acyclic { OnOk result
            (NoLoop (document_of (schema_value root definitions.entries))) }
        ensures refused { IfErr result
            (λ e. IsLoopRefusal e (document_of (schema_value root definitions.entries))) }
        ensures only { NoLoop (document_of (schema_value root definitions.entries))
            → IsOkUnless result SchemaFault.OutOfMemory }
    {
        let numbers = numbers_of_definitions(alloc, &definitions)?;
        let graph = graph_of_definitions(alloc, &definitions, &numbers)?;
        match heights(alloc, &graph) {
            Ok(ranks) => Ok(SchemaDoc {
                root,
                definitions,
                numbers,
                ranks,
            }),
            Err(GraphFault::OutOfMemory) => Err(SchemaFault::OutOfMemory),
            Err(GraphFault::Cycle { numbers: cycle }) => {
                let names = names_of_numbers(alloc, &definitions, &cycle)?;
                Err(SchemaFault::Loop { names })
            },
        }
    }

    /// The rank of a definition: the length of the longest chain of direct references from it. So it is above the rank
    /// of each definition that it refers to directly.
    pub fn rank(&self, name: &str) -> Option<usize>
        ensures declared { IsSome result ↔ IsSome (definition_of self.now name.now) }
        ensures height { IfSome result (λ r. IsRank (document_of self.now) name.now r) }
        ensures falls { IfSome result (λ r. (m : List ℕ) (q : ℕ)
            → RefersDirectly (document_of self.now) name.now m → IsRank (document_of self.now) m q → q < r) }
    {
        let number = self.number(name)?;
        Some(self.ranks[number])
    }

    /// The place of a definition among the definitions, which are by name in byte order. `None` exactly where it isn't
    /// defined.
    pub fn number(&self, name: &str) -> Option<usize>
        ensures place { result ≡ number_of_name self.now.definitions name.now }
        ensures declared { IsSome result ↔ IsSome (definition_of self.now name.now) }
    {
        self.numbers.get(name).copied()
    }

    /// The root schema.
    pub fn root(&self) -> &Schema
        ensures { result.now ≡ self.now.root }
    {
        &self.root
    }

    /// The definition of a name, which is what the document has under that name in its `$defs`.
    pub fn definition(&self, name: &str) -> Option<&Schema>
        ensures found { option_map (λ s. schema_view s.now) result
            ≡ definition_of self.now name.now }
        ensures defined { defined (document_of self.now) name.now
            ≡ definition_of self.now name.now }
    {
        self.definitions.get(name)
    }

    /// The definitions, by name in byte order.
    pub fn definitions(&self) -> &BTreeMap<String, Schema>
        ensures { result.now.entries ≡ self.now.definitions }
    {
        &self.definitions
    }

    /// What every schema document is.
    pub fn whole_law(&self)
        ensures whole { IsWhole self.now }
        ensures trimmed { trim (document_of self.now) ≡ document_of self.now }
    {
        let _ = &self.root; // for the proof: the invariant of what is read
    }
}
