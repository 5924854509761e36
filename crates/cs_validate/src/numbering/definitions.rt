// Numbers for definitions, each after those that it refers to directly.
ghost use Rattle.std.specs.Prelude.{◌≡◌, map, All, IsSome, IfOk, OnOk};
ghost use Rattle.std.specs.List.{AllByRecursion};
ghost use Rattle.std.specs.List.Sorted.{IsPermutation, IsNonDecreasingBy};
ghost use Rattle.cs_profile.specs.SchemaDocument.{document_of};
ghost use Rattle.cs_validate.specs.Placing.{place_in};
ghost use Rattle.cs_validate.specs.Ranked.{definitions_of, name_of, definition, IsRanked, AreRanked, PlacesOne, ArePlacedBy};

use crate::numbering::numbers::Numbers;
use crate::numbering::place;
use crate::rules::Rule;
use cs_profile::{Schema, SchemaDoc};
use cs_rules::Numberer;
use std::alloc::{AllocError, Global};

/// A definition with its rank.
#[derive(Drop)]
pub(crate) struct Ranked<'a> {
    rank: usize,
    name: &'a String,
    schema: &'a Schema,
}

/// The numbers of the definitions, and the rules so far.
#[derive(Drop)]
pub(crate) struct Placement<'a> {
    pub(crate) numbers: Numbers<'a>,
    pub(crate) numberer: Numberer<'a, Schema, Rule<'a>>,
}

fn with_ranks<'a>(alloc: Global, document: &'a SchemaDoc) -> Result<Vec<Ranked<'a>>, AllocError>
    ensures same { IfOk result (λ v. map definition v.items ≡ definitions_of document.now) }
    ensures ranks { IfOk result (λ v.
        AllByRecursion (IsRanked (document_of document.now)) v.items) }
{
    document.whole_law(); // for the proof: what is defined stands in `$defs`
    let definitions = document.definitions();
    let mut ranked = Vec::with_capacity(alloc, definitions.len())?;
    for (name, schema) in definitions {
        // each definition has a rank
        if let Some(rank) = document.rank(name.as_str()) {
            ranked.push(Ranked { rank, name, schema })?;
        }
    }
    Ok(ranked)
}

/// The definitions by rank.
pub(crate) fn by_rank<'a>(
    alloc: Global,
    document: &'a SchemaDoc,
) -> Result<Vec<Ranked<'a>>, AllocError>
    ensures same { IfOk result (λ v.
        IsPermutation (definitions_of document.now) (map definition v.items)) }
    ensures ranks { IfOk result (λ v. All (IsRanked (document_of document.now)) v.items) }
    ensures sorted { IfOk result (λ v. IsNonDecreasingBy (λ d. d.rank) v.items) }
{
    let mut ranked = with_ranks(alloc, document)?;
    ranked.sort_unstable_by_key(|definition| definition.rank);
    Ok(ranked)
}

/// Numbers a definition after what it asks of the same document.
fn place_definition<'a>(
    alloc: Global,
    definition: &Ranked<'a>,
    placement: &mut Placement<'a>,
) -> Result<(), AllocError>
    requires { IsSome (place_in placement.old.numbers (name_of definition.now)) }
    ensures { OnOk result (PlacesOne definition.now placement.old placement.new) }
{
    let schema = definition.schema;
    let number = place(alloc, schema, &placement.numbers, &mut placement.numberer)?;
    placement.numbers.set(definition.name.as_str(), number);
    Ok(())
}

/// Numbers definitions in this order.
pub(crate) fn place_definitions<'a>(
    alloc: Global,
    document: &'a SchemaDoc,
    ranked: &[Ranked<'a>],
) -> Result<Placement<'a>, AllocError>
    requires { AreRanked (document_of document.now) ranked.now }
    ensures { IfOk result (ArePlacedBy (document_of document.now) ranked.now) }
{
    document.whole_law(); // for the proof: what is defined stands in `$defs`
    let numberer = Numberer {
        rules: Vec::new(alloc),
        pending: Vec::new(alloc),
    };
    let mut placement = Placement {
        numbers: Numbers::new(alloc, document)?,
        numberer,
    };
    for definition in ranked {
        place_definition(alloc, definition, &mut placement)?;
    }
    Ok(placement)
}
