// Alternatives that were found, and how much they are.
ghost use Rattle.std.specs.Prelude.{◌≡◌, [], ◌∷◌, ◌++◌};
ghost use Rattle.cs_embeddings.specs.Views.{alternative_view, alternatives_view, weight_of, Reaches};

use crate::EmbeddingFault;
use crate::alternatives::Alternative;
use crate::gathered::MOST_GATHERED;
use std::alloc::Global;

/// Alternatives that were found, and how much they are: each is one, and one more for each 64 declarations.
#[derive(Drop)]
pub(crate) struct Found<'a> {
    pub(crate) alternatives: Vec<Alternative<'a>>,
    weight: usize,
    ghost weighed: { weight ≡ weight_of (alternatives_view alternatives.items) },
}

impl<'a> Found<'a> {
    pub(crate) fn nothing(alloc: Global) -> Found<'a>
        ensures { alternatives_view result.alternatives.items ≡ [] }
    {
        Found {
            alternatives: Vec::new(alloc),
            weight: 0,
        }
    }

    /// Adds an alternative, if they aren't too much with it.
    pub(crate) fn push(
        &mut self,
        room: usize,
        alternative: Alternative<'a>,
    ) -> Result<(), EmbeddingFault>
        ensures { Reaches result room (alternatives_view self.old.alternatives.items ++ alternative_view alternative.entry ∷ [])
            (alternatives_view self.new.alternatives.items) }
    {
        let weight = alternative.declarations.len() / MOST_GATHERED + 1;
        if weight > room.saturating_sub(self.weight) {
            return Err(EmbeddingFault::TooLarge);
        }
        self.alternatives.push(alternative)?;
        self.weight += weight;
        Ok(())
    }

    /// Adds those of another.
    pub(crate) fn append(&mut self, room: usize, further: Found<'a>) -> Result<(), EmbeddingFault>
        ensures { Reaches result room (alternatives_view self.old.alternatives.items ++ alternatives_view further.entry.alternatives.items)
            (alternatives_view self.new.alternatives.items) }
    {
        for alternative in further.alternatives {
            self.push(room, alternative)?;
        }
        Ok(())
    }
}
