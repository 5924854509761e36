// What is known of the definitions where conditions ask for fields.
ghost use Rattle.std.specs.Prelude.{map, IfOk};
ghost use Rattle.cs_grammar.specs.View.{file_view};
ghost use Rattle.cs_conditions.specs.Known.{known_in};
ghost use Rattle.cs_conditions.specs.Checks.{TellsKnown};

use crate::defaults::Defaults;
use crate::kinds::KindTable;
use cs_grammar::File;
use std::alloc::{AllocError, Global};

/// Of each definition its kinds, and the default that it hands on.
#[derive(Drop)]
pub(crate) struct Known<'a> {
    pub(crate) alloc: Global,
    pub(crate) kinds: KindTable<'a>,
    pub(crate) defaults: Defaults<'a>,
}

impl<'a> Known<'a> {
    /// What is known of the definitions of the files.
    pub(crate) fn of(alloc: Global, files: &'a [File]) -> Result<Known<'a>, AllocError>
        ensures { IfOk result (λ k. TellsKnown k (known_in (map file_view files.now))) }
    {
        let kinds = KindTable::of(alloc, files)?;
        let defaults = Defaults::of(alloc, files)?;
        Ok(Known {
            alloc,
            kinds,
            defaults,
        })
    }
}
