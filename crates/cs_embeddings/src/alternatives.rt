// Declarations that stand together.
ghost use Rattle.std.specs.Prelude.{◌≡◌, Some, IfOk, OnOk, unwrap_or};
ghost use Rattle.cs_grammar.specs.View.{fields_view};
ghost use Rattle.cs_embeddings.specs.Alternatives as Spec;
ghost use Rattle.cs_embeddings.specs.Views.{origin_view, alternative_view};

use crate::gathered::Declared;
use cs_grammar::Field;
use std::alloc::{AllocError, Global};

/// Where declarations come from.
#[derive(Clone, Copy)]
pub(crate) struct Origin {
    /// The offset of the reference that brought them; `None` where they stand in the text.
    pub(crate) place: Option<usize>,
    /// The offset of the embedding that brought them; `None` where the literal itself declares them.
    pub(crate) embedding: Option<usize>,
    /// Whether a definition is embedded there: it is one with all that it embeds.
    in_definition: bool,
    /// The offset of the reference that brought them. `place` is that of the first one where values are put together.
    pub(crate) by: Option<usize>,
}

impl Origin {
    /// The literal itself, which a reference at a place brought.
    pub(crate) fn itself(place: Option<usize>, by: Option<usize>) -> Origin
        ensures seen { origin_view result ≡ Spec.itself place }
        ensures sited { result.by ≡ by }
    {
        Origin {
            place,
            embedding: None,
            in_definition: false,
            by,
        }
    }

    /// The same for the value of a declaration, which another reference may have brought; or for all values.
    pub(crate) fn of_value(self, declared: Option<&Declared<'_>>) -> Origin
        ensures { origin_view result ≡ origin_view self }
    {
        match declared {
            Some(declared) => Origin {
                by: declared.by,
                ..self
            },
            None => self,
        }
    }

    /// What an embedding there brings.
    pub(crate) fn embedded_at(self, at: usize) -> Origin
        ensures { origin_view result ≡ Spec.embedded_at (origin_view self) at }
    {
        if self.in_definition {
            self
        } else {
            Origin {
                embedding: Some(at),
                ..self
            }
        }
    }

    /// What a reference there brings.
    pub(crate) fn referred_at(self, at: usize) -> Origin
        ensures seen { origin_view result ≡ Spec.referred_at (origin_view self) at }
        ensures sited { result.by ≡ Some (unwrap_or self.by at) }
    {
        Origin {
            place: Some(self.place.unwrap_or(at)),
            in_definition: true,
            by: Some(self.by.unwrap_or(at)),
            ..self
        }
    }
}

/// A declaration that stands in a literal, and where it comes from.
#[derive(Clone, Copy)]
pub(crate) struct Brought<'a> {
    pub(crate) field: &'a Field,
    /// The offset of the reference that brought it; `None` where it stands in the text.
    pub(crate) place: Option<usize>,
    /// The offset of the embedding that brought it; `None` where the literal itself declares it.
    pub(crate) embedding: Option<usize>,
    /// The offset of the reference that brought it. `place` is that of the first one where values are put together.
    pub(crate) by: Option<usize>,
}

/// Declarations that stand together, whether other keys are allowed, and the definitions that are embedded so far.
#[derive(Drop)]
pub(crate) struct Alternative<'a> {
    pub(crate) declarations: Vec<Brought<'a>>,
    pub(crate) opened: bool,
    pub(crate) met: Vec<&'a str>,
}

impl<'a> Alternative<'a> {
    pub(crate) fn nothing(alloc: Global) -> Alternative<'a>
        ensures { alternative_view result ≡ Spec.nothing }
    {
        Alternative {
            declarations: Vec::new(alloc),
            opened: false,
            met: Vec::new(alloc),
        }
    }

    pub(crate) fn copy(&self, alloc: Global) -> Result<Alternative<'a>, AllocError>
        ensures { IfOk result (λ a. alternative_view a ≡ alternative_view self.now) }
    {
        let declarations = Vec::from_slice(alloc, &self.declarations)?;
        let met = Vec::from_slice(alloc, &self.met)?;
        Ok(Alternative {
            declarations,
            opened: self.opened,
            met,
        })
    }

    /// Adds the fields of a literal.
    pub(crate) fn add(&mut self, origin: Origin, fields: &'a [Field]) -> Result<(), AllocError>
        ensures { OnOk result (alternative_view self.new ≡ Spec.with_fields (origin_view origin) (fields_view fields.now) (alternative_view self.old)) }
    {
        for field in fields {
            self.declarations.push(Brought {
                field,
                place: origin.place,
                embedding: origin.embedding,
                by: origin.by,
            })?;
        }
        Ok(())
    }

    pub(crate) fn meets(&self, name: &str) -> bool
        ensures { result ≡ Spec.meets name.now (alternative_view self.now) }
    {
        for met in &self.met {
            if *met == name {
                return true;
            }
        }
        false
    }
}
