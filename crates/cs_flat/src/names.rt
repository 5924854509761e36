// Texts that are asked for together.
use crate::next_under;
use std::alloc::{AllocError, Global};
use std::marker::Model;

/// Texts that are asked for together: whether a map has each of them as a key.
#[derive(Drop)]
pub struct Names<'a> {
    texts: &'a [String],
    sorted: Vec<&'a str>,
}

impl<'a> Model for Names<'a> {
    ghost use Rattle.std.specs.Prelude.{ℕ, List, map, string_bytes};
    ghost use Rattle.std.specs.Coded.{coded_ℕ, coded_list};
    ghost use Rattle.std.specs.List.Sorted.{IsPermutation};
    ghost use Rattle.cs_flat.specs.View.{text_of};

    ghost Value = { List (List ℕ) };

    ghost coded = { coded_list (coded_list coded_ℕ) };

    ghost view = { λ s. map string_bytes s.texts.now };

    ghost invariant = { λ s. IsPermutation (map string_bytes s.texts.now) (map text_of s.sorted.items) };
}

impl<'a> Names<'a> {
    ghost use Rattle.std.specs.Prelude.{◌≡◌, map, is_some, IfOk, string_bytes};
    ghost use Rattle.std.specs.List.{list_all};
    ghost use Rattle.cs_document.specs.Document.{under};
    ghost use Rattle.cs_document.specs.Inside.{KeysAscend};
    ghost use Rattle.cs_flat.specs.View.{entry_of};

    /// Takes memory for a reference to each text, and the time to sort them. Only memory can run out.
    pub fn new(alloc: Global, texts: &'a [String]) -> Result<Names<'a>, AllocError>
        ensures texts { IfOk result (λ s. s ≡ map string_bytes texts.now) }
    {
        let mut sorted = Vec::with_capacity(alloc, texts.len())?;
        for text in texts {
            sorted.push(text.as_str())?;
        }
        sorted.sort_unstable();
        Ok(Names { texts, sorted })
    }

    /// Whether each of them is a key of the map (RFC 8259, section 4).
    pub fn are_keys(&self, entries: &[(&str, usize)]) -> bool
        requires { KeysAscend (map entry_of entries.now) }
        ensures { result ≡ list_all (λ k. is_some (under k (map entry_of entries.now))) self.now }
    {
        let mut next = 0;
        for name in &self.sorted {
            if next_under(entries, name, &mut next).is_none() {
                return false;
            }
        }
        true
    }
}
