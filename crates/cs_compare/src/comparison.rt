// The comparison of two editions.
ghost use Rattle.std.specs.Prelude.{◌≡◌, ◌⊎◌, ℕ, List, Some, None, IfOk, IfErr};
ghost use Rattle.cs_document.specs.View.{doc_view};
ghost use Rattle.cs_tool.specs.Given.{bytes_in};
ghost use Rattle.cs_tool.specs.Accepted.{DeclaresRoot};
ghost use Rattle.cs_tool.specs.CallRefusals.{ExportRefusal};
ghost use Rattle.cs_tool.specs.Ready.{IsReady};
ghost use Rattle.cs_compare.specs.Compared.{IsComparison, ShowsDocument};
ghost use Rattle.cs_compare.specs.Refused.{IsRefusal};

use crate::refusal::{CompareRefusal, Side, of_question};
use cs_document::Doc;
use cs_guard::Guarded;
use cs_instance::one_meaning;
use cs_json::shown_text;
use cs_question::{Budget, separating};
use cs_tool::{Fault, Profile, read_root};
use std::alloc::Global;

/// What a comparison answers.
#[derive(Drop)]
pub enum Comparison {
    /// Each document of the old definition is one of the new definition.
    Compatible,
    /// The text of a document of the old definition that isn't one of the new definition, with nothing hidden in it.
    Breaking(Vec<u8>),
}

/// Whether each document of the old sources' root is one of the new sources' root, each a definition named with its `#`. Both are read in the
/// profile.
///
/// # Errors
/// First what `export_in` refuses of the old sources and root, then of the new ones; then `TooManyCases`, where the question met a
/// limit.
pub fn compare(
    alloc: Global,
    profile: Profile,
    old: &[&[u8]],
    old_root: &str,
    new: &[&[u8]],
    new_root: &str,
) -> Result<Comparison, CompareRefusal>
    ensures answered { IfOk result (IsComparison profile (bytes_in old.now) old_root.now (bytes_in new.now) new_root.now) }
    ensures refused { IfErr result (λ r. IsRefusal profile (bytes_in old.now) old_root.now (bytes_in new.now) new_root.now r.side r.fault) }
    ensures only { IsReady profile (bytes_in old.now) old_root.now → IsReady profile (bytes_in new.now) new_root.now
        → IfErr result (λ r. (r.fault ≡ Fault.OutOfMemory) ⊎ (r.fault ≡ Fault.TooManyCases)) }
{
    let before = read_side(alloc, profile, Side::Old, old, old_root)?;
    let after = read_side(alloc, profile, Side::New, new, new_root)?;
    one_meaning(&before);
    one_meaning(&after);
    let mut budget = Budget::new();
    match separating(alloc, &before, old_root, &after, new_root, &mut budget) {
        Ok(None) => Ok(Comparison::Compatible),
        Ok(Some(doc)) => breaking(alloc, &doc),
        Err(fault) => Err(CompareRefusal {
            side: None,
            fault: of_question(fault),
        }),
    }
}

/// The answer that a document breaks. Its text can be read, so there is one: a limit is met where there isn't.
fn breaking(alloc: Global, doc: &Doc) -> Result<Comparison, CompareRefusal>
    ensures shown { IfOk result (ShowsDocument (doc_view doc.now)) }
    ensures side { IfErr result (λ r. r.side ≡ None) }
    ensures fault { IfErr result (λ r. (r.fault ≡ Fault.OutOfMemory) ⊎ (r.fault ≡ Fault.TooManyCases)) }
{
    match shown_text(alloc, doc) {
        Ok(Some(text)) => Ok(Comparison::Breaking(text)),
        Ok(None) => Err(CompareRefusal {
            side: None,
            fault: Fault::TooManyCases,
        }),
        Err(_) => Err(CompareRefusal {
            side: None,
            fault: Fault::OutOfMemory,
        }),
    }
}

/// The package of a side in the profile, where it declares the root.
fn read_side(
    alloc: Global,
    profile: Profile,
    side: Side,
    sources: &[&[u8]],
    root: &str,
) -> Result<Guarded, CompareRefusal>
    ensures found { IfOk result (λ g. (n : List ℕ) × DeclaresRoot profile (bytes_in sources.now) root.now g n) }
    ensures refused { IfErr result (λ r. (r.side ≡ Some side) × ExportRefusal profile (bytes_in sources.now) root.now r.fault) }
    ensures only { IsReady profile (bytes_in sources.now) root.now → IfErr result (λ r. r.fault ≡ Fault.OutOfMemory) }
{
    match read_root(alloc, profile, sources, root) {
        Ok(package) => Ok(package),
        Err(fault) => Err(CompareRefusal::of(side, fault)),
    }
}
