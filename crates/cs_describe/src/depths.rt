// How deep documents nest.
ghost use Rattle.std.specs.Prelude.{◌≡◌, nat_le};
ghost use Rattle.cs_document.specs.Document.{depth, documents_depth, members_depth};
ghost use Rattle.cs_document.specs.View.{doc_view, list_view, object_view};

use cs_document::Doc;
use std::collections::BTreeMap;

/// Whether no more lists and maps nest in a document than so many.
#[cycle(depths)]
pub(crate) fn is_within(doc: &Doc, most: usize) -> bool
    ensures { result ≡ nat_le (depth (doc_view doc.now)) most }
{
    match doc {
        Doc::Null | Doc::Bool(_) | Doc::Int(_) | Doc::Text(_) => true,
        Doc::List(items) => most > 0 && are_within(items, most - 1),
        Doc::Object(members) => most > 0 && have_within(members, most - 1),
    }
}

/// Whether they do in each element of a list.
#[cycle(depths)]
fn are_within(items: &Vec<Doc>, most: usize) -> bool
    ensures { result ≡ nat_le (documents_depth (list_view items.now.items)) most }
{
    for item in items {
        if !is_within(item, most) {
            return false;
        }
    }
    true
}

/// Whether they do in each member of a map.
#[cycle(depths)]
fn have_within(members: &BTreeMap<String, Doc>, most: usize) -> bool
    ensures { result ≡ nat_le (members_depth (object_view members.now.entries)) most }
{
    for (_, member) in members {
        if !is_within(member, most) {
            return false;
        }
    }
    true
}
