// Copies of documents.
ghost use Rattle.std.specs.Prelude.{◌≡◌, IfOk, IsOkUnless};
ghost use Rattle.cs_document.specs.View.{doc_view, list_view, object_view};

use crate::{Doc, DocFault};
use std::alloc::{AllocError, Global};
use std::collections::BTreeMap;

impl Doc {
    /// An equal document, which owns texts of its own. Only memory can run out.
    pub fn copy(&self, alloc: Global) -> Result<Doc, DocFault>
        ensures value { IfOk result (λ d. doc_view d ≡ doc_view self.now) }
        ensures memory { IsOkUnless result DocFault.OutOfMemory }
    {
        Ok(copy_doc(alloc, self)?)
    }
}

#[cycle(copy)]
fn copy_doc(alloc: Global, doc: &Doc) -> Result<Doc, AllocError>
    ensures { IfOk result (λ d. doc_view d ≡ doc_view doc.now) }
{
    match doc {
        Doc::Null => Ok(Doc::Null),
        Doc::Bool(b) => Ok(Doc::Bool(*b)),
        Doc::Int(n) => Ok(Doc::Int(*n)),
        Doc::Text(text) => Ok(Doc::Text(text.clone()?)),
        Doc::List(items) => Ok(Doc::List(copy_items(alloc, items)?)),
        Doc::Object(members) => Ok(Doc::Object(copy_members(alloc, members)?)),
    }
}

#[cycle(copy)]
fn copy_items(alloc: Global, items: &Vec<Doc>) -> Result<Vec<Doc>, AllocError>
    ensures { IfOk result (λ v. list_view v.items ≡ list_view items.now.items) }
{
    let mut copies = Vec::with_capacity(alloc, items.len())?;
    for item in items {
        copies.push(copy_doc(alloc, item)?)?;
    }
    Ok(copies)
}

#[cycle(copy)]
fn copy_members(
    alloc: Global,
    members: &BTreeMap<String, Doc>,
) -> Result<BTreeMap<String, Doc>, AllocError>
    ensures { IfOk result (λ m. object_view m.entries ≡ object_view members.now.entries) }
{
    let mut copies = BTreeMap::new(alloc);
    for (key, member) in members {
        let name = key.clone()?;
        let value = copy_doc(alloc, member)?;
        drop(copies.insert(name, value)?);
    }
    Ok(copies)
}
