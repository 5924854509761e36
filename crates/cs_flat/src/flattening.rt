// From a document to the list of its items.
ghost use Rattle.std.specs.Prelude.{◌≡◌, map, IfOk, OnOk, IsOkUnless};
ghost use Rattle.cs_document.specs.Document.{list, object};
ghost use Rattle.cs_document.specs.View.{doc_view, list_view, object_view};
ghost use Rattle.cs_flat.specs.Items.{items as items_of};
ghost use Rattle.cs_flat.specs.Listed.{document_in};
ghost use Rattle.cs_flat.specs.Pushed.{IsPushed, AreElementsPushed, AreMembersPushed};
ghost use Rattle.cs_flat.specs.View.{entry_of};

use crate::{Builder, Flat};
use cs_document::{Doc, DocFault};
use std::alloc::{AllocError, Global};
use std::collections::BTreeMap;

/// The document with its items: elements in their order, members in the order of their keys. Only memory can run out.
pub fn flatten(alloc: Global, doc: &Doc) -> Result<Flat<'_>, DocFault>
    ensures found { IfOk result (λ f. document_in f ≡ doc_view doc.now) }
    ensures items { IfOk result (λ f. f ≡ items_of (doc_view doc.now)) }
    ensures memory { IsOkUnless result DocFault.OutOfMemory }
{
    let mut builder = Builder::new(alloc);
    push_doc(alloc, doc, &mut builder)?;
    Ok(builder.finish())
}

/// Pushes the items of a document, and answers its own number, which is the place of the last one.
#[cycle(flatten)]
fn push_doc<'a>(alloc: Global, doc: &'a Doc, builder: &mut Builder<'a>) -> Result<usize, AllocError>
    ensures { IfOk result (IsPushed builder.old builder.new (doc_view doc.now)) }
{
    match doc {
        Doc::Null => builder.null(),
        Doc::Bool(b) => builder.boolean(*b),
        Doc::Int(n) => builder.integer(*n),
        Doc::Text(text) => builder.text(text.as_str()),
        Doc::List(elements) => push_list(alloc, elements, builder),
        Doc::Object(members) => push_object(alloc, members, builder),
    }
}

/// Pushes the items of a list, and answers its own number.
#[cycle(flatten)]
fn push_list<'a>(
    alloc: Global,
    elements: &'a Vec<Doc>,
    builder: &mut Builder<'a>,
) -> Result<usize, AllocError>
    ensures { IfOk result
        (IsPushed builder.old builder.new (list (list_view elements.now.items))) }
{
    let mut numbers = Vec::with_capacity(alloc, elements.len())?;
    push_elements(alloc, elements, builder, &mut numbers)?;
    builder.list(&numbers)
}

/// Pushes the items of a map, and answers its own number.
#[cycle(flatten)]
fn push_object<'a>(
    alloc: Global,
    members: &'a BTreeMap<String, Doc>,
    builder: &mut Builder<'a>,
) -> Result<usize, AllocError>
    ensures { IfOk result
        (IsPushed builder.old builder.new (object (object_view members.now.entries))) }
{
    let mut entries = Vec::with_capacity(alloc, members.len())?;
    push_members(alloc, members, builder, &mut entries)?;
    builder.object(&entries)
}

/// Pushes the items of a list's elements, and puts the number of each behind those given.
#[cycle(flatten)]
fn push_elements<'a>(
    alloc: Global,
    elements: &'a Vec<Doc>,
    builder: &mut Builder<'a>,
    numbers: &mut Vec<usize>,
) -> Result<(), AllocError>
    ensures { OnOk result (AreElementsPushed builder.old builder.new
        (list_view elements.now.items) numbers.old.items numbers.new.items) }
{
    for doc in elements {
        let number = push_doc(alloc, doc, builder)?;
        numbers.push(number)?;
    }
    Ok(())
}

/// Pushes the items of what is under a map's keys, and puts the keys, each with a number, behind the entries given.
#[cycle(flatten)]
fn push_members<'a>(
    alloc: Global,
    members: &'a BTreeMap<String, Doc>,
    builder: &mut Builder<'a>,
    entries: &mut Vec<(&'a str, usize)>,
) -> Result<(), AllocError>
    ensures { OnOk result (AreMembersPushed builder.old builder.new
        (object_view members.now.entries) (map entry_of entries.old.items) (map entry_of entries.new.items)) }
{
    for (key, doc) in members {
        let number = push_doc(alloc, doc, builder)?;
        entries.push((key.as_str(), number))?;
    }
    Ok(())
}
