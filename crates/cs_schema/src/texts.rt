// Arrays of distinct texts, the values of `required`.
ghost use Rattle.std.specs.Prelude.{◌≡◌, [], false, true, IfOk};
ghost use Rattle.cs_document.specs.View.{doc_view, list_view};
ghost use Rattle.cs_profile.specs.Shapes.{are_distinct_texts};
ghost use Rattle.cs_profile.specs.declared.keyword.Form.TheVariants as form;
ghost use Rattle.cs_schema.specs.Reading.{IfFound, IfNothing, IsReadAs, texts_view};

use crate::atoms::text_of;
use cs_document::Doc;
use cs_profile::KeywordValue;
use std::alloc::{AllocError, Global};
use std::collections::BTreeSet;

/// The texts that a value holds, in its order, if it is an array of distinct texts.
pub(crate) fn texts_of(alloc: Global, value: &Doc) -> Result<Option<KeywordValue>, AllocError>
    ensures { IfOk result (IsReadAs form.Texts (doc_view value.now)) }
{
    match value {
        Doc::List(items) => match distinct_texts(alloc, items)? {
            Some(texts) => Ok(Some(KeywordValue::Texts(texts))),
            None => Ok(None),
        },
        _ => Ok(None),
    }
}

/// The texts of a list, if it holds only texts and none of them twice.
fn distinct_texts(alloc: Global, items: &Vec<Doc>) -> Result<Option<Vec<String>>, AllocError>
    ensures some { IfFound result (λ v. list_view items.now.items ≡ texts_view v.items) }
    ensures accepted { IfFound result
        (λ v. are_distinct_texts [] (list_view items.now.items) ≡ true) }
    ensures none { IfNothing result (are_distinct_texts [] (list_view items.now.items) ≡ false) }
{
    let mut texts = Vec::with_capacity(alloc, items.len())?;
    let mut seen = BTreeSet::new(alloc);
    for item in items {
        let Some(text) = text_of(item) else {
            return Ok(None);
        };
        if !seen.insert(text)? {
            return Ok(None);
        }
        texts.push(String::from_str(alloc, text)?)?;
    }
    Ok(Some(texts))
}
