// Disjunctions of literals.
ghost use Rattle.std.specs.Prelude.{◌≡◌, ℕ, List, IfOk, map, option_map};
ghost use Rattle.cs_document.specs.Document.{document_eq};
ghost use Rattle.cs_document.specs.View.{doc_view};
ghost use Rattle.cs_package.specs.View.{expressions_at};
ghost use Rattle.cs_profile.specs.SchemaDocument.{schema_view};
ghost use Rattle.cs_compile.specs.Literals.{literal_view};
ghost use Rattle.cs_compile.specs.Translation.{enumeration, firsts, literals};

use crate::keywords::{object, untyped};
use cs_document::Doc;
use cs_package::{Literal, Shape};
use cs_profile::{Keyword, KeywordValue, Schema};
use std::alloc::{AllocError, Global};
use std::collections::BTreeSet;

/// The schema of a disjunction of literals: `enum`, with each literal where it comes first. `None` where some operand
/// is no literal.
pub(crate) fn enumeration(alloc: Global, operands: &[Shape]) -> Result<Option<Schema>, AllocError>
    ensures { (ns : List (List ℕ)) → IfOk result (λ o. option_map schema_view o
        ≡ option_map enumeration (literals (expressions_at ns operands.now))) }
{
    let Some(literals) = literals(alloc, operands)? else {
        return Ok(None);
    };
    let values = KeywordValue::Array(firsts(alloc, &literals)?);
    let schema = object(alloc, untyped(alloc).set(alloc, Keyword::Enum, values))?;
    Ok(Some(schema))
}

/// The operands, if each is a literal.
fn literals<'a>(
    alloc: Global,
    operands: &'a [Shape],
) -> Result<Option<Vec<Literal<'a>>>, AllocError>
    ensures { (ns : List (List ℕ)) → IfOk result (λ o. option_map (λ v. map literal_view v.items) o
        ≡ literals (expressions_at ns operands.now)) }
{
    let mut literals = Vec::with_capacity(alloc, operands.len())?;
    for operand in operands {
        let Some(literal) = operand.literal() else {
            return Ok(None);
        };
        literals.push(literal)?;
    }
    Ok(Some(literals))
}

/// The documents of some literals, each where it comes first.
fn firsts(alloc: Global, literals: &[Literal<'_>]) -> Result<Vec<Doc>, AllocError>
    ensures { IfOk result (λ v. map doc_view v.items
        ≡ firsts document_eq (map literal_view literals.now)) }
{
    let mut seen = BTreeSet::new(alloc);
    let mut firsts = Vec::new(alloc);
    for literal in literals {
        let is_new = seen.insert(*literal)?;
        if is_new {
            firsts.push(document(alloc, *literal)?)?;
        }
    }
    Ok(firsts)
}

/// The document that a literal is.
fn document(alloc: Global, literal: Literal<'_>) -> Result<Doc, AllocError>
    ensures { IfOk result (λ d. doc_view d ≡ literal_view literal.entry) }
{
    match literal {
        Literal::Null => Ok(Doc::Null),
        Literal::Bool(b) => Ok(Doc::Bool(b)),
        Literal::Int(n) => Ok(Doc::Int(n)),
        Literal::Text(text) => Ok(Doc::Text(String::from_str(alloc, text)?)),
    }
}
