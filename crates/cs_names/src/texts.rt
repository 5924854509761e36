// Names as texts: how they begin, and the names of definitions that are made of them.
ghost use Rattle.std.specs.Prelude.{◌≡◌, ◌∷◌, IfOk, string_bytes};
ghost use Rattle.cs_names.specs.Having as Having;
ghost use Rattle.cs_names.specs.Lifted as Spec;
ghost use Rattle.cs_names.specs.Nested as Nested;
ghost use Rattle.cs_names.specs.Scopes as Scopes;

use itoa::Buffer;
use std::alloc::{AllocError, Global};

/// Whether a name begins with `#` or `_`.
pub(crate) fn is_marked(name: &str) -> bool
    ensures { result ≡ Scopes.is_marked name.now }
{
    match name.as_bytes().first() {
        Some(byte) => *byte == b'#' || *byte == b'_',
        None => false,
    }
}

/// Whether a name begins with `_` (CUE, identifiers).
pub(crate) fn is_hidden(name: &str) -> bool
    ensures { result ≡ Having.is_hidden name.now }
{
    match name.as_bytes().first() {
        Some(byte) => *byte == b'_',
        None => false,
    }
}

/// Whether a name begins with `#`.
pub(crate) fn begins_hash(name: &str) -> bool
    ensures { result ≡ Scopes.begins_hash name.now }
{
    match name.as_bytes().first() {
        Some(byte) => *byte == b'#',
        None => false,
    }
}

/// Whether the name of a definition may begin so behind its `#`: with a letter or `_`.
fn begins_definition(name: &str) -> bool
    ensures { result ≡ Spec.begins (Scopes.first_byte name.now) }
{
    match name.as_bytes().first() {
        Some(byte) => matches!(*byte, b'A'..=b'Z' | b'a'..=b'z' | b'$' | b'_'),
        None => false,
    }
}

/// A name without the `_` that it begins with.
fn behind_underscore(name: &str) -> &str
    ensures { result.now ≡ Spec.drop_byte 95 name.now }
{
    match name.strip_prefix('_') {
        Some(behind) => behind,
        None => name,
    }
}

/// A name without the `#` that it begins with.
pub(crate) fn behind_hash(name: &str) -> &str
    ensures { result.now ≡ Spec.drop_byte 35 name.now }
{
    match name.strip_prefix('#') {
        Some(behind) => behind,
        None => name,
    }
}

/// A name without the `_` and then the `#` that it begins with.
fn bare(name: &str) -> &str
    ensures { result.now ≡ Spec.bare name.now }
{
    behind_hash(behind_underscore(name))
}

/// Whether a name is one of a definition: it begins with `#`, or with a `_` and that (CUE, definitions and hidden fields).
pub(crate) fn is_definition(name: &str) -> bool
    ensures { result ≡ Spec.is_definition name.now }
{
    begins_hash(behind_underscore(name))
}

/// The name of the definition that a name of a file is to be lifted by.
pub(crate) fn top_name(alloc: Global, name: &str) -> Result<String, AllocError>
    ensures { IfOk result (λ s. string_bytes s ≡ Spec.top_name name.now) }
{
    let bare = bare(name);
    let mut text = String::new(alloc);
    if !begins_definition(bare) {
        text.push_str("_")?;
    }
    text.push_str(bare)?;
    Ok(text)
}

/// The same of a name that is declared inside of a definition.
pub(crate) fn inner_name(alloc: Global, outer: &str, name: &str) -> Result<String, AllocError>
    ensures { IfOk result (λ s. string_bytes s ≡ Spec.inner_name outer.now name.now) }
{
    let mut text = String::new(alloc);
    text.push_str(outer)?;
    text.push_str("_")?;
    text.push_str(bare(name))?;
    Ok(text)
}

/// The path of a nested definition: the name of its definition, a `.` and its own, each as it is written (CUE, selectors).
pub(crate) fn path(alloc: Global, outer: &str, name: &str) -> Result<String, AllocError>
    ensures { IfOk result (λ s. string_bytes s ≡ Nested.path outer.now name.now) }
{
    let mut text = String::new(alloc);
    text.push_str(outer)?;
    text.push_str(".")?;
    text.push_str(name)?;
    Ok(text)
}

/// A name with a number behind it.
pub(crate) fn numbered(alloc: Global, name: &str, number: usize) -> Result<String, AllocError>
    ensures { IfOk result (λ s. string_bytes s ≡ Spec.numbered name.now number) }
{
    let mut text = String::new(alloc);
    text.push_str(name)?;
    text.push_str(Buffer::new().format(number))?;
    Ok(text)
}

/// A name of a definition as a scope declares it, with its `#` (CUE, definitions and hidden fields).
pub(crate) fn with_mark(alloc: Global, name: &str) -> Result<String, AllocError>
    ensures { IfOk result (λ s. string_bytes s ≡ 35 ∷ name.now) }
{
    let mut text = String::new(alloc);
    text.push_str("#")?;
    text.push_str(name)?;
    Ok(text)
}
