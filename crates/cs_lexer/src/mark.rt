// Marks, those that are used and those that this profile leaves out.

ghost use Rattle.std.specs.Prelude.{◌≡◌};
ghost use Rattle.cs_grammar.specs.Spelling.{mark_sort};
ghost use Rattle.cs_lexer.specs.Pieces.{longest_mark};

use cs_grammar::Sort;

/// The sort of a text that is a mark.
pub(crate) fn mark_sort(text: &[u8]) -> Option<Sort>
    ensures { result ≡ mark_sort text.now }
{
    match text {
        b"{"
        | b"}"
        | b"["
        | b"]"
        | b"("
        | b")"
        | b","
        | b":"
        | b"?"
        | b"!"
        | b"&"
        | b"|"
        | b"..."
        | b"<"
        | b"<="
        | b">"
        | b">="
        | b"!="
        | b"-" => Some(Sort::Mark),
        b"+" | b"*" | b"/" | b"." | b"=" | b"==" | b"=~" | b"!~" | b"&&" | b"||" => Some(
            Sort::LeftOut,
        ),
        _ => None,
    }
}

/// The longest mark at the front of the bytes: its sort and its length.
pub(crate) fn longest_mark(bytes: &[u8]) -> Option<(Sort, usize)>
    ensures { result ≡ longest_mark bytes.now }
{
    if bytes.len() >= 3 {
        if let Some(sort) = mark_sort(&bytes[..3]) {
            return Some((sort, 3));
        }
    }
    if bytes.len() >= 2 {
        if let Some(sort) = mark_sort(&bytes[..2]) {
            return Some((sort, 2));
        }
    }
    if bytes.is_empty() {
        return None;
    }
    let sort = mark_sort(&bytes[..1])?;
    Some((sort, 1))
}
