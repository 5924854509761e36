// The tokens of any text, and what they are, each by itself. Where a text can't be cut, cutting goes on behind what no token begins with.
use cs_grammar::{Profile, Sort, SyntaxFault, Token};
use cs_lexer::lex_in;
use cs_place::Made;
use std::alloc::{AllocError, Global};

/// The tokens of a text in a profile, and its end, as [`crate::Source`] has them. However often it is stuck, each byte is read three times at most.
pub(crate) fn tokens_of(alloc: Global, mut profile: Profile, text: &str) -> Made<Vec<Token<'_>>> {
    let mut tokens = Vec::new(alloc);
    let mut from = 0usize;
    // Each round goes on behind a character at least.
    for _ in 0..text.len().saturating_add(1) {
        let rest = text.get(from..).unwrap_or("");
        let (found, stuck) = cut(alloc, profile, rest)?;
        // `extend` would ask for the room of all of them first, and go on where that is refused.
        for token in &found {
            let start = token.start.saturating_add(from);
            tokens.push(Token { start, ..*token })?;
        }
        let Some(stuck) = stuck else { break };
        // To find that an attribute has no end may have taken the whole text, so it is the last that is looked for.
        if rest.as_bytes().get(stuck) == Some(&b'@') {
            profile = Profile::Default;
        }
        from = add_stuck(&mut tokens, text, from.saturating_add(stuck))?;
    }
    Ok(tokens)
}

/// The tokens of a text, and the offset where it is stuck, if it is: then those before, without the comma and the end that stand for that place.
fn cut(alloc: Global, profile: Profile, text: &str) -> Made<(Vec<Token<'_>>, Option<usize>)> {
    let stuck = match lex_in(alloc, profile, text) {
        Ok(tokens) => return Ok((tokens, None)),
        Err(SyntaxFault::NoToken { offset } | SyntaxFault::IntegerRange { offset }) => offset,
        // No other one is a fault of cutting.
        Err(_) => return Err(AllocError),
    };
    // Up to there it isn't stuck.
    let front = text.get(..stuck).unwrap_or("");
    let mut tokens = lex_in(alloc, profile, front).or(Err(AllocError))?;
    tokens.retain(|token| token.start < stuck);
    Ok((tokens, Some(stuck)))
}

/// Adds what no token begins with, and the comma that the end of the line right behind it stands for. Gives the offset behind it.
fn add_stuck<'a>(tokens: &mut Vec<Token<'a>>, whole: &'a str, start: usize) -> Made<usize> {
    let (sort, len) = stuck_piece(whole.as_bytes().get(start..).unwrap_or(&[]));
    let end = start.saturating_add(len);
    let text = whole.get(start..end).unwrap_or("");
    tokens.push(Token { sort, text, start })?;
    let behind = whole.get(end..).unwrap_or("");
    let rest = behind.trim_start_matches(|blank| matches!(blank, ' ' | '\t' | '\r'));
    if rest.is_empty() || rest.starts_with('\n') || rest.starts_with("//") {
        let start = whole.len().saturating_sub(rest.len());
        let (sort, text) = (Sort::Inserted, "");
        tokens.push(Token { sort, text, start })?;
    }
    Ok(end)
}

/// The sort of the token in place of what no token begins with, and how many bytes it has.
fn stuck_piece(bytes: &[u8]) -> (Sort, usize) {
    let past_ascii = bytes.iter().take_while(|byte| **byte >= 128);
    let mut lines = bytes.split(|byte| *byte == b'\n');
    match bytes {
        [b'0'..=b'9', ..] => (Sort::Integer, number_len(bytes)),
        [b'"', b'"', b'"', ..] => (Sort::Text, len_to(bytes, 3, b"\"\"\"")),
        [b'\'', b'\'', b'\'', ..] => (Sort::Text, len_to(bytes, 3, b"'''")),
        [b'#', b'"', b'"', b'"', ..] => (Sort::Text, len_to(bytes, 4, b"\"\"\"#")),
        [b'#', b'"', ..] => (Sort::Text, len_to(lines.next().unwrap_or(b""), 2, b"\"#")),
        [quote @ (b'"' | b'\''), ..] => (Sort::Text, quoted_len(bytes, *quote)),
        _ => (Sort::LeftOut, past_ascii.count().max(1)),
    }
}

/// The length of a number with its fraction, its exponent and its letters, which begins with a digit.
fn number_len(bytes: &[u8]) -> usize {
    let is_decimal = !matches!(bytes, [b'0', b'x', ..]);
    let goes_on = |pair: &&[u8]| match **pair {
        [b'e' | b'E', b'+' | b'-'] => is_decimal,
        [_, byte] => byte.is_ascii_alphanumeric() || matches!(byte, b'_' | b'$' | b'.'),
        _ => false,
    };
    let behind_first = bytes.windows(2).take_while(goes_on);
    behind_first.count().saturating_add(1)
}

/// The length up to the first of these bytes behind so many, with them, or of all.
fn len_to(bytes: &[u8], skipped: usize, last: &[u8]) -> usize {
    let mut places = skipped..bytes.len();
    let found = places.find(|at| bytes.get(*at..).unwrap_or(b"").starts_with(last));
    found.map_or(bytes.len(), |at| at.saturating_add(last.len()))
}

/// The length of a text on one line, or of what is left of the line. What an interpolation holds is passed over.
fn quoted_len(bytes: &[u8], quote: u8) -> usize {
    let mut is_escaped = false;
    let mut parentheses = 0usize;
    for (at, byte) in bytes.iter().enumerate().skip(1) {
        if *byte == b'\n' {
            return at;
        }
        if parentheses == 0 && !is_escaped && *byte == quote {
            return at.saturating_add(1);
        }
        let opens = *byte == b'(' && (is_escaped || parentheses > 0);
        parentheses = parentheses.saturating_add(usize::from(opens));
        parentheses = parentheses.saturating_sub(usize::from(*byte == b')'));
        is_escaped = *byte == b'\\' && !is_escaped;
    }
    bytes.len()
}

/// The offset behind a token.
pub fn end_of(token: Token<'_>) -> usize {
    token.start.saturating_add(token.text.len())
}

/// Whether a token is that mark.
pub fn is_mark(token: Token<'_>, text: &str) -> bool {
    token.sort == Sort::Mark && token.text == text
}

/// Whether a value ends with a token.
pub fn ends_value(token: Token<'_>) -> bool {
    match token.sort {
        Sort::Mark => matches!(token.text.as_bytes(), [b'}' | b']' | b')']),
        Sort::Wide | Sort::LeftOut | Sort::Inserted | Sort::End => false,
        _ => true,
    }
}

/// Whether a value begins with a token.
pub fn begins_value(token: Token<'_>) -> bool {
    match token.sort {
        Sort::Mark => ["{", "[", "(", "<", "<=", ">", ">=", "!=", "-"].contains(&token.text),
        Sort::LeftOut | Sort::Inserted | Sort::End => false,
        _ => true,
    }
}

/// Whether a token is behind a label: its colon, or the mark before that.
pub fn follows_label(token: Token<'_>) -> bool {
    matches!(token.text.as_bytes(), [b':' | b'?' | b'!'])
}

/// Whether a token is between two declarations, or two elements; also the end is.
pub fn separates(token: Token<'_>) -> bool {
    token.sort == Sort::Inserted || token.sort == Sort::End || token.text == ","
}

/// Whether what follows a token is a declaration, where declarations are.
pub(crate) fn precedes_declaration(token: Token<'_>) -> bool {
    separates(token) || is_mark(token, "{")
}
