// Words for what is found and what is wanted.
use cs_flat::Item;
use cs_place::put_in_string;
use cs_text::{Written, put_integer};

/// How many characters of a value are shown.
const MOST_SHOWN: usize = 60;

/// How many alternatives are named.
pub const MOST_WANTED: usize = 8;

/// What values with parts are called.
#[derive(Clone, Copy)]
pub struct Kinds<'k> {
    /// A list.
    pub list: &'k str,
    /// A map.
    pub map: &'k str,
}

impl Kinds<'_> {
    /// Puts a value: a scalar as JSON writes it, cut where it is long, or of which kind it is.
    pub fn put(self, text: &mut String, item: Item<'_>) -> Written {
        match item {
            Item::Null => text.push_str("null"),
            Item::Bool(value) => text.push_str(if value { "true" } else { "false" }),
            Item::Int(value) => put_integer(text, value),
            Item::Text(value) => put_beginning(text, value),
            Item::List(_) => text.push_str(self.list),
            Item::Object(_) => text.push_str(self.map),
        }
    }

    /// Puts what is found.
    pub fn put_found(self, text: &mut String, item: Item<'_>) -> Written {
        text.push_str("found ")?;
        self.put(text, item)
    }

    /// Puts what is found, up to what is wanted.
    pub fn put_mismatch(self, text: &mut String, item: Item<'_>) -> Written {
        self.put_found(text, item)?;
        text.push_str(", want ")
    }
}

/// Puts a text as a string of JSON, cut where that is long.
fn put_beginning(text: &mut String, inside: &str) -> Written {
    text.push('"')?;
    for (count, character) in inside.chars().enumerate() {
        if count >= MOST_SHOWN - 1 {
            return text.push_str("..");
        }
        put_in_string(text, character)?;
    }
    text.push('"')
}

/// Puts a mark behind so many parts, if there are any.
pub fn put_between(text: &mut String, before: usize, mark: &str) -> Written {
    text.push_str(if before > 0 { mark } else { "" })
}

/// Puts how many of so many alternatives aren't named, if any.
pub fn put_more(text: &mut String, count: usize) -> Written {
    let left = count.saturating_sub(MOST_WANTED);
    if left > 0 {
        write!(text, " and {left} more")?;
    }
    Ok(())
}
