// Look-up among the entries of a map.
ghost use Rattle.std.specs.Prelude.{◌≡◌, map};
ghost use Rattle.cs_document.specs.Document.{under};
ghost use Rattle.cs_document.specs.Inside.{KeysAscend};
ghost use Rattle.cs_flat.specs.View.{entry_of};

/// The number under a key (RFC 8259, section 4), looked for by halving.
pub fn number_under(entries: &[(&str, usize)], key: &str) -> Option<usize>
    requires { KeysAscend (map entry_of entries.now) }
    ensures { result ≡ under key.now (map entry_of entries.now) }
{
    match entries.binary_search_by_key(&key, |entry| entry.0) {
        Ok(place) => Some(entries[place].1),
        Err(_) => None,
    }
}

/// The number under a key (RFC 8259, section 4), looked for at the next place first, and then by halving. Keys that are
/// asked for in their order are found at one place after another.
pub fn next_under(entries: &[(&str, usize)], key: &str, next: &mut usize) -> Option<usize>
    requires { KeysAscend (map entry_of entries.now) }
    ensures { result ≡ under key.now (map entry_of entries.now) }
{
    if *next < entries.len() && entries[*next].0 == key {
        let number = entries[*next].1;
        *next += 1;
        return Some(number);
    }
    match entries.binary_search_by_key(&key, |entry| entry.0) {
        Ok(place) => {
            *next = place + 1;
            Some(entries[place].1)
        }
        Err(place) => {
            *next = place;
            None
        }
    }
}
