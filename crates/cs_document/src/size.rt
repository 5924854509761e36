// How long texts are.
ghost use Rattle.std.specs.Prelude.{◌≡◌, not};
ghost use Rattle.cs_document.specs.Sizes as sizes;

/// Whether a byte of a text begins a character, and doesn't go on with one (RFC 3629, section 3).
fn begins_character(byte: u8) -> bool
    ensures { result ≡ not (sizes.goes_on byte) }
{
    byte < 128 || byte > 191
}

/// How many characters a text has: code points, so that a combining mark is one (RFC 8259, sections 7 and 8.2).
pub fn text_length(text: &str) -> usize
    ensures { result ≡ sizes.text_length text.now }
{
    let mut length = 0;
    for byte in text.as_bytes() {
        if begins_character(*byte) {
            length += 1;
        }
    }
    length
}
