// The state of a line after a token, for the comma that its end inserts. It is here and not in `cs_lexer`, which alone
// computes with it, since the definition of a cut speaks of it.

/// What the token before a place means for what follows it.
#[derive(Clone, Copy)]
pub enum LineState {
    /// Nothing.
    Plain,
    /// The end of the line inserts a comma.
    WantsComma,
    /// It is `-`, so that the least integer may follow.
    Minus,
}
