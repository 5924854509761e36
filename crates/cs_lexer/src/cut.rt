// The loop that cuts a source into tokens.

ghost use Rattle.std.specs.Prelude.{◌≡◌, ◌⊎◌, List, [], ◌∷◌, ℕ, IfOk, IfErr};
ghost use Rattle.cs_grammar.specs.Cut.{Lexeme, lexeme, IsCut, comma_if};
ghost use Rattle.cs_grammar.specs.CutIn.{IsCutIn};
ghost use Rattle.cs_grammar.specs.Stuck.{IsStuck, IsStuckIn};
ghost use Rattle.cs_grammar.specs.declared.profile.Profile.{Profile};
ghost use Rattle.cs_grammar.specs.declared.profile.Profile.TheVariants as profiles;
ghost use Rattle.cs_grammar.specs.View.{lexemes_view};
ghost use Rattle.cs_lexer.specs.Lexed.{Answers, AreSlices, Cuts, IsRefusal, IsRefusalIn, Puts, Refuses};

use crate::attribute::attribute_in;
use crate::line::{line_after, line_ended};
use crate::piece::{Piece, read_piece};
use cs_grammar::{LineState, Profile, Sort, SyntaxFault, Token};
use std::alloc::Global;

/// Puts a token without a text.
fn put(tokens: &mut Vec<Token<'_>>, sort: Sort, start: usize) -> Result<(), SyntaxFault>
    ensures { Puts result tokens.old.items tokens.new.items (lexeme sort [] start ∷ []) }
{
    let text = "";
    tokens.push(Token { sort, text, start })?;
    Ok(())
}

/// Inserts a comma at the end of a line, where one is wanted.
fn end_line(tokens: &mut Vec<Token<'_>>, line: LineState, start: usize) -> Result<(), SyntaxFault>
    ensures { Puts result tokens.old.items tokens.new.items (comma_if line start []) }
{
    if line == LineState::WantsComma {
        put(tokens, Sort::Inserted, start)?;
    }
    Ok(())
}

/// Puts the tokens of a source in a profile behind none. They are the caller's, and what is known of them is one clause: each `?` would have to drop them,
/// and to show each clause.
fn put_tokens<'a>(
    alloc: Global,
    profile: Profile,
    source: &'a str,
    tokens: &mut Vec<Token<'a>>,
) -> Result<(), SyntaxFault>
    requires { tokens.old.items ≡ [] }
    ensures { Cuts result profile source.now tokens.new.items }
{
    let bytes = source.as_bytes();
    let mut at = 0;
    let mut line = LineState::Plain;
    'text: while at < bytes.len() {
        match read_piece(line, &bytes[at..]) {
            Piece::Space => at += 1,
            Piece::NewLine => {
                end_line(tokens, line, at)?;
                line = line_ended(line);
                at += 1;
            }
            Piece::Comment(len) => {
                end_line(tokens, line, at)?;
                line = line_ended(line);
                at += len;
            }
            Piece::Token(sort, len) => {
                tokens.push(Token {
                    sort,
                    text: &source[at..at + len],
                    start: at,
                })?;
                line = line_after(sort, &bytes[at..at + len]);
                at += len;
            }
            Piece::NoToken => match attribute_in(alloc, profile, &bytes[at..])? {
                Some(len) => at += len,
                None => return Err(SyntaxFault::NoToken { offset: at }),
            },
            Piece::TooLarge => return Err(SyntaxFault::IntegerRange { offset: at }),
        }
    }
    end_line(tokens, line, at)?;
    put(tokens, Sort::End, at)?;
    Ok(())
}

/// The tokens of a source in a profile, with the commas that the ends of lines insert, and the end
/// (CUE, lexical elements). A comment counts as the end of its line, and in the wide profile an
/// attribute as nothing (CUE, attributes). No text is copied.
///
/// # Errors
/// `NoToken` where no token of the profile begins, as at a number of another form, at a text without
/// an end or with another escape, at three quotes, and at what is no whole attribute. `IntegerRange`
/// at an integer that doesn't fit in 64 signed bits (the least one needs a `-` as the token before
/// it). The first of them in the text is reported. `OutOfMemory`.
pub fn lex_in(alloc: Global, profile: Profile, source: &str) -> Result<Vec<Token<'_>>, SyntaxFault>
    // The tokens are those of the source's cut in the profile.
    ensures found { IfOk result (λ v. IsCutIn profile source.now (lexemes_view v.items)) }
    // A fault other than `OutOfMemory` says where the source is stuck, and why.
    ensures refused { IfErr result (λ f. IsRefusalIn profile source.now f) }
    // Where the source has a cut, that is answered, unless memory runs out.
    ensures only { (ks : List Lexeme)
        → IsCutIn profile source.now ks → Answers (λ v. lexemes_view v.items) result ks }
    // Where it is stuck, that is the fault, unless memory runs out.
    ensures stuck { (f : SyntaxFault) → IsStuckIn profile source.now f → Refuses result f }
    // Each token's text is the slice of the source at its start, and they are in order.
    ensures slices { IfOk result (λ v. AreSlices source.now 0 (lexemes_view v.items)) }
{
    let mut tokens = Vec::new(alloc);
    put_tokens(alloc, profile, source, &mut tokens)?;
    Ok(tokens)
}

/// The tokens of a source in the default profile (CUE, lexical elements).
///
/// # Errors
/// Those of `lex_in`.
pub fn lex(alloc: Global, source: &str) -> Result<Vec<Token<'_>>, SyntaxFault>
    // The tokens are those of the source's cut.
    ensures found { IfOk result (λ v. IsCut source.now (lexemes_view v.items)) }
    // A fault other than `OutOfMemory` says where the source is stuck, and why.
    ensures refused { IfErr result (λ f. IsRefusal source.now f) }
    // Where the source has a cut, that is answered, unless memory runs out.
    ensures only { (ks : List Lexeme)
        → IsCut source.now ks → Answers (λ v. lexemes_view v.items) result ks }
    // Where it is stuck, that is the fault, unless memory runs out.
    ensures stuck { (f : SyntaxFault) → IsStuck source.now f → Refuses result f }
    // Each token's text is the slice of the source at its start, and they are in order.
    ensures slices { IfOk result (λ v. AreSlices source.now 0 (lexemes_view v.items)) }
{
    lex_in(alloc, Profile::Default, source)
}

/// In a profile a source has one cut or is stuck at one place, never both, and always one of the
/// two.
pub fn one_cut()
    ensures once { (p : Profile) (bs : List ℕ) (ks js : List Lexeme)
        → IsCutIn p bs ks → IsCutIn p bs js → ks ≡ js }
    ensures stuck_once { (p : Profile) (bs : List ℕ) (f g : SyntaxFault)
        → IsStuckIn p bs f → IsStuckIn p bs g → f ≡ g }
    ensures always { (p : Profile) (bs : List ℕ)
        → ((ks : List Lexeme) × IsCutIn p bs ks) ⊎ ((f : SyntaxFault) × IsStuckIn p bs f) }
    ensures apart { (p : Profile) (bs : List ℕ) (ks : List Lexeme) (f : SyntaxFault)
        → IsCutIn p bs ks → IsStuckIn p bs f → ⊥ }
{}

/// The wide profile cuts a source that the default one cuts into the same tokens.
pub fn wide_cuts_the_default()
    ensures { (bs : List ℕ) (ks : List Lexeme)
        → IsCut bs ks → IsCutIn profiles.Wide bs ks }
{}
