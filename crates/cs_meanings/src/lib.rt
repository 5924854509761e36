// What the number of each refusal means, and what to do about it: the one table of these words. The faults of all crates show
// themselves by it.
#![tactic(auto)]

ghost use Rattle.std.specs.Prelude.{◌≡◌, IfSome};

mod rows;

pub use rows::{EXPLANATIONS, Explanation};

/// What a number means, and what to do about it: the first of its rows; none for a number that no refusal has.
pub fn explanation(number: u32) -> Option<Explanation>
    ensures { IfSome result (λ e. e.number ≡ number) }
{
    EXPLANATIONS.iter().copied().find(|e| e.number == number)
}

/// What a number means; no text for a number that no refusal has.
pub fn meaning(number: u32) -> &'static str {
    match explanation(number) {
        Some(row) => row.meaning,
        None => "",
    }
}
