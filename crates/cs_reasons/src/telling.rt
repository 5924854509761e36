// What is asked of an explanation.

/// How much of the reasons is told.
#[derive(Clone, Copy, Debug)]
pub struct Telling {
    /// How many reasons are told at most.
    pub most: usize,
    /// Whether all alternatives are followed, and not the closest one alone.
    pub all: bool,
}
