// What is told of a refused pair.

/// Why a pair is refused: the first of its reasons, in the order of their pairs, and the chains of causes that lead to them.
#[derive(Drop)]
pub struct Reasons<C: Drop> {
    /// The pairs on the chains, in their order: the last one is the pair that is explained.
    pub links: Vec<Link<C>>,
    /// The reasons that are told.
    pub told: Vec<Reason<C>>,
    /// How many reasons there are, told or not.
    pub count: usize,
}

/// A pair of an item and a rule that a chain of causes leads to.
#[derive(Drop)]
pub struct Link<C: Drop> {
    pub item: usize,
    pub rule: usize,
    /// What leads to it; none for the pair that is explained.
    pub up: Option<Up<C>>,
    /// How many other alternatives of the pair's rule were as close as the one that was followed.
    pub as_close: usize,
}

/// How a chain leads to a pair.
#[derive(Drop)]
pub struct Up<C: Drop> {
    /// The place of the pair before it among the links, which is behind.
    pub link: usize,
    /// The cause of that pair that leads here.
    pub cause: C,
}

/// A reason: a rule that refuses an item by itself.
#[derive(Drop)]
pub struct Reason<C: Drop> {
    /// The place of its pair among the links.
    pub link: usize,
    /// The cause, which leads nowhere.
    pub cause: C,
}
