// Rules with numbers, and what waits for its number.
use std::alloc::AllocError;

/// Rules one after another, and the nodes that wait for theirs: those that are asked of values inside. Each node has a
/// place of its own among them.
#[derive(Drop)]
pub struct Numberer<'a, N, R> {
    pub rules: Vec<R>,
    pub pending: Vec<&'a N>,
}

impl<'a, N, R: Drop> Numberer<'a, N, R> {
    ghost use Rattle.std.specs.Prelude.{◌≡◌, ◌++◌, [], ◌∷◌, length, IfOk};

    /// Pushes a rule, and answers its number.
    pub fn put(&mut self, rule: R) -> Result<usize, AllocError>
        ensures number { IfOk result (λ k. (k ≡ length self.old.rules.items)
            × (self.new.rules.items ≡ self.old.rules.items ++ rule ∷ [])) }
        ensures pending { self.new.pending ≡ self.old.pending }
    {
        let number = self.rules.len();
        self.rules.push(rule)?;
        Ok(number)
    }

    /// A node waits. Answers its place.
    pub fn wait(&mut self, node: &'a N) -> Result<usize, AllocError>
        ensures place { IfOk result (λ p. (p ≡ length self.old.pending.items)
            × (self.new.pending.items ≡ self.old.pending.items ++ node.entry ∷ [])) }
        ensures rules { self.new.rules ≡ self.old.rules }
    {
        let place = self.pending.len();
        self.pending.push(node)?;
        Ok(place)
    }
}
