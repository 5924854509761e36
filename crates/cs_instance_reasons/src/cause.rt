// Why a value is no instance of a rule.
ghost use Rattle.std.specs.Prelude.{◌≡◌};

use cs_reasons::Cause;

/// Why a value is no instance of a rule: of what the rule asks, what isn't so (CUE, values). Rules and values that it leads to
/// are named by their numbers.
#[derive(Clone, Copy, Drop)]
pub enum InstanceCause {
    /// The value is no instance of the rule at a place among those that are asked of it together: a body of a definition, an
    /// operand of `&`, or the definition that a reference names.
    Part {
        item: usize,
        rule: usize,
        place: usize,
    },
    /// The value is no instance of the alternative at a place: an operand of `|`.
    Alternative {
        item: usize,
        rule: usize,
        place: usize,
    },
    /// The value of the member at a place of the map is no instance of what the declaration at a place declares for its key.
    Member {
        declaration: usize,
        member: usize,
        item: usize,
        rule: usize,
    },
    /// The element at a place is no instance of what is asked there.
    Element {
        place: usize,
        item: usize,
        rule: usize,
    },
    /// The value is none that an expression without parts admits; it is no map, or no list.
    Unmet,
    /// The declaration at a place of the rule asks for its label, which is no key.
    Missing {
        declaration: usize,
        rule: usize,
    },
    /// No declaration allows the key of the member at a place of the map, which is the item.
    Extra {
        member: usize,
        item: usize,
    },
    /// The list is shorter than its fixed elements.
    Few,
    /// The list is longer than its fixed elements, and has no other ones.
    Many,
    /// None of the alternatives admits the value.
    NoAlternative,
}

impl Cause for InstanceCause {
    ghost use Rattle.cs_instance_reasons.specs.Led.{leads_to, is_alternative};

    ghost leads_to = { leads_to };

    ghost is_alternative = { is_alternative };

    fn leads_to(&self) -> Option<(usize, usize)> {
        match self {
            InstanceCause::Part { item, rule, .. }
            | InstanceCause::Alternative { item, rule, .. }
            | InstanceCause::Member { item, rule, .. }
            | InstanceCause::Element { item, rule, .. } => Some((*item, *rule)),
            InstanceCause::Unmet
            | InstanceCause::Missing { .. }
            | InstanceCause::Extra { .. }
            | InstanceCause::Few
            | InstanceCause::Many
            | InstanceCause::NoAlternative => None,
        }
    }

    fn is_alternative(&self) -> bool {
        matches!(self, InstanceCause::Alternative { .. })
    }
}
