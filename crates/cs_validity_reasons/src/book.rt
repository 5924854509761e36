// The rules of a schema document, by their numbers.
use cs_rules::Rulebook;
use cs_validate::{Conjunction, Rule};

/// The rules of a schema document.
pub(crate) type Book<'a> = Rulebook<Rule<'a>>;

/// What the rule at a place asks, if it is one of an object.
pub(crate) fn conjunction_at<'a>(book: &'a Book<'_>, rule: usize) -> Option<&'a Conjunction<'a>> {
    match book.numbering.rules.get(rule)? {
        Rule::Truth(_) => None,
        Rule::Object(conjunction) => Some(conjunction),
    }
}
