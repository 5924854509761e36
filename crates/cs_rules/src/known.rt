// The verdicts that are known when a value is judged.
ghost use Rattle.std.specs.Prelude.{◌<◌};
ghost use Rattle.std.specs.List.{AllByRecursion};
ghost use Rattle.cs_rules.specs.Props.{below_prop};

use crate::lengths::length_at;
use cs_table::Verdicts;

/// The verdicts on a value by the rules before the one that is asked, and those on the values inside it.
#[derive(Drop)]
pub struct Known<'a> {
    /// The number of the value.
    pub item: usize,
    /// The rules that are asked of values inside.
    pub children: &'a [usize],
    pub done: &'a Verdicts,
    /// How long the texts of the document are, by the numbers of their items; empty where no rule asks for that.
    pub lengths: &'a [usize],
    pub ghost here: { item < done.now.items },
    pub ghost within: { AllByRecursion (λ q. q < done.now.rules) children.now } by { Prim.hlevel below_prop },
}

impl Known<'_> {
    ghost use Rattle.std.specs.Prelude.{◌≡◌};
    ghost use Rattle.std.specs.List.{list_all, list_any};
    ghost use Rattle.cs_document.specs.Sizes as sizes;
    ghost use Rattle.cs_rules.specs.Knowns.{verdict_here, verdict_inside, value_count, rule_count, place_count};
    ghost use Rattle.cs_rules.specs.Lengths.{TellsLength};

    /// The verdict on the value itself by an earlier rule.
    #[inline]
    pub fn here(&self, rule: usize) -> bool
        requires { rule < rule_count self.now }
        ensures { result ≡ verdict_here self.now rule }
    {
        self.done.get(self.item, rule)
    }

    /// The verdict on a value inside by the rule at a place.
    #[inline]
    pub fn inside(&self, child: usize, place: usize) -> bool
        requires child { child < value_count self.now }
        requires place { place < place_count self.now }
        ensures { result ≡ verdict_inside self.now child place }
    {
        self.done.get(child, self.children[place])
    }

    /// How many characters the value itself has, which is this text.
    #[inline]
    pub fn text_length(&self, text: &str) -> usize
        requires { TellsLength self.now.lengths.now self.now.item text.now }
        ensures { result ≡ sizes.text_length text.now }
    {
        length_at(self.lengths, self.item, text)
    }

    /// Whether all of these rules hold of the value itself.
    pub fn all(&self, rules: &[usize]) -> bool
        requires { AllByRecursion (λ q. q < rule_count self.now) rules.now }
        ensures { result ≡ list_all (verdict_here self.now) rules.now }
    {
        for rule in rules {
            if !self.here(*rule) {
                return false;
            }
        }
        true
    }

    /// Whether some of these rules holds of the value itself.
    pub fn any(&self, rules: &[usize]) -> bool
        requires { AllByRecursion (λ q. q < rule_count self.now) rules.now }
        ensures { result ≡ list_any (verdict_here self.now) rules.now }
    {
        for rule in rules {
            if self.here(*rule) {
                return true;
            }
        }
        false
    }

    /// Whether the rule at a place holds of each of these values inside.
    pub fn each(&self, children: &[usize], place: usize) -> bool
        requires children { AllByRecursion (λ y. y < value_count self.now) children.now }
        requires place { place < place_count self.now }
        ensures { result ≡ list_all (λ y. verdict_inside self.now y place) children.now }
    {
        for child in children {
            if !self.inside(*child, place) {
                return false;
            }
        }
        true
    }
}
