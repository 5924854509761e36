// Verdicts that a value's kind alone decides.
ghost use Rattle.std.specs.Prelude.{◌≡◌, ◌<◌, Bool, not, option_map};
ghost use Rattle.cs_flat.specs.View.{item_view};
ghost use Rattle.cs_rules.specs.Kinds.{both as both_of, either as either_of, kind_place};

use cs_flat::Item;

/// How many kinds of values there are.
pub(crate) const KIND_COUNT: usize = 6;

/// For each kind of values the verdict of a rule on all of them, where it is one; none where the rule has to look at the
/// value or at its parts.
#[derive(Clone, Copy, Drop)]
pub struct ByKind {
    pub null: Option<bool>,
    pub boolean: Option<bool>,
    pub integer: Option<bool>,
    pub text: Option<bool>,
    pub list: Option<bool>,
    pub object: Option<bool>,
}

/// Both of two verdicts: one that is no decides it.
fn both(first: Option<bool>, second: Option<bool>) -> Option<bool>
    ensures { result ≡ both_of first second }
{
    match (first, second) {
        (Some(false), _) | (_, Some(false)) => Some(false),
        (Some(true), Some(true)) => Some(true),
        (None, None | Some(true)) | (Some(true), None) => None,
    }
}

/// Either of two verdicts: one that is yes decides it.
fn either(first: Option<bool>, second: Option<bool>) -> Option<bool>
    ensures { result ≡ either_of first second }
{
    match (first, second) {
        (Some(true), _) | (_, Some(true)) => Some(true),
        (Some(false), Some(false)) => Some(false),
        (None, None | Some(false)) | (Some(false), None) => None,
    }
}

/// The other verdict.
fn opposite(verdict: Option<bool>) -> Option<bool>
    ensures { result ≡ option_map not verdict }
{
    verdict.map(|verdict| !verdict)
}

/// The place of a value's kind in a row of verdicts.
#[inline]
pub(crate) fn place_of(value: &Item<'_>) -> usize
    ensures place { result ≡ kind_place (item_view value.now) }
    ensures below { result < KIND_COUNT }
{
    match value {
        Item::Null => 0,
        Item::Bool(_) => 1,
        Item::Int(_) => 2,
        Item::Text(_) => 3,
        Item::List(_) => 4,
        Item::Object(_) => 5,
    }
}

impl ByKind {
    ghost use Rattle.std.specs.Prelude.{◌≡◌, ℕ, Bool, not, option_map};
    ghost use Rattle.std.specs.List.{list_all, list_any};
    ghost use Rattle.cs_document.specs.Opened.{Opened};
    ghost use Rattle.cs_rules.specs.Kinds.{
      verdict_of,
      row_of,
      both,
      either,
      decided_by,
      all_decided,
      any_decided,
      AreDecided,
      Decides,
    };

    /// The same verdict, or none, for every kind.
    pub fn of(verdict: Option<bool>) -> ByKind
        ensures { result ≡ record {
          null = verdict;
          boolean = verdict;
          integer = verdict;
          text = verdict;
          list = verdict;
          object = verdict;
        } }
    {
        ByKind {
            null: verdict,
            boolean: verdict,
            integer: verdict,
            text: verdict,
            list: verdict,
            object: verdict,
        }
    }

    /// The verdicts of two rules together.
    pub fn and(self, other: ByKind) -> ByKind
        ensures { (x : Opened ℕ)
            → verdict_of result x ≡ both (verdict_of self x) (verdict_of other x) }
    {
        ByKind {
            null: both(self.null, other.null),
            boolean: both(self.boolean, other.boolean),
            integer: both(self.integer, other.integer),
            text: both(self.text, other.text),
            list: both(self.list, other.list),
            object: both(self.object, other.object),
        }
    }

    /// The verdicts of one rule or another.
    pub fn or(self, other: ByKind) -> ByKind
        ensures { (x : Opened ℕ)
            → verdict_of result x ≡ either (verdict_of self x) (verdict_of other x) }
    {
        ByKind {
            null: either(self.null, other.null),
            boolean: either(self.boolean, other.boolean),
            integer: either(self.integer, other.integer),
            text: either(self.text, other.text),
            list: either(self.list, other.list),
            object: either(self.object, other.object),
        }
    }

    /// The verdicts of a rule that asks the opposite.
    pub fn negated(self) -> ByKind
        ensures { (x : Opened ℕ) → verdict_of result x ≡ option_map not (verdict_of self x) }
    {
        ByKind {
            null: opposite(self.null),
            boolean: opposite(self.boolean),
            integer: opposite(self.integer),
            text: opposite(self.text),
            list: opposite(self.list),
            object: opposite(self.object),
        }
    }

    /// The verdicts of an earlier rule: none where there is no such rule.
    pub fn at(rule: usize, earlier: &[ByKind]) -> ByKind
        ensures { (x : Opened ℕ) → verdict_of result x ≡ decided_by earlier.now x rule }
    {
        match earlier.get(rule) {
            Some(verdicts) => *verdicts,
            None => ByKind::of(None),
        }
    }

    /// The verdicts of a rule that asks all of these earlier ones.
    pub fn all(rules: &[usize], earlier: &[ByKind]) -> ByKind
        ensures found { (x : Opened ℕ)
            → verdict_of result x ≡ all_decided earlier.now x rules.now }
        ensures decides { (x : Opened ℕ) (here : ℕ → Bool) → AreDecided earlier.now x here
            → Decides (verdict_of result x) (list_all here rules.now) }
    {
        let mut verdicts = ByKind::of(Some(true));
        for rule in rules {
            verdicts = verdicts.and(ByKind::at(*rule, earlier));
        }
        verdicts
    }

    /// The verdicts of a rule that asks some of these earlier ones.
    pub fn any(rules: &[usize], earlier: &[ByKind]) -> ByKind
        ensures found { (x : Opened ℕ)
            → verdict_of result x ≡ any_decided earlier.now x rules.now }
        ensures decides { (x : Opened ℕ) (here : ℕ → Bool) → AreDecided earlier.now x here
            → Decides (verdict_of result x) (list_any here rules.now) }
    {
        let mut verdicts = ByKind::of(Some(false));
        for rule in rules {
            verdicts = verdicts.or(ByKind::at(*rule, earlier));
        }
        verdicts
    }

    /// The verdicts in a row, each at the place of its kind.
    pub(crate) fn row(&self) -> [Option<bool>; KIND_COUNT]
        ensures { result ≡ row_of self.now }
    {
        [
            self.null,
            self.boolean,
            self.integer,
            self.text,
            self.list,
            self.object,
        ]
    }
}
