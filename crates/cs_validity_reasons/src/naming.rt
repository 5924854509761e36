// Reasons with the keys that their causes are about.
ghost use Rattle.std.specs.Prelude.{◌≡◌, ℕ, List, [], Some, Contains, get_or, map, slice_get, IfOk};
ghost use Rattle.std.specs.List.{AllZip};
ghost use Rattle.cs_document.specs.Document.{Entry};
ghost use Rattle.cs_document.specs.Opened.{an_object};
ghost use Rattle.cs_flat.specs.View.{entry_of};
ghost use Rattle.cs_reasons.specs.Told.{pair_at};
ghost use Rattle.cs_validity_reasons.specs.PlacedCauses.{members_in, required_in};
ghost use Rattle.cs_validity_reasons.specs.PlacedTold.{key_in, item_at, rule_at, IsNamed};
ghost use Rattle.cs_validity_reasons.specs.Renamed.{IsUpRenamed, IsLinkRenamed, IsReasonRenamed, AreRenamed};

use crate::ValidCause;
use crate::cause::PlacedCause;
use cs_flat::{Flat, Item};
use cs_reasons::{Link, Reason, Reasons, Up};
use cs_rules::Rulebook;
use cs_validate::Rule;
use std::alloc::{AllocError, Global};

/// The rules and the values that causes name by their numbers.
#[derive(Drop)]
pub(crate) struct Named<'a, 'b> {
    pub(crate) book: &'a Rulebook<Rule<'b>>,
    pub(crate) flat: &'a Flat<'a>,
}

/// The key at a place; an empty one where there is none.
fn key_at<'a>(members: &[(&'a str, usize)], place: usize) -> &'a str
    ensures { result.now ≡ key_in (map entry_of members.now) place }
{
    match members.get(place) {
        Some(member) => member.0,
        None => "",
    }
}

/// The key under which a value is, looked for in turn; an empty one where it is under none.
fn find_key<'a>(members: &[(&'a str, usize)], value: usize) -> &'a str
    ensures { (k : List ℕ) → Contains (map entry_of members.now) (k, value)
        → Contains (map entry_of members.now) (result.now, value) }
{
    for member in members {
        if member.1 == value {
            return member.0;
        }
    }
    ""
}

/// The key under which a value is, looked for by halving where the numbers of values ascend.
fn key_of<'a>(members: &[(&'a str, usize)], value: usize) -> &'a str
    ensures { (k : List ℕ) → Contains (map entry_of members.now) (k, value)
        → Contains (map entry_of members.now) (result.now, value) }
{
    if let Ok(place) = members.binary_search_by_key(&value, |member| member.1) {
        if place < members.len() && members[place].1 == value {
            return members[place].0;
        }
    }
    find_key(members, value)
}

/// The pair of a link; the first one where there is no such link.
fn pair_of(links: &[Link<PlacedCause>], link: usize) -> (usize, usize)
    ensures { result ≡ pair_at links.now link }
{
    match links.get(link) {
        Some(link) => (link.item, link.rule),
        None => (0, 0),
    }
}

impl<'a> Named<'a, '_> {
    /// The key at a place of a map; an empty one where the value is no map, or there is no such value.
    fn key(&self, item: usize, place: usize) -> &'a str
        ensures { result.now ≡ key_in (members_in (item_at self.now.flat.now item)) place }
    {
        if item >= self.flat.len() {
            return "";
        }
        match self.flat.item(item) {
            Item::Object(members) => key_at(members, place),
            Item::Null | Item::Bool(_) | Item::Int(_) | Item::Text(_) | Item::List(_) => "",
        }
    }

    /// The key of a map under which a value is.
    fn property(&self, item: usize, value: usize) -> &'a str
        ensures { (ms : List (Entry ℕ)) (k : List ℕ)
            → slice_get self.now.flat.now item ≡ Some (an_object ms) → Contains ms (k, value)
            → result.now ≡ k }
    {
        if item >= self.flat.len() {
            return "";
        }
        match self.flat.item(item) {
            Item::Object(members) => key_of(members, value),
            Item::Null | Item::Bool(_) | Item::Int(_) | Item::Text(_) | Item::List(_) => "",
        }
    }

    /// The name at a place of those that a rule requires.
    fn required(&self, rule: usize, place: usize) -> &'a str
        ensures { result.now ≡ get_or
            (required_in (rule_at self.now.book.now.numbering.rules.items rule)) place [] }
    {
        match self.book.numbering.rules.get(rule) {
            Some(Rule::Object(conjunction)) => match conjunction.keywords.required.get(place) {
                Some(name) => name.as_str(),
                None => "",
            },
            Some(Rule::Truth(_)) | None => "",
        }
    }

    /// A cause of the pair of a value and a rule, with its key.
    fn cause(&self, pair: (usize, usize), cause: PlacedCause) -> ValidCause<'a>
        ensures { IsNamed self.now.flat.now self.now.book.now.numbering.rules.items
            self.now.book.now.numbering.children.items pair cause result }
    {
        match cause {
            PlacedCause::Reference { item, rule } => ValidCause::Reference { item, rule },
            PlacedCause::Part { item, rule, place } => ValidCause::Part { item, rule, place },
            PlacedCause::Alternative { item, rule, place } => {
                ValidCause::Alternative { item, rule, place }
            }
            PlacedCause::Property { item, rule, .. } => ValidCause::Property {
                key: self.property(pair.0, item),
                item,
                rule,
            },
            PlacedCause::Additional { key, item, rule } => ValidCause::Additional {
                key: self.key(pair.0, key),
                item,
                rule,
            },
            PlacedCause::Prefix { place, item, rule } => ValidCause::Prefix { place, item, rule },
            PlacedCause::Items { place, item, rule } => ValidCause::Items { place, item, rule },
            PlacedCause::Never => ValidCause::Never,
            PlacedCause::Missing { key } => ValidCause::Missing {
                key: self.required(pair.1, key),
            },
            PlacedCause::Keyword(keyword) => ValidCause::Keyword(keyword),
            PlacedCause::NoAlternative => ValidCause::NoAlternative,
        }
    }

    /// What leads to a pair, with its key.
    fn up(
        &self,
        links: &[Link<PlacedCause>],
        up: &Option<Up<PlacedCause>>,
    ) -> Option<Up<ValidCause<'a>>>
        ensures { IsUpRenamed (IsNamed self.now.flat.now self.now.book.now.numbering.rules.items
            self.now.book.now.numbering.children.items) links.now up.now result }
    {
        match up {
            Some(up) => Some(Up {
                link: up.link,
                cause: self.cause(pair_of(links, up.link), up.cause),
            }),
            None => None,
        }
    }

    /// The pairs on the chains, with the keys of their causes.
    fn links(
        &self,
        alloc: Global,
        links: &[Link<PlacedCause>],
    ) -> Result<Vec<Link<ValidCause<'a>>>, AllocError>
        ensures { IfOk result (λ v. AllZip (IsLinkRenamed (IsNamed self.now.flat.now
            self.now.book.now.numbering.rules.items self.now.book.now.numbering.children.items)
            links.now) links.now v.items) }
    {
        let mut named = Vec::with_capacity(alloc, links.len())?;
        for link in links {
            let up = self.up(links, &link.up);
            named.push(Link {
                item: link.item,
                rule: link.rule,
                up,
                as_close: link.as_close,
            })?;
        }
        Ok(named)
    }

    /// The reasons that are told, with the keys of their causes.
    fn told(
        &self,
        alloc: Global,
        links: &[Link<PlacedCause>],
        told: &[Reason<PlacedCause>],
    ) -> Result<Vec<Reason<ValidCause<'a>>>, AllocError>
        ensures { IfOk result (λ v. AllZip (IsReasonRenamed (IsNamed self.now.flat.now
            self.now.book.now.numbering.rules.items self.now.book.now.numbering.children.items)
            links.now) told.now v.items) }
    {
        let mut named = Vec::with_capacity(alloc, told.len())?;
        for reason in told {
            let cause = self.cause(pair_of(links, reason.link), reason.cause);
            named.push(Reason {
                link: reason.link,
                cause,
            })?;
        }
        Ok(named)
    }

    /// The same reasons with their keys. Only memory can run out.
    pub(crate) fn reasons(
        &self,
        alloc: Global,
        reasons: &Reasons<PlacedCause>,
    ) -> Result<Reasons<ValidCause<'a>>, AllocError>
        ensures { IfOk result (AreRenamed (IsNamed self.now.flat.now
            self.now.book.now.numbering.rules.items self.now.book.now.numbering.children.items)
            reasons.now) }
    {
        let links = self.links(alloc, &reasons.links)?;
        let told = self.told(alloc, &reasons.links, &reasons.told)?;
        Ok(Reasons {
            links,
            told,
            count: reasons.count,
        })
    }
}
