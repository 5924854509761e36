// The output format `basic` (JSON Schema Core 2020-12, section 12.4.2).
use crate::schemas::{Schemas, put_keywords};
use cs_place::{Named, Position, Positions};
use cs_profile::Schema;
use cs_reason_words::{
    Entry, Made, Told, Written, chain_to, position_in, put_between, put_count, put_string, walk_to,
};
use cs_reasons::{Link, Reasons};
use cs_validity_reasons::ValidCause;
use std::alloc::Global;
use std::collections::BTreeSet;

/// How many bytes the units of schemas take at most, all together, and how many more for each reason that is told.
const MOST_BYTES: usize = 1_048_576;

const MOST_FOR_REASON: usize = 4096;

/// What a unit takes beside its places.
const UNIT_BYTES: usize = 128;

/// How many bytes a path of keywords has at most.
const MOST_OF_PATH: usize = 1024;

/// A path of keywords from the root, through references (Core, section 12.3.1). A long one ends behind the last reference before its limit.
#[derive(PartialEq, Eq, PartialOrd, Ord, Drop)]
struct Location {
    path: String,
    /// The end of the last reference in it before the limit.
    through: usize,
}

impl Location {
    /// That of the link at a place.
    fn of(alloc: Global, links: &[Link<ValidCause<'_>>], place: usize) -> Made<Location> {
        let path = String::new(alloc);
        let mut location = Location { path, through: 0 };
        for link in chain_to(alloc, links, place)? {
            if let Some(up) = &link.up {
                location.lead(&up.cause)?;
            }
        }
        Ok(location)
    }

    /// Leads on to what a cause leads to, or to the keyword that refuses.
    fn lead(&mut self, cause: &ValidCause<'_>) -> Written {
        if self.is_cut() {
            return Ok(());
        }
        put_keywords(&mut self.path, cause)?;
        if matches!(cause, ValidCause::Reference { .. }) && !self.is_cut() {
            self.through = self.path.len();
        }
        Ok(())
    }

    /// Whether the path is longer than it is told.
    fn is_cut(&self) -> bool {
        self.path.len() > MOST_OF_PATH
    }

    /// Puts it as the beginning of a unit; where it is cut with the place of the rule in the schema document too.
    fn put(&self, text: &mut String, rule: &str) -> Written {
        text.push_str("{\"valid\":false")?;
        if !self.is_cut() {
            return put_string(text, "keywordLocation", self.path.as_str());
        }
        let told = self.path.get(..self.through).unwrap_or("");
        put_string(text, "keywordLocation", told)?;
        text.push_str(",\"absoluteKeywordLocation\":\"#")?;
        for byte in rule.bytes().skip(1) {
            // These stand for themselves in the fragment of a URI (RFC 6901, section 6; RFC 3986, section 3.5).
            if byte.is_ascii_alphanumeric() || b"-._~!$&'()*+,;=:@/?".contains(&byte) {
                text.push(byte as char)?;
            } else {
                write!(text, "%{:02X}", byte)?;
            }
        }
        text.push('"')
    }
}

/// Puts the end of a unit, with the value.
fn put_value(text: &mut String, pointer: &str, error: &str, position: Position) -> Written {
    put_string(text, "instanceLocation", pointer)?;
    put_string(text, "error", error)?;
    put_count(text, "line", position.line)?;
    put_count(text, "column", position.column)?;
    text.push('}')
}

/// The output unit of a schema (Core, section 12.3), in the order of the values in the text, and of the paths of one value.
#[derive(PartialEq, Eq, PartialOrd, Ord, Drop)]
struct Unit {
    /// The offset of the value in the document's text.
    offset: usize,
    location: Location,
    /// The place of the value.
    pointer: String,
}

/// The places of the links on the chains to the reasons of entries.
fn on_chains(reasons: &Reasons<ValidCause<'_>>, told: &Told<'_>) -> Made<BTreeSet<usize>> {
    let alloc = *told.entries.allocator();
    let mut on = BTreeSet::new(alloc);
    for entry in &told.entries {
        if let Some(reason) = reasons.told.get(entry.number) {
            on.insert(reason.link)?;
            for link in chain_to(alloc, &reasons.links, reason.link)? {
                if let Some(up) = &link.up {
                    on.insert(up.link)?;
                }
            }
        }
    }
    Ok(on)
}

/// The units of the root and of the schemas on the chains to the reasons that are told. One that is `false` has that of its reason. One whose
/// path is too long to be told has none, nor have those that it leads to; and they end where they take too much together.
fn schema_units<'t>(
    words: &Schemas<'t>,
    reasons: &Reasons<ValidCause<'t>>,
    told: &Told<'t>,
) -> Made<Vec<Unit>> {
    let links = &reasons.links;
    let for_reasons = MOST_FOR_REASON.saturating_mul(told.entries.len());
    let mut room = for_reasons.saturating_add(MOST_BYTES);
    let mut with_units = BTreeSet::new(words.alloc);
    let mut units = Vec::new(words.alloc);
    for place in on_chains(reasons, told)?.iter().rev() {
        let up = links.get(*place).and_then(|link| link.up.as_ref());
        if room == 0 || up.is_some_and(|up| !with_units.contains(&up.link)) {
            continue;
        }
        let location = Location::of(words.alloc, links, *place)?;
        let (node, way) = walk_to(words.alloc, words, links, *place)?;
        if location.is_cut() || matches!(node.schema, Some(Schema::Always(false))) {
            continue;
        }
        with_units.insert(*place)?;
        let places = location.path.len().saturating_add(way.pointer.len());
        room = room.saturating_sub(places.saturating_add(UNIT_BYTES));
        units.push(Unit {
            offset: told.offset_of(*place),
            location,
            pointer: way.pointer,
        })?;
    }
    units.sort()?;
    Ok(units)
}

/// Puts the unit of the reason of an entry.
fn put_reason(text: &mut String, reasons: &Reasons<ValidCause<'_>>, entry: &Entry<'_>) -> Written {
    let Some(reason) = reasons.told.get(entry.number) else {
        return Ok(());
    };
    let mut location = Location::of(*text.allocator(), &reasons.links, reason.link)?;
    location.lead(&reason.cause)?;
    location.put(text, entry.way.path.as_str())?;
    let (pointer, error) = (entry.way.pointer.as_str(), entry.finding.text.as_str());
    put_value(text, pointer, error, entry.position)
}

/// Puts the member with the units of schemas, of which the root's is the first, and then those of the reasons that are told.
pub(crate) fn put_basic<'t>(
    text: &mut String,
    words: &Schemas<'t>,
    document: Named<'_>,
    reasons: &Reasons<ValidCause<'t>>,
    told: &Told<'t>,
) -> Written {
    let units = schema_units(words, reasons, told)?;
    let mut positions = Positions::new(document.text);
    text.push_str(",\"errors\":[")?;
    for (place, unit) in units.iter().enumerate() {
        let error = match unit.location.path.is_empty() {
            true => "the document is not valid",
            false => "the subschema is not valid",
        };
        put_between(text, place, ",")?;
        unit.location.put(text, "")?;
        let position = position_in(document, &mut positions, unit.offset);
        put_value(text, unit.pointer.as_str(), error, position)?;
    }
    for (place, entry) in told.entries.iter().enumerate() {
        put_between(text, units.len().saturating_add(place), ",")?;
        put_reason(text, reasons, entry)?;
    }
    text.push(']')
}
