// Which of the alternatives that the conditions of a literal make is followed, and by which fields of the document it was chosen.
use crate::written::{Spelled, fields_of};
use cs_flat::{Flat, Item};
use cs_grammar::{Expr, Field, Site};
use cs_instance::holds_simply;
use cs_instance_reasons::InstanceCause;
use cs_package::{FieldMark, Part, Shape};
use cs_reason_words::{Made, Way, item_at, number_under};
use std::alloc::Global;
use std::collections::BTreeSet;

/// The alternative that is followed, of those that the conditions of a literal make.
#[derive(Clone, Copy, Drop)]
pub(crate) struct Choice<'t> {
    flat: &'t Flat<'t>,
    /// The alternatives, and the same in the files that the sources stand for.
    shapes: &'t [Shape],
    trees: &'t [Expr],
    followed: Alternative<'t>,
    /// The number of the map.
    item: usize,
    /// How many bytes its pointer has.
    pub(crate) pointer: usize,
    /// The place of the declaration that is followed from there, if one is.
    pub(crate) declaration: Option<usize>,
}

/// A struct literal, with what each of its declarations is in the files that the sources stand for.
#[derive(Clone, Copy, Drop)]
struct Alternative<'t> {
    parts: &'t [Part],
    fields: &'t [Field],
    opened: bool,
}

/// What an alternative has, or hasn't, so that a value is refused.
#[derive(Clone, Copy, Drop)]
pub(crate) enum Sought<'t> {
    /// The declaration that is written there.
    Declaration(&'t Site),
    /// One that allows a key.
    Key(&'t str),
}

/// Labels of a map, each with its value; none where the map hasn't the key.
type Members<'t> = Vec<(&'t str, Option<Item<'t>>)>;

/// The key of the member at a place of a map.
pub(crate) fn key_at<'t>(flat: &'t Flat<'t>, item: usize, member: usize) -> Option<&'t str> {
    match item_at(flat, item) {
        Item::Object(entries) => Some(entries.get(member)?.0),
        Item::Null | Item::Bool(_) | Item::Int(_) | Item::Text(_) | Item::List(_) => None,
    }
}

/// Whether what a condition makes of a field, an expression without parts or the kinds of values that are none of a literal, admits a value.
fn admits(shape: &Shape, value: &Item<'_>) -> bool {
    match shape {
        Shape::Or(operands) => operands.iter().any(|operand| admits_one(operand, value)),
        one => admits_one(one, value),
    }
}

fn admits_one(shape: &Shape, value: &Item<'_>) -> bool {
    match shape {
        Shape::Struct { .. } => matches!(value, Item::Object(_)),
        Shape::List { .. } => matches!(value, Item::List(_)),
        simple => holds_simply(simple, value),
    }
}

/// Whether an expression without parts, or one of these, refuses a value.
fn refuses(shape: &Shape, value: &Item<'_>) -> bool {
    match shape {
        Shape::Or(operands) => operands.iter().all(|operand| refuses_one(operand, value)),
        Shape::And(operands) => operands.iter().any(|operand| refuses_one(operand, value)),
        one => refuses_one(one, value),
    }
}

fn refuses_one(shape: &Shape, value: &Item<'_>) -> bool {
    shape.simple().is_some() && !holds_simply(shape, value)
}

fn is_same_site(site: &Site, other: &Site) -> bool {
    site.at == other.at && site.by == other.by && site.all.as_slice() == other.all.as_slice()
}

impl<'t> Alternative<'t> {
    /// That at a place, if it is a struct literal.
    fn at(shapes: &'t [Shape], trees: &'t [Expr], place: usize) -> Option<Alternative<'t>> {
        let fields = fields_of(trees.get(place)?)?;
        match shapes.get(place)? {
            Shape::Struct { parts, opened } if parts.len() == fields.len() => Some(Alternative {
                parts,
                fields,
                opened: *opened,
            }),
            _ => None,
        }
    }

    fn has(self, sought: Sought<'_>) -> bool {
        let (mut parts, mut fields) = (self.parts.iter(), self.fields.iter());
        match sought {
            Sought::Declaration(site) => fields.any(|field| is_same_site(&field.site, site)),
            Sought::Key(key) => {
                let allows = |part: &Part| part.label.as_str() == key
                    || matches!(part.mark, FieldMark::Every { .. });
                self.opened || parts.any(allows)
            }
        }
    }
}

impl<'t> Choice<'t> {
    /// That of the alternative at a place, if conditions make these, those of a value that is a map and that a way has led to.
    pub(crate) fn of(
        flat: &'t Flat<'t>,
        shapes: &'t [Shape],
        spelled: Option<Spelled<'t>>,
        place: usize,
        way: &Way,
    ) -> Option<Choice<'t>> {
        let trees = spelled?.alternatives();
        let followed = Alternative::at(shapes, trees, place)?;
        let mut fields = followed.fields.iter();
        fields.any(|field| field.asked).then_some(Choice {
            flat,
            shapes,
            trees,
            followed,
            item: way.item,
            pointer: way.pointer.len(),
            declaration: None,
        })
    }

    /// How many declarations the alternatives have.
    pub(crate) fn size(self) -> usize {
        let count = self.shapes.len();
        self.shapes.iter().fold(count, |size, shape| match shape {
            Shape::Struct { parts, .. } => size.saturating_add(parts.len()),
            _ => size,
        })
    }

    /// The value under a key of the map, if there is one.
    fn member(self, key: &str) -> Option<Item<'t>> {
        let number = number_under(item_at(self.flat, self.item), key)?;
        Some(item_at(self.flat, number))
    }

    /// Whether the map has what a condition makes of a field.
    fn meets(self, part: &Part) -> bool {
        match self.member(part.label.as_str()) {
            Some(value) => admits(&part.value, &value),
            None => matches!(part.mark, FieldMark::Optional),
        }
    }

    /// The labels of the fields that the conditions of an alternative ask for, and that the map hasn't so.
    fn unmet(self, alloc: Global, asking: Alternative<'t>) -> Made<BTreeSet<&'t str>> {
        let mut labels = BTreeSet::new(alloc);
        for (part, field) in asking.parts.iter().zip(asking.fields) {
            if field.asked && !self.meets(part) {
                labels.insert(part.label.as_str())?;
            }
        }
        Ok(labels)
    }

    /// Of these labels those of fields that conditions ask for, each once, with their values.
    fn asked(self, alloc: Global, mut labels: BTreeSet<&str>) -> Made<Members<'t>> {
        let Alternative { parts, fields, .. } = self.followed;
        let mut asked = Vec::new(alloc);
        for (part, field) in parts.iter().zip(fields) {
            let label = part.label.as_str();
            if field.asked && labels.remove(label) {
                asked.push((label, self.member(label)))?;
            }
        }
        Ok(asked)
    }

    /// What the alternative has, or hasn't, by which a cause refuses a value in it, or inside of it.
    pub(crate) fn sought(self, cause: &InstanceCause) -> Option<Sought<'t>> {
        let place = match (self.declaration, cause) {
            (Some(place), _) => place,
            (None, InstanceCause::Missing { declaration, .. }) => *declaration,
            (None, InstanceCause::Extra { member, .. }) => {
                return Some(Sought::Key(key_at(self.flat, self.item, *member)?));
            }
            (None, _) => return None,
        };
        Some(Sought::Declaration(&self.followed.fields.get(place)?.site))
    }

    /// The fields that would have to be other ones for the alternative to have what is sought, where it hasn't, or the other way round: as few
    /// as may be, and none where all alternatives do the same. Nothing is known where the map fails its conditions, or meets those of one that
    /// does otherwise.
    pub(crate) fn fields(self, alloc: Global, sought: Sought<'_>) -> Made<Option<Members<'t>>> {
        let has = self.followed.has(sought);
        let mut labels = BTreeSet::new(alloc);
        let mut least = usize::MAX;
        for place in 0..self.shapes.len() {
            let Some(other) = Alternative::at(self.shapes, self.trees, place) else {
                return Ok(None);
            };
            if other.has(sought) == has {
                continue;
            }
            let mut unmet = self.unmet(alloc, other)?;
            if unmet.len() < least {
                least = unmet.len();
                labels.clear();
            }
            if unmet.len() == least {
                labels.append(&mut unmet)?;
            }
        }
        let unmet = self.unmet(alloc, self.followed)?;
        if least == 0 || (least < usize::MAX && !unmet.is_empty()) {
            return Ok(None);
        }
        Ok(Some(self.asked(alloc, labels)?))
    }

    /// Where a condition alone asks for the field whose value is refused, another declaration of it that refuses it too, and tells more.
    pub(crate) fn told_by(self) -> Option<&'t Part> {
        let Alternative { parts, fields, .. } = self.followed;
        let place = self.declaration?;
        let label = parts.get(place)?.label.as_str();
        fields.get(place).filter(|field| field.asked)?;
        let value = self.member(label)?;
        let refuses_too = |other: &(&Part, &Field)| {
            !other.1.asked && other.0.label.as_str() == label && refuses(&other.0.value, &value)
        };
        Some(parts.iter().zip(fields).find(refuses_too)?.0)
    }
}
