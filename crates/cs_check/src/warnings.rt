// The definitions that have no instance, each with a line, and why they have none: in words, of which nothing is proved. What is asked of one document,
// as expressions each of which it has to be an instance of, is looked at until one reason is found.
ghost use Rattle.std.specs.Prelude.{◌≡◌, ℕ, true, Some, IfOk, slice_get};
ghost use Rattle.std.specs.List.{AllByRecursion};
ghost use Rattle.cs_question.specs.NoInstance.{HasNoDocument};

use cs_fault_words::{Names, Profile, put_offset, put_quoted};
use cs_guard::Guarded;
use cs_package::{FieldMark, Kind, Literal, Package, Part, Relation, Shape, ShapeEnd};
use cs_place::Named;
use cs_profile::JsonKind;
use cs_question::{QuestionFault, without_instance};
use cs_sources::{Declared, Made, declared_in, sources_of};
use std::alloc::{AllocError, Global};
use std::collections::{BTreeMap, BTreeSet};

/// The most steps for one definition: the expressions that are looked at, and their parts.
const MOST_OF_ONE: usize = 100_000;
/// The most steps for all definitions of a package together.
const MOST_OF_ALL: usize = 1_000_000;
/// How deep a reason may lie: in parts of parts, and in alternatives that are taken at once.
const MOST_DEPTH: usize = 64;

/// A definition that no document is an instance of, by its number, and why, where a reason was found.
#[derive(Drop)]
pub struct Warning<'a> {
    pub definition: usize,
    reason: Option<Reason<'a>>,
}

/// The definitions that no document is an instance of, as far as they are found: by the question of `cs_question::without_instance`,
/// where it stays within its limits. Only memory can run out.
pub fn warned<'a>(alloc: Global, package: &'a Guarded) -> Made<Vec<Warning<'a>>>
    ensures none { IfOk result (λ v. AllByRecursion (λ w. HasNoDocument «package».now w.definition) v.items) }
{
    match without_instance(alloc, package) {
        Ok(empty) => told(alloc, package.package(), &empty),
        Err(QuestionFault::OutOfMemory) => Err(AllocError),
        Err(QuestionFault::TooManyCases | QuestionFault::UnknownRoot) => Ok(Vec::new(alloc)),
    }
}

/// A warning for each definition that is known to have no instance.
fn told<'a>(alloc: Global, package: &'a Package, empty: &[bool]) -> Made<Vec<Warning<'a>>>
    ensures { IfOk result (λ v. AllByRecursion (λ w. slice_get empty.now w.definition ≡ Some true) v.items) }
{
    let mut search = Search {
        alloc,
        package,
        empty,
        root: 0,
        left: 0,
        left_of_others: MOST_OF_ALL,
    };
    let mut warnings = Vec::new(alloc);
    for (definition, is_empty) in empty.iter().enumerate() {
        if *is_empty {
            let reason = search.why_empty(definition)?;
            warnings.push(Warning { definition, reason })?;
        }
    }
    Ok(warnings)
}

/// The lines of the warnings of a package, which these sources spell: where each definition is declared first, that it has no instance, and why
/// where that was found.
pub(crate) fn warning_lines(alloc: Global, package: &Guarded, named: &[Named<'_>]) -> Made<String> {
    let warnings = warned(alloc, package)?;
    if warnings.is_empty() {
        return Ok(String::new(alloc));
    }
    let sources = sources_of(alloc, Profile::Wide, named)?;
    let declared = declared_in(alloc, &sources)?;
    lines_of(package.package(), &warnings, &declared)
}

/// The lines of warnings of a package, whose definitions are declared there.
fn lines_of(package: &Package, told: &[Warning<'_>], declared: &Declared<'_, '_>) -> Made<String> {
    let mut lines = String::new(declared.alloc());
    let names = Names::of(declared.alloc(), declared)?;
    for warning in told {
        let (name, _) = definition_at(package, warning.definition);
        if let Some(first) = names.first(name) {
            put_offset(&mut lines, first.source.named, first.here().start)?;
        }
        lines.push_str("warning: no document is an instance of ")?;
        names.put(&mut lines, name)?;
        if let Some(reason) = warning.reason {
            lines.push_str(": ")?;
            reason.put(&mut lines, &names)?;
        }
        lines.push('\n')?;
    }
    Ok(lines)
}

const KINDS: Reason<'static> = Reason::Said("its operands are of different kinds");

const NO_ALTERNATIVE: Reason<'static> = Reason::Said("none of its alternatives has an instance");

const ITSELF: Reason<'static> = Reason::Said("each instance would need another one inside it");

/// Why no document is an instance of a definition, as far as one reason was found.
#[derive(Clone, Copy, PartialEq, Eq)]
enum Reason<'a> {
    /// What these words say.
    Said(&'static str),
    /// The closed struct is in a body of the definition of that name.
    MissingKey { key: &'a str, closed: &'a str },
    Field { key: &'a str },
    Element { place: usize },
    Through { name: &'a str },
}

impl<'a> Reason<'a> {
    /// The reason of the whole, where this one is that of a part.
    fn around(self, whole: Reason<'a>) -> Reason<'a> {
        if self == ITSELF { self } else { whole }
    }

    /// What this reason of an alternative has in common with that of those before it.
    fn in_common(self, before: Option<Reason<'a>>) -> Reason<'a> {
        match (before, self) {
            (None, _) => self,
            (Some(first), _) if first == self || first == ITSELF => first,
            // Perhaps the key is missing in another struct.
            (Some(Reason::MissingKey { key, closed }), Reason::MissingKey { key: other, .. })
                if key == other && !key.is_empty() => Reason::MissingKey { key, closed },
            _ => self.around(Reason::Said("none of its alternatives meets what else it asks")),
        }
    }

    /// Puts it in words, with the names that authors wrote.
    fn put(self, text: &mut String, names: &Names<'_, '_>) -> Made<()> {
        match self {
            Reason::Said(words) => text.push_str(words),
            Reason::MissingKey { key, closed } => {
                put_quoted(text, "it requires ", key)?;
                text.push_str(", and ")?;
                names.put(text, closed)?;
                text.push_str(", which is closed, doesn't allow it")
            }
            Reason::Field { key } => put_quoted(text, "nothing may stand under its key ", key),
            Reason::Element { place } => {
                write!(text, "nothing may stand at place {place} of its list")
            }
            Reason::Through { name } => {
                text.push_str("it refers to ")?;
                names.put(text, name)?;
                text.push_str(", which has none")
            }
        }
    }
}

/// An expression, which stands in a body of the definition of that name.
#[derive(Clone, Copy)]
struct Operand<'a> {
    shape: &'a Shape,
    definition: &'a str,
}

/// Adds expressions of a body of a definition.
fn put_shapes<'a>(to: &mut Vec<Operand<'a>>, shapes: &'a [Shape], definition: &'a str) -> Made<()> {
    to.reserve(shapes.len())?;
    to.extend(shapes.iter().map(|shape| Operand { shape, definition }))
}

impl<'a> Operand<'a> {
    /// What a look at it takes: one step, and one for each of its parts.
    fn cost(self) -> usize {
        let parts = match self.shape {
            Shape::Struct { parts, .. } => parts.len(),
            Shape::List { front, .. } => front.len(),
            _ => 0,
        };
        parts.saturating_add(1)
    }

    /// What it asks of the element at a place, if it is a list literal.
    fn element_at(self, place: usize) -> Option<Operand<'a>> {
        let Shape::List { front, end } = self.shape else {
            return None;
        };
        let shape = match (front.get(place), end) {
            (Some(element), _) => element,
            (None, ShapeEnd::Each(each)) => &**each,
            (None, ShapeEnd::Closed | ShapeEnd::Any) => return None,
        };
        Some(Operand { shape, ..self })
    }
}

/// What is asked of the value under a key, or of the values under all.
#[derive(Drop)]
struct Field<'a> {
    is_required: bool,
    operands: Vec<Operand<'a>>,
    /// How many closed structs declare it, from the first on, before one that doesn't.
    allowed: usize,
}

/// What structs ask of the values under their labels, and under none of the values under every key.
type Fields<'a> = BTreeMap<Option<&'a str>, Field<'a>>;

/// What the structs among these ask, and for each closed one, which allows its labels alone, the name of the definition in whose body it stands.
fn fields_of<'a>(alloc: Global, operands: &[Operand<'a>]) -> Made<(Fields<'a>, Vec<&'a str>)> {
    let (mut fields, mut closed) = (BTreeMap::new(alloc), Vec::new(alloc));
    let is_every = |part: &Part| matches!(part.mark, FieldMark::Every { .. });
    for operand in operands {
        let Shape::Struct { parts, opened } = operand.shape else {
            continue;
        };
        let is_closed = !opened && !parts.iter().any(is_every);
        for part in parts {
            let label = (!is_every(part)).then_some(part.label.as_str());
            let none = Field {
                is_required: false,
                operands: Vec::new(alloc),
                allowed: 0,
            };
            let field = fields.entry(label)?.or_insert(none);
            field.is_required |= matches!(part.mark, FieldMark::Regular | FieldMark::Required);
            let is_next = is_closed && field.allowed == closed.len();
            field.allowed = field.allowed.saturating_add(usize::from(is_next));
            let shape = &part.value;
            field.operands.push(Operand { shape, ..*operand })?;
        }
        if is_closed {
            closed.push(operand.definition)?;
        }
    }
    Ok((fields, closed))
}

/// The one kind of documents that an expression admits, where its form says so; none where it says nothing or admits several.
fn kind_of(shape: &Shape) -> Option<JsonKind> {
    Some(match shape {
        Shape::Null => JsonKind::Null,
        Shape::Bool(_) | Shape::Kind(Kind::Bool) => JsonKind::Boolean,
        Shape::Text(_) | Shape::NotText(_) | Shape::Kind(Kind::Text) => JsonKind::String,
        Shape::Int(_) | Shape::NotInt(_) | Shape::Kind(_) => JsonKind::Integer,
        Shape::Range { .. } | Shape::Bound { .. } => JsonKind::Integer,
        Shape::List { .. } => JsonKind::Array,
        Shape::Struct { .. } => JsonKind::Object,
        _ => return None,
    })
}

/// The integers that an expression admits, or the lengths of its lists, by their ends; those of an empty interval where there is none.
fn ends_of(shape: &Shape) -> (i64, i64) {
    let (none, least, greatest) = ((i64::MAX, i64::MIN), i64::MIN, i64::MAX);
    match shape {
        Shape::Int(n) => (*n, *n),
        Shape::Range { least, greatest } => (*least, greatest.unwrap_or(i64::MAX)),
        Shape::Bound { relation, limit } => match relation {
            Relation::AtLeast => (*limit, greatest),
            Relation::AtMost => (least, *limit),
            Relation::More => limit.checked_add(1).map_or(none, |next| (next, greatest)),
            Relation::Less => limit.checked_sub(1).map_or(none, |last| (least, last)),
        },
        Shape::List { front, end } => {
            let length = i64::try_from(front.len()).unwrap_or(greatest);
            let is_closed = matches!(end, ShapeEnd::Closed);
            (length, if is_closed { length } else { greatest })
        }
        _ => (least, greatest),
    }
}

/// Why no document meets all of the operands, as far as it is seen without looking at its parts.
fn clash<'a>(operands: &[Operand<'a>]) -> Option<Reason<'a>> {
    let (mut kind, mut named) = (None, None);
    let (mut least, mut greatest) = (i64::MIN, i64::MAX);
    for operand in operands {
        let own = kind_of(operand.shape);
        if own.or(kind) != kind.or(own) {
            return Some(KINDS);
        }
        kind = kind.or(own);
        named = named.or(operand.shape.literal());
        let (first, last) = ends_of(operand.shape);
        (least, greatest) = (first.max(least), last.min(greatest));
    }
    // The one value that is left.
    let value = named.or((least == greatest).then_some(Literal::Int(least)));
    let is_left_out = |operand: &Operand<'_>| {
        let other = operand.shape.excluded();
        operand.shape.literal().or(value) != value || other.is_some() && other == value
    };
    let reason = match (kind, value) {
        (Some(JsonKind::Null), _) => KINDS,
        (_, Some(_)) => Reason::Said("its operands are different values"),
        (Some(JsonKind::Array), None) => Reason::Said("its lists have different lengths"),
        (_, None) => Reason::Said("its limits leave no integer"),
    };
    (least > greatest || operands.iter().any(is_left_out)).then_some(reason)
}

/// The name of a definition with its `#`, and its bodies; nothing where there is no such definition.
fn definition_at(package: &Package, definition: usize) -> (&str, &[Shape]) {
    if definition < package.count() {
        (package.name(definition), package.bodies(definition))
    } else {
        ("", &[])
    }
}

/// The reason that was found, if any.
type Found<'a> = Made<Option<Reason<'a>>>;

/// A search for reasons.
#[derive(Drop)]
struct Search<'a, 'e> {
    alloc: Global,
    package: &'a Package,
    /// Which definitions are known to have no instance.
    empty: &'e [bool],
    /// The definition that is asked about.
    root: usize,
    /// The steps that are left for it, and for all others.
    left: usize,
    left_of_others: usize,
}

impl<'a, 'e> Search<'a, 'e> {
    /// Why nothing is an instance of a definition; none where no reason is found within the limits.
    fn why_empty(&mut self, definition: usize) -> Found<'a> {
        let left = self.left_of_others.saturating_add(self.left);
        self.left = left.min(MOST_OF_ONE);
        self.left_of_others = left.saturating_sub(self.left);
        self.root = definition;
        let (name, bodies) = definition_at(self.package, definition);
        let mut operands = Vec::new(self.alloc);
        put_shapes(&mut operands, bodies, name)?;
        self.why(operands, MOST_DEPTH)
    }

    /// Adds the operands in the place of references and conjunctions, as far as the steps are enough, and until one is found that has no instance
    /// by itself: then why.
    fn open(&mut self, mut waiting: Vec<Operand<'a>>, opened: &mut Vec<Operand<'a>>) -> Found<'a> {
        let mut never = None;
        // The definitions that were referred to.
        let mut seen = BTreeSet::new(self.alloc);
        for place in 0..self.left {
            let goes_on = self.left > 0 && never.is_none();
            let Some(operand) = waiting.get(place).copied().filter(|_| goes_on) else {
                break;
            };
            self.left = self.left.saturating_sub(operand.cost());
            match operand.shape {
                Shape::Bottom => never = Some(Reason::Said("it asks for `_|_`")),
                Shape::Definition(number) if *number == self.root => never = Some(ITSELF),
                Shape::Definition(number) => {
                    let (name, bodies) = definition_at(self.package, *number);
                    if self.empty.get(*number) == Some(&true) {
                        never = Some(Reason::Through { name });
                    } else if seen.insert(*number)? {
                        put_shapes(&mut waiting, bodies, name)?;
                    }
                }
                Shape::And(shapes) => put_shapes(&mut waiting, shapes, operand.definition)?,
                _ => opened.push(operand)?,
            }
        }
        Ok(never)
    }

    /// Why no document meets all of these operands.
    #[cycle(why)]
    fn why(&mut self, operands: Vec<Operand<'a>>, depth: usize) -> Found<'a> {
        if depth == 0 || self.left == 0 {
            return Ok(None);
        }
        let mut opened = Vec::new(self.alloc);
        let never = self.open(operands, &mut opened)?;
        let known = clash(&opened).or(never);
        if known.is_some() || self.left == 0 {
            return Ok(known);
        }
        match self.why_inside(&opened, depth - 1)? {
            Some(reason) => Ok(Some(reason)),
            None => self.why_choice(opened, depth - 1),
        }
    }

    /// Why nothing may stand at a place of a list, or under a required key, where all operands admit documents of one kind.
    #[cycle(why)]
    fn why_inside(&mut self, operands: &[Operand<'a>], depth: usize) -> Found<'a> {
        let lengths = operands.iter().map(|operand| match operand.shape {
            Shape::List { front, .. } => front.len(),
            _ => 0,
        });
        for place in 0..lengths.fold(0, usize::max).min(self.left) {
            let mut asked = Vec::new(self.alloc);
            for element in operands.iter().filter_map(|list| list.element_at(place)) {
                asked.push(element)?;
            }
            if let Some(reason) = self.why(asked, depth)? {
                return Ok(Some(reason.around(Reason::Element { place })));
            }
        }
        let (fields, closed) = fields_of(self.alloc, operands)?;
        for (label, field) in &fields {
            if let Some(key) = label.filter(|_| field.is_required)
                && let Some(closed) = closed.get(field.allowed).copied()
            {
                return Ok(Some(Reason::MissingKey { key, closed }));
            }
        }
        let every = fields.get(&None);
        for (label, field) in &fields {
            let Some(key) = label.filter(|_| field.is_required) else {
                continue;
            };
            let mut asked = field.operands.clone()?;
            if let Some(every) = every {
                asked.extend_from_slice(&every.operands)?;
            }
            if let Some(reason) = self.why(asked, depth)? {
                return Ok(Some(reason.around(Reason::Field { key })));
            }
        }
        Ok(None)
    }

    /// Why no alternative of the last choice meets all other operands: what the reasons of all have in common.
    #[cycle(why)]
    fn why_choice(&mut self, mut others: Vec<Operand<'a>>, depth: usize) -> Found<'a> {
        let mut common = None;
        let is_choice = |operand: &Operand<'_>| matches!(operand.shape, Shape::Or(_));
        if let Some(place) = others.iter().rposition(is_choice)
            && let choice = others.remove(place)
            && let Shape::Or(alternatives) = choice.shape
        {
            for shape in alternatives {
                let mut asked = others.clone()?;
                asked.push(Operand { shape, ..choice })?;
                let Some(reason) = self.why(asked, depth)? else {
                    return Ok(None);
                };
                common = Some(reason.in_common(common));
            }
        }
        Ok(match common {
            Some(reason) if others.is_empty() => Some(reason.around(NO_ALTERNATIVE)),
            Some(_) | None => common,
        })
    }
}
