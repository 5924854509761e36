// Forms that the wide profile refuses: of defaults, by the tokens around a mark or at a reference (5), and of embeddings (11).
use crate::forms::{Form, Found};
use crate::syntax::{form_in_condition, form_left_out, form_of_selected};
use cs_grammar::{Profile, Sort, Token};
use cs_sources::Separator::{Amp, Bar, Colon, Comma};
use cs_sources::{Declared, Inside, MOST_AROUND, Made, Near, Part, Separator, is_mark};
use std::iter::successors;

/// How many bytes of a part of a source are shown.
const MOST_SHOWN: usize = 60;
/// How many fields are compared.
const MOST_COMPARED: usize = 1_000;
/// How many of the definitions that are met first are asked whether they embed themselves: each is followed as far as it goes.
const MOST_ASKED: usize = 2;
/// How many definitions a literal is followed through.
const MOST_DEFINITIONS: usize = 64;
/// How many declarations are passed. Sources that stand for others have no more nodes.
const MOST_PASSED: usize = 50_000;

/// The label in brackets that the profile has.
const EVERY: &str = "[string]";

/// The form at a token that a profile leaves out: in the wide one that of a mark at fault, of a reference to a definition whose default
/// another declaration could exclude, of a condition, or of a selector behind a name. Only memory can run out.
pub fn form_left_out_in<'s, 'a>(
    near: Near<'s, 'a>,
    declared: &Declared<'_, 'a>,
) -> Made<Found<'s, 'a>> {
    let found = form_left_out(near);
    let other = form_in_condition(near, found.form).or(form_of_selected(near));
    if let Some(other) = other {
        return Ok(other);
    }
    let form = match found.form {
        form if near.source.profile == Profile::Default => form,
        Form::If => Form::IfOutside,
        Form::Let => Form::LetOutside,
        Form::HiddenName if near.before(1).text == "let" => Form::LetOutside,
        // Elsewhere it is a name that a struct or a file declares.
        Form::HiddenName => Form::Misplaced,
        Form::DefaultMark => form_of_default(near),
        form if near.here().sort != Sort::Definition => form,
        _ if near.begins_declaration() && near.inside() == Inside::File => Form::DefaultInside,
        _ => Form::ExcludedDefault,
    };
    let shown = match form {
        Form::ExcludedDefault => label_at(declared, near)?,
        _ => found.shown,
    };
    Ok(Found { form, ..found }.showing(shown))
}

/// The label of the field whose value a token is in, in parentheses or in none. Where the token embeds something, that of two declarations.
fn label_at<'a>(declared: &Declared<'_, 'a>, near: Near<'_, 'a>) -> Made<&'a str> {
    let source = near.source;
    let place = source.held_in_declaration(near.place);
    if let Some(colon) = (Near { source, place }).colon() {
        let label = source.label_before(colon.place);
        return Ok(label.map_or("x", |label| source.token(label).text));
    }
    let twice = first_twice(&fields_beside(declared, near)?, false);
    Ok(twice.and_then(|(_, label)| short(label)).unwrap_or("x"))
}

/// What is wrong with a mark of a default: its place, a mark before it, what it marks, or else another declaration.
fn form_of_default(mark: Near<'_, '_>) -> Form {
    let value = value_of(mark).unwrap_or(mark.part());
    let operand = value.part_around(Bar, mark.place);
    let is_operand = mark.place == operand.from && value.count(Bar) > 0;
    let first = value.find_first(Bar, |first| first.here().text == "*");
    let marked = operand.between(mark.place.saturating_add(1), operand.to);
    if !is_operand || !is_whole(mark, value) {
        Form::MisplacedDefault
    } else if first.is_some_and(|first| first.place < mark.place) {
        Form::SecondDefault
    } else if marked.any(|token| !is_of_literal(token.here())) {
        Form::DefaultValue
    } else {
        Form::ExcludedDefault
    }
}

/// The value that a token is in, in the same bracket: what is behind a label, an element of a list, or what parentheses hold.
fn value_of<'s, 'a>(near: Near<'s, 'a>) -> Option<Part<'s, 'a>> {
    let part = near.part();
    let from = match near.inside() {
        Inside::File | Inside::Struct => near.colon()?.place.checked_add(1)?,
        Inside::List if near.source.token(part.from).text == "..." => part.from.checked_add(1)?,
        Inside::List | Inside::Parentheses => part.from,
        Inside::Label => return None,
    };
    Some(part.between(from, part.to))
}

/// Whether a value, which a token is in, has nothing around it but parentheses.
fn is_whole(near: Near<'_, '_>, value: Part<'_, '_>) -> bool {
    let outer = successors(Some(near), |inner| {
        (inner.inside() == Inside::Parentheses).then_some(inner.bracket()?)
    });
    let whole = value_of(outer.take(MOST_AROUND).last().unwrap_or(near));
    whole.is_some_and(|whole| whole.without("").from == value.from)
}

/// Whether a literal may have a token: null, truth values, integers, texts, and the brackets of lists and of empty structs.
fn is_of_literal(token: Token<'_>) -> bool {
    let is_mark = ["-", ",", "[", "]", "{", "}", "(", ")"].contains(&token.text);
    let is_name = ["null", "true", "false"].contains(&token.text);
    is_mark || is_name || matches!(token.sort, Sort::Integer | Sort::Text | Sort::Inserted)
}

/// The form where a struct literal has to be opened: in the wide profile also where something is embedded that can't be, at a value that an embedding
/// would open, beside what a definition closed, and at a name that another struct declares too, or that is no definition. Only memory can run out.
pub fn form_closed<'s, 'a>(near: Near<'s, 'a>, declared: &Declared<'_, 'a>) -> Made<Found<'s, 'a>> {
    let (form, shown) = match near.source.profile {
        Profile::Default => (Form::NotOpened, ""),
        Profile::Wide if near.declares_name() => form_of_declared(near.name_declared()),
        Profile::Wide => match flaw_at(declared, near)? {
            Some((form, about)) => (form, short(about).unwrap_or("..")),
            None => closed_around(near).unwrap_or((Form::NotOpened, "")),
        },
    };
    Ok(Found::at(near, form).showing(shown))
}

/// The form of a declared name at fault beside structs that are joined, and the name: a struct may declare it again, and what is no definition is held open.
fn form_of_declared<'a>(name: Near<'_, 'a>) -> (Form, &'a str) {
    let here = name.here();
    let is_definition = here.sort == Sort::Definition || here.text.starts_with("_#");
    let is_literal = |token: Near<'_, '_>| ["{", ":", "["].contains(&token.here().text);
    let form = match name.source.declaration_at(name.place).declared() {
        _ if name.inside() != Inside::Struct || here.sort == Sort::Name => Form::HeldName,
        Some(value) if !is_definition && value.any(is_literal) => Form::JoinedName,
        _ => Form::RedeclaredName,
    };
    (form, here.text)
}

/// A text of a source as it is shown, where it is short and on one line.
fn short(text: &str) -> Option<&str> {
    let is_short = !text.is_empty() && text.len() <= MOST_SHOWN && !text.contains('\n');
    is_short.then_some(text)
}

/// What a definition closed in the innermost `&` around a token that has that: the operand, or its reference alone where that is long.
fn closed_around<'a>(near: Near<'_, 'a>) -> Flaw<'a> {
    let mut around = successors(Some(near), |inner| inner.bracket()).take(MOST_AROUND);
    around.find_map(|inner| {
        let operands = inner.conjunction()?;
        let reference = operands.closed_by()?;
        let before = operands.between(operands.from, reference.place);
        let operand = operands.part(Amp, before.count(Amp))?.text();
        let about = short(operand).unwrap_or(reference.here().text);
        Some((Form::ClosedOperand, about))
    })
}

/// What is wrong where something is embedded, and the expression, the definition or the label that it is about; none where nothing is.
type Flaw<'a> = Option<(Form, &'a str)>;

/// What is wrong with what is embedded at a token: a definition that embeds itself, or a part that is no struct; or else with a value there that
/// stands beside what is embedded.
fn flaw_at<'a>(declared: &Declared<'_, 'a>, near: Near<'_, 'a>) -> Made<Flaw<'a>> {
    if let Some(embedded) = near.embedding() {
        let found = Embedded::of(declared, embedded, true)?;
        for name in found.definitions.iter().take(MOST_ASKED) {
            if embeds_itself(declared, *name)? {
                return Ok(Some((Form::EmbeddedItself, *name)));
            }
        }
        if let Some(other) = found.other {
            let whole = other.source.declaration_at(other.from);
            let label = (whole.count(Colon) > 0).then_some(label_of(whole));
            return Ok(Some((Form::EmbeddedNoStruct, label.unwrap_or(other.text()))));
        }
    }
    Ok(first_twice(&fields_beside(declared, near)?, true))
}

/// Whether a definition embeds itself.
fn embeds_itself<'a>(declared: &Declared<'_, 'a>, name: &'a str) -> Made<bool> {
    for declaration in declared.named(name) {
        let body = declaration.part().declared().unwrap_or(declaration.part());
        let met = Embedded::of(declared, body, true)?.definitions;
        if met.contains(&name) {
            return Ok(true);
        }
    }
    Ok(false)
}

/// The fields that are put together with what is embedded at a token, or else with the field that the token is in.
fn fields_beside<'a>(declared: &Declared<'_, 'a>, near: Near<'_, 'a>) -> Made<Vec<Field<'a>>> {
    let Some(literal) = literal_around(near) else {
        return Ok(Vec::new(declared.alloc()));
    };
    let mut fields = Embedded::of(declared, literal, false)?.fields;
    if near.embedding().is_none() {
        let label = label_of(near.source.declaration_at(near.place));
        fields.retain(|field| may_share_key(field.label, label));
    }
    fields.truncate(MOST_COMPARED);
    Ok(fields)
}

/// What the literal holds that has the declaration which a token is in, whether by itself or by embedding literals that have it; or else the
/// operands of `&` that the literal is joined with.
fn literal_around<'s, 'a>(near: Near<'s, 'a>) -> Option<Part<'s, 'a>> {
    let source = near.source;
    let opening = source.declaration_at(near.place).first()?.bracket();
    let around = successors(opening, |inner| inner.embedding()?.first()?.bracket());
    let opening = around.take(MOST_AROUND).last()?;
    let place = source.held_in_declaration(opening.place);
    Near { source, place }.conjunction().or(opening.held())
}

/// That two fields declare one key, with the label of the first such key; where it is asked for, of two whose values would open one another.
fn first_twice<'a>(fields: &[Field<'a>], is_opened: bool) -> Flaw<'a> {
    for (place, first) in fields.iter().enumerate() {
        let mut others = fields.iter().skip(place.saturating_add(1));
        let second = others.find(|second| {
            let is_met = !is_opened || are_opened(*first, **second);
            is_met && may_share_key(first.label, second.label)
        });
        let Some(second) = second else { continue };
        return Some(match (first.label, second.label) {
            (EVERY, label) | (label, EVERY) if label != EVERY => (Form::EmbeddedBesideEvery, label),
            (label, _) => (Form::EmbeddedTwice, label),
        });
    }
    None
}

/// The label of a declaration: of those in brackets there is one.
fn label_of<'a>(declaration: Part<'_, 'a>) -> &'a str {
    let label = declaration.source.token(declaration.from).text;
    if label == "[" { EVERY } else { label }
}

/// Whether two labels may be of one key. Escapes aren't read.
fn may_share_key(label: &str, other: &str) -> bool {
    label == EVERY || other == EVERY || label.trim_matches('"') == other.trim_matches('"')
}

/// A field of a literal, or of what that embeds, and what its value holds.
#[derive(Clone, Copy)]
struct Field<'a> {
    label: &'a str,
    /// The token of the reference, or of the bracket, that brought it; none where it stands in the literal itself.
    brought: Option<usize>,
    /// Whether it holds a struct or a reference.
    holds: bool,
    /// Whether it was brought, and something in it is closed before anything is joined to it: a reference, or what `close` is called with.
    may_open: bool,
    /// The definition that it is a reference to.
    reference: Option<&'a str>,
}

/// Whether two values of one key would open one another, where each holds a struct or a reference: an embedding brought one of them, in which
/// something is closed, and the other one comes from elsewhere and isn't the same reference. CUE opens what an embedding brought.
fn are_opened(first: Field<'_>, second: Field<'_>) -> bool {
    first.holds
        && second.holds
        && (first.may_open || second.may_open)
        && first.brought != second.brought
        && (first.reference.is_none() || first.reference != second.reference)
}

/// What is embedded, whichever alternative is meant.
#[derive(Drop)]
struct Embedded<'s, 'a> {
    declared: &'s Declared<'s, 'a>,
    /// Whether what is embedded in values of fields is looked for, and not the fields.
    is_deep: bool,
    /// The bracket around what embeds it.
    bracket: usize,
    /// The fields, in the order in which they are met.
    fields: Vec<Field<'a>>,
    /// The definitions, each once.
    definitions: Vec<&'a str>,
    /// The first part that is no struct: neither a literal nor made of some.
    other: Option<Part<'s, 'a>>,
    /// Declarations and operands that are still to come, the next ones last; each with what separates them, and with the place of the embedded
    /// reference that brought them, if any.
    coming: Vec<(Part<'s, 'a>, Separator, Option<usize>)>,
}

impl<'s, 'a> Embedded<'s, 'a> {
    /// All that a part embeds: declarations of a literal, or what is embedded in one, as operands of `&` are.
    fn of(declared: &'s Declared<'s, 'a>, part: Part<'s, 'a>, is_deep: bool) -> Made<Self> {
        let alloc = declared.alloc();
        let mut found = Embedded {
            declared,
            is_deep,
            bracket: part.source.around(part.from),
            fields: Vec::new(alloc),
            definitions: Vec::new(alloc),
            other: None,
            coming: Vec::new(alloc),
        };
        found.pass_all(part)?;
        Ok(found)
    }

    /// Passes the declarations of a part, and what is still to come behind them.
    fn pass_all(&mut self, part: Part<'s, 'a>) -> Made<()> {
        self.coming.push((part, Comma, None))?;
        for _ in 0..MOST_PASSED {
            let Some((whole, separator, by)) = self.coming.pop() else {
                break;
            };
            let next = whole.part_around(separator, whole.from);
            if next.to < whole.to {
                let others = whole.between(next.to.saturating_add(1), whole.to);
                self.coming.push((others, separator, by))?;
            }
            if !self.pass(next, by)? {
                self.other = self.other.or(Some(next));
            }
        }
        Ok(())
    }

    /// Passes a declaration or an operand; whether it is a field or made of structs, as operands of `&` aren't where a definition closed one.
    fn pass(&mut self, next: Part<'s, 'a>, by: Option<usize>) -> Made<bool> {
        let whole = next.under_conditions().unwrap_or(next.without(""));
        let (part, separator) = match whole.inside("{") {
            _ if next.count(Colon) > 0 => return self.pass_field(next, by),
            Some(inside) => (inside, Comma),
            None if whole.count(Bar) > 0 => (whole, Bar),
            None if whole.count(Amp) == 0 => return self.pass_one(whole, by),
            None if whole.closed_by().is_some() => return Ok(false),
            None => (whole, Amp),
        };
        self.coming.push((part, separator, by))?;
        Ok(true)
    }

    /// Passes a field: it is one of those that are looked for, or else what literals embed in its value, at any depth, comes next.
    fn pass_field(&mut self, field: Part<'s, 'a>, by: Option<usize>) -> Made<bool> {
        if !self.is_deep {
            let field = self.field_of(field, by);
            self.fields.push(field)?;
            return Ok(true);
        }
        let Part { source, from, to } = field;
        for place in from..to {
            let token = Near { source, place };
            if token.begins_embedding() {
                self.coming.push((token.part(), Comma, by))?;
            }
        }
        Ok(true)
    }

    /// What a field is, and its value.
    fn field_of(&self, field: Part<'s, 'a>, by: Option<usize>) -> Field<'a> {
        let source = field.source;
        let bracket = source.around(field.from);
        let other = (bracket != self.bracket).then_some(source.bracket(bracket).first);
        let is_shut = field.any(|near| {
            let is_call = near.here().text == "close" && is_mark(near.behind(1), "(");
            is_call || near.here().sort == Sort::Definition
        });
        let value = field.declared().unwrap_or(field);
        let only = value.only().map(Near::here);
        let reference = only.filter(|only| only.sort == Sort::Definition);
        let brought = by.or(other);
        Field {
            label: label_of(field),
            brought,
            holds: is_shut || !value.is_plain(),
            may_open: is_shut && brought.is_some(),
            reference: reference.map(|reference| reference.text),
        }
    }

    /// The bodies of a definition that is embedded come next, unless it is already; whether they are followed, or `...` is embedded.
    fn pass_one(&mut self, one: Part<'s, 'a>, by: Option<usize>) -> Made<bool> {
        let here = one.source.token(one.from);
        if here.sort != Sort::Definition || one.only().is_none() {
            return Ok(one.first().is_none() || is_mark(here, "..."));
        }
        let is_met = self.definitions.contains(&here.text);
        if is_met || self.definitions.len() >= MOST_DEFINITIONS {
            return Ok(is_met);
        }
        self.definitions.push(here.text)?;
        for declaration in self.declared.named(here.text).iter().rev() {
            let whole = declaration.part();
            let body = whole.declared().unwrap_or(whole);
            self.coming.push((body, Comma, by.or(Some(one.from))))?;
        }
        Ok(true)
    }
}
