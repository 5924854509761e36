// Schemas and their keywords.
use crate::Keyword;
use cs_document::Doc;
use std::alloc::Global;
use std::collections::BTreeMap;

/// The kinds that `type` names (JSON Schema Validation 2020-12, section 6.1.1).
#[derive(Clone, Copy, PartialEq, Eq)]
pub enum JsonKind {
    Null,
    Boolean,
    Object,
    Array,
    Number,
    String,
    Integer,
}

/// A schema: a truth value, or the conjunction of its keywords (JSON Schema Core 2020-12, section 4.3).
#[cycle(schema)]
pub enum Schema {
    Always(bool),
    Object(Box<Keywords>),
}

impl Drop for Schema {
    #[cycle(schema_drop)]
    fn drop(self) {
        match self {
            Schema::Always(_) => {}
            Schema::Object(_) => {}
        }
    }
}

/// The keywords of a schema object that say something of validity. One that is left out is `None`, or an
/// empty list or map; an empty `enum` is kept, so `one_of` is an `Option`.
#[cycle(schema)]
pub struct Keywords {
    /// `type`
    pub kind: Option<JsonKind>,
    /// `const`
    pub equal: Option<Doc>,
    /// `enum`
    pub one_of: Option<Vec<Doc>>,
    /// `minimum`
    pub minimum: Option<i64>,
    /// `maximum`
    pub maximum: Option<i64>,
    /// `exclusiveMinimum`
    pub above: Option<i64>,
    /// `exclusiveMaximum`
    pub below: Option<i64>,
    /// `maxItems`
    pub max_items: Option<i64>,
    /// `maxLength`
    pub max_length: Option<i64>,
    /// `maxProperties`
    pub max_properties: Option<i64>,
    /// `minItems`
    pub min_items: Option<i64>,
    /// `minLength`
    pub min_length: Option<i64>,
    /// `minProperties`
    pub min_properties: Option<i64>,
    /// `required`
    pub required: Vec<String>,
    /// `properties`
    pub properties: BTreeMap<String, Schema>,
    /// `additionalProperties`
    pub additional: Option<Schema>,
    /// `items`
    pub rest: Option<Schema>,
    /// `not`
    pub negated: Option<Schema>,
    /// `prefixItems`
    pub prefix: Vec<Schema>,
    /// `allOf`
    pub all_of: Vec<Schema>,
    /// `anyOf`
    pub any_of: Vec<Schema>,
    /// `$ref`: the name of the definition
    pub reference: Option<String>,
}

impl Drop for Keywords {
    #[cycle(schema_drop)]
    fn drop(self) {
        let Keywords {
            kind: _,
            equal: _,
            one_of: _,
            minimum: _,
            maximum: _,
            above: _,
            below: _,
            max_items: _,
            max_length: _,
            max_properties: _,
            min_items: _,
            min_length: _,
            min_properties: _,
            required: _,
            properties: _,
            additional: _,
            rest: _,
            negated: _,
            prefix: _,
            all_of: _,
            any_of: _,
            reference: _,
        } = self;
    }
}

/// A keyword's value, by its form.
pub enum KeywordValue {
    /// What says nothing of validity: a dialect, a text.
    Nothing,
    /// The name that a `$ref` refers to.
    Reference(String),
    Kind(JsonKind),
    Anything(Doc),
    Array(Vec<Doc>),
    /// An integer or a count.
    Integer(i64),
    Texts(Vec<String>),
    Schema(Schema),
    Schemas(Vec<Schema>),
    NamedSchemas(BTreeMap<String, Schema>),
}

impl Drop for KeywordValue {
    fn drop(self) {
        match self {
            KeywordValue::Nothing
            | KeywordValue::Reference(_)
            | KeywordValue::Kind(_)
            | KeywordValue::Anything(_)
            | KeywordValue::Array(_)
            | KeywordValue::Integer(_)
            | KeywordValue::Texts(_)
            | KeywordValue::Schema(_)
            | KeywordValue::Schemas(_)
            | KeywordValue::NamedSchemas(_) => {}
        }
    }
}

impl Keywords {
    ghost use Rattle.std.specs.Prelude.{◌≡◌};
    ghost use Rattle.cs_document.specs.Document.{no_members};
    ghost use Rattle.cs_profile.specs.SchemaDocument.{slots_of, present, with_value};

    /// The schema object without a keyword, which validates every document.
    pub fn empty(alloc: Global) -> Keywords
        ensures { present (slots_of result) ≡ no_members }
    {
        Keywords {
            kind: None,
            equal: None,
            one_of: None,
            minimum: None,
            maximum: None,
            above: None,
            below: None,
            max_items: None,
            max_length: None,
            max_properties: None,
            min_items: None,
            min_length: None,
            min_properties: None,
            required: Vec::new(alloc),
            properties: BTreeMap::new(alloc),
            additional: None,
            rest: None,
            negated: None,
            prefix: Vec::new(alloc),
            all_of: Vec::new(alloc),
            any_of: Vec::new(alloc),
            reference: None,
        }
    }

    /// The keywords with a value for one of them; an empty list or map of schemas leaves it out, and so does a value
    /// that doesn't have the keyword's form. `$schema`, `$defs` and the texts for readers change nothing.
    pub fn set(mut self, alloc: Global, keyword: Keyword, value: KeywordValue) -> Keywords
        ensures { slots_of result ≡ with_value keyword value (slots_of self) }
    {
        match keyword {
            Keyword::Ref => self.reference = value.reference(),
            Keyword::AdditionalProperties => self.additional = value.schema(),
            Keyword::AllOf => self.all_of = value.schemas(alloc),
            Keyword::AnyOf => self.any_of = value.schemas(alloc),
            Keyword::Const => self.equal = value.anything(),
            Keyword::Enum => self.one_of = value.array(),
            Keyword::ExclusiveMaximum => self.below = value.integer(),
            Keyword::ExclusiveMinimum => self.above = value.integer(),
            Keyword::Items => self.rest = value.schema(),
            Keyword::MaxItems => self.max_items = value.integer(),
            Keyword::MaxLength => self.max_length = value.integer(),
            Keyword::MaxProperties => self.max_properties = value.integer(),
            Keyword::Maximum => self.maximum = value.integer(),
            Keyword::MinItems => self.min_items = value.integer(),
            Keyword::MinLength => self.min_length = value.integer(),
            Keyword::MinProperties => self.min_properties = value.integer(),
            Keyword::Minimum => self.minimum = value.integer(),
            Keyword::Not => self.negated = value.schema(),
            Keyword::PrefixItems => self.prefix = value.schemas(alloc),
            Keyword::Properties => self.properties = value.named_schemas(alloc),
            Keyword::Required => self.required = value.texts(alloc),
            Keyword::Type => self.kind = value.kind(),
            // these have no field
            Keyword::Comment
            | Keyword::Defs
            | Keyword::Description
            | Keyword::Schema
            | Keyword::Title => {},
        }
        self
    }
}

impl KeywordValue {
    ghost use Rattle.std.specs.Prelude.{◌≡◌, option_map, map};
    ghost use Rattle.cs_document.specs.Document.{integer, text, list};
    ghost use Rattle.cs_document.specs.View.{doc_view, list_view};
    ghost use Rattle.cs_profile.specs.declared.keyword.Form.TheVariants as form;
    ghost use Rattle.cs_profile.specs.SchemaDocument.{value_at, reference_document, text_document, kind_name, schema_view, schemas_view, definitions_view, unless_no_list, unless_no_map};

    fn reference(self) -> Option<String>
        ensures { option_map reference_document result ≡ value_at form.Reference self }
    {
        match self {
            KeywordValue::Reference(name) => Some(name),
            _ => None,
        }
    }

    fn kind(self) -> Option<JsonKind>
        ensures { option_map (λ k. text (kind_name k)) result ≡ value_at form.Kind self }
    {
        match self {
            KeywordValue::Kind(kind) => Some(kind),
            _ => None,
        }
    }

    fn anything(self) -> Option<Doc>
        ensures { option_map doc_view result ≡ value_at form.Anything self }
    {
        match self {
            KeywordValue::Anything(doc) => Some(doc),
            _ => None,
        }
    }

    fn array(self) -> Option<Vec<Doc>>
        ensures { option_map (λ v. list (list_view v.items)) result ≡ value_at form.Array self }
    {
        match self {
            KeywordValue::Array(docs) => Some(docs),
            _ => None,
        }
    }

    fn integer(self) -> Option<i64>
        ensures integer { option_map integer result ≡ value_at form.Integer self }
        ensures count { option_map integer result ≡ value_at form.Count self }
    {
        match self {
            KeywordValue::Integer(n) => Some(n),
            _ => None,
        }
    }

    fn texts(self, alloc: Global) -> Vec<String>
        ensures { unless_no_list (map text_document result.items) ≡ value_at form.Texts self }
    {
        match self {
            KeywordValue::Texts(texts) => texts,
            _ => Vec::new(alloc),
        }
    }

    fn schema(self) -> Option<Schema>
        ensures { option_map schema_view result ≡ value_at form.Schema self }
    {
        match self {
            KeywordValue::Schema(schema) => Some(schema),
            _ => None,
        }
    }

    fn schemas(self, alloc: Global) -> Vec<Schema>
        ensures { unless_no_list (schemas_view result.items) ≡ value_at form.Schemas self }
    {
        match self {
            KeywordValue::Schemas(schemas) => schemas,
            _ => Vec::new(alloc),
        }
    }

    /// The schemas by their names; none where it is no such value.
    pub fn named_schemas(self, alloc: Global) -> BTreeMap<String, Schema>
        ensures { unless_no_map (definitions_view result.entries)
            ≡ value_at form.NamedSchemas self }
    {
        match self {
            KeywordValue::NamedSchemas(schemas) => schemas,
            _ => BTreeMap::new(alloc),
        }
    }
}
