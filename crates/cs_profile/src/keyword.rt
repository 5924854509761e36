// The keywords of the profile, with their names, the forms of their values, and the sets of them that are taken.
ghost use Rattle.std.specs.Prelude.{◌≡◌};
ghost use Rattle.cs_document.specs.Document.{under};
ghost use Rattle.cs_profile.specs.Keywords.{name_of, keywords, is_in};
ghost use Rattle.cs_profile.specs.Shapes.{form_of, stands};

/// The keywords of the profile, by the standard's own words (JSON Schema Core 2020-12, sections 8 and 10;
/// Validation 2020-12, sections 6 and 9).
#[derive(Clone, Copy)]
pub enum Keyword {
    /// `$comment`
    Comment,
    /// `$defs`
    Defs,
    /// `$ref`
    Ref,
    /// `$schema`
    Schema,
    /// `additionalProperties`
    AdditionalProperties,
    /// `allOf`
    AllOf,
    /// `anyOf`
    AnyOf,
    /// `const`
    Const,
    /// `description`
    Description,
    /// `enum`
    Enum,
    /// `exclusiveMaximum`
    ExclusiveMaximum,
    /// `exclusiveMinimum`
    ExclusiveMinimum,
    /// `items`
    Items,
    /// `maxItems`
    MaxItems,
    /// `maxLength`
    MaxLength,
    /// `maxProperties`
    MaxProperties,
    /// `maximum`
    Maximum,
    /// `minItems`
    MinItems,
    /// `minLength`
    MinLength,
    /// `minProperties`
    MinProperties,
    /// `minimum`
    Minimum,
    /// `not`
    Not,
    /// `prefixItems`
    PrefixItems,
    /// `properties`
    Properties,
    /// `required`
    Required,
    /// `title`
    Title,
    /// `type`
    Type,
}

/// A set of keywords that are taken (JSON Schema Core 2020-12, section 8.1.2).
#[derive(Clone, Copy)]
pub enum Vocabulary {
    /// All but the limits of how long texts, lists and maps are, of which it has `minItems` alone.
    Default,
    /// All.
    Wide,
}

/// The form of a keyword's value.
#[derive(Clone, Copy)]
pub enum Form {
    /// The text that names the dialect.
    Dialect,
    /// `#/$defs/` and a name.
    Reference,
    /// The name of a kind.
    Kind,
    /// Any document.
    Anything,
    /// An array of documents.
    Array,
    /// An integer.
    Integer,
    /// An integer of at least 0.
    Count,
    /// An array of distinct texts.
    Texts,
    /// A text.
    Text,
    /// A schema.
    Schema,
    /// A nonempty array of schemas.
    Schemas,
    /// An object of schemas.
    NamedSchemas,
}

impl Keyword {
    /// The keywords in the byte order of their names.
    pub const ALL: [Keyword; 27] = [
        Keyword::Comment,
        Keyword::Defs,
        Keyword::Ref,
        Keyword::Schema,
        Keyword::AdditionalProperties,
        Keyword::AllOf,
        Keyword::AnyOf,
        Keyword::Const,
        Keyword::Description,
        Keyword::Enum,
        Keyword::ExclusiveMaximum,
        Keyword::ExclusiveMinimum,
        Keyword::Items,
        Keyword::MaxItems,
        Keyword::MaxLength,
        Keyword::MaxProperties,
        Keyword::Maximum,
        Keyword::MinItems,
        Keyword::MinLength,
        Keyword::MinProperties,
        Keyword::Minimum,
        Keyword::Not,
        Keyword::PrefixItems,
        Keyword::Properties,
        Keyword::Required,
        Keyword::Title,
        Keyword::Type,
    ];

    /// The keyword's name.
    pub fn name(self) -> &'static str
        ensures { result.now ≡ name_of self }
    {
        match self {
            Keyword::Comment => "$comment",
            Keyword::Defs => "$defs",
            Keyword::Ref => "$ref",
            Keyword::Schema => "$schema",
            Keyword::AdditionalProperties => "additionalProperties",
            Keyword::AllOf => "allOf",
            Keyword::AnyOf => "anyOf",
            Keyword::Const => "const",
            Keyword::Description => "description",
            Keyword::Enum => "enum",
            Keyword::ExclusiveMaximum => "exclusiveMaximum",
            Keyword::ExclusiveMinimum => "exclusiveMinimum",
            Keyword::Items => "items",
            Keyword::MaxItems => "maxItems",
            Keyword::MaxLength => "maxLength",
            Keyword::MaxProperties => "maxProperties",
            Keyword::Maximum => "maximum",
            Keyword::MinItems => "minItems",
            Keyword::MinLength => "minLength",
            Keyword::MinProperties => "minProperties",
            Keyword::Minimum => "minimum",
            Keyword::Not => "not",
            Keyword::PrefixItems => "prefixItems",
            Keyword::Properties => "properties",
            Keyword::Required => "required",
            Keyword::Title => "title",
            Keyword::Type => "type",
        }
    }

    /// The keyword of a name.
    pub fn named(name: &str) -> Option<Keyword>
        ensures { result ≡ under name.now keywords }
    {
        for keyword in Keyword::ALL {
            if name == keyword.name() {
                return Some(keyword);
            }
        }
        None
    }

    /// The form of the keyword's value.
    pub fn form(self) -> Form
        ensures { result ≡ form_of self }
    {
        match self {
            Keyword::Schema => Form::Dialect,
            Keyword::Defs | Keyword::Properties => Form::NamedSchemas,
            Keyword::Ref => Form::Reference,
            Keyword::Type => Form::Kind,
            Keyword::Const => Form::Anything,
            Keyword::Enum => Form::Array,
            Keyword::ExclusiveMaximum
            | Keyword::ExclusiveMinimum
            | Keyword::Maximum
            | Keyword::Minimum => Form::Integer,
            Keyword::MaxItems
            | Keyword::MaxLength
            | Keyword::MaxProperties
            | Keyword::MinItems
            | Keyword::MinLength
            | Keyword::MinProperties => Form::Count,
            Keyword::Required => Form::Texts,
            Keyword::Comment | Keyword::Description | Keyword::Title => Form::Text,
            Keyword::AdditionalProperties | Keyword::Items | Keyword::Not => Form::Schema,
            Keyword::AllOf | Keyword::AnyOf | Keyword::PrefixItems => Form::Schemas,
        }
    }

    /// Whether the profile has the keyword in the root, or below it.
    pub fn stands(self, root: bool) -> bool
        ensures { result ≡ stands root self }
    {
        match self {
            Keyword::Schema | Keyword::Defs => root,
            _ => true,
        }
    }

    /// Whether the keyword is taken where those of the vocabulary are (JSON Schema Core 2020-12, section 8.1.2).
    pub fn is_in(self, vocabulary: Vocabulary) -> bool
        ensures { result ≡ is_in vocabulary self }
    {
        match self {
            Keyword::MaxItems
            | Keyword::MaxLength
            | Keyword::MaxProperties
            | Keyword::MinLength
            | Keyword::MinProperties => match vocabulary {
                Vocabulary::Default => false,
                Vocabulary::Wide => true,
            },
            Keyword::Comment
            | Keyword::Defs
            | Keyword::Ref
            | Keyword::Schema
            | Keyword::AdditionalProperties
            | Keyword::AllOf
            | Keyword::AnyOf
            | Keyword::Const
            | Keyword::Description
            | Keyword::Enum
            | Keyword::ExclusiveMaximum
            | Keyword::ExclusiveMinimum
            | Keyword::Items
            | Keyword::Maximum
            | Keyword::MinItems
            | Keyword::Minimum
            | Keyword::Not
            | Keyword::PrefixItems
            | Keyword::Properties
            | Keyword::Required
            | Keyword::Title
            | Keyword::Type => true,
        }
    }
}
