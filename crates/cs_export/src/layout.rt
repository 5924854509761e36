// How a schema is written.

/// How a schema is written. With nothing asked for, it is written as `cs_tool::export` writes it.
#[derive(Clone, Copy)]
pub struct Layout {
    /// With the comments of definitions and fields as their `description` (JSON Schema Validation 2020-12, section 9.1).
    pub is_described: bool,
    /// With the values of default marks too, as `default`, where it is described (JSON Schema Validation 2020-12, section 9.2).
    pub has_defaults: bool,
    /// As components of an OpenAPI document (OpenAPI 3.1, components object), without a root.
    pub is_openapi: bool,
    /// With a line for each member and element, indented by two blanks.
    pub is_pretty: bool,
}
