// The predeclared names: kinds, and ranges of integers.
ghost use Rattle.std.specs.Prelude.{◌≡◌, ℕ, true, List, IfSome, map};
ghost use Rattle.std.specs.Option.{option_map};
ghost use Rattle.cs_package.specs.Expression as cue;
ghost use Rattle.cs_resolve.specs.Predeclared.{predeclared, among};
ghost use Rattle.cs_resolve.specs.PredeclaredRows.{said, row_of};
ghost use Rattle.cs_package.specs.View.{expression_of, is_known};

use crate::{Kind, Shape};

/// What a predeclared name names: a kind, or the integers from the first number on, up to the second where there is one.
#[derive(Clone, Copy)]
enum Named {
    Kind(Kind),
    Range(i64, Option<i64>),
}

/// A predeclared name.
#[derive(Clone, Copy)]
struct Predeclared {
    name: &'static str,
    named: Named,
}

/// A row of the table.
macro_rules! row {
    ($name:literal, $named:expr) => {
        Predeclared { name: $name, named: $named }
    };
}

/// All of them (CUE, predeclared identifiers).
const NAMES: &[Predeclared] = &[
    row!("int", Named::Kind(Kind::Int)),
    row!("number", Named::Kind(Kind::Number)),
    row!("string", Named::Kind(Kind::Text)),
    row!("bool", Named::Kind(Kind::Bool)),
    row!("uint", Named::Range(0, None)),
    row!("uint8", Named::Range(0, Some(255))),
    row!("int8", Named::Range(-128, Some(127))),
    row!("uint16", Named::Range(0, Some(65535))),
    row!("int16", Named::Range(-32768, Some(32767))),
    row!("uint32", Named::Range(0, Some(4294967295))),
    row!("int32", Named::Range(-2147483648, Some(2147483647))),
    row!("int64", Named::Range(i64::MIN, Some(i64::MAX))),
];

/// The kind or range that a predeclared name names.
pub(crate) fn predeclared_shape(name: &str) -> Option<Shape>
    ensures named { (ns : List (List ℕ))
        → option_map (expression_of ns) result ≡ predeclared name.now }
    ensures known { (count : ℕ) → IfSome result (λ s. is_known count s ≡ true) }
{
    let named = named_among(NAMES, name)?;
    Some(shape_of(named))
}

/// What the first row of that name names.
fn named_among(rows: &[Predeclared], name: &str) -> Option<Named>
    ensures { option_map said result ≡ among name.now (map row_of rows.now) }
{
    for row in rows {
        if name == row.name {
            return Some(row.named);
        }
    }
    None
}

fn shape_of(named: Named) -> Shape
    ensures said { (ns : List (List ℕ)) → expression_of ns result ≡ said named }
    ensures known { (count : ℕ) → is_known count result ≡ true }
{
    match named {
        Named::Kind(kind) => Shape::Kind(kind),
        Named::Range(least, greatest) => Shape::Range { least, greatest },
    }
}
