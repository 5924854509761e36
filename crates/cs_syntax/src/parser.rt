// From tokens to a tree, by recursive descent with one token of look-ahead, and three behind a
// bracket that may begin a label or an `if` or `let` that may be one (CUE, expressions).

mod condition;
mod expression;
mod field;
pub(crate) mod file;
mod height;
mod kind;
mod literal;
mod name;
mod names;
mod nesting;
mod number;
mod operand;
mod place;
pub(crate) mod profiles;
