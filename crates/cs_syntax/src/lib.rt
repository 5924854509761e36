// From a source to the tree that it spells. The tokens are those of `cs_lexer`, the tree and the grammar those of `cs_grammar`.
#![tactic(auto)]

mod parser;

pub use cs_grammar::{
    Condition, Declaration, Definition, Expr, Field, FieldMark, File, ListEnd, Name, Profile,
    Relation, Scalar, Selector, Sort, SyntaxFault, Test, Token, Wide,
};
pub use cs_lexer::{lex, lex_in};
pub use parser::file::{one_file, parse_file, parse_file_in};
pub use parser::profiles::{default_files_have_default_forms, wide_reads_the_default};
