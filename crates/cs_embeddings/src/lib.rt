// Files without embeddings: which expressions can be embedded, what a literal with embeddings can be, and what the files stand for.
#![tactic(auto)]

mod alternatives;
mod clashes;
mod definitions;
mod embedded;
mod fault;
mod files;
mod flaws;
mod found;
mod gathered;
mod held;
mod joined;
mod joining;
mod kept;
mod labels;
mod laws;
mod narrowed;
mod numbers;
mod rows;
mod shut;

pub use cs_grammar::File;
pub use fault::EmbeddingFault;
pub use files::without_embeddings;
pub use laws::joined_files_can_be_written;
