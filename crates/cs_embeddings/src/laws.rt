// Laws of the definitions, whatever files there are.
ghost use Rattle.std.specs.Prelude.{List};
ghost use Rattle.std.specs.List.{AllByRecursion};
ghost use Rattle.cs_grammar.specs.Tree.{FileTree};
ghost use Rattle.cs_grammar.specs.Written.{IsWrittenFile};
ghost use Rattle.cs_embeddings.specs.Without.{IsJoined};

/// A law: what can be written down with embeddings can be written down without them.
pub fn joined_files_can_be_written()
    ensures { (fs gs : List FileTree) → AllByRecursion IsWrittenFile fs → IsJoined fs gs → AllByRecursion IsWrittenFile gs }
{}
