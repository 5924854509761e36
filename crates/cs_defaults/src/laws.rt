// Laws of the definitions, whatever files there are.
ghost use Rattle.std.specs.Prelude.{ℕ, ◌≤◌, Bool, List, map};
ghost use Rattle.std.specs.List.{AllByRecursion};
ghost use Rattle.cs_grammar.specs.DefaultForms.{IsDefaultFile};
ghost use Rattle.cs_grammar.specs.Height.{file_height, height_definitions};
ghost use Rattle.cs_grammar.specs.Size.{nodes_of_files};
ghost use Rattle.cs_grammar.specs.Tree.{FileTree, definitions};
ghost use Rattle.cs_grammar.specs.Written.{IsWrittenFile};
ghost use Rattle.cs_defaults.specs.Unmarked.{unmarked_file};
ghost use Rattle.cs_defaults.specs.Widened.{IsUnmarked};

/// A law: a file without its marks has no form of the wide profile, at any depth.
pub fn unmarked_files_have_default_forms()
    ensures { (has : List ℕ → Bool) (f : FileTree) → IsDefaultFile (unmarked_file has f) }
{}

/// A law: what can be written down with marks can be written down without them.
pub fn unmarked_files_can_be_written()
    ensures { (has : List ℕ → Bool) (f : FileTree) → IsWrittenFile f → IsWrittenFile (unmarked_file has f) }
{}

/// A law: a file without its marks is no higher than with them, and so are its definitions alone.
pub fn unmarked_files_are_no_higher()
    ensures files { (has : List ℕ → Bool) (f : FileTree) → file_height (unmarked_file has f) ≤ file_height f }
    ensures definitions { (has : List ℕ → Bool) (f : FileTree)
        → height_definitions (definitions (unmarked_file has f)) ≤ height_definitions (definitions f) }
{}

/// A law: files without their marks have no fewer nodes than with them, where a form of the wide profile counts as one.
pub fn unmarked_files_are_no_smaller()
    ensures { (has : List ℕ → Bool) (fs : List FileTree)
        → nodes_of_files fs ≤ nodes_of_files (map (unmarked_file has) fs) }
{}

/// A law: files without forms of the wide profile stand for themselves.
pub fn default_files_stay()
    ensures { (fs : List FileTree) → AllByRecursion IsDefaultFile fs → IsUnmarked fs fs }
{}
