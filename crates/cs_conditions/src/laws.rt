// Laws of the definitions, whatever files there are.
ghost use Rattle.std.specs.Prelude.{◌≡◌, false, List};
ghost use Rattle.std.specs.List.{AllByRecursion};
ghost use Rattle.cs_grammar.specs.DefaultForms.{IsDefaultFile};
ghost use Rattle.cs_grammar.specs.Tree.{FileTree};
ghost use Rattle.cs_grammar.specs.Written.{IsWrittenFile};
ghost use Rattle.cs_conditions.specs.Conditions.{AreChosen};
ghost use Rattle.cs_conditions.specs.Having.{have_conditions};

/// A law: in the files for which files with conditions stand is none, at any depth.
pub fn chosen_files_have_no_conditions()
    ensures { (fs gs : List FileTree) → AreChosen fs gs → have_conditions gs ≡ false }
{}

/// A law: files without conditions stand for themselves.
pub fn files_without_conditions_stay()
    ensures { (fs : List FileTree) → have_conditions fs ≡ false → AreChosen fs fs }
{}

/// A law: in files without forms of the wide profile is no condition.
pub fn default_files_have_no_conditions()
    ensures { (fs : List FileTree) → AllByRecursion IsDefaultFile fs → have_conditions fs ≡ false }
{}

/// A law: what can be written down with conditions can be written down without them.
pub fn chosen_files_can_be_written()
    ensures { (fs gs : List FileTree) → AreChosen fs gs → AllByRecursion IsWrittenFile fs → AllByRecursion IsWrittenFile gs }
{}
