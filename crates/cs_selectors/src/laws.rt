// Laws of the definitions, whatever files there are.
ghost use Rattle.std.specs.Prelude.{◌≡◌, false, List};
ghost use Rattle.std.specs.List.{AllByRecursion};
ghost use Rattle.cs_grammar.specs.Tree.{FileTree};
ghost use Rattle.cs_grammar.specs.Written.{IsWrittenFile};
ghost use Rattle.cs_plain.specs.Selecting.{IsSelectingFile};
ghost use Rattle.cs_selectors.specs.Having.{have_selectors};
ghost use Rattle.cs_selectors.specs.Selectors.{AreUnselected};

/// A law: files without selectors stand for themselves.
pub fn files_without_selectors_stay()
    ensures { (fs : List FileTree) → have_selectors fs ≡ false → AreUnselected fs fs }
{}

/// A law: in files that can be written down without selectors is none.
pub fn written_files_have_no_selectors()
    ensures { (fs : List FileTree) → AllByRecursion IsWrittenFile fs → have_selectors fs ≡ false }
{}

/// A law: in the files for which files with selectors stand is none, at any depth.
pub fn unselected_files_have_no_selectors()
    ensures { (fs gs : List FileTree) → AreUnselected fs gs → have_selectors gs ≡ false }
{}

/// A law: what can be written down but for selectors can be written down without them.
pub fn unselected_files_can_be_written()
    ensures { (fs gs : List FileTree) → AreUnselected fs gs → AllByRecursion IsSelectingFile fs → AllByRecursion IsWrittenFile gs }
{}
