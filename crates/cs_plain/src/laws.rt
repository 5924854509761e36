// Laws of values in their places, whatever files there are.
ghost use Rattle.std.specs.Prelude.{◌≡◌, [], ℕ, List};
ghost use Rattle.std.specs.List.{AllByRecursion};
ghost use Rattle.cs_grammar.specs.Tree.{FileTree};
ghost use Rattle.cs_grammar.specs.Written.{IsWrittenFile};
ghost use Rattle.cs_plain.specs.Placed.{in_places};
ghost use Rattle.cs_plain.specs.Selecting.{IsSelectingFile};

/// A law: where no value is put anywhere, files stay as they are.
pub fn nothing_in_places_stays()
    ensures { (fs : List FileTree) → in_places [] fs ≡ fs }
{}

/// A law: files that can be written down can be with values in their places, and so can those that can be but for selectors.
pub fn what_is_in_places_can_be_written()
    ensures written { (ss : List (List ℕ)) (fs : List FileTree) → AllByRecursion IsWrittenFile fs → AllByRecursion IsWrittenFile (in_places ss fs) }
    ensures selecting { (ss : List (List ℕ)) (fs : List FileTree) → AllByRecursion IsSelectingFile fs → AllByRecursion IsSelectingFile (in_places ss fs) }
{}
