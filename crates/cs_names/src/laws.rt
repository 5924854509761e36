// Laws of the definitions, whatever files there are.
ghost use Rattle.std.specs.Prelude.{◌≡◌, ℕ, false, List, Some, map};
ghost use Rattle.std.specs.List.{AllByRecursion};
ghost use Rattle.cs_grammar.specs.Bodies.{bodies};
ghost use Rattle.cs_grammar.specs.Namable.{IsNamableFile};
ghost use Rattle.cs_grammar.specs.Tree.{FileTree};
ghost use Rattle.cs_grammar.specs.Written.{IsWrittenFile};
ghost use Rattle.cs_names.specs.Having.{have_names};
ghost use Rattle.cs_names.specs.Lifted.{lifts, known, all_definitions, is_open};
ghost use Rattle.cs_names.specs.Named.{named_files, resolved};
ghost use Rattle.cs_names.specs.Names.{AreNamed};
ghost use Rattle.cs_names.specs.Reading.{values_at};
ghost use Rattle.cs_names.specs.Scopes.{Place};
ghost use Rattle.cs_plain.specs.Selecting.{IsSelectingFile};

/// A law: files without names stand for themselves.
pub fn files_without_names_stay()
    ensures { (fs : List FileTree) → have_names fs ≡ false → AreNamed fs fs }
{
    cs_plain::nothing_in_places_stays(); // for the proof: no value is put anywhere
}

/// A law: in files that can be written down without names is none.
pub fn written_files_have_no_names()
    ensures { (fs : List FileTree) → AllByRecursion IsWrittenFile fs → have_names fs ≡ false }
{}

/// A law: what can be written down with names can be written down without them, but for selectors.
pub fn named_files_can_be_written()
    ensures { (fs gs : List FileTree) → AreNamed fs gs → AllByRecursion IsNamableFile fs → AllByRecursion IsSelectingFile gs }
{
    cs_plain::what_is_in_places_can_be_written(); // for the proof: also with values in their places
}

/// A law: before plain values are put in their places, the definition that a name is lifted by has just the values that are declared at its place, each as
/// it is in its scopes without names.
pub fn lifted_definitions_are_read_directly()
    ensures { (fs gs : List FileTree) (p : Place) (s : List ℕ) → AreNamed fs gs → known (lifts fs) p ≡ Some s
        → bodies s (all_definitions (named_files fs)) ≡ map (λ v. resolved (known (lifts fs)) (is_open (lifts fs)) v.file v.scopes v.value) (values_at p fs) }
{}
