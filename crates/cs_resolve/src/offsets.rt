// The order of faults.

ghost use Rattle.std.specs.Prelude.{List, map};
ghost use Rattle.cs_grammar.specs.Tree.{FileTree};
ghost use Rattle.cs_resolve.specs.Declarations.{faults_of_files};
ghost use Rattle.cs_resolve.specs.Offsets.{AreInOrder, place};
ghost use Rattle.cs_resolve.specs.Refinement.{Refinements};
ghost use Rattle.cs_resolve.specs.Refusal.{AreSpelled};
ghost use Rattle.cs_resolve.specs.Unopened.{unopened_files};

/// A law: where each file is spelled by the tokens of a text, the faults of names come by file and then by offset, and
/// so do the literals at fault. So the first of them, which a refusal reports, has the least offset of those in its file.
pub fn offsets_law()
    ensures names { (fs : List FileTree)
        → AreSpelled fs → AreInOrder (map place (faults_of_files fs)) }
    ensures literals { (rs : Refinements) (fs : List FileTree)
        → AreSpelled fs → AreInOrder (unopened_files rs fs) }
{}
