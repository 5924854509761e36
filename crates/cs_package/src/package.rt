// A package: its definitions, each with its bodies.
ghost use Rattle.std.specs.Prelude.{◌≡◌, ◌<◌, length, Some, None, IfSome, IfNone, IsTrue, List, ℕ};
ghost use Rattle.std.specs.List.{IsDistinct, AllByRecursion, list_all};
ghost use Rattle.std.specs.Str.{bytes_eq};
ghost use Rattle.cs_package.specs.Environment.{bodies, declared_names, name_at, bodies_at, written, Names, IsDefinitionName};
ghost use Rattle.cs_package.specs.Joined.{IsJoined};
ghost use Rattle.cs_package.specs.View.{environment_of, names_of, IsWhole};

use crate::Shape;
use indexmap::IndexMap;
use std::marker::Model;

/// The names of definitions, in order of first declaration, each with the text that it is written as,
/// which begins with `#`.
pub type NameTable = IndexMap<String, String>;

/// A package: definitions in order of first declaration, each with all its bodies, by file and then by text.
/// A definition's number is its place in that order.
pub struct Package {
    names: NameTable,
    bodies: Vec<Vec<Shape>>,
}

impl Drop for Package {
    fn drop(self) {
        let Package {
            names: _,
            bodies: _,
        } = self;
    }
}

impl Model for Package {
    ghost use Rattle.cs_package.specs.Environment.{Environment};
    ghost use Rattle.cs_package.specs.Code.{coded_environment};

    ghost Value = { Environment };

    ghost coded = { coded_environment };

    ghost use Rattle.cs_package.specs.View.{environment_of, names_of, IsWhole};

    ghost view = { λ p. environment_of (names_of p.names.entries) p.names.entries p.bodies.items };

    ghost invariant = { λ p. IsWhole p.names.entries p.bodies.items };
}

impl Package {
    ghost use Rattle.cs_package.specs.View.{expressions_in, is_known};

    /// How many definitions there are. Their names are distinct.
    pub fn count(&self) -> usize
        ensures length { result ≡ length self.now }
        ensures distinct { IsDistinct bytes_eq (declared_names self.now) }
    {
        self.bodies.len()
    }

    /// The number of the definition of that name, which begins with `#`.
    pub fn find(&self, name: &str) -> Option<usize>
        ensures found { IfSome result (λ i. (n : List ℕ)
            × Names self.now name.now n × (name_at self.now i ≡ Some n)) }
        ensures unknown { IfNone result ((n : List ℕ) → ¬ Names self.now name.now n) }
    {
        self.names.get_index_of(name.strip_prefix("#")?)
    }

    /// The name of a definition, with its `#`: after that a letter, `_` or `$`, then letters, digits, `_` and `$`.
    pub fn name(&self, i: usize) -> &str
        requires { i < length self.now }
        ensures text { IfSome (name_at self.now i) (λ n. result.now ≡ written n) }
        ensures spelled { IfSome (name_at self.now i) IsDefinitionName }
    {
        match self.names.get_index(i) {
            Some((_, written)) => written.as_str(),
            None => unreachable!(),
        }
    }

    /// The name of a definition, without its `#`.
    pub fn bare_name(&self, i: usize) -> &str
        requires { i < length self.now }
        ensures at { name_at self.now i ≡ Some result.now }
        ensures spelled { IsDefinitionName result.now }
    {
        match self.names.get_index(i) {
            Some((bare, _)) => bare.as_str(),
            None => unreachable!(),
        }
    }

    /// The bodies of a definition. Each reference in them is to a number below the count, and stands for the name
    /// at that place. Each `&` and each `|` in them, at any depth, has two operands or more.
    pub fn bodies(&self, i: usize) -> &[Shape]
        requires { i < length self.now }
        ensures at { bodies_at self.now i ≡ Some (expressions_in self.now result.now) }
        ensures known { IsTrue (list_all (is_known (length self.now)) result.now) }
        ensures joined { AllByRecursion IsJoined (expressions_in self.now result.now) }
        ensures named { IfSome (name_at self.now i)
            (λ n. bodies self.now n ≡ bodies_at self.now i) }
    {
        &self.bodies[i]
    }
}

/// The package of these names and bodies, those of the name at each place. Each reference is to a number below the
/// count, and each `&` and `|` has two operands or more (CUE, definitions).
pub fn package_of(names: NameTable, bodies: Vec<Vec<Shape>>) -> Package
    requires { IsWhole names.entries bodies.items }
    ensures { result ≡ environment_of (names_of names.entries) names.entries bodies.items }
{
    Package { names, bodies }
}
