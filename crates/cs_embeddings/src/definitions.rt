// The bodies of definitions, by their names.
ghost use Rattle.std.specs.Prelude.{◌≡◌, List, ◌∷◌, [], ◌++◌, map, IfOk, OnOk};
ghost use Rattle.std.specs.List.{flat_map};
ghost use Rattle.cs_grammar.specs.Tree.{DefinitionTree, definitions};
ghost use Rattle.cs_grammar.specs.Bodies.{bodies};
ghost use Rattle.cs_grammar.specs.View.{definition_view, file_view};
ghost use Rattle.cs_embeddings.specs.Checks.{TellsBodies, bodies_view};

use cs_grammar::{Definition, Expr, File};
use std::alloc::{AllocError, Global};
use std::collections::BTreeMap;

/// The bodies of each definition, in their order.
pub(crate) type Table<'a> = BTreeMap<&'a str, Vec<&'a Expr>>;

/// The definitions of files.
#[derive(Drop)]
pub(crate) struct Bodies<'a> {
    by_name: Table<'a>,
    /// Each name once, in order of its first declaration.
    pub(crate) names: Vec<&'a str>,
    /// The bodies of a name that isn't declared.
    none: Vec<&'a Expr>,
}

impl<'a> Bodies<'a> {
    /// The definitions of the files.
    pub(crate) fn of(alloc: Global, files: &'a [File]) -> Result<Bodies<'a>, AllocError>
        ensures { IfOk result (λ b. TellsBodies b (flat_map definitions (map file_view files.now))) }
    {
        let mut bodies = Bodies {
            by_name: BTreeMap::new(alloc),
            names: Vec::new(alloc),
            none: Vec::new(alloc),
        };
        for file in files {
            bodies.add_all(alloc, &file.definitions)?;
        }
        Ok(bodies)
    }

    /// Adds the bodies of the definitions of a file.
    fn add_all(&mut self, alloc: Global, definitions: &'a Vec<Definition>) -> Result<(), AllocError>
        ensures { OnOk result ((ds : List DefinitionTree) → TellsBodies self.old ds
            → TellsBodies self.new (ds ++ map definition_view definitions.now.items)) }
    {
        for definition in definitions {
            self.add(alloc, definition)?;
        }
        Ok(())
    }

    /// Adds the body of a definition.
    fn add(&mut self, alloc: Global, definition: &'a Definition) -> Result<(), AllocError>
        ensures { OnOk result ((ds : List DefinitionTree) → TellsBodies self.old ds
            → TellsBodies self.new (ds ++ definition_view definition.now ∷ [])) }
    {
        let name = definition.name.as_str();
        let mut bodies = match self.by_name.remove(name) {
            Some(bodies) => bodies,
            None => {
                self.names.push(name)?;
                Vec::new(alloc)
            }
        };
        bodies.push(&definition.body)?;
        self.by_name.insert(name, bodies)?;
        Ok(())
    }

    /// The bodies of the definition of that name; none of one that isn't declared.
    pub(crate) fn of_name(&self, name: &str) -> &[&'a Expr]
        ensures { (ds : List DefinitionTree) → TellsBodies self.now ds
            → bodies_view result.now ≡ bodies name.now ds }
    {
        self.by_name.get(name).unwrap_or(&self.none)
    }
}
