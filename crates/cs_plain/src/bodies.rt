// The bodies of definitions, by their names.
ghost use Rattle.std.specs.Prelude.{◌≡◌, List, ◌∷◌, [], ◌++◌, map, IfOk, OnOk};
ghost use Rattle.cs_grammar.specs.View.{definition_view, file_view};
ghost use Rattle.cs_plain.specs.Bodies.{TellsBodies, body_view};
ghost use Rattle.cs_plain.specs.Bodies as Spec;
ghost use Rattle.cs_plain.specs.Bodies.{body_of, bodies_of, bodies_in};

use cs_grammar::{Definition, Expr, File};
use std::alloc::{AllocError, Global};
use std::collections::BTreeMap;

/// A body of a definition.
#[derive(Clone, Copy)]
pub struct Body<'a> {
    pub name: &'a str,
    pub value: &'a Expr,
}

/// The bodies of each definition, in their order.
#[derive(Drop)]
pub struct Bodies<'a> {
    by_name: BTreeMap<&'a str, Vec<Body<'a>>>,
    /// The bodies of a name that isn't declared.
    none: Vec<Body<'a>>,
}

impl<'a> Bodies<'a> {
    /// The definitions of the files.
    pub fn of(alloc: Global, files: &'a [File]) -> Result<Bodies<'a>, AllocError>
        ensures { IfOk result (λ b. TellsBodies b (bodies_in (map file_view files.now))) }
    {
        let mut bodies = Bodies {
            by_name: BTreeMap::new(alloc),
            none: Vec::new(alloc),
        };
        for file in files {
            bodies.add_all(alloc, &file.definitions)?;
        }
        Ok(bodies)
    }

    /// Those of one file.
    pub(crate) fn of_definitions(
        alloc: Global,
        definitions: &'a [Definition],
    ) -> Result<Bodies<'a>, AllocError>
        ensures { IfOk result (λ b. TellsBodies b (map body_of (map definition_view definitions.now))) }
    {
        let mut bodies = Bodies {
            by_name: BTreeMap::new(alloc),
            none: Vec::new(alloc),
        };
        bodies.add_all(alloc, definitions)?;
        Ok(bodies)
    }

    /// Adds the bodies of the definitions of a file.
    fn add_all(&mut self, alloc: Global, definitions: &'a [Definition]) -> Result<(), AllocError>
        ensures { OnOk result ((bs : List Spec.Body) → TellsBodies self.old bs
            → TellsBodies self.new (bs ++ map body_of (map definition_view definitions.now))) }
    {
        for definition in definitions {
            self.add(alloc, definition)?;
        }
        Ok(())
    }

    /// Adds the body of a definition.
    fn add(&mut self, alloc: Global, definition: &'a Definition) -> Result<(), AllocError>
        ensures { OnOk result ((bs : List Spec.Body) → TellsBodies self.old bs
            → TellsBodies self.new (bs ++ body_of (definition_view definition.now) ∷ [])) }
    {
        let name = definition.name.as_str();
        let mut bodies = match self.by_name.remove(name) {
            Some(bodies) => bodies,
            None => Vec::new(alloc),
        };
        bodies.push(Body {
            name,
            value: &definition.body,
        })?;
        self.by_name.insert(name, bodies)?;
        Ok(())
    }

    /// The bodies of the definition of that name; none of one that isn't declared.
    pub fn of_name(&self, name: &str) -> &[Body<'a>]
        ensures { (bs : List Spec.Body) → TellsBodies self.now bs
            → map body_view result.now ≡ bodies_of name.now bs }
    {
        self.by_name.get(name).unwrap_or(&self.none)
    }
}
