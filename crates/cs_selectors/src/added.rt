// Files without selectors, with the definitions that these are made.
ghost use Rattle.std.specs.Prelude.{◌≡◌, ◌++◌, ℕ, List, map, IfOk, OnOk};
ghost use Rattle.cs_grammar.specs.Tree as Tree;
ghost use Rattle.cs_grammar.specs.View.{expr_view, exprs_view, definition_view, file_view};
ghost use Rattle.cs_plain.specs.Bodies.{Body};
ghost use Rattle.cs_plain.specs.Selecting.{referring, referring_each, referring_definition};
ghost use Rattle.cs_selectors.specs.Checks.{TellsNames, TellsGifts, given_view, tree_at};
ghost use Rattle.cs_selectors.specs.Given as Gifts;
ghost use Rattle.cs_selectors.specs.Selectors as Spec;
ghost use Rattle.cs_selectors.specs.Selectors.{operand, operands, unselected_file, unselected_from};

use crate::given::{Given, Giving};
use crate::reached::is_single;
use crate::replaced::Referring;
use cs_grammar::{Definition, Expr, File, copied_names};
use std::alloc::AllocError;

impl<'a> Referring<'_, '_, 'a> {
    /// A value as an operand, without selectors: in parentheses, unless it is one node.
    fn operand(&self, value: &'a Expr) -> Result<Expr, AllocError>
        ensures { (by : List ℕ → List Tree.Selector → List ℕ) → TellsNames self.now.giving.now by
            → IfOk result (λ e. expr_view e ≡ referring by (operand (expr_view value.now))) }
    {
        let referring = self.referring(value)?;
        if is_single(value) {
            return Ok(referring);
        }
        Ok(Expr::Paren(Box::new(self.alloc, referring)?))
    }

    /// Values as operands, without selectors.
    fn operands(&self, values: &[&'a Expr]) -> Result<Vec<Expr>, AllocError>
        ensures { (by : List ℕ → List Tree.Selector → List ℕ) → TellsNames self.now.giving.now by
            → IfOk result (λ v. exprs_view v.items ≡ referring_each by (operands (map tree_at values.now))) }
    {
        let mut operands = Vec::with_capacity(self.alloc, values.len())?;
        for value in values {
            operands.push(self.operand(*value)?)?;
        }
        Ok(operands)
    }

    /// All values at once, without selectors: one alone is itself.
    fn together(&self, values: &[&'a Expr]) -> Result<Expr, AllocError>
        ensures { (by : List ℕ → List Tree.Selector → List ℕ) → TellsNames self.now.giving.now by
            → IfOk result (λ e. expr_view e ≡ referring by (Spec.together (map tree_at values.now))) }
    {
        match values {
            [] => Ok(Expr::Top),
            [value] => self.referring(*value),
            _ => Ok(Expr::And(self.operands(values)?)),
        }
    }

    /// Adds a definition that is made to those of a file, if the first of its selectors is there.
    fn add_given(
        &self,
        found: &mut Vec<Definition>,
        file: usize,
        given: &Given<'a>,
    ) -> Result<(), AllocError>
        ensures { OnOk result ((by : List ℕ → List Tree.Selector → List ℕ) → TellsNames self.now.giving.now by
            → map definition_view found.new.items ≡ map definition_view found.old.items ++ Spec.added_at by file (given_view given.now)) }
    {
        let (home, at) = given.home;
        if home == file {
            let name = given.name.clone()?;
            let body = self.together(&given.values)?;
            found.push(Definition { name, at, body })?;
        }
        Ok(())
    }

    /// Adds all of them.
    fn add_all(
        &self,
        found: &mut Vec<Definition>,
        file: usize,
        order: &[Given<'a>],
    ) -> Result<(), AllocError>
        ensures { OnOk result ((by : List ℕ → List Tree.Selector → List ℕ) → TellsNames self.now.giving.now by
            → map definition_view found.new.items ≡ map definition_view found.old.items ++ Spec.added by file (map given_view order.now)) }
    {
        for given in order {
            self.add_given(found, file, given)?;
        }
        Ok(())
    }

    fn definition(&self, definition: &'a Definition) -> Result<Definition, AllocError>
        ensures { (by : List ℕ → List Tree.Selector → List ℕ) → TellsNames self.now.giving.now by
            → IfOk result (λ d. definition_view d ≡ referring_definition by (definition_view definition.now)) }
    {
        let name = definition.name.clone()?;
        let body = self.referring(&definition.body)?;
        Ok(Definition {
            name,
            at: definition.at,
            body,
        })
    }

    /// Definitions without selectors.
    fn definitions(&self, definitions: &'a [Definition]) -> Result<Vec<Definition>, AllocError>
        ensures { (by : List ℕ → List Tree.Selector → List ℕ) → TellsNames self.now.giving.now by
            → IfOk result (λ v. map definition_view v.items ≡ map (referring_definition by) (map definition_view definitions.now)) }
    {
        let mut referring = Vec::with_capacity(self.alloc, definitions.len())?;
        for definition in definitions {
            referring.push(self.definition(definition)?)?;
        }
        Ok(referring)
    }

    /// The file of that number without selectors.
    fn unselected_file(&self, number: usize, file: &'a File) -> Result<File, AllocError>
        ensures { (by : List ℕ → List Tree.Selector → List ℕ) → TellsNames self.now.giving.now by → IfOk result (λ f. file_view f
            ≡ unselected_file by number (map given_view self.now.giving.now.order.items) (file_view file.now)) }
    {
        let mut definitions = self.definitions(&file.definitions)?;
        self.add_all(&mut definitions, number, &self.giving.order)?;
        let package = match &file.package {
            Some(name) => Some(name.clone()?),
            None => None,
        };
        Ok(File {
            package,
            definitions,
            names: copied_names(self.alloc, &file.names)?,
        })
    }
}

/// The files without selectors, whose definitions are made.
pub(crate) fn unselected_files<'a>(
    giving: &Giving<'_, 'a>,
    files: &'a [File],
) -> Result<Vec<File>, AllocError>
    ensures { (all : List Tree.DefinitionTree) (bs : List Body) (gs : List Gifts.Given) → TellsGifts giving.now all bs gs
        → IfOk result (λ v. map file_view v.items ≡ unselected_from gs 0 (map file_view files.now)) }
{
    let alloc = giving.alloc;
    let referring = Referring { alloc, giving };
    let mut unselected = Vec::with_capacity(alloc, files.len())?;
    for (number, file) in files.iter().enumerate() {
        unselected.push(referring.unselected_file(number, file)?)?;
    }
    Ok(unselected)
}
