// The rules that a root reaches, numbered for any number of documents, and those of a whole package.
ghost use Rattle.std.specs.Prelude.{◌≡◌, ℕ, List, IfOk, IsErrOf};
ghost use Rattle.cs_package.specs.Environment.{Names};
ghost use Rattle.cs_guard.specs.Numbered.{name_of};
ghost use Rattle.cs_instance.specs.Rooted.{IsRooted, IsNumberedWhole};

use crate::numbering::{numbering_of, numbering_of_all};
use crate::{InstanceFault, rules};
use cs_flat::Flat;
use cs_guard::Guarded;
use cs_rules::{Numbering, Rulebook};
use cs_table::{Verdicts, refill};
use std::alloc::{AllocError, Global};
use std::marker::Model;

/// A root with the rules of all that it reaches, numbered.
#[derive(Drop)]
pub struct NumberedRoot<'a> {
    /// The root's number among the definitions.
    pub definition: usize,
    pub numbering: Numbering<rules::Rule<'a>>,
    /// The number of the root's rule.
    pub number: usize,
}

/// Numbers the rules that the root reaches, a definition of the package named with its `#`.
///
/// # Errors
/// `UnknownRoot` exactly where the package doesn't declare the root.
pub fn numbered_root<'a>(
    alloc: Global,
    package: &'a Guarded,
    root: &str,
) -> Result<NumberedRoot<'a>, InstanceFault>
    ensures named { IfOk result
        (λ r. Names «package».now root.now (name_of «package».now r.definition)) }
    ensures rooted { IfOk result
        (λ r. IsRooted «package».now (name_of «package».now r.definition)
        r.numbering.rules.items r.numbering.children.items r.number) }
    ensures unknown { IsErrOf result InstanceFault.UnknownRoot
        → (n : List ℕ) → ¬ Names «package».now root.now n }
    ensures fits { (i r : ℕ) → IsErrOf result (InstanceFault.TooManyPairs i r) → ⊥ }
{
    let Some(definition) = package.package().find(root) else {
        return Err(InstanceFault::UnknownRoot);
    };
    let (numbering, number) = numbering_of(alloc, package, definition)?;
    Ok(NumberedRoot {
        definition,
        numbering,
        number,
    })
}

/// All definitions of a package with the rules of their bodies, numbered.
#[derive(Drop)]
pub struct NumberedPackage<'a> {
    pub numbering: Numbering<rules::Rule<'a>>,
    /// The number of each definition's rule, by the definition's own.
    pub numbers: Vec<usize>,
}

/// Numbers the rules of all definitions of a package.
///
/// # Errors
/// `AllocError`, where memory runs out.
pub fn numbered_package<'a>(
    alloc: Global,
    package: &'a Guarded,
) -> Result<NumberedPackage<'a>, AllocError>
    ensures { IfOk result (λ r. IsNumberedWhole «package».now
        r.numbering.rules.items r.numbering.children.items r.numbers.items) }
{
    let (numbering, numbers) = numbering_of_all(alloc, package)?;
    Ok(NumberedPackage { numbering, numbers })
}

/// The rules that a root reaches, numbered once for any number of documents: the definitions and the expressions in
/// their bodies.
#[derive(Drop)]
pub struct RootRules<'a> {
    package: &'a Guarded,
    /// The root's number among the definitions.
    root: usize,
    book: Rulebook<rules::Rule<'a>>,
    /// The number of the root's rule in the book.
    number: usize,
}

impl<'a> Model for RootRules<'a> {
    ghost use Rattle.std.specs.Prelude.{ℕ, List};
    ghost use Rattle.std.specs.Coded.{coded×, coded_list, coded_ℕ};
    ghost use Rattle.cs_package.specs.Environment.{Environment};
    ghost use Rattle.cs_package.specs.Code.{coded_environment};
    ghost use Rattle.cs_guard.specs.Numbered.{name_of};
    ghost use Rattle.cs_instance.specs.Rooted.{IsRooted};

    /// The package's environment, and the root's name there.
    ghost Value = { Environment × List ℕ };

    ghost coded = { coded× coded_environment (coded_list coded_ℕ) };

    ghost view = { λ r. (r.package.now, name_of r.package.now r.root) };

    ghost invariant = { λ r. IsRooted r.package.now (name_of r.package.now r.root)
        r.book.numbering.rules.items r.book.numbering.children.items r.number };
}

/// Numbers the rules that the root reaches, a definition of the package named with its `#` (CUE, values).
///
/// # Errors
/// `UnknownRoot` exactly where the package doesn't declare the root.
pub fn root_rules<'a>(
    alloc: Global,
    package: &'a Guarded,
    root: &str,
) -> Result<RootRules<'a>, InstanceFault>
    ensures package_kept { IfOk result (λ r. r.0 ≡ «package».now) }
    ensures named { IfOk result (λ r. Names «package».now root.now r.1) }
    ensures unknown { IsErrOf result InstanceFault.UnknownRoot
        → (n : List ℕ) → ¬ Names «package».now root.now n }
    ensures fits { (i r : ℕ) → IsErrOf result (InstanceFault.TooManyPairs i r) → ⊥ }
{
    let NumberedRoot {
        definition,
        numbering,
        number,
    } = numbered_root(alloc, package, root)?;
    let book = Rulebook::of(alloc, numbering)?;
    Ok(RootRules {
        package,
        root: definition,
        book,
        number,
    })
}

impl RootRules<'_> {
    ghost use Rattle.std.specs.Prelude.{◌≡◌, ℕ, Bool, IfOk, OnOk, IsErrOf};
    ghost use Rattle.cs_document.specs.Document.{Document};
    ghost use Rattle.cs_flat.specs.Listed.{document_in};
    ghost use Rattle.cs_guard.specs.Numbered.{name_of};
    ghost use Rattle.cs_instance.specs.Instance.{Rule, definition, IsInstance, OneMeaning};
    ghost use Rattle.cs_instance.specs.Refusal.{AreManyPairs};
    ghost use Rattle.cs_instance.specs.Rooted.{IsRooted};
    ghost use Rattle.cs_instance.specs.Rules.{HasManyPairs};

    /// The package, and the number of the root among its definitions.
    pub fn root(&self) -> (&Guarded, usize)
        ensures package_kept { result.0.now ≡ self.now.0 }
        ensures named { name_of self.now.0 result.1 ≡ self.now.1 }
    {
        (self.package, self.root)
    }

    /// The rules, and the number of the root's.
    pub fn book(&self) -> (&Rulebook<rules::Rule<'_>>, usize)
        ensures { IsRooted self.now.0 self.now.1 result.0.now.numbering.rules.items
            result.0.now.numbering.children.items result.1 }
    {
        (&self.book, self.number)
    }

    /// Whether a document, as the list of its values, is an instance of the root (CUE, values). The table's memory is used
    /// again.
    ///
    /// # Errors
    /// `TooManyPairs` exactly where the values of the document and the rules make more than 67,108,864 pairs. The table is
    /// then one to be used again, too.
    pub fn verdict(&self, flat: &Flat<'_>, table: &mut Verdicts) -> Result<bool, InstanceFault>
        ensures one_meaning { OneMeaning self.now.0 }
        ensures answer { IfOk result (λ b. (I : Rule → Document → Bool) → IsInstance self.now.0 I
            → b ≡ I (definition self.now.1) (document_in flat.now)) }
        ensures within { OnOk result
            (¬ HasManyPairs self.now.0 self.now.1 (document_in flat.now)) }
        ensures many { (i r : ℕ) → IsErrOf result (InstanceFault.TooManyPairs i r)
            → AreManyPairs self.now.0 self.now.1 (document_in flat.now) i r }
        ensures known { IsErrOf result InstanceFault.UnknownRoot → ⊥ }
    {
        let _package = self.package.package(); // for the proof: the package is guarded
        let last = flat.len() - 1;
        let judge = self.book.over(flat)?;
        refill(&judge, table)?;
        Ok(table.get(last, self.number))
    }
}
