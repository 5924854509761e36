// The scopes of files: what each declares, and which declaration a name stands for.
ghost use Rattle.std.specs.Prelude.{◌≡◌, ◌++◌, ◌∷◌, [], List, map, IfOk, OnOk};
ghost use Rattle.cs_grammar.specs.View.{field_view, fields_view, declaration_view, declarations_view, name_view, file_view};
ghost use Rattle.cs_grammar.specs.Tree.{names};
ghost use Rattle.cs_names.specs.Checks as Check;
ghost use Rattle.cs_names.specs.Checks.{TellsScope, TellsAround, TellScopes, declared_seen, path_view};
ghost use Rattle.cs_names.specs.Lifted as Lifted;
ghost use Rattle.cs_names.specs.Nested.{nested_from};
ghost use Rattle.cs_names.specs.Scopes as Spec;
ghost use Rattle.cs_names.specs.Scopes.{is_field, scope_of_fields, scope_of_declarations, declared_by, place_of, bound_scope, open_scope, shared_from, value_scope, name_scope};

use crate::nested::Path;
use crate::texts::is_marked;
use cs_grammar::{Declaration, Field, File, Name};
use std::alloc::{AllocError, Global};
use std::collections::BTreeMap;

/// What a scope declares under a name: a field of the data, or a name of the scope with the number of its file and its offset there.
#[derive(Clone, Copy)]
pub struct Entry {
    pub place: Option<(usize, usize)>,
    /// Whether the scope declares the name more than once.
    pub is_repeated: bool,
}

/// What a scope declares: it is made once, since each name looks through the scopes around it.
#[derive(Drop)]
pub(crate) struct Scope<'a> {
    names: BTreeMap<&'a str, Entry>,
}

/// A scope that an expression stands in: all of it, or but for the name that `let` binds to the expression.
#[derive(Clone, Copy)]
pub(crate) struct Around<'s, 'a> {
    scope: &'s Scope<'a>,
    hidden: Option<&'s str>,
}

/// Whether `let` binds the label (CUE, let clauses).
pub(crate) fn is_let(field: &Field) -> bool
    ensures { result ≡ Spec.is_let (field_view field.now).label }
{
    field.scoped.is_some() && !is_marked(&field.label)
}

/// Where a label is declared, if it is a name of its literal's scope.
pub(crate) fn place_of(file: usize, field: &Field) -> Option<(usize, usize)>
    ensures { result ≡ place_of file (field_view field.now).label }
{
    match field.scoped {
        Some(at) => Some((file, at)),
        None => None,
    }
}

/// What is declared under a name with a declaration more: the first one decides.
fn again_entry(first: Option<Entry>, place: Option<(usize, usize)>) -> Entry
    ensures { result ≡ Check.again_entry first place }
{
    match first {
        Some(entry) => Entry {
            place: entry.place,
            is_repeated: true,
        },
        None => Entry {
            place,
            is_repeated: false,
        },
    }
}

impl<'a> Scope<'a> {
    fn new(alloc: Global) -> Scope<'a>
        ensures { TellsScope result [] }
    {
        Scope {
            names: BTreeMap::new(alloc),
        }
    }

    /// What it declares under a name.
    pub(crate) fn entry(&self, name: &str) -> Option<Entry>
        ensures { result ≡ Check.entry_of self.now name.now }
    {
        match self.names.get(name) {
            Some(entry) => Some(*entry),
            None => None,
        }
    }

    /// Whether it declares a name.
    pub(crate) fn declares(&self, name: &str) -> bool
        ensures { (ds : Spec.Scope) → TellsScope self.now ds → result ≡ Spec.declares ds name.now }
    {
        self.names.contains_key(name)
    }

    /// Where it declares a name that is no field.
    pub(crate) fn first_place(&self, name: &str) -> Option<(usize, usize)>
        ensures { (ds : Spec.Scope) → TellsScope self.now ds → result ≡ Spec.first_place ds name.now }
    {
        match self.entry(name) {
            Some(entry) => entry.place,
            None => None,
        }
    }

    /// Adds a declaration behind others.
    fn add(&mut self, name: &'a str, place: Option<(usize, usize)>) -> Result<(), AllocError>
        ensures { OnOk result ((ds : Spec.Scope) → TellsScope self.old ds
            → TellsScope self.new (ds ++ record { name = name.now; place = place } ∷ [])) }
    {
        let entry = again_entry(self.entry(name), place);
        self.names.insert(name, entry)?;
        Ok(())
    }

    /// Adds what a label of a literal declares: nothing where it is in quotes.
    fn add_field(&mut self, file: usize, field: &'a Field) -> Result<(), AllocError>
        ensures { OnOk result ((ds : Spec.Scope) → TellsScope self.old ds
            → TellsScope self.new (ds ++ declared_by file (field_view field.now).label)) }
    {
        if field.quoted {
            return Ok(());
        }
        self.add(&field.label, place_of(file, field))
    }

    /// The scope of a literal with these fields.
    pub(crate) fn of_fields(
        alloc: Global,
        file: usize,
        fields: &'a [Field],
    ) -> Result<Scope<'a>, AllocError>
        ensures { IfOk result (λ t. TellsScope t (scope_of_fields file (fields_view fields.now))) }
    {
        let mut scope = Scope::new(alloc);
        for field in fields {
            scope.add_field(file, field)?;
        }
        Ok(scope)
    }

    fn add_declaration(
        &mut self,
        file: usize,
        declaration: &'a Declaration,
    ) -> Result<(), AllocError>
        ensures { OnOk result ((ds : Spec.Scope) → TellsScope self.old ds
            → TellsScope self.new (ds ++ declared_seen file (declaration_view declaration.now))) }
    {
        match declaration {
            Declaration::Field(field) => self.add_field(file, field),
            Declaration::Embedded { .. } | Declaration::Conditional { .. } => Ok(()),
        }
    }

    /// The scope of a literal with these declarations.
    pub(crate) fn of_declarations(
        alloc: Global,
        file: usize,
        declarations: &'a [Declaration],
    ) -> Result<Scope<'a>, AllocError>
        ensures { IfOk result (λ t. TellsScope t (scope_of_declarations file (declarations_view declarations.now))) }
    {
        let mut scope = Scope::new(alloc);
        for declaration in declarations {
            scope.add_declaration(file, declaration)?;
        }
        Ok(scope)
    }

    /// What a file binds by `let`.
    pub(crate) fn bound(
        alloc: Global,
        file: usize,
        names: &'a [Name],
    ) -> Result<Scope<'a>, AllocError>
        ensures { IfOk result (λ t. TellsScope t (bound_scope file (map name_view names.now))) }
    {
        let mut scope = Scope::new(alloc);
        for name in names {
            if name.is_bound {
                scope.add(&name.label, Some((file, name.at)))?;
            }
        }
        Ok(scope)
    }

    /// Adds what a file declares for all files.
    fn add_open(&mut self, file: usize, names: &'a Vec<Name>) -> Result<(), AllocError>
        ensures { OnOk result ((ds : Spec.Scope) → TellsScope self.old ds
            → TellsScope self.new (ds ++ open_scope file (map name_view names.now.items))) }
    {
        for name in names {
            if !name.is_bound {
                self.add(&name.label, Some((file, name.at)))?;
            }
        }
        Ok(())
    }

    /// The names that files share.
    fn open(alloc: Global, files: &'a [File]) -> Result<Scope<'a>, AllocError>
        ensures { IfOk result (λ t. TellsScope t (shared_from 0 (map file_view files.now))) }
    {
        let mut scope = Scope::new(alloc);
        for (file, parsed) in files.iter().enumerate() {
            scope.add_open(file, &parsed.names)?;
        }
        Ok(scope)
    }

    /// Adds nested definitions by their paths.
    fn add_paths(&mut self, paths: &'a [Path]) -> Result<(), AllocError>
        ensures { OnOk result ((ds : Spec.Scope) → TellsScope self.old ds → TellsScope self.new (ds ++ map path_view paths.now)) }
    {
        for path in paths {
            self.add(&path.text, path.place)?;
        }
        Ok(())
    }

    /// What files share, of which these are the nested definitions.
    pub(crate) fn shared(
        alloc: Global,
        files: &'a [File],
        paths: &'a [Path],
    ) -> Result<Scope<'a>, AllocError>
        ensures { map path_view paths.now ≡ nested_from 0 (map file_view files.now)
            → IfOk result (λ t. TellsScope t (Lifted.shared (map file_view files.now))) }
    {
        let mut scope = Scope::open(alloc, files)?;
        scope.add_paths(paths)?;
        Ok(scope)
    }
}

impl<'s, 'a> Around<'s, 'a> {
    pub(crate) fn whole(scope: &'s Scope<'a>) -> Around<'s, 'a>
        ensures { (ds : Spec.Scope) → TellsScope scope.now ds → TellsAround result ds }
    {
        Around {
            scope,
            hidden: None,
        }
    }

    /// The scope of a literal as the value of one of its fields sees it.
    pub(crate) fn of_value(scope: &'s Scope<'a>, field: &'s Field) -> Around<'s, 'a>
        ensures { (ds : Spec.Scope) → TellsScope scope.now ds → TellsAround result (value_scope (field_view field.now).label ds) }
    {
        if is_let(field) {
            Around {
                scope,
                hidden: Some(&field.label),
            }
        } else {
            Around::whole(scope)
        }
    }

    /// What a file binds, as the value of one of its names sees it.
    pub(crate) fn of_name(scope: &'s Scope<'a>, name: &'s Name) -> Around<'s, 'a>
        ensures { (ds : Spec.Scope) → TellsScope scope.now ds → TellsAround result (name_scope (name_view name.now) ds) }
    {
        if name.is_bound {
            Around {
                scope,
                hidden: Some(&name.label),
            }
        } else {
            Around::whole(scope)
        }
    }

    fn entry(&self, name: &str) -> Option<Entry>
        ensures { result ≡ Check.unless_hidden self.now.hidden name.now (Check.entry_of self.now.scope.now name.now) }
    {
        match self.hidden {
            Some(hidden) => {
                if hidden == name {
                    None
                } else {
                    self.scope.entry(name)
                }
            }
            None => self.scope.entry(name),
        }
    }

    /// The scopes inside of this one and others.
    pub(crate) fn and(
        &self,
        alloc: Global,
        outside: &[Around<'s, 'a>],
    ) -> Result<Vec<Around<'s, 'a>>, AllocError>
        ensures { IfOk result (λ v. v.items ≡ self.now ∷ outside.now) }
    {
        let mut scopes = Vec::new(alloc);
        scopes.push(*self)?;
        scopes.extend_from_slice(outside)?;
        Ok(scopes)
    }
}

/// Where a name is declared that stands for what it was declared as in the innermost scope; `None` where that is a field, or nothing (CUE, references).
pub(crate) fn denoted(scopes: &[Around<'_, '_>], name: &str) -> Option<(usize, usize)>
    ensures { (ss : List Spec.Scope) → TellScopes scopes.now ss → result ≡ Spec.denoted ss name.now }
{
    for around in scopes {
        if let Some(entry) = around.entry(name) {
            return entry.place;
        }
    }
    None
}

/// Whether a name stands for a field, in the innermost scope that declares it.
pub(crate) fn is_field(scopes: &[Around<'_, '_>], name: &str) -> bool
    ensures { (ss : List Spec.Scope) → TellScopes scopes.now ss → result ≡ is_field ss name.now }
{
    for around in scopes {
        if let Some(entry) = around.entry(name) {
            return entry.place.is_none();
        }
    }
    false
}
