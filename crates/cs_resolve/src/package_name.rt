// The package clauses of files.

ghost use Rattle.std.specs.Prelude.{◌≡◌, map};
ghost use Rattle.std.specs.Option.{option_map};
ghost use Rattle.cs_grammar.specs.View.{file_view};
ghost use Rattle.cs_resolve.specs.DifferingFile as Name;

use cs_grammar::File;

/// The first package name that a file gives.
fn first_named(files: &Vec<File>) -> Option<&str>
    ensures { option_map (λ n. n.now) result ≡ Name.first_named (map file_view files.now.items) }
{
    for file in files {
        if let Some(name) = &file.package {
            return Some(name.as_str());
        }
    }
    None
}

/// Whether the file names another package.
fn names_other(file: &File, name: &str) -> bool
    ensures { result ≡ Name.names_other name.now (file_view file.now) }
{
    match &file.package {
        Some(own) => own.as_str() != name,
        None => false,
    }
}

/// The first file whose package name differs from the first one given.
pub(crate) fn differing_file(files: &Vec<File>) -> Option<usize>
    ensures { result ≡ Name.differing_file (map file_view files.now.items) }
{
    let name = first_named(files)?;
    files.iter().position(|file| names_other(file, name))
}
