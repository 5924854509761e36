// The bytes of files as slices.
ghost use Rattle.std.specs.Prelude.{◌≡◌, map, IfOk};
ghost use Rattle.cs_tool.specs.Given.{bytes_in};

use std::alloc::{AllocError, Global};

/// The bytes of each file.
pub fn slices_of<'a>(alloc: Global, files: &'a [Vec<u8>]) -> Result<Vec<&'a [u8]>, AllocError>
    ensures { IfOk result (λ v. bytes_in v.items ≡ map (λ f. f.items) files.now) }
{
    let mut slices: Vec<&'a [u8]> = Vec::with_capacity(alloc, files.len())?;
    for file in files {
        slices.push(file.as_slice())?;
    }
    Ok(slices)
}
