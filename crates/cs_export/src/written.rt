// What is written of schemas.
ghost use Rattle.std.specs.Prelude.{◌≡◌, ◌⊎◌, IfErr, OnOk};
ghost use Rattle.cs_grammar.specs.declared.profile.Profile.TheVariants as profiles;
ghost use Rattle.cs_package.specs.Environment.{Environment};
ghost use Rattle.cs_tool.specs.Accepted.{IsAccepted};
ghost use Rattle.cs_tool.specs.CallRefusals.{ExportRefusal};
ghost use Rattle.cs_tool.specs.First.{SourcesRefusal};
ghost use Rattle.cs_tool.specs.Given.{bytes_in};
ghost use Rattle.cs_tool.specs.Ready.{IsReady};
ghost use Rattle.cs_export.specs.Shaped.{IsRootSchema, ArePackageSchemas};
ghost use Rattle.cs_export.specs.Written.{WritesSchema, LeavesSchema};

use crate::exports::{export_all_in, export_root_in};
use crate::layout::Layout;
use cs_tool::{Fault, Profile, write_text};
use std::alloc::Global;
use std::io::Write;

/// Writes what [`export_root`](crate::export_root) answers and a newline, and flushes.
///
/// # Errors
/// What that call refuses, with nothing written. `WriteFailed`: what the writer took is a front of that text.
pub fn write_root<W: Write>(
    alloc: Global,
    sources: &[&[u8]],
    root: &str,
    layout: Layout,
    output: &mut W,
) -> Result<(), Fault>
    ensures done { OnOk result (WritesSchema
        (IsRootSchema profiles.Default (bytes_in sources.now) root.now layout)
        (W.contents output.old) (W.contents output.new)) }
    ensures refused { IfErr result (λ e. LeavesSchema
        (IsRootSchema profiles.Default (bytes_in sources.now) root.now layout)
        (ExportRefusal profiles.Default (bytes_in sources.now) root.now) e
        (W.contents output.old) (W.contents output.new)) }
    ensures only { IsReady profiles.Default (bytes_in sources.now) root.now
        → IfErr result (λ e. (e ≡ Fault.OutOfMemory) ⊎ (e ≡ Fault.WriteFailed)) }
{
    write_root_in(alloc, Profile::Default, sources, root, layout, output)
}

/// Writes what [`export_all`](crate::export_all) answers and a newline, and flushes.
///
/// # Errors
/// What that call refuses, with nothing written. `WriteFailed`: what the writer took is a front of that text.
pub fn write_all<W: Write>(
    alloc: Global,
    sources: &[&[u8]],
    layout: Layout,
    output: &mut W,
) -> Result<(), Fault>
    ensures done { OnOk result (WritesSchema
        (ArePackageSchemas profiles.Default (bytes_in sources.now) layout)
        (W.contents output.old) (W.contents output.new)) }
    ensures refused { IfErr result (λ e. LeavesSchema
        (ArePackageSchemas profiles.Default (bytes_in sources.now) layout)
        (SourcesRefusal profiles.Default (bytes_in sources.now)) e
        (W.contents output.old) (W.contents output.new)) }
    ensures only { (E : Environment) → IsAccepted profiles.Default (bytes_in sources.now) E
        → IfErr result (λ e. (e ≡ Fault.OutOfMemory) ⊎ (e ≡ Fault.WriteFailed)) }
{
    write_all_in(alloc, Profile::Default, sources, layout, output)
}

/// Writes what [`export_root_in`] answers and a newline, and flushes.
///
/// # Errors
/// What [`export_root_in`] refuses, with nothing written. `WriteFailed`: what the writer took is a front of that text.
pub fn write_root_in<W: Write>(
    alloc: Global,
    profile: Profile,
    sources: &[&[u8]],
    root: &str,
    layout: Layout,
    output: &mut W,
) -> Result<(), Fault>
    ensures done { OnOk result (WritesSchema (IsRootSchema profile (bytes_in sources.now) root.now layout)
        (W.contents output.old) (W.contents output.new)) }
    ensures refused { IfErr result (λ e. LeavesSchema
        (IsRootSchema profile (bytes_in sources.now) root.now layout)
        (ExportRefusal profile (bytes_in sources.now) root.now) e
        (W.contents output.old) (W.contents output.new)) }
    ensures only { IsReady profile (bytes_in sources.now) root.now
        → IfErr result (λ e. (e ≡ Fault.OutOfMemory) ⊎ (e ≡ Fault.WriteFailed)) }
{
    let mut text = export_root_in(alloc, profile, sources, root, layout)?;
    text.push(b'\n')?;
    write_text(output, &text)?;
    Ok(())
}

/// Writes what [`export_all_in`] answers and a newline, and flushes.
///
/// # Errors
/// What [`export_all_in`] refuses, with nothing written. `WriteFailed`: what the writer took is a front of that text.
pub fn write_all_in<W: Write>(
    alloc: Global,
    profile: Profile,
    sources: &[&[u8]],
    layout: Layout,
    output: &mut W,
) -> Result<(), Fault>
    ensures done { OnOk result (WritesSchema (ArePackageSchemas profile (bytes_in sources.now) layout)
        (W.contents output.old) (W.contents output.new)) }
    ensures refused { IfErr result (λ e. LeavesSchema
        (ArePackageSchemas profile (bytes_in sources.now) layout)
        (SourcesRefusal profile (bytes_in sources.now)) e
        (W.contents output.old) (W.contents output.new)) }
    ensures only { (E : Environment) → IsAccepted profile (bytes_in sources.now) E
        → IfErr result (λ e. (e ≡ Fault.OutOfMemory) ⊎ (e ≡ Fault.WriteFailed)) }
{
    let mut text = export_all_in(alloc, profile, sources, layout)?;
    text.push(b'\n')?;
    write_text(output, &text)?;
    Ok(())
}
