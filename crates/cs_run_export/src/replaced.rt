// Files that are written whole, or left as they were.
use std::fs::{self, File, Metadata};
use std::io::{self, ErrorKind, Write};
use std::random::RandomSource;

/// Writes a text into a file. A regular file, and one that isn't there, is written beside it under another name and renamed, so
/// that whoever reads it finds the old text or the new one, and an error leaves the old one; it keeps its permissions.
/// What is no regular file (a pipe, a device, a link) is written as it is, and a link to a file that isn't there makes it.
pub(crate) fn replace_file(rt: &HostRuntime, path: &str, text: &[u8]) -> io::Result<()> {
    match fs::symlink_metadata(rt, path) {
        Ok(old) if old.is_file() => {
            // Renaming asks for no right on the old file: who may not write it may not replace it either.
            File::options().write(true).open(rt, path)?;
            replaced(rt, path, text, Some(&old))
        }
        Ok(_) => fs::write(rt, path, text),
        Err(error) if error.kind() == ErrorKind::NotFound => replaced(rt, path, text, None),
        Err(error) => Err(error),
    }
}

/// Writes a text beside a file, and puts it in its place.
fn replaced(rt: &HostRuntime, path: &str, text: &[u8], old: Option<&Metadata>) -> io::Result<()> {
    let beside = name_beside(rt, path)?;
    let file = File::create_new(rt, beside.as_str())?;
    let answer = put_in_place(rt, file, beside.as_str(), path, text, old);
    if answer.is_err() {
        // What can't be removed changes nothing.
        let _ = fs::remove_file(rt, beside.as_str());
    }
    answer
}

/// Fills a new file, gives it the permissions of the old one, and renames it.
fn put_in_place(
    rt: &HostRuntime,
    mut file: File,
    beside: &str,
    path: &str,
    text: &[u8],
    old: Option<&Metadata>,
) -> io::Result<()> {
    file.write_all(text)?;
    file.sync_all()?;
    drop(file);
    if let Some(old) = old {
        fs::set_permissions(rt, beside, old.permissions())?;
    }
    fs::rename(rt, beside, path)
}

/// A name beside a file's that nobody knows beforehand, so that no file that lies there stops a run.
fn name_beside(rt: &HostRuntime, path: &str) -> io::Result<String> {
    let mut bytes = [0; 8];
    rt.fill_bytes(&mut bytes)?;
    let number = u64::from_le_bytes(bytes);
    Ok(format!(in rt.alloc(); "{path}.{number:016x}.new")?)
}
