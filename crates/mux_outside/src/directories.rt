//! The files and directories of a list of paths and contents.
ghost use Rattle.std.specs.Prelude.{◌≡◌, IfOk};
ghost use Rattle.std.specs.Option.{option_map};
ghost use Rattle.std.specs.List.{before_first, list_any};
ghost use Rattle.std.specs.Prelude.{◌==◌, is_some};
ghost use Rattle.std.specs.Str.{bytes_eq};
ghost use Rattle.mux_outside.specs.Files as files_are;

use crate::pairs::Pair;
use ssh_fields::{OutOfMemory, Text, Texts};
use std::alloc::Global;

// The separator of components, which alone is the path of the root.
const SLASH: &[u8] = b"/";

/// The value under a name, of equal names the first.
pub fn pair_value_at<'a>(pairs: &'a [Pair], name: &[u8]) -> Option<&'a [u8]>
    ensures { option_map (λ v. v.now) result ≡ files_are.pair_value_at pairs.now name.now }
{
    for pair in pairs {
        if pair.name.as_bytes() == name {
            return Some(pair.value.as_bytes());
        }
    }
    None
}

// What of a path stands after a directory and its slash.
fn inside<'a>(dir: &[u8], path: &'a [u8]) -> Option<&'a [u8]>
    ensures { option_map (λ v. v.now) result ≡ files_are.path_inside dir.now path.now }
{
    if dir == SLASH {
        return path.strip_prefix(SLASH);
    }
    path.strip_prefix(dir)?.strip_prefix(SLASH)
}

/// Whether a path names a directory.
pub fn is_folder_at(files: &[Pair], dir: &[u8]) -> bool
    ensures { result ≡ files_are.is_folder_at files.now dir.now }
{
    dir == SLASH || (!dir.is_empty() && has_paths_inside(files, dir))
}

// Whether a path lies inside a directory.
fn has_paths_inside(files: &[Pair], dir: &[u8]) -> bool
    ensures { result ≡ list_any (λ p. is_some (files_are.path_inside dir.now p.name)) files.now }
{
    for pair in files {
        if inside(dir, pair.name.as_bytes()).is_some() {
            return true;
        }
    }
    false
}

// The bytes up to the first slash.
fn component(rest: &[u8]) -> &[u8]
    ensures { result.now ≡ before_first (λ b. b == 47) rest.now }
{
    for (end, byte) in rest.iter().enumerate() {
        if *byte == b'/' {
            return &rest[..end];
        }
    }
    rest
}

// The name in a directory by which a path goes on.
fn folder_name_in<'a>(dir: &[u8], pair: &'a Pair) -> Option<&'a [u8]>
    ensures { option_map (λ v. v.now) result ≡ files_are.folder_name_in dir.now pair.now }
{
    let name = component(inside(dir, pair.name.as_bytes())?);
    if name.is_empty() { None } else { Some(name) }
}

// Whether a name is among names.
fn is_among(names: &[Text], name: &[u8]) -> bool
    ensures { result ≡ list_any (bytes_eq name.now) names.now }
{
    for known in names {
        if name == known.as_bytes() {
            return true;
        }
    }
    false
}

/// The names in a directory, each once.
pub fn names_in(alloc: Global, files: &[Pair], dir: &[u8]) -> Result<Texts, OutOfMemory>
    ensures { IfOk result (λ names. names ≡ files_are.names_in files.now dir.now) }
{
    let mut names = Texts::new(alloc);
    for pair in files {
        if let Some(name) = folder_name_in(dir, pair) {
            if !is_among(names.as_slice(), name) {
                names.push(Text::copy(alloc, name)?)?;
            }
        }
    }
    Ok(names)
}
