//! The path of a supplementary file.
ghost use Rattle.std.specs.Prelude.{◌≡◌, ◌++◌, ◌<◌, Some, None, IfOk, length, codes};
ghost use Rattle.std.specs.Option.{option_copied};
ghost use Rattle.std.specs.String.{string_bytes};
ghost use Rattle.sym_edges.specs.Outside.{MatchStop};
ghost use Rattle.debug_pair.specs.SupPath.{before_last, behind_last, has_parent, debug_root, path_below, path_beside, sup_path};
ghost use Rattle.debug_pair.specs.declared.fault.SupFault.TheVariants.{Link};

use crate::fault::SupFault;
use std::alloc::{AllocError, Global};
use sym_edges::Stop;

/// The part of a text before the last `part`.
fn before_last<'t>(text: &'t str, part: &str) -> Option<&'t str>
    requires { 0 < length part.now }
    ensures { option_copied result ≡ before_last part.now text.now }
{
    match text.rsplit_once(part) {
        None => None,
        Some((front, _)) => Some(front),
    }
}

/// The part of a text after the last `part`.
fn behind_last<'t>(text: &'t str, part: &str) -> Option<&'t str>
    requires { 0 < length part.now }
    ensures { option_copied result ≡ behind_last part.now text.now }
{
    match text.rsplit_once(part) {
        None => None,
        Some((_, rest)) => Some(rest),
    }
}

/// Three texts as one.
#[tactic(auto, using(crate::proofs::PathLemmas::joined_three))]
fn join(alloc: Global, first: &str, second: &str, third: &str) -> Result<String, AllocError>
    ensures { IfOk result (λ text. string_bytes text ≡ first.now ++ second.now ++ third.now) }
{
    let mut text = String::from_str(alloc, first)?;
    text.push_str(second)?;
    text.push_str(third)?;
    Ok(text)
}

/// Whether a component of a path is `..`.
#[tactic(auto, unfolding(crate::specs::SupPath::has_parent, crate::specs::SupPath::before_last))]
fn has_parent(alloc: Global, path: &str) -> Result<bool, AllocError>
    ensures { IfOk result (λ has. has ≡ has_parent path.now) }
{
    let closed = join(alloc, "/", path, "/")?;
    Ok(before_last(closed.as_str(), "/../").is_some())
}

/// The directory of debug files: the given root; without one, the part of the name of the file
/// before the last `/.build-id/`.
fn debug_root<'t>(root: Option<&'t str>, name: &'t str) -> Option<&'t str>
    ensures { option_copied result ≡ debug_root (option_copied root.entry) name.now }
{
    match root {
        Some(root) => Some(root),
        None => before_last(name, "/.build-id/"),
    }
}

/// The path below a directory of debug files. It must not lead out of this directory.
fn path_below(alloc: Global, root: &str, path: &str) -> Result<String, Stop<SupFault>>
    ensures { MatchStop result
        (λ found. path_below root.now (behind_last (codes "/.dwz/") path.now) ≡ Some (string_bytes found))
        (λ fault. (fault ≡ Link) × (path_below root.now (behind_last (codes "/.dwz/") path.now) ≡ None)) (Unit {0}) }
{
    let Some(rest) = behind_last(path, "/.dwz/") else {
        return Err(Stop::Fault(SupFault::Link));
    };
    if has_parent(alloc, rest)? {
        return Err(Stop::Fault(SupFault::Link));
    }
    Ok(join(alloc, root, "/.dwz/", rest)?)
}

/// The path itself if it begins with `/`; otherwise it is relative to the folder of the file
/// `name`.
#[tactic(auto, unfolding(crate::specs::SupPath::path_beside))]
fn path_beside(alloc: Global, name: &str, path: &str) -> Result<String, AllocError>
    ensures { IfOk result (λ found. string_bytes found ≡ path_beside name.now path.now) }
{
    if path.as_bytes().starts_with(b"/") {
        return String::from_str(alloc, path);
    }
    match before_last(name, "/") {
        None => String::from_str(alloc, path),
        Some(folder) => join(alloc, folder, "/", path),
    }
}

/// The path of the supplementary file to which the file `name` links by `path`. It is below a root
/// of debug files, if one is given or the name has one; otherwise it is relative to the folder of
/// the file. The fault is `Link`.
#[tactic(auto, unfolding(crate::specs::SupPath::sup_path))]
pub fn sup_path(
    alloc: Global,
    root: Option<&str>,
    name: &str,
    path: &str,
) -> Result<String, Stop<SupFault>>
    ensures exact { MatchStop result
        (λ found. sup_path (option_copied root.entry) name.now path.now ≡ Some (string_bytes found))
        (λ fault. (fault ≡ Link) × (sup_path (option_copied root.entry) name.now path.now ≡ None)) (Unit {0}) }
{
    match debug_root(root, name) {
        Some(root) => path_below(alloc, root, path),
        None => Ok(path_beside(alloc, name, path)?),
    }
}
