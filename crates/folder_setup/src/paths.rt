// Paths that are named from a folder.
ghost use Rattle.std.specs.Prelude.{◌≡◌, ◌++◌, IfOk, OnOk, map, string_bytes};
ghost use Rattle.std.specs.List.{flat_map};
ghost use Rattle.folder_setup.specs.Paths as paths;

use std::alloc::{AllocError, Global};

/// A path that is named from a folder, as one names it who names the folder so: one that begins
/// with a slash is the same everywhere, and from `.` each is.
///
/// # Errors
/// Out of memory alone.
pub fn path_in(alloc: Global, folder: &str, path: &str) -> Result<String, AllocError>
    ensures { IfOk result (λ text. string_bytes text ≡ paths.path_in folder.now path.now) }
{
    let mut text = String::new(alloc);
    if !is_absolute(path) && !is_here(folder) {
        text.push_str(folder)?;
        text.push_str(slash_after(folder))?;
    }
    text.push_str(path)?;
    Ok(text)
}

/// A path that is named from the folder `here`, as it is named from another folder, where both are
/// whole paths of folders, without links, `.` and `..`: first `../` for each name of the folder's
/// that the two have not in common, and then the other names of `here`. A path that begins with a
/// slash stays as it is.
///
/// # Errors
/// Out of memory alone.
pub fn path_from(alloc: Global, folder: &str, here: &str, path: &str) -> Result<String, AllocError>
    ensures { IfOk result (λ text. string_bytes text
        ≡ paths.path_from folder.now here.now path.now) }
{
    let mut text = String::new(alloc);
    if !is_absolute(path) {
        let (folder, here) = (names_of(alloc, folder)?, names_of(alloc, here)?);
        let (left, into) = apart(&folder, &here);
        push_way(&mut text, left, into)?;
    }
    text.push_str(path)?;
    Ok(text)
}

/// Whether a folder is another one or stands in it, at whatever depth, where both are given by whole
/// paths, without links, `.` and `..`.
///
/// # Errors
/// Out of memory alone.
pub fn is_within(alloc: Global, folder: &str, path: &str) -> Result<bool, AllocError>
    ensures { IfOk result (λ is. is ≡ paths.is_within folder.now path.now) }
{
    let (folder, path) = (names_of(alloc, folder)?, names_of(alloc, path)?);
    let (left, _) = apart(&folder, &path);
    Ok(is_none(left))
}

// Whether there is no name.
fn is_none(names: &[&str]) -> bool
    ensures { result ≡ paths.is_none_left (paths.names_view names.now) }
{
    match names {
        [] => true,
        [_, ..] => false,
    }
}

// Whether a path begins with a slash.
fn is_absolute(path: &str) -> bool
    ensures { result ≡ paths.is_absolute path.now }
{
    match path.as_bytes() {
        [] => false,
        [byte, ..] => *byte == b'/',
    }
}

// Whether a path is `.`.
fn is_here(folder: &str) -> bool
    ensures { result ≡ paths.is_here folder.now }
{
    folder == "."
}

// The slash that divides a folder from a name in it, unless the folder has it.
fn slash_after(folder: &str) -> &'static str
    ensures { result.now ≡ paths.slash_after folder.now }
{
    match folder.as_bytes().last() {
        Some(byte) if *byte == b'/' => "",
        _ => "/",
    }
}

// The names in a path, which slashes divide.
fn names_of(alloc: Global, path: &str) -> Result<Vec<&str>, AllocError>
    ensures { IfOk result (λ names. paths.names_view names.items ≡ paths.names_of path.now) }
{
    let mut names = Vec::new(alloc);
    let mut left = path;
    'names: while let Some((name, rest)) = left.split_once('/') {
        push_if(&mut names, name)?;
        left = rest;
    }
    push_if(&mut names, left)?;
    Ok(names)
}

// Adds a part of a path between slashes, unless it is empty.
fn push_if<'a>(names: &mut Vec<&'a str>, name: &'a str) -> Result<(), AllocError>
    ensures { OnOk result (paths.names_view names.new.items
        ≡ paths.names_view names.old.items ++ paths.name_if name.now) }
{
    if name.is_empty() {
        return Ok(());
    }
    names.push(name)?;
    Ok(())
}

// What is left of two lists after the longest front that both have.
fn apart<'n, 'a>(here: &'n [&'a str], there: &'n [&'a str]) -> (&'n [&'a str], &'n [&'a str])
    ensures { (paths.names_view result.0.now, paths.names_view result.1.now)
        ≡ paths.apart (paths.names_view here.now) (paths.names_view there.now) }
{
    let (mut here, mut there) = (here, there);
    'names: while let [one, later @ ..] = here {
        match there {
            [other, rest @ ..] if *one == *other => {
                here = later;
                there = rest;
            }
            _ => break,
        }
    }
    (here, there)
}

// Adds the way from one folder to another, by the names that they have not in common.
fn push_way(text: &mut String, left: &[&str], into: &[&str]) -> Result<(), AllocError>
    ensures { OnOk result (string_bytes text.new ≡ string_bytes text.old
        ++ paths.way (paths.names_view left.now, paths.names_view into.now)) }
{
    push_out(text, left)?;
    push_into(text, into)
}

// Adds the way out of folders.
fn push_out(text: &mut String, names: &[&str]) -> Result<(), AllocError>
    ensures { OnOk result (string_bytes text.new
        ≡ string_bytes text.old ++ flat_map paths.out_of (paths.names_view names.now)) }
{
    let mut left = names;
    'names: while let [_, later @ ..] = left {
        text.push_str("../")?;
        left = later;
    }
    Ok(())
}

// Adds the way into folders.
fn push_into(text: &mut String, names: &[&str]) -> Result<(), AllocError>
    ensures { OnOk result (string_bytes text.new
        ≡ string_bytes text.old ++ flat_map paths.into (paths.names_view names.now)) }
{
    let mut left = names;
    'names: while let [name, later @ ..] = left {
        text.push_str(name)?;
        text.push_str("/")?;
        left = later;
    }
    Ok(())
}
