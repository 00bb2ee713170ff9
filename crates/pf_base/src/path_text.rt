//! Reads the text of a path.
ghost use Rattle.std.specs.Prelude.{◌≡◌, ◌+◌, ◌<◌, ◌^◌, ◌∷◌, length, not, position};
ghost use Rattle.std.specs.Option.{option_copied};
ghost use Rattle.std.specs.List.{slice_split};
ghost use Rattle.pf_base.specs.Name.{is_plain_byte};
ghost use Rattle.pf_base.specs.Path as path;

use crate::name::Name;
use crate::path::Path;
use crate::path_fault::PathFault;
use crate::plain::{are_plain_bytes, is_plain_byte};

// The first place of a byte that no name has.
fn bad_place(name: &[u8]) -> Option<usize>
    ensures { result ≡ position (λ byte. not (is_plain_byte byte)) name.now }
{
    name.iter().position(|byte| !is_plain_byte(*byte))
}

// Is the text `.` or `..`?
#[tactic(auto, unfolding(crate::specs::Path::is_dots))]
fn is_dots(name: &[u8]) -> bool
    ensures { result ≡ path.is_dots name.now }
{
    name == b".".as_slice() || name == b"..".as_slice()
}

// May the name stand in a path?
#[tactic(auto, unfolding(crate::specs::Path::is_path_name))]
pub(crate) fn is_path_name(name: &[u8]) -> bool
    ensures { result ≡ path.is_path_name name.now }
{
    are_plain_bytes(name) && !is_dots(name)
}

// Does the name begin with `_`?
#[tactic(auto, unfolding(crate::specs::Path::is_reserved))]
fn is_reserved(name: &[u8]) -> bool
    ensures { result ≡ path.is_reserved name.now }
{
    matches!(name, [b'_', ..])
}

// The first byte that no name has, by its position in the text, for a name that begins at `start`.
#[tactic(auto, unfolding(crate::specs::Path::bad_byte))]
fn bad_byte(name: &[u8], start: usize) -> Option<PathFault>
    requires { start + length name.now < 2 ^ 64 }
    ensures { result ≡ path.bad_byte start name.now }
{
    if is_dots(name) {
        return Some(PathFault::BadByte(start as u64));
    }
    let place = bad_place(name)?;
    Some(PathFault::BadByte((start + place) as u64))
}

// The name that begins at `start`, or its first fault.
#[tactic(auto, unfolding(crate::specs::Path::name_fault))]
fn check_name(name: &[u8], start: usize, any: bool) -> Result<Name, PathFault>
    requires { start + length name.now < 2 ^ 64 }
    ensures { result ≡ path.checked_name (path.name_fault any start name.now) name.now }
{
    if name.is_empty() {
        return Err(PathFault::Empty);
    }
    if let Some(fault) = bad_byte(name, start) {
        return Err(fault);
    }
    if !any && is_reserved(name) {
        return Err(PathFault::Reserved);
    }
    Name::new(name).ok_or(PathFault::TooLong(name.len() as u64))
}

// The first place of a `/`.
fn place_of_slash(text: &[u8]) -> Option<usize>
    ensures { result ≡ position path.is_slash text.now }
{
    text.iter().position(|byte| *byte == b'/')
}

// The first name, and what stands behind its `/`, where there is one.
fn first_name(text: &[u8]) -> (&[u8], Option<&[u8]>)
    ensures names { slice_split path.is_slash text.now ≡ result.0.now ∷ path.names_behind (option_copied result.1) }
    ensures bytes { length text.now ≡ length result.0.now + path.bytes_behind (option_copied result.1) }
{
    match place_of_slash(text) {
        None => (text, None),
        Some(end) => (&text[..end], Some(&text[end + 1..])),
    }
}

// Reads names with `/` between them.
fn read_names(text: &[u8], any: bool) -> Result<Path, PathFault>
    ensures { let names = slice_split path.is_slash text.now in
        result ≡ path.path_of_names (path.names_fault any 0 names) names }
{
    let mut path = Path::main();
    let mut count = 0u64;
    let mut next = Some(text);
    while let Some(rest) = next {
        let (first, others) = first_name(rest);
        let name = check_name(first, text.len() - rest.len(), any)?;
        path.keep(&name);
        count += 1;
        next = others;
    }
    if count > Path::MOST as u64 {
        return Err(PathFault::TooDeep(count));
    }
    Ok(path)
}

/// The path of this text. With `any` its names may begin with `_`.
#[tactic(auto, unfolding(crate::specs::Path::read_path))]
pub(crate) fn read(text: &[u8], any: bool) -> Result<Path, PathFault>
    ensures { result ≡ path.read_path any text.now }
{
    if text == b"/".as_slice() {
        return Ok(Path::main());
    }
    read_names(text, any)
}
