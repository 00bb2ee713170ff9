//! The texts of calls, read and printed (pf.conf(5), ANCHORS).
ghost use Rattle.std.specs.Prelude.{◌≡◌, ◌+◌, ◌*◌, ◌<◌, ◌^◌, ◌++◌, false, IfOk, OnOk, length};
ghost use Rattle.std.specs.List.{join_with_byte, slice_split};
ghost use Rattle.std.specs.Option.{option_copied};
ghost use Rattle.pf_base.specs.Path.{bytes_behind, is_slash, names_behind};
ghost use Rattle.pf_parts.specs.Appending.{Extends};
ghost use Rattle.pf_parts.specs.CallPieces.{piece_text, pieces_text, some_behind};
ghost use Rattle.pf_parts.specs.CallReading.{Fits, shifted};
ghost use Rattle.pf_parts.specs.CallText as call_text;

use crate::call::{Base, Call};
use crate::text::put;
use pf_base::{Name, NoMemory, Path, PathFault};

// The most `..` of a call.
const MOST_UPS: usize = 8;

// A fault of names, of which the first begins at `start`.
fn shifted(fault: PathFault, start: usize) -> PathFault
    requires { Fits start fault }
    ensures { result ≡ shifted start fault }
{
    match fault {
        PathFault::BadByte(place) => PathFault::BadByte(start as u64 + place),
        other => other,
    }
}

// The path of the names in a text that begins at `start`.
#[tactic(auto, using(crate::proofs::CallReads::path_of_main, crate::proofs::CallReads::path_behind, crate::proofs::CallReads::fault_behind, crate::proofs::CallReads::fault_fits))]
fn names_from(text: &[u8], start: usize) -> Result<Path, PathFault>
    requires { start + length text.now < 2 ^ 64 }
    ensures { result ≡ call_text.path_at start (slice_split is_slash text.now) }
{
    if text == b"/".as_slice() {
        return Err(PathFault::Empty);
    }
    match Path::parse(text) {
        Ok(path) => Ok(path),
        Err(fault) => Err(shifted(fault, start)),
    }
}

// The path of the names that follow, none where no text follows.
fn names_after(text: Option<&[u8]>, start: usize) -> Result<Path, PathFault>
    requires { start + bytes_behind (option_copied text) < 2 ^ 64 + 1 }
    ensures { result ≡ call_text.path_at start (names_behind (option_copied text.entry)) }
{
    match text {
        Some(text) => names_from(text, start),
        None => Ok(Path::main()),
    }
}

// How many `..` stand in front, and what stands behind the `/` of the last one, where it has one.
fn split_ups(text: &[u8]) -> (usize, Option<&[u8]>)
    ensures pieces { slice_split is_slash text.now ≡ call_text.climb result.0 ++ names_behind (option_copied result.1) }
    ensures last { call_text.ups (names_behind (option_copied result.1)) ≡ 0 }
    ensures bytes { 3 * result.0 + bytes_behind (option_copied result.1) ≡ length text.now + 1 }
{
    let mut ups = 0;
    let mut rest = text;
    while let Some(behind) = rest.strip_prefix(b"../") {
        ups += 1;
        rest = behind;
    }
    if rest == b"..".as_slice() {
        return (ups + 1, None);
    }
    (ups, Some(rest))
}

fn base_up(ups: usize) -> Result<Base, PathFault>
    ensures { result ≡ call_text.base_up ups }
{
    if ups == 0 {
        return Ok(Base::Below);
    }
    if ups > MOST_UPS {
        return Err(PathFault::TooDeep(ups as u64));
    }
    Ok(Base::Up(ups as u8))
}

// A call whose text goes up or begins with a name.
#[tactic(auto, unfolding(crate::specs::CallText::read_pieces))]
fn read_pieces(text: &[u8], children: bool) -> Result<Call, PathFault>
    ensures { result ≡ call_text.read_pieces (slice_split is_slash text.now) children }
{
    let (ups, rest) = split_ups(text);
    let path = names_after(rest, 3 * ups)?;
    let base = base_up(ups)?;
    Ok(Call {
        base,
        path,
        children,
    })
}

// A call from the main ruleset, by what stands behind the `/`.
#[tactic(auto, unfolding(crate::specs::CallText::read_root))]
fn read_root(text: &[u8], children: bool) -> Result<Call, PathFault>
    requires { length text.now + 1 < 2 ^ 64 }
    ensures { result ≡ call_text.read_root text.now children }
{
    let path = if text.is_empty() {
        Path::main()
    } else {
        names_from(text, 1)?
    };
    Ok(Call {
        base: Base::Root,
        path,
        children,
    })
}

#[tactic(auto, unfolding(crate::specs::CallText::read_front))]
fn read_front(text: &[u8], children: bool) -> Result<Call, PathFault>
    ensures { result ≡ call_text.read_front text.now children }
{
    match text {
        [b'/', rest @ ..] => read_root(rest, children),
        _ => read_pieces(text, children),
    }
}

/// The call of a text.
#[tactic(auto, unfolding(crate::specs::CallText::read_call))]
pub(crate) fn read(text: &[u8]) -> Result<Call, PathFault>
    ensures { result ≡ call_text.read_call text.now }
{
    if text == b"*".as_slice() {
        return Ok(Call {
            base: Base::Below,
            path: Path::main(),
            children: true,
        });
    }
    if text == b"/*".as_slice() {
        return Ok(Call {
            base: Base::Root,
            path: Path::main(),
            children: true,
        });
    }
    match text.strip_suffix(b"/*") {
        Some(front) => read_front(front, true),
        None => read_front(text, false),
    }
}

// Appends a piece, behind a `/` where some piece stands in front.
fn put_piece(out: &mut Vec<u8>, some: bool, piece: &[u8]) -> Result<(), NoMemory>
    ensures ok { OnOk result (out.new.items ≡ out.old.items ++ piece_text some piece.now) }
    ensures kept { Extends out.old.items out.new.items }
{
    if some {
        put(out, b"/")?;
    }
    put(out, piece)?;
    Ok(())
}

// Appends so many `..`.
fn put_ups(out: &mut Vec<u8>, ups: u8) -> Result<(), NoMemory>
    ensures ok { OnOk result (out.new.items ≡ out.old.items ++ pieces_text false (call_text.climb ups)) }
    ensures kept { Extends out.old.items out.new.items }
{
    for step in 0..ups {
        put_piece(out, step > 0, b"..")?;
    }
    Ok(())
}

// Appends the pieces of a base, and tells whether some piece then stands in front.
fn put_base(out: &mut Vec<u8>, base: Base) -> Result<bool, NoMemory>
    ensures ok { IfOk result (λ some. (out.new.items ≡ out.old.items ++ pieces_text false (call_text.base_pieces base))
        × (some ≡ some_behind false (call_text.base_pieces base))) }
    ensures kept { Extends out.old.items out.new.items }
{
    match base {
        Base::Below => Ok(false),
        Base::Up(ups) => {
            put_ups(out, ups)?;
            Ok(ups > 0)
        }
        Base::Root => Ok(true),
    }
}

fn put_names(out: &mut Vec<u8>, some: bool, names: &[Name]) -> Result<(), NoMemory>
    ensures ok { OnOk result (out.new.items ≡ out.old.items ++ pieces_text some names.now) }
    ensures kept { Extends out.old.items out.new.items }
{
    let mut some = some;
    for name in names {
        put_piece(out, some, name.bytes())?;
        some = true;
    }
    Ok(())
}

// Whether some piece stands in front of what follows these names.
fn some_behind(some: bool, names: &[Name]) -> bool
    ensures { result ≡ some_behind some names.now }
{
    match names {
        [] => some,
        _ => true,
    }
}

// Appends the piece that calls the rulesets right below.
fn put_last(out: &mut Vec<u8>, some: bool, children: bool) -> Result<(), NoMemory>
    ensures ok { OnOk result (out.new.items ≡ out.old.items ++ pieces_text some (call_text.last_pieces children)) }
    ensures kept { Extends out.old.items out.new.items }
{
    if children {
        put_piece(out, some, b"*")?;
    }
    Ok(())
}

fn put_pieces(out: &mut Vec<u8>, call: &Call) -> Result<(), NoMemory>
    ensures ok { OnOk result (out.new.items ≡ out.old.items ++ join_with_byte 47 (call_text.call_pieces call.now)) }
    ensures kept { Extends out.old.items out.new.items }
{
    let names = call.path.names();
    let some = put_base(out, call.base)?;
    put_names(out, some, names)?;
    put_last(out, some_behind(some, names), call.children)?;
    Ok(())
}

fn is_main(call: &Call) -> bool
    ensures { result ≡ call_text.is_main call.now.base call.now.path call.now.children }
{
    matches!(call.base, Base::Root) && call.path.names().is_empty() && !call.children
}

/// Appends the call's text: `..` once or more, `/` or nothing, and then the names and `*` for the rulesets
/// right below, with `/` between them. Without memory a front of it may be appended.
#[tactic(auto, unfolding(crate::specs::CallText::call_text))]
pub fn put_call(out: &mut Vec<u8>, call: &Call) -> Result<(), NoMemory>
    ensures ok { OnOk result (out.new.items ≡ out.old.items ++ call_text.call_text call.now) }
    ensures kept { Extends out.old.items out.new.items }
{
    if is_main(call) {
        put(out, b"/")?;
    } else {
        put_pieces(out, call)?;
    }
    Ok(())
}
