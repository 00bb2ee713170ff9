//! Reads a profile.
ghost use Rattle.std.specs.Prelude.{◌≡◌, ◌∷◌, ◌<◌, [], IfErr, IfNone, IfOk, IfSome};
ghost use Rattle.pf_base.specs.Text.{fields_of};
ghost use Rattle.pf_optim.specs.Profile.{IsFaultAt, IsProfileText, Says, TellOf, is_passed_over};
ghost use Rattle.pf_optim.specs.ProfileSteps.{IfLine, NoWords, SaysNothing, TakesOr, TakesRowOr, TellNothing, rows_of};

use crate::fault::{LineFault, ProfileFault};
use crate::key::Key;
use crate::profile::Profile;
use crate::rows::Row;
use indexmap::IndexMap;
use pf_base::Path;
use pf_base::text::{decimal, next_line, split_field};
use std::alloc::Global;

/// Reads a profile: lines of a path, a place and a count between single spaces, where empty lines and lines that begin
/// with `#` are passed over. The fault is the first line outside this form, or with a place that an earlier line tells of;
/// every line counts.
pub fn read_profile(alloc: Global, text: &[u8]) -> Result<Profile, ProfileFault>
    ensures read { IfOk result (IsProfileText text.now) }
    ensures fault { IfErr result (λ fault. IfLine fault (IsFaultAt text.now)) }
{
    let mut counts = IndexMap::new(alloc);
    let mut rest = text;
    let mut number = 0u64;
    while let Some((line, behind)) = next_line(rest) {
        number += 1;
        if let Err(fault) = add_line(&mut counts, line) {
            return Err(fault.at(number));
        }
        rest = behind;
    }
    Ok(Profile { counts })
}

// Takes a line: it is passed over, or its row is added.
fn add_line(counts: &mut IndexMap<Key, u32>, line: &[u8]) -> Result<(), LineFault>
    ensures { TakesOr result line.now (rows_of counts.old.entries) (rows_of counts.new.entries) }
{
    if is_passed_over(line) {
        return Ok(());
    }
    match read_row(line) {
        None => Err(LineFault::Outside),
        Some(row) => add_row(counts, &row),
    }
}

fn is_passed_over(line: &[u8]) -> bool
    ensures { result ≡ is_passed_over line.now }
{
    match line {
        [] => true,
        [byte, ..] => *byte == b'#',
    }
}

// Adds a row, if none is about what it is about.
fn add_row(counts: &mut IndexMap<Key, u32>, row: &Row) -> Result<(), LineFault>
    ensures { TakesRowOr result row.now (rows_of counts.old.entries) (rows_of counts.new.entries) }
{
    let key = Key {
        path: row.path,
        place: row.place,
    };
    if counts.contains_key(&key) {
        return Err(LineFault::Outside);
    }
    counts.insert(key, row.count)?;
    Ok(())
}

// The row that a line says.
fn read_row(line: &[u8]) -> Option<Row>
    ensures some { IfSome result (Says line.now) }
    ensures none { IfNone result (SaysNothing line.now) }
{
    let words = three_words(line)?;
    told_by(&words)
}

// Three words between single spaces.
#[derive(Clone, Copy)]
struct Words<'a> {
    path: &'a [u8],
    place: &'a [u8],
    count: &'a [u8],
}

fn three_words(line: &[u8]) -> Option<Words<'_>>
    ensures some { IfSome result (λ words. fields_of line.now ≡ words.path.now ∷ words.place.now ∷ words.count.now ∷ []) }
    ensures none { IfNone result (NoWords line.now) }
{
    let (path, rest) = split_field(line);
    let (place, rest) = split_field(rest?);
    let (count, rest) = split_field(rest?);
    if rest.is_some() {
        return None;
    }
    Some(Words { path, place, count })
}

// The row of which the words tell.
fn told_by(words: &Words<'_>) -> Option<Row>
    ensures some { IfSome result (TellOf words.now.path.now words.now.place.now words.now.count.now) }
    ensures none { IfNone result (TellNothing words.now.path.now words.now.place.now words.now.count.now) }
{
    let path = match Path::parse_any(words.path) {
        Ok(path) => path,
        Err(_) => return None,
    };
    let place = decimal(words.place, u32::MAX)?;
    let count = decimal(words.count, u32::MAX)?;
    if place == 0 {
        return None;
    }
    Some(Row { path, place, count })
}
