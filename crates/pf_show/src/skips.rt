//! Skip steps as lines.
ghost use Rattle.std.specs.Prelude.{◌≡◌, ◌+◌, ◌<◌, ◌^◌, ◌∷◌, [], ◌++◌, length, OnOk};
ghost use Rattle.std.specs.List.{flat_map};
ghost use Rattle.pf_optim.specs.Ruleset.{form_of};
ghost use Rattle.pf_optim.specs.Skips.{skip};
ghost use Rattle.pf_parts.specs.Appending.{Extends};
ghost use Rattle.pf_show.specs.Lines.{lines_text};
ghost use Rattle.pf_show.specs.Skipping.{fields, place_text, skip_line, skip_lines};

use pf_base::NoMemory;
use pf_optim::Ruleset;
use pf_parts::{put, put_number};

// Appends a place, counted from 1, behind a space.
fn put_place(out: &mut Vec<u8>, place: u32) -> Result<(), NoMemory>
    requires { place + 1 < 2 ^ 32 }
    ensures ok { OnOk result (out.new.items ≡ out.old.items ++ place_text place) }
    ensures kept { Extends out.old.items out.new.items }
{
    put(out, b" ")?;
    put_number(out, place + 1)?;
    Ok(())
}

// Appends the skip of a rule in a field.
fn put_skip(out: &mut Vec<u8>, rules: &Ruleset, place: u32, field: u8) -> Result<(), NoMemory>
    requires inside { place < length (form_of rules.now).rules }
    requires known { field < 8 }
    ensures ok { OnOk result (out.new.items ≡ out.old.items ++ place_text (skip (form_of rules.now).rules place field)) }
    ensures kept { Extends out.old.items out.new.items }
{
    // What `fast` promises of the ruleset, which the proof of the call must know.
    let _fast = rules.fast();
    put_place(out, rules.skip(place, field))
}

// Appends the skips of a rule in the eight fields.
fn put_fields(out: &mut Vec<u8>, rules: &Ruleset, place: u32) -> Result<(), NoMemory>
    requires inside { place < length (form_of rules.now).rules }
    ensures ok { OnOk result (out.new.items ≡ out.old.items ++ flat_map (λ field. place_text (skip (form_of rules.now).rules place field)) fields) }
    ensures kept { Extends out.old.items out.new.items }
{
    for field in 0..8u8 {
        put_skip(out, rules, place, field)?;
    }
    Ok(())
}

// Appends the line of the rule at a place.
fn put_skip_line(out: &mut Vec<u8>, rules: &Ruleset, place: u32) -> Result<(), NoMemory>
    requires inside { place < length (form_of rules.now).rules }
    ensures ok { OnOk result (out.new.items ≡ out.old.items ++ (skip_line (form_of rules.now).rules place ++ 10 ∷ [])) }
    ensures kept { Extends out.old.items out.new.items }
{
    // What `fast` promises of the ruleset, which the proof of the place must know.
    let _fast = rules.fast();
    put_number(out, place + 1)?;
    put_fields(out, rules, place)?;
    put(out, b"\n")?;
    Ok(())
}

/// Appends the skip steps of a ruleset's optimised rules: of each rule a line with its place and its eight skips, counted from 1;
/// the end of n rules is n + 1. Without memory what stood in `out` still stands in front.
pub fn put_skips(out: &mut Vec<u8>, rules: &Ruleset) -> Result<(), NoMemory>
    ensures ok { OnOk result (out.new.items ≡ out.old.items ++ lines_text (skip_lines (form_of rules.now).rules)) }
    ensures kept { Extends out.old.items out.new.items }
{
    let count = rules.fast().len() as u32;
    for place in 0..count {
        put_skip_line(out, rules, place)?;
    }
    Ok(())
}
