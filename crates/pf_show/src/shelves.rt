//! Declared tables as lines.
ghost use Rattle.std.specs.Prelude.{◌≡◌, ◌++◌, OnOk};
ghost use Rattle.std.specs.List.{filter_map};
ghost use Rattle.std.specs.Option.{option_to_list};
ghost use Rattle.pf_parts.specs.Appending.{Extends};
ghost use Rattle.pf_show.specs.Lines.{lines_text};
ghost use Rattle.pf_show.specs.Shelves.{declared_lines, line_at};

use pf_base::{Name, NoMemory};
use pf_parts::put;
use pf_print::put_table;
use pf_shelf::Shelf;
use std::alloc::Global;

// Appends the line of the table of this name, where there is one.
fn put_at(out: &mut Vec<u8>, shelf: &Shelf, name: &Name) -> Result<(), NoMemory>
    ensures ok { OnOk result (out.new.items ≡ out.old.items ++ lines_text (option_to_list (line_at shelf.now name.now))) }
    ensures kept { Extends out.old.items out.new.items }
{
    let Some(table) = shelf.find(name) else {
        return Ok(());
    };
    let Some(flags) = shelf.flags(name) else {
        return Ok(());
    };
    let entries = table.entries()?;
    put_table(out, name, &flags, entries.as_slice())?;
    put(out, b"\n")?;
    Ok(())
}

// Appends the lines of the tables of these names.
fn put_named(out: &mut Vec<u8>, shelf: &Shelf, names: &[Name]) -> Result<(), NoMemory>
    ensures ok { OnOk result (out.new.items ≡ out.old.items ++ lines_text (filter_map (line_at shelf.now) names.now)) }
    ensures kept { Extends out.old.items out.new.items }
{
    for name in names {
        put_at(out, shelf, name)?;
    }
    Ok(())
}

/// Appends the lines of the declared tables of a ruleset, by their names in byte order (pf.conf(5), TABLES). Without memory what
/// stood in `out` still stands in front.
#[tactic(auto, using(crate::proofs::Shelving::found_by_names))]
pub fn put_declared(alloc: Global, out: &mut Vec<u8>, shelf: &Shelf) -> Result<(), NoMemory>
    ensures ok { OnOk result (out.new.items ≡ out.old.items ++ lines_text (declared_lines shelf.now)) }
    ensures kept { Extends out.old.items out.new.items }
{
    let names = shelf.names(alloc)?;
    put_named(out, shelf, names.as_slice())
}
