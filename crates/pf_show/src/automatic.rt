//! The tables that the optimiser made.
ghost use Rattle.std.specs.Prelude.{◌≡◌, ◌++◌, IfOk, OnErr, OnOk};
ghost use Rattle.pf_show.specs.Lines.{automatic_line, automatic_name};

use itoa::Buffer;
use pf_auto::AutoTable;
use pf_base::{Name, NoMemory};
use pf_parts::put;
use pf_print::put_table;
use pf_shelf::TableFlags;
use std::alloc::Global;

// The name of the table of this number.
fn automatic_name(alloc: Global, number: u32) -> Result<Name, NoMemory>
    ensures { IfOk result (λ name. name ≡ automatic_name number) }
{
    let mut digits = Buffer::new();
    let mut text = Vec::new(alloc);
    put(&mut text, b"__automatic_")?;
    put(&mut text, digits.format(number).as_bytes())?;
    match Name::new(text.as_slice()) {
        Some(name) => Ok(name),
        None => unreachable!(),
    }
}

// Appends its line.
pub(crate) fn put_automatic(out: &mut Vec<u8>, table: &AutoTable) -> Result<(), NoMemory>
    ensures ok { OnOk result (out.new.items ≡ out.old.items ++ automatic_line table.now) }
    ensures err { OnErr result (out.new.items ≡ out.old.items) }
{
    let flags = TableFlags {
        persist: false,
        constant: false,
        counters: false,
    };
    let name = automatic_name(*out.allocator(), table.number)?;
    put_table(out, &name, &flags, table.entries.items())
}
