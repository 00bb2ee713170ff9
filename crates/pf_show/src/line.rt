//! What is shown in a line of its own.
ghost use Rattle.std.specs.Prelude.{◌≡◌, ℕ, List, ◌++◌, OnErr, OnOk};
ghost use Rattle.pf_print.specs.QueueText.{queue_line};
ghost use Rattle.pf_print.specs.RuleText.{rule_text};
ghost use Rattle.pf_print.specs.TableText.{entry_text};
ghost use Rattle.pf_show.specs.Lines.{automatic_line, option_line};

use crate::automatic::put_automatic;
use pf_auto::AutoTable;
use pf_base::{Name, NoMemory};
use pf_decl::{OptionLine, Queue};
use pf_print::{put_entry, put_option, put_queue, put_rule};
use pf_rule::Rule;
use pf_table::Entry;

/// A thing with a text of one line.
pub trait Line {
    /// Its text.
    ghost line: { Self → List ℕ };

    /// Appends its text. Without memory the buffer is as before.
    fn put(&self, out: &mut Vec<u8>) -> Result<(), NoMemory>
        ensures ok { OnOk result (out.new.items ≡ out.old.items ++ line self.now) }
        ensures err { OnErr result (out.new.items ≡ out.old.items) };
}

impl Line for Name {
    ghost line = { λ name. name };

    fn put(&self, out: &mut Vec<u8>) -> Result<(), NoMemory> {
        out.extend_from_slice(self.bytes())?;
        Ok(())
    }
}

impl Line for Rule {
    ghost line = { rule_text };

    fn put(&self, out: &mut Vec<u8>) -> Result<(), NoMemory> {
        put_rule(out, self)
    }
}

impl Line for Queue {
    ghost line = { queue_line };

    fn put(&self, out: &mut Vec<u8>) -> Result<(), NoMemory> {
        put_queue(out, self)
    }
}

impl Line for OptionLine {
    ghost line = { option_line };

    fn put(&self, out: &mut Vec<u8>) -> Result<(), NoMemory> {
        put_option(out, self)
    }
}

impl Line for AutoTable {
    ghost line = { automatic_line };

    fn put(&self, out: &mut Vec<u8>) -> Result<(), NoMemory> {
        put_automatic(out, self)
    }
}

impl Line for Entry {
    ghost line = { entry_text };

    fn put(&self, out: &mut Vec<u8>) -> Result<(), NoMemory> {
        put_entry(out, self)
    }
}
