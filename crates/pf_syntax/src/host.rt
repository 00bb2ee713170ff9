//! Hosts (pf.conf(5), GRAMMAR, `hosts` and `host`).
ghost use Rattle.pf_syntax.specs.Hosts.{address, dynamic, host, host_word, plain_host, table_name};
ghost use Rattle.pf_syntax.specs.Taking.{Takes};

use crate::cursor::Cursor;
use crate::fault::Stop;
use crate::form::{HostForm, HostItem};
use crate::list::Take;
use pf_base::{Name, Text, named_in_fault};

// Takes a word other than `-`.
fn take_host_word(cursor: &mut Cursor) -> Result<Text, Stop>
    ensures { Takes host_word cursor.old result cursor.new }
{
    if cursor.is_at_word(b"-") {
        return Err(Stop::Outside);
    }
    cursor.take_word()
}

/// Takes the name of a table and the `>` behind it. A longer name is cut to 63 bytes.
#[tactic(auto, unfolding(crate::specs::Hosts::table_name))]
pub fn take_table_name(cursor: &mut Cursor) -> Result<Name, Stop>
    ensures { Takes table_name cursor.old result cursor.new }
{
    let word = cursor.take_word()?;
    cursor.take_sign(b">")?;
    if word.items().is_empty() {
        return Err(Stop::Outside);
    }
    Ok(named_in_fault(word.items()))
}

// Takes what stands behind a `(`.
#[tactic(auto, unfolding(crate::specs::Hosts::dynamic))]
fn take_dynamic(cursor: &mut Cursor) -> Result<HostForm, Stop>
    ensures { Takes dynamic cursor.old result cursor.new }
{
    let word = cursor.take_word()?;
    cursor.take_sign(b")")?;
    Ok(HostForm::Dynamic(word))
}

// Takes a word with a mask or without, or a range.
#[tactic(auto, unfolding(crate::specs::Hosts::address))]
fn take_address(cursor: &mut Cursor) -> Result<HostForm, Stop>
    ensures { Takes address cursor.old result cursor.new }
{
    let word = take_host_word(cursor)?;
    if cursor.passes_sign(b"/") {
        let mask = cursor.take_word()?;
        return Ok(HostForm::Word {
            word,
            mask: Some(mask),
        });
    }
    if cursor.passes(b"-") {
        let high = take_host_word(cursor)?;
        return Ok(HostForm::Range { low: word, high });
    }
    Ok(HostForm::Word { word, mask: None })
}

// Takes what a host stands for.
#[tactic(auto, unfolding(crate::specs::Hosts::plain_host))]
fn take_plain_host(cursor: &mut Cursor) -> Result<HostForm, Stop>
    ensures { Takes plain_host cursor.old result cursor.new }
{
    if cursor.passes_sign(b"(") {
        return take_dynamic(cursor);
    }
    if cursor.passes_sign(b"<") {
        let table = take_table_name(cursor)?;
        return Ok(HostForm::Table(table));
    }
    take_address(cursor)
}

/// Takes a host.
#[tactic(auto, unfolding(crate::specs::Hosts::host))]
pub fn take_host(cursor: &mut Cursor) -> Result<HostItem, Stop>
    ensures { Takes host cursor.old result cursor.new }
{
    if cursor.passes(b"any") {
        return Ok(HostItem {
            negated: false,
            what: HostForm::Any,
        });
    }
    let negated = cursor.passes_sign(b"!");
    let what = take_plain_host(cursor)?;
    Ok(HostItem { negated, what })
}

/// Items that are hosts.
#[derive(Clone, Copy)]
pub struct EachHost;

impl Take<HostItem> for EachHost {
    ghost grammar = { λ _. host };

    fn take(&self, cursor: &mut Cursor) -> Result<HostItem, Stop> {
        take_host(cursor)
    }
}
