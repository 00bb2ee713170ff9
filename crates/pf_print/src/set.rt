//! The texts of tests of numbers (pf.conf(5), PARAMETERS, `port`, `user`, `group`).
ghost use Rattle.std.specs.Prelude.{◌≡◌, ◌++◌, OnOk, decimal};
ghost use Rattle.pf_ops.specs.Numbers.{IsKept};
ghost use Rattle.pf_parts.specs.Appending.{Extends};
ghost use Rattle.pf_print.specs.SetText.{gap_text, interval_text, set_text, top_id, top_port};

use pf_base::NoMemory;
use pf_ops::{Interval, Numbers, Op16, Op32};
use pf_parts::{put_number, put_numbered};

// Two numbers and what stands between them.
fn put_pair(out: &mut Vec<u8>, low: u32, between: &[u8], high: u32) -> Result<(), NoMemory>
    ensures ok { OnOk result (out.new.items ≡ out.old.items ++ (decimal low ++ between.now ++ decimal high)) }
    ensures kept { Extends out.old.items out.new.items }
{
    put_number(out, low)?;
    put_numbered(out, between, high)?;
    Ok(())
}

// The numbers of an interval.
fn put_interval(out: &mut Vec<u8>, all: &Interval) -> Result<(), NoMemory>
    ensures ok { OnOk result (out.new.items ≡ out.old.items ++ interval_text all.now) }
    ensures kept { Extends out.old.items out.new.items }
{
    if all.low == all.high {
        put_numbered(out, b"= ", all.low)?;
    } else {
        put_pair(out, all.low, b":", all.high)?;
    }
    Ok(())
}

// All numbers but those from `low` to `high`.
fn put_gap(out: &mut Vec<u8>, low: u32, high: u32) -> Result<(), NoMemory>
    ensures ok { OnOk result (out.new.items ≡ out.old.items ++ gap_text low high) }
    ensures kept { Extends out.old.items out.new.items }
{
    if low == high {
        put_numbered(out, b"!= ", low)?;
    } else {
        put_pair(out, low, b"<>", high)?;
    }
    Ok(())
}

// A set of numbers up to `top`.
#[tactic(auto, unfolding(crate::specs::SetText::set_text))]
fn put_set(out: &mut Vec<u8>, top: u32, numbers: &Numbers) -> Result<(), NoMemory>
    requires { IsKept top numbers.now }
    ensures ok { OnOk result (out.new.items ≡ out.old.items ++ set_text top numbers.now) }
    ensures kept { Extends out.old.items out.new.items }
{
    match numbers {
        Numbers::Empty => put_numbered(out, b"0<>", top)?,
        Numbers::One(all) => put_interval(out, all)?,
        Numbers::Two(first, last) => put_gap(out, first.high + 1, last.low - 1)?,
    }
    Ok(())
}

/// Appends a set of ports. Without memory what stood in `out` still stands in front.
pub(crate) fn put_ports(out: &mut Vec<u8>, ports: &Op16) -> Result<(), NoMemory>
    ensures ok { OnOk result (out.new.items ≡ out.old.items ++ set_text top_port ports.now) }
    ensures kept { Extends out.old.items out.new.items }
{
    put_set(out, u32::from(u16::MAX), &ports.numbers())
}

/// Appends a set of users or groups. Without memory what stood in `out` still stands in front.
pub(crate) fn put_ids(out: &mut Vec<u8>, ids: &Op32) -> Result<(), NoMemory>
    ensures ok { OnOk result (out.new.items ≡ out.old.items ++ set_text top_id ids.now) }
    ensures kept { Extends out.old.items out.new.items }
{
    put_set(out, u32::MAX, &ids.numbers())
}
