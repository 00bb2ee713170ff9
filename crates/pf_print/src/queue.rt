//! The text of a queue (pf.conf(5), QUEUEING).
ghost use Rattle.std.specs.Prelude.{◌≡◌, ◌++◌, OnErr, OnOk, codes, decimal};
ghost use Rattle.std.specs.Option.{option_map};
ghost use Rattle.pf_parts.specs.Appending.{Extends};
ghost use Rattle.pf_parts.specs.Parts.{spaced, with_number, word_if};
ghost use Rattle.pf_print.specs.QueueText.{bandwidth_text, burst_text, named_text, queue_line};

use crate::host::put_if;
use itoa::Buffer;
use pf_base::{Name, NoMemory};
use pf_decl::{Bandwidth, Burst, Queue};
use pf_parts::{put, put_named, put_numbered};

// A number in decimal.
fn put_rate(out: &mut Vec<u8>, bits: u64) -> Result<(), NoMemory>
    ensures ok { OnOk result (out.new.items ≡ out.old.items ++ decimal bits) }
    ensures kept { Extends out.old.items out.new.items }
{
    let mut digits = Buffer::new();
    put(out, digits.format(bits).as_bytes())?;
    Ok(())
}

fn put_burst(out: &mut Vec<u8>, burst: &Option<Burst>) -> Result<(), NoMemory>
    ensures ok { OnOk result (out.new.items ≡ out.old.items ++ burst_text burst.now) }
    ensures kept { Extends out.old.items out.new.items }
{
    if let Some(burst) = burst {
        put(out, b" burst ")?;
        put_rate(out, burst.rate)?;
        put_numbered(out, b" for ", burst.ms)?;
        put(out, b"ms")?;
    }
    Ok(())
}

// A word and a rate.
fn put_rate_of(out: &mut Vec<u8>, word: &[u8], bits: u64) -> Result<(), NoMemory>
    ensures ok { OnOk result (out.new.items ≡ out.old.items ++ (word.now ++ codes " " ++ decimal bits)) }
    ensures kept { Extends out.old.items out.new.items }
{
    put(out, word)?;
    put(out, b" ")?;
    put_rate(out, bits)?;
    Ok(())
}

// A word with a rate and a burst, with a space before it.
fn put_bandwidth(
    out: &mut Vec<u8>,
    word: &[u8],
    bandwidth: &Option<Bandwidth>,
) -> Result<(), NoMemory>
    ensures ok { OnOk result (out.new.items ≡ out.old.items ++ spaced (option_map (bandwidth_text word.now) bandwidth.now)) }
    ensures kept { Extends out.old.items out.new.items }
{
    if let Some(bandwidth) = bandwidth {
        put(out, b" ")?;
        put_rate_of(out, word, bandwidth.rate)?;
        put_burst(out, &bandwidth.burst)?;
    }
    Ok(())
}

// A word with a name, with a space before it.
fn put_name_part(out: &mut Vec<u8>, word: &[u8], name: &Option<Name>) -> Result<(), NoMemory>
    ensures ok { OnOk result (out.new.items ≡ out.old.items ++ spaced (option_map (named_text word.now) name.now)) }
    ensures kept { Extends out.old.items out.new.items }
{
    if let Some(name) = name {
        put(out, b" ")?;
        put(out, word)?;
        put_named(out, b" ", name)?;
    }
    Ok(())
}

fn put_limit(out: &mut Vec<u8>, limit: Option<u32>) -> Result<(), NoMemory>
    ensures ok { OnOk result (out.new.items ≡ out.old.items ++ spaced (with_number (codes "qlimit") limit)) }
    ensures kept { Extends out.old.items out.new.items }
{
    if let Some(limit) = limit {
        put_numbered(out, b" qlimit ", limit)?;
    }
    Ok(())
}

// The interface and the parent.
fn put_place(out: &mut Vec<u8>, queue: &Queue) -> Result<(), NoMemory>
    ensures ok { OnOk result (out.new.items ≡ out.old.items ++ (spaced (option_map (named_text (codes "on")) queue.now.iface)
        ++ spaced (option_map (named_text (codes "parent")) queue.now.parent))) }
    ensures kept { Extends out.old.items out.new.items }
{
    put_name_part(out, b"on", &queue.iface)?;
    put_name_part(out, b"parent", &queue.parent)?;
    Ok(())
}

// How much it may send.
fn put_rates(out: &mut Vec<u8>, queue: &Queue) -> Result<(), NoMemory>
    ensures ok { OnOk result (out.new.items ≡ out.old.items ++ (spaced (option_map (bandwidth_text (codes "bandwidth")) queue.now.bandwidth)
        ++ spaced (option_map (bandwidth_text (codes "min")) queue.now.min) ++ spaced (option_map (bandwidth_text (codes "max")) queue.now.max))) }
    ensures kept { Extends out.old.items out.new.items }
{
    put_bandwidth(out, b"bandwidth", &queue.bandwidth)?;
    put_bandwidth(out, b"min", &queue.min)?;
    put_bandwidth(out, b"max", &queue.max)?;
    Ok(())
}

// Whether it takes what no other does, and how many packets it holds.
fn put_rest(out: &mut Vec<u8>, queue: &Queue) -> Result<(), NoMemory>
    ensures ok { OnOk result (out.new.items ≡ out.old.items ++ (spaced (word_if queue.now.default_queue (codes "default"))
        ++ spaced (with_number (codes "qlimit") queue.now.qlimit))) }
    ensures kept { Extends out.old.items out.new.items }
{
    put_if(out, queue.default_queue, b" default")?;
    put_limit(out, queue.qlimit)?;
    Ok(())
}

#[tactic(auto, unfolding(crate::specs::QueueText::queue_line))]
fn append_queue(out: &mut Vec<u8>, queue: &Queue) -> Result<(), NoMemory>
    ensures ok { OnOk result (out.new.items ≡ out.old.items ++ queue_line queue.now) }
    ensures kept { Extends out.old.items out.new.items }
{
    put_named(out, b"queue ", &queue.name)?;
    put_place(out, queue)?;
    put_rates(out, queue)?;
    put_rest(out, queue)?;
    Ok(())
}

/// Appends the text of a queue: its name, and behind it each part that is given; rates in bits per second, and times of bursts in
/// milliseconds. Without memory `out` is as before (pf.conf(5), QUEUEING).
pub fn put_queue(out: &mut Vec<u8>, queue: &Queue) -> Result<(), NoMemory>
    ensures ok { OnOk result (out.new.items ≡ out.old.items ++ queue_line queue.now) }
    ensures err { OnErr result (out.new.items ≡ out.old.items) }
{
    let before = out.len();
    let appended = append_queue(out, queue);
    if appended.is_err() {
        out.truncate(before);
    }
    appended
}
