//! The texts of parameters (pf.conf(5), PARAMETERS and TRAFFIC NORMALISATION), each with a space before it.
//! Without memory a front of the text may be appended.
ghost use Rattle.std.specs.Prelude.{◌≡◌, ◌++◌, OnOk, codes, is_some, map};
ghost use Rattle.std.specs.List.{list_any};
ghost use Rattle.std.specs.Option.{option_map};
ghost use Rattle.pf_parts.specs.Appending.{Extends};
ghost use Rattle.pf_parts.specs.Items.{part_of};
ghost use Rattle.pf_parts.specs.NameText.{name_text};
ghost use Rattle.pf_parts.specs.ParamText.{label_text, log_parts, log_text, prio_text, queue_text, scrub_parts, scrub_text, tag_text};
ghost use Rattle.pf_parts.specs.Parts.{spaced, with_number, word_if};

use crate::item::{Item, put_in_brackets, word_item};
use crate::params::{Log, Prios, Queues, Scrub};
use crate::text::{put, put_named, put_numbered, put_quoted};
use pf_base::{Name, NoMemory};

// `to` and an interface's name.
fn to_item(name: &Option<Name>) -> Option<Item>
    ensures { part_of result ≡ option_map (λ n. codes "to " ++ name_text n) name.now }
{
    match name {
        Some(name) => Some(Item::Named(b"to", *name)),
        None => None,
    }
}

fn log_items(log: &Log) -> [Option<Item>; 4]
    ensures { map part_of result ≡ log_parts log.now }
{
    [
        word_item(log.all, b"all"),
        word_item(log.matches, b"matches"),
        word_item(log.user, b"user"),
        to_item(&log.to),
    ]
}

/// Appends `log`, and in brackets how, where packets are logged.
#[tactic(auto, unfolding(crate::specs::ParamText::log_text))]
pub fn put_log(out: &mut Vec<u8>, log: &Log) -> Result<(), NoMemory>
    ensures ok { OnOk result (out.new.items ≡ out.old.items ++ spaced (log_text log.now)) }
    ensures kept { Extends out.old.items out.new.items }
{
    if log.on {
        put(out, b" log")?;
        put_in_brackets(out, &log_items(log))?;
    }
    Ok(())
}

/// Appends `tag` and its name.
#[tactic(auto, unfolding(crate::specs::ParamText::tag_text))]
pub fn put_tag(out: &mut Vec<u8>, tag: &Option<Name>) -> Result<(), NoMemory>
    ensures ok { OnOk result (out.new.items ≡ out.old.items ++ spaced (option_map tag_text tag.now)) }
    ensures kept { Extends out.old.items out.new.items }
{
    if let Some(tag) = tag {
        put_named(out, b" tag ", tag)?;
    }
    Ok(())
}

// `queue` and one queue, or two in brackets.
#[tactic(auto, unfolding(crate::specs::ParamText::queue_text))]
fn put_queues(out: &mut Vec<u8>, queues: &Queues) -> Result<(), NoMemory>
    ensures ok { OnOk result (out.new.items ≡ out.old.items ++ queue_text queues.now) }
    ensures kept { Extends out.old.items out.new.items }
{
    match &queues.second {
        None => put_named(out, b"queue ", &queues.first)?,
        Some(second) => {
            put_named(out, b"queue (", &queues.first)?;
            put_named(out, b", ", second)?;
            put(out, b")")?;
        }
    }
    Ok(())
}

/// Appends `queue` and one queue, or two in brackets.
pub fn put_queue(out: &mut Vec<u8>, queues: &Option<Queues>) -> Result<(), NoMemory>
    ensures ok { OnOk result (out.new.items ≡ out.old.items ++ spaced (option_map queue_text queues.now)) }
    ensures kept { Extends out.old.items out.new.items }
{
    if let Some(queues) = queues {
        put(out, b" ")?;
        put_queues(out, queues)?;
    }
    Ok(())
}

// `prio` and one priority, or two in brackets.
#[tactic(auto, unfolding(crate::specs::ParamText::prio_text))]
fn put_prios(out: &mut Vec<u8>, prios: Prios) -> Result<(), NoMemory>
    ensures ok { OnOk result (out.new.items ≡ out.old.items ++ prio_text prios) }
    ensures kept { Extends out.old.items out.new.items }
{
    match prios.second {
        None => put_numbered(out, b"prio ", u32::from(prios.first))?,
        Some(second) => {
            put_numbered(out, b"prio (", u32::from(prios.first))?;
            put_numbered(out, b", ", u32::from(second))?;
            put(out, b")")?;
        }
    }
    Ok(())
}

/// Appends `prio` and one priority, or two in brackets.
pub fn put_prio(out: &mut Vec<u8>, prios: Option<Prios>) -> Result<(), NoMemory>
    ensures ok { OnOk result (out.new.items ≡ out.old.items ++ spaced (option_map prio_text prios)) }
    ensures kept { Extends out.old.items out.new.items }
{
    if let Some(prios) = prios {
        put(out, b" ")?;
        put_prios(out, prios)?;
    }
    Ok(())
}

/// Appends `tos` and its number.
pub fn put_tos(out: &mut Vec<u8>, tos: Option<u8>) -> Result<(), NoMemory>
    ensures ok { OnOk result (out.new.items ≡ out.old.items ++ spaced (with_number (codes "tos") tos)) }
    ensures kept { Extends out.old.items out.new.items }
{
    if let Some(tos) = tos {
        put_numbered(out, b" tos ", u32::from(tos))?;
    }
    Ok(())
}

fn byte_item(word: &'static [u8], number: Option<u8>) -> Option<Item>
    ensures { part_of result ≡ with_number word.now number }
{
    Some(Item::Number(word, u32::from(number?)))
}

fn size_item(word: &'static [u8], number: Option<u16>) -> Option<Item>
    ensures { part_of result ≡ with_number word.now number }
{
    Some(Item::Number(word, u32::from(number?)))
}

fn scrub_items(scrub: &Scrub) -> [Option<Item>; 5]
    ensures { map part_of result ≡ scrub_parts scrub.now }
{
    [
        word_item(scrub.no_df, b"no-df"),
        word_item(scrub.random_id, b"random-id"),
        word_item(scrub.reassemble_tcp, b"reassemble tcp"),
        byte_item(b"min-ttl", scrub.min_ttl),
        size_item(b"max-mss", scrub.max_mss),
    ]
}

// Whether anything is normalised.
fn is_scrubbed(scrub: &Scrub) -> bool
    ensures { result ≡ list_any is_some (scrub_parts scrub.now) }
{
    scrub.no_df
        || scrub.random_id
        || scrub.reassemble_tcp
        || scrub.min_ttl.is_some()
        || scrub.max_mss.is_some()
}

/// Appends `scrub` and in brackets how, where anything is normalised.
#[tactic(auto, unfolding(crate::specs::ParamText::scrub_text))]
pub fn put_scrub(out: &mut Vec<u8>, scrub: &Scrub) -> Result<(), NoMemory>
    ensures ok { OnOk result (out.new.items ≡ out.old.items ++ spaced (scrub_text scrub.now)) }
    ensures kept { Extends out.old.items out.new.items }
{
    if is_scrubbed(scrub) {
        put(out, b" scrub")?;
        put_in_brackets(out, &scrub_items(scrub))?;
    }
    Ok(())
}

/// Appends `allow-opts` where it is set.
pub fn put_allow_opts(out: &mut Vec<u8>, allowed: bool) -> Result<(), NoMemory>
    ensures ok { OnOk result (out.new.items ≡ out.old.items ++ spaced (word_if allowed (codes "allow-opts"))) }
    ensures kept { Extends out.old.items out.new.items }
{
    if allowed {
        put(out, b" allow-opts")?;
    }
    Ok(())
}

/// Appends `label` and its text in double quotes.
#[tactic(auto, unfolding(crate::specs::ParamText::label_text))]
pub fn put_label(out: &mut Vec<u8>, label: &Option<Name>) -> Result<(), NoMemory>
    ensures ok { OnOk result (out.new.items ≡ out.old.items ++ spaced (option_map label_text label.now)) }
    ensures kept { Extends out.old.items out.new.items }
{
    if let Some(label) = label {
        put(out, b" label ")?;
        put_quoted(out, label.bytes())?;
    }
    Ok(())
}
