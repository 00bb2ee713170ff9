//! `set` of a rule, `scrub`, `tos` and `prio` (pf.conf(5), GRAMMAR, and PARAMETERS).
ghost use Rattle.std.specs.Prelude.{◌≡◌, ◌≤◌, IfSome};
ghost use Rattle.pf_form.specs.Settings as says;
ghost use Rattle.pf_form.specs.Settings.{prio, prios, queues, scrub, scrub_behind, scrub_part, set_behind, set_part, settings, tos, tos_words};
ghost use Rattle.pf_syntax.specs.Lists.{in_brackets};
ghost use Rattle.pf_syntax.specs.Words.{meaning_in};
ghost use Rattle.pf_syntax.specs.Taking.{Takes};

use crate::keyword::{ScrubWord, SetWord};
use pf_base::Name;
use pf_base::text::decimal;
use pf_parts::{Prios, Queues, Scrub};
use pf_syntax::keyword::{Key, find_key, take_key};
use pf_syntax::list::{Lay, take_in_brackets};
use pf_syntax::{Cursor, Stop};

/// The parts of `set` in a rule.
#[derive(Clone, Copy, Debug, PartialEq, Eq)]
pub struct ReadSet {
    pub queue: Option<Queues>,
    pub prio: Option<Prios>,
    pub tos: Option<u8>,
}

const TOS_WORDS: [Key<u8>; 3] = [
    Key(b"lowdelay", 16),
    Key(b"throughput", 8),
    Key(b"reliability", 4),
];

const SET_WORDS: [Key<SetWord>; 3] = [
    Key(b"queue", SetWord::Queue),
    Key(b"prio", SetWord::Prio),
    Key(b"tos", SetWord::Tos),
];

const SCRUB_WORDS: [Key<ScrubWord>; 5] = [
    Key(b"no-df", ScrubWord::NoDf),
    Key(b"random-id", ScrubWord::RandomId),
    Key(b"reassemble", ScrubWord::Reassemble),
    Key(b"min-ttl", ScrubWord::MinTtl),
    Key(b"max-mss", ScrubWord::MaxMss),
];

// What a hexadecimal digit stands for.
fn digit_of(byte: u8) -> Option<u8>
    ensures value { result ≡ says.digit_of byte }
    ensures bound { IfSome result (λ n. n ≤ 15) }
{
    if byte.is_ascii_digit() {
        Some(byte - b'0')
    } else if (b'a'..=b'f').contains(&byte) {
        Some(byte - 87)
    } else if (b'A'..=b'F').contains(&byte) {
        Some(byte - 55)
    } else {
        None
    }
}

// The number of one or two hexadecimal digits.
fn hex_of(text: &[u8]) -> Option<u8>
    ensures { result ≡ says.hex_of text.now }
{
    match text {
        [low] => digit_of(*low),
        [high, low] => {
            let high = digit_of(*high)?;
            let low = digit_of(*low)?;
            Some(16 * high + low)
        }
        _ => None,
    }
}

// The number behind `0x`.
fn hex_tos(text: &[u8]) -> Option<u8>
    ensures { result ≡ says.hex_tos text.now }
{
    if text.len() >= 2 && text[0] == b'0' && text[1] == b'x' {
        hex_of(&text[2..])
    } else {
        None
    }
}

// The name of a value of `tos`.
#[tactic(auto, unfolding(crate::specs::Settings::tos_words))]
fn tos_named(text: &[u8]) -> Option<u8>
    ensures { result ≡ meaning_in tos_words text.now }
{
    find_key(&TOS_WORDS, text)
}

// The value of `tos` that a word means.
#[tactic(auto, unfolding(crate::specs::Settings::tos_of))]
fn tos_of(text: &[u8]) -> Option<u8>
    ensures { result ≡ says.tos_of text.now }
{
    if let Some(number) = decimal(text, 255) {
        return Some(number as u8);
    }
    if let Some(number) = hex_tos(text) {
        return Some(number);
    }
    tos_named(text)
}

/// Takes a value of `tos`.
pub fn take_tos(cursor: &mut Cursor) -> Result<u8, Stop>
    ensures { Takes tos cursor.old result cursor.new }
{
    match cursor.next_word() {
        None => Err(Stop::Outside),
        Some(word) => match tos_of(word) {
            None => Err(Stop::Outside),
            Some(value) => {
                cursor.pass();
                Ok(value)
            }
        },
    }
}

/// Takes a priority, 0 to 7.
pub fn take_prio(cursor: &mut Cursor) -> Result<u8, Stop>
    ensures { Takes prio cursor.old result cursor.new }
{
    cursor.take_byte(0, 7)
}

// Takes one queue or two in brackets.
#[tactic(auto, unfolding(crate::specs::Settings::queues))]
fn take_queues(cursor: &mut Cursor) -> Result<Queues, Stop>
    ensures { Takes queues cursor.old result cursor.new }
{
    if cursor.passes_sign(b"(") {
        let first = cursor.take_name()?;
        let _comma = cursor.passes_sign(b",");
        let second = cursor.take_name()?;
        cursor.take_sign(b")")?;
        return Ok(Queues {
            first,
            second: Some(second),
        });
    }
    let first = cursor.take_name()?;
    Ok(Queues {
        first,
        second: None,
    })
}

// Takes one priority or two in brackets.
#[tactic(auto, unfolding(crate::specs::Settings::prios))]
fn take_prios(cursor: &mut Cursor) -> Result<Prios, Stop>
    ensures { Takes prios cursor.old result cursor.new }
{
    if cursor.passes_sign(b"(") {
        let first = take_prio(cursor)?;
        let _comma = cursor.passes_sign(b",");
        let second = take_prio(cursor)?;
        cursor.take_sign(b")")?;
        return Ok(Prios {
            first,
            second: Some(second),
        });
    }
    let first = take_prio(cursor)?;
    Ok(Prios {
        first,
        second: None,
    })
}

// Takes what stands behind the keyword of a part of `set`.
#[tactic(auto, unfolding(crate::specs::Settings::set_behind))]
fn take_set_behind(cursor: &mut Cursor, word: SetWord, before: ReadSet) -> Result<ReadSet, Stop>
    ensures { Takes (set_behind word before) cursor.old result cursor.new }
{
    let mut set = before;
    match word {
        SetWord::Queue => {
            if set.queue.is_some() {
                return Err(Stop::Outside);
            }
            let queues = take_queues(cursor)?;
            set.queue = Some(queues);
        }
        SetWord::Prio => {
            if set.prio.is_some() {
                return Err(Stop::Outside);
            }
            let prios = take_prios(cursor)?;
            set.prio = Some(prios);
        }
        SetWord::Tos => {
            if set.tos.is_some() {
                return Err(Stop::Outside);
            }
            let tos = take_tos(cursor)?;
            set.tos = Some(tos);
        }
    }
    Ok(set)
}

// Takes a part of `set`.
#[tactic(auto, unfolding(crate::specs::Settings::set_part, crate::specs::Settings::set_words))]
fn take_set_part(cursor: &mut Cursor, before: ReadSet) -> Result<ReadSet, Stop>
    ensures { Takes (set_part before) cursor.old result cursor.new }
{
    let word = take_key(&SET_WORDS, cursor)?;
    take_set_behind(cursor, word, before)
}

#[derive(Clone, Copy)]
struct SetParts;

impl Lay<ReadSet> for SetParts {
    ghost part = { λ _. set_part };

    fn lay(&self, cursor: &mut Cursor, value: ReadSet) -> Result<ReadSet, Stop> {
        take_set_part(cursor, value)
    }
}

// Takes parts of `set` in brackets.
fn take_set_in_brackets(cursor: &mut Cursor, before: ReadSet) -> Result<ReadSet, Stop>
    ensures { Takes (in_brackets set_part before) cursor.old result cursor.new }
{
    // The types within a set, which the proof of the call must know.
    let _types: (Option<Queues>, Option<Prios>, Option<Name>) = (None, None, None);
    take_in_brackets(&SetParts, cursor, before)
}

/// Takes the parts behind `set`, and lays them on those before.
#[tactic(auto, unfolding(crate::specs::Settings::settings))]
pub fn take_settings(cursor: &mut Cursor, before: ReadSet) -> Result<ReadSet, Stop>
    ensures { Takes (settings before) cursor.old result cursor.new }
{
    if cursor.is_at_sign(b"(") {
        take_set_in_brackets(cursor, before)
    } else {
        take_set_part(cursor, before)
    }
}

// Takes what stands behind the keyword of a part of `scrub`.
#[tactic(auto, unfolding(crate::specs::Settings::scrub_behind))]
fn take_scrub_behind(cursor: &mut Cursor, word: ScrubWord, before: Scrub) -> Result<Scrub, Stop>
    ensures { Takes (scrub_behind word before) cursor.old result cursor.new }
{
    let mut scrub = before;
    match word {
        ScrubWord::NoDf => {
            if scrub.no_df {
                return Err(Stop::Outside);
            }
            scrub.no_df = true;
        }
        ScrubWord::RandomId => {
            if scrub.random_id {
                return Err(Stop::Outside);
            }
            scrub.random_id = true;
        }
        ScrubWord::Reassemble => {
            if scrub.reassemble_tcp {
                return Err(Stop::Outside);
            }
            cursor.take_keyword(b"tcp")?;
            scrub.reassemble_tcp = true;
        }
        ScrubWord::MinTtl => {
            if scrub.min_ttl.is_some() {
                return Err(Stop::Outside);
            }
            let ttl = cursor.take_byte(0, 255)?;
            scrub.min_ttl = Some(ttl);
        }
        ScrubWord::MaxMss => {
            if scrub.max_mss.is_some() {
                return Err(Stop::Outside);
            }
            let size = cursor.take_number(0, 65_535)?;
            scrub.max_mss = Some(size as u16);
        }
    }
    Ok(scrub)
}

// Takes a part of `scrub`.
#[tactic(auto, unfolding(crate::specs::Settings::scrub_part, crate::specs::Settings::scrub_words))]
fn take_scrub_part(cursor: &mut Cursor, before: Scrub) -> Result<Scrub, Stop>
    ensures { Takes (scrub_part before) cursor.old result cursor.new }
{
    let word = take_key(&SCRUB_WORDS, cursor)?;
    take_scrub_behind(cursor, word, before)
}

#[derive(Clone, Copy)]
struct ScrubParts;

impl Lay<Scrub> for ScrubParts {
    ghost part = { λ _. scrub_part };

    fn lay(&self, cursor: &mut Cursor, value: Scrub) -> Result<Scrub, Stop> {
        take_scrub_part(cursor, value)
    }
}

/// Takes the parts behind `scrub`.
#[tactic(auto, unfolding(crate::specs::Settings::scrub))]
pub fn take_scrub(cursor: &mut Cursor) -> Result<Scrub, Stop>
    ensures { Takes scrub cursor.old result cursor.new }
{
    take_in_brackets(&ScrubParts, cursor, Scrub::NONE)
}

/// Whether it leaves a packet as it is.
pub fn is_no_scrub(scrub: &Scrub) -> bool
    ensures { result ≡ says.is_no_scrub scrub.now }
{
    !scrub.no_df
        && !scrub.random_id
        && !scrub.reassemble_tcp
        && scrub.min_ttl.is_none()
        && scrub.max_mss.is_none()
}
