//! The state clause of a rule (pf.conf(5), GRAMMAR, `state-opts`).
ghost use Rattle.std.specs.Prelude.{◌≡◌, is_some, true};
ghost use Rattle.pf_form.specs.States.{count, flush, kept, overload, rate, state_option, state_options, state_part, track, with_options};
ghost use Rattle.pf_syntax.specs.Taking.{Takes};

use crate::keyword::StateWord;
use pf_parts::{Flush, Overload, Rate, StateOptions, Track};
use pf_syntax::host::take_table_name;
use pf_syntax::keyword::{Key, take_key};
use pf_syntax::list::{Lay, take_in_brackets};
use pf_syntax::{Cursor, Stop};

/// The options of a state, and whether one of them stands twice. Of those the first is kept.
#[derive(Clone, Copy, Debug, PartialEq, Eq)]
pub struct ReadOptions {
    pub options: StateOptions,
    pub repeated: bool,
}

const STATE_WORDS: [Key<StateWord>; 12] = [
    Key(b"max", StateWord::Max),
    Key(b"source-track", StateWord::SourceTrack),
    Key(b"max-src-nodes", StateWord::MaxSrcNodes),
    Key(b"max-src-states", StateWord::MaxSrcStates),
    Key(b"max-src-conn", StateWord::MaxSrcConn),
    Key(b"max-src-conn-rate", StateWord::MaxSrcConnRate),
    Key(b"overload", StateWord::Overload),
    Key(b"sloppy", StateWord::Sloppy),
    Key(b"no-sync", StateWord::NoSync),
    Key(b"pflow", StateWord::Pflow),
    Key(b"if-bound", StateWord::IfBound),
    Key(b"floating", StateWord::Floating),
];

const NONE_READ: ReadOptions = ReadOptions {
    options: StateOptions::NONE,
    repeated: false,
};

// Takes a number of 32 bits from 1 on.
fn take_count(cursor: &mut Cursor) -> Result<u32, Stop>
    ensures { Takes count cursor.old result cursor.new }
{
    cursor.take_number(1, 4_294_967_295)
}

// Takes how sources are tracked.
#[tactic(auto, unfolding(crate::specs::States::track))]
fn take_track(cursor: &mut Cursor) -> Result<Track, Stop>
    ensures { Takes track cursor.old result cursor.new }
{
    if cursor.passes(b"rule") {
        return Ok(Track::Rule);
    }
    if cursor.passes(b"global") {
        return Ok(Track::Global);
    }
    Ok(Track::Plain)
}

// Takes a rate.
#[tactic(auto, unfolding(crate::specs::States::rate))]
fn take_rate(cursor: &mut Cursor) -> Result<Rate, Stop>
    ensures { Takes rate cursor.old result cursor.new }
{
    let count = take_count(cursor)?;
    cursor.take_sign(b"/")?;
    let seconds = take_count(cursor)?;
    Ok(Rate { count, seconds })
}

// Takes which states are flushed.
#[tactic(auto, unfolding(crate::specs::States::flush))]
fn take_flush(cursor: &mut Cursor) -> Result<Flush, Stop>
    ensures { Takes flush cursor.old result cursor.new }
{
    if !cursor.passes(b"flush") {
        return Ok(Flush::No);
    }
    if cursor.passes(b"global") {
        return Ok(Flush::Global);
    }
    Ok(Flush::Flush)
}

// Takes the table behind `overload`.
#[tactic(auto, unfolding(crate::specs::States::overload))]
fn take_overload(cursor: &mut Cursor) -> Result<Overload, Stop>
    ensures { Takes overload cursor.old result cursor.new }
{
    cursor.take_sign(b"<")?;
    let table = take_table_name(cursor)?;
    let flush = take_flush(cursor)?;
    Ok(Overload { table, flush })
}

// The options with `sloppy`.
fn with_sloppy(before: ReadOptions) -> ReadOptions
    ensures { result ≡ with_options before (record before.options { sloppy = true }) before.options.sloppy }
{
    let mut read = before;
    read.repeated |= read.options.sloppy;
    read.options.sloppy = true;
    read
}

// The options with `no-sync`.
fn with_no_sync(before: ReadOptions) -> ReadOptions
    ensures { result ≡ with_options before (record before.options { no_sync = true }) before.options.no_sync }
{
    let mut read = before;
    read.repeated |= read.options.no_sync;
    read.options.no_sync = true;
    read
}

// The options with `pflow`.
fn with_pflow(before: ReadOptions) -> ReadOptions
    ensures { result ≡ with_options before (record before.options { pflow = true }) before.options.pflow }
{
    let mut read = before;
    read.repeated |= read.options.pflow;
    read.options.pflow = true;
    read
}

// The options with `if-bound`.
fn with_if_bound(before: ReadOptions) -> ReadOptions
    ensures { result ≡ with_options before (record before.options { if_bound = true }) before.options.if_bound }
{
    let mut read = before;
    read.repeated |= read.options.if_bound;
    read.options.if_bound = true;
    read
}

// The options with `floating`.
fn with_floating(before: ReadOptions) -> ReadOptions
    ensures { result ≡ with_options before (record before.options { floating = true }) before.options.floating }
{
    let mut read = before;
    read.repeated |= read.options.floating;
    read.options.floating = true;
    read
}

// The options with `max`, where it didn't stand before.
fn with_max(before: ReadOptions, value: u32) -> ReadOptions
    ensures { result ≡ with_options before (record before.options { max = kept before.options.max value }) (is_some before.options.max) }
{
    let mut read = before;
    if read.options.max.is_some() {
        read.repeated = true;
    } else {
        read.options.max = Some(value);
    }
    read
}

// The options with `source-track`, where it didn't stand before.
fn with_track(before: ReadOptions, value: Track) -> ReadOptions
    ensures { result ≡ with_options before (record before.options { source_track = kept before.options.source_track value }) (is_some before.options.source_track) }
{
    let mut read = before;
    if read.options.source_track.is_some() {
        read.repeated = true;
    } else {
        read.options.source_track = Some(value);
    }
    read
}

// The options with `max-src-nodes`, where it didn't stand before.
fn with_nodes(before: ReadOptions, value: u32) -> ReadOptions
    ensures { result ≡ with_options before (record before.options { max_src_nodes = kept before.options.max_src_nodes value }) (is_some before.options.max_src_nodes) }
{
    let mut read = before;
    if read.options.max_src_nodes.is_some() {
        read.repeated = true;
    } else {
        read.options.max_src_nodes = Some(value);
    }
    read
}

// The options with `max-src-states`, where it didn't stand before.
fn with_states(before: ReadOptions, value: u32) -> ReadOptions
    ensures { result ≡ with_options before (record before.options { max_src_states = kept before.options.max_src_states value }) (is_some before.options.max_src_states) }
{
    let mut read = before;
    if read.options.max_src_states.is_some() {
        read.repeated = true;
    } else {
        read.options.max_src_states = Some(value);
    }
    read
}

// The options with `max-src-conn`, where it didn't stand before.
fn with_connections(before: ReadOptions, value: u32) -> ReadOptions
    ensures { result ≡ with_options before (record before.options { max_src_conn = kept before.options.max_src_conn value }) (is_some before.options.max_src_conn) }
{
    let mut read = before;
    if read.options.max_src_conn.is_some() {
        read.repeated = true;
    } else {
        read.options.max_src_conn = Some(value);
    }
    read
}

// The options with `max-src-conn-rate`, where it didn't stand before.
fn with_rate(before: ReadOptions, value: Rate) -> ReadOptions
    ensures { result ≡ with_options before (record before.options { max_src_conn_rate = kept before.options.max_src_conn_rate value }) (is_some before.options.max_src_conn_rate) }
{
    let mut read = before;
    if read.options.max_src_conn_rate.is_some() {
        read.repeated = true;
    } else {
        read.options.max_src_conn_rate = Some(value);
    }
    read
}

// The options with `overload`, where it didn't stand before.
fn with_overload(before: ReadOptions, value: Overload) -> ReadOptions
    ensures { result ≡ with_options before (record before.options { overload = kept before.options.overload value }) (is_some before.options.overload) }
{
    let mut read = before;
    if read.options.overload.is_some() {
        read.repeated = true;
    } else {
        read.options.overload = Some(value);
    }
    read
}

// Takes what stands behind the keyword of an option.
#[tactic(auto, unfolding(crate::specs::States::state_part))]
fn take_state_part(
    cursor: &mut Cursor,
    word: StateWord,
    before: ReadOptions,
) -> Result<ReadOptions, Stop>
    ensures { Takes (state_part word before) cursor.old result cursor.new }
{
    match word {
        StateWord::Max => {
            let n = take_count(cursor)?;
            Ok(with_max(before, n))
        }
        StateWord::SourceTrack => {
            let track = take_track(cursor)?;
            Ok(with_track(before, track))
        }
        StateWord::MaxSrcNodes => {
            let n = take_count(cursor)?;
            Ok(with_nodes(before, n))
        }
        StateWord::MaxSrcStates => {
            let n = take_count(cursor)?;
            Ok(with_states(before, n))
        }
        StateWord::MaxSrcConn => {
            let n = take_count(cursor)?;
            Ok(with_connections(before, n))
        }
        StateWord::MaxSrcConnRate => {
            let rate = take_rate(cursor)?;
            Ok(with_rate(before, rate))
        }
        StateWord::Overload => {
            let overload = take_overload(cursor)?;
            Ok(with_overload(before, overload))
        }
        StateWord::Sloppy => Ok(with_sloppy(before)),
        StateWord::NoSync => Ok(with_no_sync(before)),
        StateWord::Pflow => Ok(with_pflow(before)),
        StateWord::IfBound => Ok(with_if_bound(before)),
        StateWord::Floating => Ok(with_floating(before)),
    }
}

// Takes an option of a state.
#[tactic(auto, unfolding(crate::specs::States::state_option, crate::specs::States::state_words))]
fn take_state_option(cursor: &mut Cursor, before: ReadOptions) -> Result<ReadOptions, Stop>
    ensures { Takes (state_option before) cursor.old result cursor.new }
{
    let word = take_key(&STATE_WORDS, cursor)?;
    take_state_part(cursor, word, before)
}

#[derive(Clone, Copy)]
struct StateParts;

impl Lay<ReadOptions> for StateParts {
    ghost part = { λ _. state_option };

    fn lay(&self, cursor: &mut Cursor, value: ReadOptions) -> Result<ReadOptions, Stop> {
        take_state_option(cursor, value)
    }
}

/// Takes `state` and its options, where they stand.
#[tactic(auto, unfolding(crate::specs::States::state_options))]
pub fn take_state_options(cursor: &mut Cursor) -> Result<ReadOptions, Stop>
    ensures { Takes state_options cursor.old result cursor.new }
{
    cursor.take_keyword(b"state")?;
    if cursor.is_at_sign(b"(") {
        take_in_brackets(&StateParts, cursor, NONE_READ)
    } else {
        Ok(NONE_READ)
    }
}
