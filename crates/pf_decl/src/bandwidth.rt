//! Rates and bursts of queues (pf.conf(5), GRAMMAR, `bandwidth-spec`, and QUEUEING).
ghost use Rattle.std.specs.Prelude.{◌≡◌, ◌*◌};
ghost use Rattle.std.specs.Option.{option_map};
ghost use Rattle.pf_base.specs.Decimal.{decimal_of};
ghost use Rattle.pf_syntax.specs.Taking.{Takes};
ghost use Rattle.pf_syntax.specs.Words.{meaning_in};
ghost use Rattle.pf_decl.specs.Bandwidths as says;

use crate::form::{Bandwidth, Burst};
use pf_base::text::decimal;
use pf_syntax::keyword::{Key, find_key};
use pf_syntax::{Cursor, Stop};

const UNITS: [Key<u32>; 3] = [
    Key(b"K", 1_000),
    Key(b"M", 1_000_000),
    Key(b"G", 1_000_000_000),
];

// The bits per second of a unit.
#[tactic(auto, unfolding(crate::specs::Bandwidths::units))]
fn unit_of(byte: &[u8]) -> Option<u32>
    ensures { result ≡ meaning_in says.units byte.now }
{
    find_key(&UNITS, byte)
}

// A number of units.
fn scaled(digits: &[u8], unit: u32) -> Option<u64>
    ensures { result ≡ option_map (λ n. n * unit) (decimal_of 4294967295 digits.now) }
{
    let number = decimal(digits, u32::MAX)?;
    Some(u64::from(number) * u64::from(unit))
}

// A number without a unit.
fn plain(digits: &[u8]) -> Option<u64>
    ensures { result ≡ decimal_of 4294967295 digits.now }
{
    let number = decimal(digits, u32::MAX)?;
    Some(u64::from(number))
}

// The word without its last bytes, and these.
fn split_last_bytes(word: &[u8], count: usize) -> (&[u8], &[u8])
    ensures front { result.0.now ≡ says.without_last count word.now }
    ensures back { result.1.now ≡ says.last_bytes count word.now }
{
    let end = word.len().saturating_sub(count);
    (&word[..end], &word[end..])
}

// The bits per second that a word means.
#[tactic(auto, unfolding(crate::specs::Bandwidths::rate_of))]
fn rate_of(word: &[u8]) -> Option<u64>
    ensures { result ≡ says.rate_of word.now }
{
    let (digits, last) = split_last_bytes(word, 1);
    match unit_of(last) {
        None => plain(word),
        Some(unit) => scaled(digits, unit),
    }
}

// The milliseconds that a word means.
#[tactic(auto, unfolding(crate::specs::Bandwidths::milliseconds_of))]
fn milliseconds_of(word: &[u8]) -> Option<u32>
    ensures { result ≡ says.milliseconds_of word.now }
{
    let (digits, last) = split_last_bytes(word, 2);
    if last == b"ms".as_slice() {
        decimal(digits, u32::MAX)
    } else {
        decimal(word, u32::MAX)
    }
}

// Takes a rate.
fn take_rate(cursor: &mut Cursor) -> Result<u64, Stop>
    ensures { Takes says.rate cursor.old result cursor.new }
{
    match cursor.next_word() {
        None => Err(Stop::Outside),
        Some(word) => match rate_of(word) {
            None => Err(Stop::Outside),
            Some(rate) => {
                cursor.pass();
                Ok(rate)
            }
        },
    }
}

// Takes a number of milliseconds.
fn take_milliseconds(cursor: &mut Cursor) -> Result<u32, Stop>
    ensures { Takes says.milliseconds cursor.old result cursor.new }
{
    match cursor.next_word() {
        None => Err(Stop::Outside),
        Some(word) => match milliseconds_of(word) {
            None => Err(Stop::Outside),
            Some(ms) => {
                cursor.pass();
                Ok(ms)
            }
        },
    }
}

// Takes a burst, where one stands.
#[tactic(auto, unfolding(crate::specs::Bandwidths::burst))]
fn take_burst(cursor: &mut Cursor) -> Result<Option<Burst>, Stop>
    ensures { Takes says.burst cursor.old result cursor.new }
{
    if cursor.passes(b"burst") {
        let rate = take_rate(cursor)?;
        cursor.take_keyword(b"for")?;
        let ms = take_milliseconds(cursor)?;
        return Ok(Some(Burst { rate, ms }));
    }
    Ok(None)
}

/// Takes a rate, and a burst behind it where one stands.
#[tactic(auto, unfolding(crate::specs::Bandwidths::bandwidth))]
pub fn take_bandwidth(cursor: &mut Cursor) -> Result<Bandwidth, Stop>
    ensures { Takes says.bandwidth cursor.old result cursor.new }
{
    let rate = take_rate(cursor)?;
    let burst = take_burst(cursor)?;
    Ok(Bandwidth { rate, burst })
}
