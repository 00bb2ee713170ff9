//! Words that stand for numbers: protocols, ICMP types and the letters of TCP flags.
ghost use Rattle.std.specs.Prelude.{◌≡◌, ◌<◌, ◌++◌, [], ◌∷◌, IfSome, OnErr, OnOk, Some, is_some};
ghost use Rattle.std.specs.List.{list_all};
ghost use Rattle.std.specs.Option.{option_copied};
ghost use Rattle.pf_ops.specs.Words as says;
ghost use Rattle.pf_ops.specs.Words.{number_of, word_of, protocols, icmp_types, tcp_flags};
ghost use Rattle.pf_ops.specs.WordTable.{entries_of};

use pf_base::text::decimal;
use pf_base::{Family, Name, NoMemory};

// The greatest number of a protocol and of an ICMP type.
const MOST: u32 = 255;

/// A word and the number that it stands for.
struct Row(&'static [u8], u8);

/// The names of protocols. Of two names of one number the first is printed.
const PROTOCOLS: [Row; 14] = [
    Row(b"icmp", 1),
    Row(b"igmp", 2),
    Row(b"ipencap", 4),
    Row(b"tcp", 6),
    Row(b"udp", 17),
    Row(b"ipv6", 41),
    Row(b"gre", 47),
    Row(b"esp", 50),
    Row(b"ah", 51),
    Row(b"icmp6", 58),
    Row(b"ipv6-icmp", 58),
    Row(b"ospf", 89),
    Row(b"carp", 112),
    Row(b"pfsync", 240),
];

const ICMP_TYPES: [Row; 7] = [
    Row(b"echorep", 0),
    Row(b"unreach", 3),
    Row(b"squench", 4),
    Row(b"redir", 5),
    Row(b"echoreq", 8),
    Row(b"timex", 11),
    Row(b"paramprob", 12),
];

const ICMP6_TYPES: [Row; 10] = [
    Row(b"unreach", 1),
    Row(b"toobig", 2),
    Row(b"timex", 3),
    Row(b"paramprob", 4),
    Row(b"echoreq", 128),
    Row(b"echorep", 129),
    Row(b"routersol", 133),
    Row(b"routeradv", 134),
    Row(b"neighbrsol", 135),
    Row(b"neighbradv", 136),
];

const TCP_FLAGS: [Row; 8] = [
    Row(b"F", 1),
    Row(b"S", 2),
    Row(b"R", 4),
    Row(b"P", 8),
    Row(b"A", 16),
    Row(b"U", 32),
    Row(b"E", 64),
    Row(b"W", 128),
];

/// The number of the first row with this word.
fn find_number(rows: &[Row], word: &[u8]) -> Option<u8>
    ensures { result ≡ number_of (entries_of rows.now) word.now }
{
    for Row(known, number) in rows {
        if *known == word {
            return Some(*number);
        }
    }
    None
}

/// The word of the first row with this number.
fn find_word(rows: &[Row], number: u8) -> Option<&'static [u8]>
    ensures { option_copied result ≡ word_of (entries_of rows.now) number }
{
    for Row(word, known) in rows {
        if *known == number {
            return Some(word);
        }
    }
    None
}

/// The protocol's number, or None exactly where no protocol has this name (pf.conf(5), Parameters).
#[tactic(auto, unfolding(crate::specs::Words::protocols))]
pub fn proto_number(word: &[u8]) -> Option<u8>
    ensures { result ≡ number_of protocols word.now }
{
    find_number(&PROTOCOLS, word)
}

/// The protocol that a word means: a number to 255, where leading zeros may stand, or a name; None exactly
/// where it is neither (pf.conf(5), Parameters, `proto`).
pub fn proto_of(word: &[u8]) -> Option<u8>
    ensures { result ≡ says.proto_of word.now }
{
    match decimal(word, MOST) {
        Some(number) => Some(number as u8),
        None => proto_number(word),
    }
}

/// The protocol's name, or None exactly where none has this number. It is read back as the number.
#[tactic(auto, unfolding(crate::specs::Words::protocols))]
pub fn proto_name(number: u8) -> Option<Name>
    ensures named { result ≡ word_of protocols number }
    ensures read_back { IfSome result (λ name. number_of protocols name ≡ Some number) }
{
    Name::new(find_word(&PROTOCOLS, number)?)
}

/// The type's number, or None exactly where no type of the family has this name
/// (pf.conf(5), Parameters, `icmp-type` and `icmp6-type`).
#[tactic(auto, unfolding(crate::specs::Words::icmp4_types, crate::specs::Words::icmp6_types))]
pub fn icmp_number(family: Family, word: &[u8]) -> Option<u8>
    ensures { result ≡ number_of (icmp_types family) word.now }
{
    match family {
        Family::Inet => find_number(&ICMP_TYPES, word),
        Family::Inet6 => find_number(&ICMP6_TYPES, word),
    }
}

/// The type that a word means in the family: a number to 255, where leading zeros may stand, or a name; None
/// exactly where it is neither (pf.conf(5), Parameters, `icmp-type` and `icmp6-type`).
pub fn icmp_of(family: Family, word: &[u8]) -> Option<u8>
    ensures { result ≡ says.icmp_of family word.now }
{
    match decimal(word, MOST) {
        Some(number) => Some(number as u8),
        None => icmp_number(family, word),
    }
}

/// The bit of a TCP flag's letter, or None exactly where no flag has it (pf.conf(5), Parameters).
#[tactic(auto, unfolding(crate::specs::Words::tcp_flags))]
pub fn flag_bit(letter: u8) -> Option<u8>
    ensures { result ≡ number_of tcp_flags (letter ∷ []) }
{
    find_number(&TCP_FLAGS, &[letter])
}

/// The bits of letters together. What is no letter of a flag has none.
pub fn flag_bits(letters: &[u8]) -> u8
    ensures { result ≡ says.bits_of letters.now }
{
    let mut bits = 0;
    for letter in letters {
        bits |= flag_bit(*letter).unwrap_or(0);
    }
    bits
}

// Whether each is a letter of a flag.
fn are_letters(letters: &[u8]) -> bool
    ensures { result ≡ list_all (λ letter. is_some (says.bit_of letter)) letters.now }
{
    letters.iter().all(|letter| flag_bit(*letter).is_some())
}

/// The bits of one or more letters of flags, in any order; None exactly where there is no letter or one is no
/// flag's (pf.conf(5), Parameters, `flags`).
#[tactic(auto, unfolding(crate::specs::Words::flags_of))]
pub fn flags_of(letters: &[u8]) -> Option<u8>
    ensures { result ≡ says.flags_of letters.now }
{
    if letters.is_empty() || !are_letters(letters) {
        return None;
    }
    Some(flag_bits(letters))
}

// Appends the letters of the rows whose bit is set.
fn put_letters(out: &mut Vec<u8>, flags: &[Row], bits: u8) -> Result<(), NoMemory>
    ensures ok { OnOk result (out.new.items ≡ out.old.items ++ says.letters_in (entries_of flags.now) bits) }
    ensures err { OnErr result (out.new.items ≡ out.old.items) }
{
    let before = out.len();
    for Row(letter, bit) in flags {
        if bits & *bit != 0 && out.extend_from_slice(letter).is_err() {
            out.truncate(before);
            return Err(NoMemory);
        }
    }
    Ok(())
}

/// Appends the letters of the flags that are set, in the order of their bits from the lowest on. An `Err`
/// changes nothing. The letters have these bits again.
#[tactic(auto, unfolding(crate::specs::Words::tcp_flags))]
pub fn put_flags(out: &mut Vec<u8>, bits: u8) -> Result<(), NoMemory>
    ensures ok { OnOk result (out.new.items ≡ out.old.items ++ says.letters_of bits) }
    ensures err { OnErr result (out.new.items ≡ out.old.items) }
{
    put_letters(out, &TCP_FLAGS, bits)
}
