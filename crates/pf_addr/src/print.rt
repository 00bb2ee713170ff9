//! From an address or a prefix to its text.
ghost use Rattle.std.specs.Prelude.{◌≡◌, ◌+◌, ◌*◌, ◌<◌, ◌≤◌, ◌++◌, length, decimal, OnOk, OnErr};
ghost use Rattle.std.specs.Char.{digit_char};
ghost use Rattle.std.specs.Net.Text.{hex, groups_text, longest_zero_run};
ghost use Rattle.pf_addr.specs.Addr.{IsAddr};
ghost use Rattle.pf_addr.specs.Grammar.{IsAddrText};
ghost use Rattle.pf_addr.specs.Text.{last_digits, addr_text, IsShortest};
ghost use Rattle.pf_addr.specs.PrefixText.{prefix_text, IsPrefixText};

use crate::addr::Addr;
use crate::line::{Line, ROOM};
use crate::prefix::Prefix;
use pf_base::NoMemory;

// The most bytes of an address: eight groups of four digits with a colon each, and two more.
const LONGEST_ADDR: usize = 42;

// As many zero groups as `::` stands for at least (RFC 5952, 4.2.2).
const LEAST_RUN: usize = 2;

// Zero groups that stand side by side.
#[derive(Clone, Copy)]
struct ZeroRun {
    start: usize,
    len: usize,
}

// A number in decimal.
fn put_number(line: &mut Line, number: u8)
    requires { length line.old + 3 ≤ ROOM }
    ensures text { line.new ≡ line.old ++ decimal number }
    ensures most { length line.new ≤ length line.old + 3 }
{
    if number >= 100 {
        line.push(b'0' + number / 100);
    }
    if number >= 10 {
        line.push(b'0' + number / 10 % 10);
    }
    line.push(b'0' + number % 10);
}

fn hex_digit(digit: u16) -> u8
    requires { digit < 16 }
    ensures { result ≡ digit_char digit }
{
    if digit < 10 {
        b'0' + digit as u8
    } else {
        b'a' + (digit - 10) as u8
    }
}

// A group in lower case, without leading zeros.
fn put_group(line: &mut Line, group: u16)
    requires { length line.old + 4 ≤ ROOM }
    ensures text { line.new ≡ line.old ++ hex group }
    ensures most { length line.new ≤ length line.old + 4 }
{
    if group >= 0x1000 {
        line.push(hex_digit(group / 0x1000));
    }
    if group >= 0x100 {
        line.push(hex_digit(group / 0x100 % 16));
    }
    if group >= 0x10 {
        line.push(hex_digit(group / 0x10 % 16));
    }
    line.push(hex_digit(group % 16));
}

// Groups with colons between them.
fn put_groups(line: &mut Line, groups: &[u16])
    requires { length line.old + 5 * length groups.now ≤ ROOM }
    ensures text { line.new ≡ line.old ++ groups_text groups.now }
    ensures most { length line.new ≤ length line.old + 5 * length groups.now }
{
    for (i, group) in groups.iter().enumerate() {
        if i > 0 {
            line.push(b':');
        }
        put_group(line, *group);
    }
}

// The longest run of zero groups; of equally long ones the one that begins first.
fn longest_run(groups: &[u16]) -> ZeroRun
    ensures value { (result.start, result.len) ≡ longest_zero_run groups.now }
    ensures within { result.start + result.len ≤ length groups.now }
{
    let mut longest = ZeroRun {
        start: groups.len(),
        len: 0,
    };
    let mut len = 0;
    for start in (0..groups.len()).rev() {
        len = if groups[start] == 0 { len + 1 } else { 0 };
        if len >= longest.len {
            longest = ZeroRun { start, len };
        }
    }
    longest
}

// The eight groups of an IPv6 address, the highest first.
#[tactic(auto, unfolding(crate::specs::Text::last_digits))]
fn groups_of(bits: u128) -> [u16; 8]
    ensures { result ≡ last_digits 65536 8 bits }
{
    let mut groups = [0; 8];
    let mut rest = bits;
    for i in (0..8).rev() {
        groups[i] = (rest % 65536) as u16;
        rest /= 65536;
    }
    groups
}

#[tactic(auto, unfolding(crate::specs::Text::last_digits))]
fn put_ipv4(line: &mut Line, bits: u32)
    requires { length line.old + LONGEST_ADDR ≤ ROOM }
    ensures text { line.new ≡ line.old ++ addr_text (Addr.V4 bits) }
    ensures most { length line.new ≤ length line.old + LONGEST_ADDR }
{
    let [a, b, c, d] = bits.to_be_bytes();
    put_number(line, a);
    line.push(b'.');
    put_number(line, b);
    line.push(b'.');
    put_number(line, c);
    line.push(b'.');
    put_number(line, d);
}

fn put_ipv6(line: &mut Line, bits: u128)
    requires { length line.old + LONGEST_ADDR ≤ ROOM }
    ensures text { line.new ≡ line.old ++ addr_text (Addr.V6 bits) }
    ensures most { length line.new ≤ length line.old + LONGEST_ADDR }
{
    let groups = groups_of(bits);
    let run = longest_run(&groups);
    if run.len >= LEAST_RUN {
        put_groups(line, &groups[..run.start]);
        line.push(b':');
        line.push(b':');
        put_groups(line, &groups[run.start + run.len..]);
    } else {
        put_groups(line, &groups);
    }
}

// The text of an address.
fn line_of(addr: &Addr) -> Line
    ensures text { result ≡ addr_text addr.now }
    ensures most { length result ≤ LONGEST_ADDR }
    ensures range { IsAddr addr.now }
{
    let mut line = Line::new();
    match *addr {
        Addr::V4(bits) => put_ipv4(&mut line, bits),
        Addr::V6(bits) => put_ipv6(&mut line, bits),
    }
    line
}

/// Appends the text of an address: four numbers with dots, or the text of RFC 5952, section 4, never with
/// a dotted part. An `Err` changes nothing.
pub fn put_addr(out: &mut Vec<u8>, addr: &Addr) -> Result<(), NoMemory>
    ensures ok { OnOk result (out.new.items ≡ out.old.items ++ addr_text addr.now) }
    ensures err { OnErr result (out.new.items ≡ out.old.items) }

    // What is printed is read as the address again, and it is the text that the RFC asks for.
    ensures reads_back { IsAddrText (addr_text addr.now) addr.now }
    ensures shortest { IsShortest (addr_text addr.now) addr.now }
{
    out.extend_from_slice(line_of(addr).bytes())?;
    Ok(())
}

/// Appends the text of a prefix: its address, and a slash and its length, but at full length the address
/// alone. An `Err` changes nothing.
pub fn put_prefix(out: &mut Vec<u8>, prefix: &Prefix) -> Result<(), NoMemory>
    ensures ok { OnOk result (out.new.items ≡ out.old.items ++ prefix_text prefix.now) }
    ensures err { OnErr result (out.new.items ≡ out.old.items) }

    // What is printed is read as the prefix again.
    ensures reads_back { IsPrefixText (prefix_text prefix.now) prefix.now }
{
    let mut line = line_of(&prefix.addr);
    if prefix.len != prefix.addr.width() {
        line.push(b'/');
        put_number(&mut line, prefix.len);
    }
    out.extend_from_slice(line.bytes())?;
    Ok(())
}
