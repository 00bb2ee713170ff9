//! From a text to an address or a prefix.
ghost use Rattle.std.specs.Prelude.{◌≡◌, ℕ, ◌+◌, ◌≤◌, ◌<◌, ◌≢◌, ◌↔◌, ◌++◌, ◌∷◌, ◌==◌, count_by, length, take, All, IfOk, IfErr, IfSome, IfNone, IsOkAnd, MatchOption};
ghost use Rattle.pf_addr.specs.Addr.{width};
ghost use Rattle.pf_addr.specs.Grammar.{IsIpv4, IsIpv6, IsShortIpv4, IsAddrText, IsNetworkText, IsMask, IsMasked, Writes, slash, zeros};
ghost use Rattle.pf_addr.specs.PrefixText.{IsMaskTooLong, IsMaskedText, IsNetworkOf, IsPrefixText, IsTooLong};

use crate::addr::Addr;
use crate::prefix::Prefix;
use pf_base::text::decimal;
use std::net::{Ipv4Addr, Ipv6Addr};

/// Why a text is no address.
#[derive(Clone, Copy, Debug, PartialEq, Eq)]
pub enum AddrFault {
    /// The text has no form of an address.
    NotAnAddress,
    /// The mask has this many bits, more than the 32 or 128 of the address.
    MaskTooLong(u32),
}

/// An address that was written with a mask, and its network.
#[derive(Clone, Copy, Debug, PartialEq, Eq)]
pub struct Masked {
    pub addr: Addr,
    pub network: Prefix,
}

// The longest IPv4 address has this many bytes.
const LONGEST_IPV4: usize = 15;

// What stands for the numbers that a short IPv4 address leaves out, three at most.
const ZEROS: [u8; 6] = *b".0.0.0";

// The most bytes of a short IPv4 address with those numbers behind it.
const FILLED: usize = LONGEST_IPV4 + ZEROS.len();

fn parse_ipv4(text: &[u8]) -> Option<u32>
    ensures { MatchOption result ((n : ℕ) → IsIpv4 text.now n → ⊥) (IsIpv4 text.now) }
{
    match Ipv4Addr::parse_ascii(text) {
        Ok(addr) => Some(addr.to_bits()),
        Err(_) => None,
    }
}

fn parse_ipv6(text: &[u8]) -> Option<u128>
    ensures { MatchOption result ((n : ℕ) → IsIpv6 text.now n → ⊥) (IsIpv6 text.now) }
{
    match Ipv6Addr::parse_ascii(text) {
        Ok(addr) => Some(addr.to_bits()),
        Err(_) => None,
    }
}

fn count_dots(text: &[u8]) -> usize
    ensures { result ≡ count_by (λ b. b == 46) text.now }
{
    text.iter().filter(|b| **b == b'.').count()
}

// The text, and behind it zeros for three numbers.
fn with_zeros(text: &[u8]) -> [u8; FILLED]
    requires { length text.now ≤ LONGEST_IPV4 }
    ensures { take (length text.now + 6) result ≡ text.now ++ zeros 3 }
{
    let mut filled = [0u8; FILLED];
    filled[..text.len()].copy_from_slice(text);
    filled[text.len()..text.len() + ZEROS.len()].copy_from_slice(&ZEROS);
    filled
}

// An IPv4 address of one to four numbers.
fn parse_short_ipv4(text: &[u8]) -> Option<u32>
    ensures { MatchOption result ((n : ℕ) → IsShortIpv4 text.now n → ⊥) (IsShortIpv4 text.now) }
{
    let dots = count_dots(text);
    if dots > 3 || text.len() > LONGEST_IPV4 {
        return None;
    }
    parse_ipv4(&with_zeros(text)[..text.len() + 2 * (3 - dots)])
}

// What may stand before a mask.
fn parse_network(text: &[u8]) -> Option<Addr>
    ensures { MatchOption result ((a : Addr) → IsNetworkText text.now a → ⊥) (IsNetworkText text.now) }
{
    match parse_short_ipv4(text) {
        Some(bits) => Some(Addr::V4(bits)),
        None => Some(Addr::V6(parse_ipv6(text)?)),
    }
}

// The number of a mask.
fn parse_mask(digits: &[u8]) -> Option<u32>
    ensures { MatchOption result ((n : ℕ) → IsMask digits.now n → ⊥) (IsMask digits.now) }
{
    if digits.len() > 3 {
        None
    } else {
        decimal(digits, 999)
    }
}

// The parts before and behind the first `/`.
fn split_mask(text: &[u8]) -> Option<(&[u8], &[u8])>
    ensures none { IfNone result (All (λ b. b ≢ slash) text.now) }
    ensures parts { IfSome result (λ p. text.now ≡ p.0.now ++ slash ∷ p.1.now) }
    ensures first { IfSome result (λ p. All (λ b. b ≢ slash) p.0.now) }
{
    for (i, b) in text.iter().enumerate() {
        if *b == b'/' {
            return Some((&text[..i], &text[i + 1..]));
        }
    }
    None
}

// The address and the mask of two words, the first of which stands before a slash.
fn parse_parts(front: &[u8], digits: &[u8]) -> Option<(Addr, u32)>
    ensures { MatchOption result
        ((a : Addr) (n : ℕ) → IsMasked (front.now ++ slash ∷ digits.now) a n → ⊥)
        (λ r. IsMasked (front.now ++ slash ∷ digits.now) r.0 r.1) }
{
    Some((parse_network(front)?, parse_mask(digits)?))
}

// The address and the mask of a text.
fn parse_cut(text: &[u8]) -> Option<(Addr, u32)>
    ensures { MatchOption result
        ((a : Addr) (n : ℕ) → IsMasked text.now a n → ⊥) (λ r. IsMasked text.now r.0 r.1) }
{
    let (front, digits) = split_mask(text)?;
    parse_parts(front, digits)
}

// The address that a text writes, and how many bits its mask has, or all bits where it has no mask.
fn parse_written(text: &[u8]) -> Option<(Addr, u32)>
    ensures { MatchOption result
        ((a : Addr) (n : ℕ) → Writes text.now a n → ⊥) (λ r. Writes text.now r.0 r.1) }
{
    match parse_addr(text) {
        Ok(addr) => Some((addr, u32::from(addr.width()))),
        Err(_) => parse_cut(text),
    }
}

// The prefix of the first `len` bits of an address.
fn prefix_of(addr: Addr, len: u32) -> Result<Prefix, AddrFault>
    ensures ok { len ≤ width addr → IsOkAnd result (IsNetworkOf addr len) }
    ensures too_long { width addr < len → result ≡ Err (AddrFault.MaskTooLong len) }
{
    match u8::try_from(len) {
        Ok(len) if len <= addr.width() => Ok(Prefix {
            addr: addr.network(len),
            len,
        }),
        _ => Err(AddrFault::MaskTooLong(len)),
    }
}

// The address, and the prefix of its first `len` bits.
fn masked_of(addr: Addr, len: u32) -> Result<Masked, AddrFault>
    ensures ok { len ≤ width addr → IsOkAnd result (λ m. (m.addr ≡ addr) × IsNetworkOf addr len m.network) }
    ensures too_long { width addr < len → result ≡ Err (AddrFault.MaskTooLong len) }
{
    let network = prefix_of(addr, len)?;
    Ok(Masked { addr, network })
}

/// Reads an IPv4 address of four numbers, or an IPv6 address (RFC 4291, 2.2). `NotAnAddress` comes exactly
/// where the text writes neither; no other fault comes.
pub fn parse_addr(text: &[u8]) -> Result<Addr, AddrFault>
    ensures found { IfOk result (IsAddrText text.now) }
    ensures only { (a : Addr) → IsAddrText text.now a → result ≡ Ok a }
    ensures fault { IfErr result (λ fault. fault ≡ AddrFault.NotAnAddress) }
    ensures not_an_address { (result ≡ Err AddrFault.NotAnAddress)
        ↔ ((a : Addr) → IsAddrText text.now a → ⊥) }
{
    match parse_ipv4(text) {
        Some(bits) => Ok(Addr::V4(bits)),
        None => match parse_ipv6(text) {
            Some(bits) => Ok(Addr::V6(bits)),
            None => Err(AddrFault::NotAnAddress),
        },
    }
}

/// Reads `address/bits` of pf.conf(5), where an IPv4 address may leave out its last numbers, or an address
/// alone, which has all its bits; host bits become zero. `MaskTooLong(n)` comes exactly where the text has
/// this form with n bits, more than the family has, and `NotAnAddress` exactly where it has no such form.
pub fn parse_prefix(text: &[u8]) -> Result<Prefix, AddrFault>
    ensures found { IfOk result (IsPrefixText text.now) }
    ensures only { (p : Prefix) → IsPrefixText text.now p → result ≡ Ok p }
    ensures too_long { (n : ℕ) → (result ≡ Err (AddrFault.MaskTooLong n)) ↔ IsTooLong text.now n }
    ensures not_an_address { (result ≡ Err AddrFault.NotAnAddress)
        ↔ ((a : Addr) (n : ℕ) → Writes text.now a n → ⊥) }
{
    match parse_written(text) {
        Some((addr, len)) => prefix_of(addr, len),
        None => Err(AddrFault::NotAnAddress),
    }
}

/// Reads a prefix whose address and mask are two words: as [`parse_prefix`] reads the text that has a slash
/// between them, with the same faults. No word with a slash in it is read.
pub fn parse_prefix_parts(word: &[u8], mask: &[u8]) -> Result<Prefix, AddrFault>
    ensures found { IfOk result (IsPrefixText (word.now ++ slash ∷ mask.now)) }
    ensures only { (p : Prefix) → IsPrefixText (word.now ++ slash ∷ mask.now) p → result ≡ Ok p }
    ensures too_long { (n : ℕ) → (result ≡ Err (AddrFault.MaskTooLong n))
        ↔ IsTooLong (word.now ++ slash ∷ mask.now) n }
    ensures not_an_address { (result ≡ Err AddrFault.NotAnAddress)
        ↔ ((a : Addr) (n : ℕ) → Writes (word.now ++ slash ∷ mask.now) a n → ⊥) }
{
    match parse_parts(word, mask) {
        Some((addr, len)) => prefix_of(addr, len),
        None => Err(AddrFault::NotAnAddress),
    }
}

/// Reads `address/bits` as [`parse_prefix`], and gives the address as it was written beside the network. The
/// mask is needed: without it, or where the text has no such form, the fault is `NotAnAddress`.
pub fn parse_masked(text: &[u8]) -> Result<Masked, AddrFault>
    ensures found { IfOk result (IsMaskedText text.now) }
    ensures only { (m : Masked) → IsMaskedText text.now m → result ≡ Ok m }
    ensures too_long { (n : ℕ) → (result ≡ Err (AddrFault.MaskTooLong n)) ↔ IsMaskTooLong text.now n }
    ensures not_an_address { (result ≡ Err AddrFault.NotAnAddress)
        ↔ ((a : Addr) (n : ℕ) → IsMasked text.now a n → ⊥) }
{
    match parse_cut(text) {
        Some((addr, len)) => masked_of(addr, len),
        None => Err(AddrFault::NotAnAddress),
    }
}
