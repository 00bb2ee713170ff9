//! The words of a `table` line.
ghost use Rattle.std.specs.Prelude.{◌≡◌, IfNone, IfSome};
ghost use Rattle.pf_addr.specs.Grammar.{IsAddrText};
ghost use Rattle.pf_addr.specs.declared.addr.Addr.{Addr as AnyAddr};
ghost use Rattle.pf_table.specs.declared.entry.Entry.{Entry as AnyEntry};
ghost use Rattle.pf_state.specs.Words.{IsEntryWord, is_negated, unsigned};

use pf_addr::{Addr, parse_addr, parse_prefix};
use pf_table::Entry;

// Whether a `!` stands before the word.
fn is_negated(word: &[u8]) -> bool
    ensures { result ≡ is_negated word.now }
{
    matches!(word, [b'!', ..])
}

// The word behind it.
fn unsigned(word: &[u8]) -> &[u8]
    ensures { result.now ≡ unsigned word.now }
{
    match word {
        [b'!', rest @ ..] => rest,
        _ => word,
    }
}

/// The entry that a word is: an address or a prefix with a `!` right before it or not; None where it is none (pfctl(8),
/// Tables). Takes no memory.
pub fn entry_of(word: &[u8]) -> Option<Entry>
    ensures found { IfSome result (IsEntryWord word.now) }
    ensures none { IfNone result ((entry : AnyEntry) → IsEntryWord word.now entry → ⊥) }
{
    match parse_prefix(unsigned(word)) {
        Ok(prefix) => Some(Entry {
            prefix,
            negated: is_negated(word),
        }),
        Err(_) => None,
    }
}

/// The address that a word is; None where it is none. Takes no memory.
pub fn addr_of(word: &[u8]) -> Option<Addr>
    ensures found { IfSome result (IsAddrText word.now) }
    ensures none { IfNone result ((addr : AnyAddr) → IsAddrText word.now addr → ⊥) }
{
    match parse_addr(word) {
        Ok(addr) => Some(addr),
        Err(_) => None,
    }
}
