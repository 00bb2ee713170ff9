//! Look-ups in lists of entries.
ghost use Rattle.std.specs.Prelude.{◌≡◌};
ghost use Rattle.pf_eval.specs.Longest.{longer};
ghost use Rattle.pf_table.specs.Table.{member, narrowest};

use pf_addr::Addr;
use pf_table::Entry;

// The longer of an entry that there may be and another, the first of two alike.
fn longer(best: Option<Entry>, entry: Entry) -> Entry
    ensures { result ≡ longer best entry }
{
    match best {
        Some(found) if found.prefix.len >= entry.prefix.len => found,
        _ => entry,
    }
}

// The longest of the entries that have the address in them.
fn longest(entries: &[Entry], addr: &Addr) -> Option<Entry>
    ensures { result ≡ narrowest entries.now addr.now }
{
    let mut best = None;
    for entry in entries {
        if entry.prefix.contains(addr) {
            best = Some(longer(best, *entry));
        }
    }
    best
}

/// Whether the address is in the table with these entries: the longest that has it in it decides by its sign.
pub(crate) fn is_member(entries: &[Entry], addr: &Addr) -> bool
    ensures { result ≡ member entries.now addr.now }
{
    match longest(entries, addr) {
        Some(entry) => !entry.negated,
        None => false,
    }
}
