//! Which entries of a declaration count: each prefix once, with one sign.
ghost use Rattle.std.specs.Prelude.{◌≡◌, Ok, Err, Some, None, IfOk, IfErr};
ghost use Rattle.pf_entries.specs.Tables.{conflict_in, distinct};

use crate::gathered::Placed;
use pf_base::{List, NoMemory, Place};
use pf_table::{Entry, Table};
use std::alloc::Global;

/// The entries, or the place of the first whose prefix an earlier one has with the other sign.
pub(crate) fn settle(
    alloc: Global,
    placed: &[Placed],
) -> Result<Result<List<Entry>, Place>, NoMemory>
    ensures fine { IfOk result (λ settled. IfOk settled (λ entries. entries ≡ distinct placed.now)) }
    ensures no_conflict { IfOk result (λ settled. IfOk settled (λ entries. conflict_in placed.now ≡ None)) }
    ensures conflict { IfOk result (λ settled. IfErr settled (λ place. conflict_in placed.now ≡ Some place)) }
{
    let mut seen = Table::new(alloc);
    let mut entries = List::new(alloc);
    for one in placed {
        match seen.sign_of(&one.entry.prefix) {
            None => {
                seen.add(one.entry)?;
                entries.push_copy(&one.entry)?;
            }
            Some(negated) => {
                if negated != one.entry.negated {
                    return Ok(Err(one.place));
                }
            }
        }
    }
    Ok(Ok(entries))
}
