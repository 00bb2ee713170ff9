//! Parts up to the end of a statement.
ghost use Rattle.pf_syntax.specs.Grammar.{until};
ghost use Rattle.pf_syntax.specs.Symbols.{is_end};
ghost use Rattle.pf_syntax.specs.Taking.{Takes};

use crate::cursor::Cursor;
use crate::fault::Stop;
use crate::list::Lay;

/// Takes parts up to the end of the statement, and lays them on a value.
pub fn take_to_end<A: Drop, L: Lay<A>>(parts: &L, cursor: &mut Cursor, first: A) -> Result<A, Stop>
    ensures { Takes (until is_end (L.part parts.now) first) cursor.old result cursor.new }
{
    let mut value = first;
    let most = cursor.len();
    for _ in 0..most {
        if cursor.is_at_end() {
            return Ok(value);
        }
        value = parts.lay(cursor, value)?;
    }
    if cursor.is_at_end() {
        Ok(value)
    } else {
        Err(Stop::Outside)
    }
}
