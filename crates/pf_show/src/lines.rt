//! Lines of items, one behind the other.
ghost use Rattle.std.specs.Prelude.{◌≡◌, ◌∷◌, [], ◌++◌, map, OnOk};
ghost use Rattle.pf_parts.specs.Appending.{Extends};
ghost use Rattle.pf_show.specs.Lines.{lines_text, shown_by};

use crate::line::Line;
use pf_base::NoMemory;
use pf_parts::put;

// Appends the line of one item.
fn put_line<T: Line>(out: &mut Vec<u8>, item: &T) -> Result<(), NoMemory>
    ensures ok { OnOk result (out.new.items ≡ out.old.items ++ (T.line item.now ++ 10 ∷ [])) }
    ensures kept { Extends out.old.items out.new.items }
{
    item.put(out)?;
    put(out, b"\n")?;
    Ok(())
}

// Appends the lines of items; without memory some of them.
fn append_lines<T: Line>(out: &mut Vec<u8>, items: &[T]) -> Result<(), NoMemory>
    ensures ok { OnOk result (out.new.items ≡ out.old.items ++ shown_by T.line items.now) }
    ensures kept { Extends out.old.items out.new.items }
{
    for item in items {
        put_line(out, item)?;
    }
    Ok(())
}

/// Appends the lines of items, each with a newline behind it. Without memory
/// what stood in `out` still stands in front.
#[tactic(auto, using(crate::proofs::Showing::lines_of_map))]
pub fn put_lines<T: Line>(out: &mut Vec<u8>, items: &[T]) -> Result<(), NoMemory>
    ensures ok { OnOk result (out.new.items ≡ out.old.items ++ lines_text (map T.line items.now)) }
    ensures kept { Extends out.old.items out.new.items }
{
    append_lines(out, items)
}
