//! Lists and brackets (pf.conf(5), GRAMMAR).
ghost use Rattle.std.specs.Prelude.{[], ◌∷◌, codes};
ghost use Rattle.pf_syntax.specs.Grammar.{until};
ghost use Rattle.pf_syntax.specs.Lists.{at_sign, behind_comma, braced, in_brackets, list_of, more_items, with_comma};
ghost use Rattle.pf_syntax.specs.Taking.{Takes};

use crate::cursor::Cursor;
use crate::fault::Stop;
use pf_base::List;

/// What takes an item of a list.
pub trait Take<T> {
    ghost use Rattle.pf_syntax.specs.Grammar.{Grammar};

    ghost grammar: { Self → Grammar T };

    /// Takes an item.
    fn take(&self, cursor: &mut Cursor) -> Result<T, Stop>
        ensures { Takes (grammar self.now) cursor.old result cursor.new };
}

/// What takes a part and lays it on a value.
pub trait Lay<A> {
    ghost use Rattle.pf_syntax.specs.Grammar.{Grammar};

    ghost part: { Self → A → Grammar A };

    /// Takes a part, and gives the value with it.
    fn lay(&self, cursor: &mut Cursor, value: A) -> Result<A, Stop>
        ensures { Takes (part self.now value) cursor.old result cursor.new };
}

// Takes an item and a comma behind it, where one stands.
fn take_with_comma<T: Drop, I: Take<T>>(items: &I, cursor: &mut Cursor) -> Result<T, Stop>
    ensures { Takes (with_comma (I.grammar items.now)) cursor.old result cursor.new }
{
    let value = items.take(cursor)?;
    let _comma = cursor.passes_sign(b",");
    Ok(value)
}

// Takes items up to a `}`.
fn take_more<T: Drop, I: Take<T>>(items: &I, cursor: &mut Cursor, first: T) -> Result<List<T>, Stop>
    ensures { Takes (more_items (I.grammar items.now) (first ∷ [])) cursor.old result cursor.new }
{
    let mut list = List::new(cursor.alloc());
    list.push(first)?;
    let most = cursor.len();
    for _ in 0..most {
        if cursor.is_at_sign(b"}") {
            return Ok(list);
        }
        let next = take_with_comma(items, cursor)?;
        list.push(next)?;
    }
    if cursor.is_at_sign(b"}") {
        Ok(list)
    } else {
        Err(Stop::Outside)
    }
}

// Takes the items behind a `{`.
fn take_braced<T: Drop, I: Take<T>>(items: &I, cursor: &mut Cursor) -> Result<List<T>, Stop>
    ensures { Takes (braced (I.grammar items.now)) cursor.old result cursor.new }
{
    let first = take_with_comma(items, cursor)?;
    let list = take_more(items, cursor, first)?;
    cursor.take_sign(b"}")?;
    Ok(list)
}

/// Takes one item, or one or more in braces, each with a comma behind it or not.
pub fn take_list<T: Drop, I: Take<T>>(items: &I, cursor: &mut Cursor) -> Result<List<T>, Stop>
    ensures { Takes (list_of (I.grammar items.now)) cursor.old result cursor.new }
{
    if cursor.passes_sign(b"{") {
        take_braced(items, cursor)
    } else {
        let only = items.take(cursor)?;
        let mut list = List::new(cursor.alloc());
        list.push(only)?;
        Ok(list)
    }
}

// Takes a part behind a comma, where one stands.
fn take_behind_comma<A: Drop, L: Lay<A>>(
    parts: &L,
    cursor: &mut Cursor,
    value: A,
) -> Result<A, Stop>
    ensures { Takes (behind_comma (L.part parts.now) value) cursor.old result cursor.new }
{
    let _comma = cursor.passes_sign(b",");
    parts.lay(cursor, value)
}

// Takes parts up to a `)`.
fn take_parts<A: Drop, L: Lay<A>>(parts: &L, cursor: &mut Cursor, first: A) -> Result<A, Stop>
    ensures { Takes (until (at_sign (codes ")")) (behind_comma (L.part parts.now)) first) cursor.old result cursor.new }
{
    let mut value = first;
    let most = cursor.len();
    for _ in 0..most {
        if cursor.is_at_sign(b")") {
            return Ok(value);
        }
        value = take_behind_comma(parts, cursor, value)?;
    }
    if cursor.is_at_sign(b")") {
        Ok(value)
    } else {
        Err(Stop::Outside)
    }
}

/// Takes one or more parts in brackets, with a comma between two of them or not.
pub fn take_in_brackets<A: Drop, L: Lay<A>>(
    parts: &L,
    cursor: &mut Cursor,
    none: A,
) -> Result<A, Stop>
    ensures { Takes (in_brackets (L.part parts.now) none) cursor.old result cursor.new }
{
    cursor.take_sign(b"(")?;
    let first = parts.lay(cursor, none)?;
    let last = take_parts(parts, cursor, first)?;
    cursor.take_sign(b")")?;
    Ok(last)
}
