//! Tests of ports, users and groups, ICMP types and translations (pf.conf(5), GRAMMAR).
ghost use Rattle.std.specs.Prelude.{◌≡◌, ◌==◌, IfOk, position};
ghost use Rattle.pf_syntax.specs.Operators.{at_operator, high_behind, icmp_type, op, operator, sign_test, target, word_op, word_test};
ghost use Rattle.pf_syntax.specs.Taking.{Takes};

use crate::cursor::Cursor;
use crate::fault::Stop;
use crate::form::{IcmpItem, OpItem, TargetWords};
use crate::list::Take;
use pf_base::{Family, List, NoMemory, Text};
use pf_ops::OpKind;
use std::alloc::Global;

// The place of the first colon.
fn colon_in(word: &[u8]) -> Option<usize>
    ensures { result ≡ position (λ byte. byte == 58) word.now }
{
    word.iter().position(|byte| *byte == b':')
}

// A test of a word: the range that its first colon cuts it into, or one number.
fn test_of_word(alloc: Global, word: Text) -> Result<OpItem, NoMemory>
    ensures { IfOk result (λ item. item ≡ word_op word) }
{
    match colon_in(word.items()) {
        None => Ok(OpItem {
            kind: OpKind::Equal,
            low: word,
            high: List::new(alloc),
        }),
        Some(colon) => {
            let mut low = List::new(alloc);
            low.append_copy(&word.items()[..colon])?;
            let mut high = List::new(alloc);
            high.append_copy(&word.items()[colon + 1..])?;
            Ok(OpItem {
                kind: OpKind::Within,
                low,
                high,
            })
        }
    }
}

// Takes the signs of an operator.
#[tactic(auto, unfolding(crate::specs::Operators::operator))]
fn take_operator(cursor: &mut Cursor) -> Result<OpKind, Stop>
    ensures { Takes operator cursor.old result cursor.new }
{
    if cursor.passes_sign(b"=") {
        return Ok(OpKind::Equal);
    }
    if cursor.passes_sign(b"!") {
        cursor.take_sign(b"=")?;
        return Ok(OpKind::Other);
    }
    if cursor.passes_sign(b"<") {
        let equal = cursor.passes_sign(b"=");
        return Ok(if equal { OpKind::UpTo } else { OpKind::Below });
    }
    if cursor.passes_sign(b">") {
        let equal = cursor.passes_sign(b"=");
        return Ok(if equal { OpKind::From } else { OpKind::Above });
    }
    Err(Stop::Outside)
}

// Takes two signs and the high end behind a low end.
fn take_high(
    cursor: &mut Cursor,
    kind: OpKind,
    first: &[u8],
    second: &[u8],
    low: Text,
) -> Result<OpItem, Stop>
    ensures { Takes (high_behind kind first.now second.now low) cursor.old result cursor.new }
{
    cursor.take_sign(first)?;
    cursor.take_sign(second)?;
    let high = cursor.take_word()?;
    Ok(OpItem { kind, low, high })
}

// Takes a test that begins with a word.
#[tactic(auto, unfolding(crate::specs::Operators::word_test))]
fn take_word_test(cursor: &mut Cursor) -> Result<OpItem, Stop>
    ensures { Takes word_test cursor.old result cursor.new }
{
    let low = cursor.take_word()?;
    if cursor.is_at_signs(b">", b"<") {
        return take_high(cursor, OpKind::Between, b">", b"<", low);
    }
    if cursor.is_at_signs(b"<", b">") {
        return take_high(cursor, OpKind::Outside, b"<", b">", low);
    }
    let item = test_of_word(cursor.alloc(), low)?;
    Ok(item)
}

// Takes a test that begins with an operator.
#[tactic(auto, unfolding(crate::specs::Operators::sign_test))]
fn take_sign_test(cursor: &mut Cursor) -> Result<OpItem, Stop>
    ensures { Takes sign_test cursor.old result cursor.new }
{
    let kind = take_operator(cursor)?;
    let low = cursor.take_word()?;
    Ok(OpItem {
        kind,
        low,
        high: List::new(cursor.alloc()),
    })
}

// Whether an operator's first sign stands next.
fn is_at_operator(cursor: &Cursor) -> bool
    ensures { result ≡ at_operator cursor.now }
{
    cursor.is_at_sign(b"=")
        || cursor.is_at_sign(b"!")
        || cursor.is_at_sign(b"<")
        || cursor.is_at_sign(b">")
}

/// Takes a test of a port, a user or a group.
#[tactic(auto, unfolding(crate::specs::Operators::op))]
pub fn take_op(cursor: &mut Cursor) -> Result<OpItem, Stop>
    ensures { Takes op cursor.old result cursor.new }
{
    if is_at_operator(cursor) {
        take_sign_test(cursor)
    } else {
        take_word_test(cursor)
    }
}

/// Takes an ICMP type of a family, and its code where one is given.
#[tactic(auto, unfolding(crate::specs::Operators::icmp_type))]
pub fn take_icmp_type(cursor: &mut Cursor, family: Family) -> Result<IcmpItem, Stop>
    ensures { Takes (icmp_type family) cursor.old result cursor.new }
{
    let word = cursor.take_word()?;
    if cursor.passes(b"code") {
        let code = cursor.take_word()?;
        return Ok(IcmpItem {
            family,
            word,
            code: Some(code),
        });
    }
    Ok(IcmpItem {
        family,
        word,
        code: None,
    })
}

/// Takes the address behind `nat-to` or `rdr-to`, and a port where one is given.
#[tactic(auto, unfolding(crate::specs::Operators::target))]
pub fn take_target(cursor: &mut Cursor) -> Result<TargetWords, Stop>
    ensures { Takes target cursor.old result cursor.new }
{
    let addr = cursor.take_word()?;
    if cursor.passes(b"port") {
        let port = cursor.take_word()?;
        return Ok(TargetWords {
            addr,
            port: Some(port),
        });
    }
    Ok(TargetWords { addr, port: None })
}

/// Items that are tests of ports, users or groups.
#[derive(Clone, Copy)]
pub struct EachOp;

impl Take<OpItem> for EachOp {
    ghost grammar = { λ _. op };

    fn take(&self, cursor: &mut Cursor) -> Result<OpItem, Stop> {
        take_op(cursor)
    }
}

/// Items that are ICMP types of one family.
#[derive(Clone, Copy)]
pub struct EachIcmpType {
    pub family: Family,
}

impl Take<IcmpItem> for EachIcmpType {
    ghost grammar = { λ each. icmp_type each.family };

    fn take(&self, cursor: &mut Cursor) -> Result<IcmpItem, Stop> {
        take_icmp_type(cursor, self.family)
    }
}
