//! The values of a record's keys.
ghost use Rattle.std.specs.Prelude.{◌≡◌};
ghost use Rattle.std.specs.Option.{option_copied};
ghost use Rattle.pf_record.specs.Reading.{AreCut, TakesValue, end_fault, fault_in, value_behind, values_of, words_left};

use crate::field::{Field, PacketFault};
use crate::head::next_word;
use crate::words::{has_ports, has_types};

/// The values of the keys that are given in the order of the table, and whether more words stand behind them.
#[derive(Clone, Copy)]
pub(crate) struct KeyValues<'a> {
    pub(crate) sport: Option<&'a [u8]>,
    pub(crate) dport: Option<&'a [u8]>,
    pub(crate) flags: Option<&'a [u8]>,
    pub(crate) icmptype: Option<&'a [u8]>,
    pub(crate) code: Option<&'a [u8]>,
    pub(crate) tos: Option<&'a [u8]>,
    pub(crate) prio: Option<&'a [u8]>,
    pub(crate) user: Option<&'a [u8]>,
    pub(crate) group: Option<&'a [u8]>,
    pub(crate) tag: Option<&'a [u8]>,
    pub(crate) extra: bool,
}

// What stands behind these bytes in a word that begins with them.
fn value_behind<'a>(word: &'a [u8], begins: &[u8]) -> Option<&'a [u8]>
    ensures { option_copied result ≡ value_behind begins.now word.now }
{
    word.strip_prefix(begins)
}

// The value of a key where its word comes next, and the words that are left.
fn take_value<'a>(left: Option<&'a [u8]>, begins: &[u8]) -> (Option<&'a [u8]>, Option<&'a [u8]>)
    ensures { TakesValue begins.now (words_left (option_copied left.entry)) (option_copied result.0)
        (words_left (option_copied result.1)) }
{
    let (Some(word), rest) = next_word(left) else {
        return (None, left);
    };
    match value_behind(word, begins) {
        Some(value) => (Some(value), rest),
        None => (None, left),
    }
}

impl<'a> KeyValues<'a> {
    /// The values among the words that are left.
    pub(crate) fn cut(left: Option<&'a [u8]>) -> KeyValues<'a>
        ensures { AreCut (words_left (option_copied left.entry)) (values_of result) result.extra }
    {
        let (sport, left) = take_value(left, b"sport=");
        let (dport, left) = take_value(left, b"dport=");
        let (flags, left) = take_value(left, b"flags=");
        let (icmptype, left) = take_value(left, b"icmptype=");
        let (code, left) = take_value(left, b"code=");
        let (tos, left) = take_value(left, b"tos=");
        let (prio, left) = take_value(left, b"prio=");
        let (user, left) = take_value(left, b"user=");
        let (group, left) = take_value(left, b"group=");
        let (tag, left) = take_value(left, b"tag=");
        let (word, _) = next_word(left);
        KeyValues {
            sport,
            dport,
            flags,
            icmptype,
            code,
            tos,
            prio,
            user,
            group,
            tag,
            extra: word.is_some(),
        }
    }

    /// The fault behind the keys that are given: one more word, or the first key that is missing.
    #[tactic(auto, unfolding(crate::specs::Reading::end_fault))]
    pub(crate) fn end(&self, proto: u8) -> Result<(), PacketFault>
        ensures { fault_in result ≡ end_fault proto (values_of self.now) self.now.extra }
    {
        if self.extra {
            return Err(PacketFault(Field::Extra));
        }
        if has_ports(proto) && self.sport.is_none() {
            return Err(PacketFault(Field::Sport));
        }
        if has_ports(proto) && self.dport.is_none() {
            return Err(PacketFault(Field::Dport));
        }
        if has_types(proto) && self.icmptype.is_none() {
            return Err(PacketFault(Field::Icmptype));
        }
        if has_types(proto) && self.code.is_none() {
            return Err(PacketFault(Field::Code));
        }
        Ok(())
    }
}
