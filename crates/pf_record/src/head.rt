//! The five words that each record begins with.
ghost use Rattle.std.specs.Prelude.{◌≡◌, List, ℕ, Option, Some, IfOk, IfErr};
ghost use Rattle.std.specs.Option.{option_copied};
ghost use Rattle.pf_base.specs.Text.{fields_of};
ghost use Rattle.pf_addr.specs.declared.addr.Addr.{Addr as Address};
ghost use Rattle.pf_record.specs.Reading.{IsHead, Starts, TakesWord, words_left};
ghost use Rattle.pf_record.specs.Record.{Writes, fault_of};

use crate::field::{Field, PacketFault};
use crate::words::direction_of;
use pf_addr::{Addr, parse_addr};
use pf_base::text::split_field;
use pf_base::{Name, plain_name};
use pf_ops::proto_of;
use pf_parts::Direction;

/// What the first five words say, each where it is there and has its form.
#[derive(Clone, Copy)]
pub(crate) struct Head {
    pub(crate) direction: Option<Direction>,
    pub(crate) iface: Option<Name>,
    pub(crate) proto: Option<u8>,
    pub(crate) source: Option<Addr>,
    pub(crate) target: Option<Addr>,
}

/// What they say where no word has a fault.
#[derive(Clone, Copy)]
pub(crate) struct Start {
    pub(crate) direction: Direction,
    pub(crate) iface: Name,
    pub(crate) proto: u8,
    pub(crate) source: Addr,
    pub(crate) target: Addr,
}

// The next word, where one is left, and what stands behind it.
pub(crate) fn next_word(left: Option<&[u8]>) -> (Option<&[u8]>, Option<&[u8]>)
    ensures { TakesWord (words_left (option_copied left.entry)) (option_copied result.0)
        (words_left (option_copied result.1)) }
{
    match left {
        None => (None, None),
        Some(text) => {
            let (word, rest) = split_field(text);
            (Some(word), rest)
        }
    }
}

// The address that the word writes.
fn address_of(word: Option<&[u8]>) -> Option<Addr>
    ensures writes { Writes (option_copied word.entry) result }
    ensures only { (other : Option Address) → Writes (option_copied word.entry) other → other ≡ result }
{
    parse_addr(word?).ok()
}

impl Head {
    /// What the first five words of a text say, and what stands behind these.
    pub(crate) fn read(text: &[u8]) -> (Head, Option<&[u8]>)
        ensures { IsHead (fields_of text.now) result.0 (words_left (option_copied result.1)) }
    {
        let (direction, left) = next_word(Some(text));
        let (iface, left) = next_word(left);
        let (proto, left) = next_word(left);
        let (source, left) = next_word(left);
        let (target, left) = next_word(left);
        let head = Head {
            direction: direction.and_then(direction_of),
            iface: iface.and_then(plain_name),
            proto: proto.and_then(proto_of),
            source: address_of(source),
            target: address_of(target),
        };
        (head, left)
    }

    /// The fault is the first from left to right; of a destination also where the families differ.
    pub(crate) fn start(&self) -> Result<Start, PacketFault>
        ensures starts { IfOk result (Starts self.now) }
        ensures fault { IfErr result (λ fault. (words : List (List ℕ))
            → fault_of self.now.direction self.now.iface self.now.proto self.now.source self.now.target words
            ≡ Some fault.0) }
    {
        let direction = self.direction.ok_or(PacketFault(Field::Direction))?;
        let iface = self.iface.ok_or(PacketFault(Field::Interface))?;
        let proto = self.proto.ok_or(PacketFault(Field::Protocol))?;
        let source = self.source.ok_or(PacketFault(Field::Source))?;
        let target = self.target.ok_or(PacketFault(Field::Destination))?;
        if !source.same_family(&target) {
            return Err(PacketFault(Field::Destination));
        }
        Ok(Start {
            direction,
            iface,
            proto,
            source,
            target,
        })
    }
}
