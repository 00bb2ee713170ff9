//! The record of a packet.
ghost use Rattle.std.specs.Prelude.{◌≡◌, ℕ, List, Result};
ghost use Rattle.pf_record.specs.Record.{IsReadAs};

use crate::field::PacketFault;
use crate::head::Head;
use crate::said::packet_of;
use crate::values::KeyValues;
use pf_addr::texts_are_read_in_one_way;
use pf_rule::Packet;

/// Reads the record of a packet (pfctl(8), PACKET RECORDS): words between single spaces, which are direction,
/// interface, protocol, source, destination and then keys with their values. The fault is the first from left
/// to right; where no word has one, the first key that is missing.
pub fn read_packet(text: &[u8]) -> Result<Packet, PacketFault>
    ensures reads { IsReadAs text.now result }
    ensures only { (other : Result Packet PacketFault) → IsReadAs text.now other → other ≡ result }
{
    let (head, left) = Head::read(text);
    let start = head.start()?;
    let packet = packet_of(&start, &KeyValues::cut(left))?;
    Ok(packet)
}

/// A law: a text is read in one way, as one packet or with one fault.
pub fn a_record_is_read_one_way()
    ensures { (text : List ℕ) (a b : Result Packet PacketFault) → IsReadAs text a → IsReadAs text b → a ≡ b }
{
    texts_are_read_in_one_way();
}
