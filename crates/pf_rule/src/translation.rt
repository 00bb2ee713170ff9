//! Translation of a packet's addresses and ports (pf.conf(5), TRANSLATION).
ghost use Rattle.std.specs.Prelude.{◌≡◌};
ghost use Rattle.pf_rule.specs.Translation.{port_behind, source_changed, suits, target_changed, target_over, translated};

use crate::criterion::has_ports;
use crate::packet::Packet;
use pf_addr::Addr;

/// A new source (`nat-to`) or target (`rdr-to`): an address, and a port where one is given.
#[derive(Clone, Copy, Debug, PartialEq, Eq)]
pub struct Target {
    pub addr: Addr,
    pub port: Option<u16>,
}

impl Target {
    // Whether the address is of the packet's family.
    fn suits(&self, packet: &Packet) -> bool
        ensures { result ≡ suits self.now packet.now }
    {
        self.addr.same_family(&packet.source)
    }

    // The port that the packet has in place of this one.
    fn port_behind(&self, packet: &Packet, port: Option<u16>) -> Option<u16>
        ensures { result ≡ port_behind self.now packet.now port }
    {
        if has_ports(packet) {
            self.port.or(port)
        } else {
            port
        }
    }

    // Changes the source and its port.
    #[tactic(auto, unfolding(crate::specs::Translation::source_changed))]
    fn change_source(&self, packet: &mut Packet)
        ensures { packet.new ≡ source_changed self.now packet.old }
    {
        if self.suits(packet) {
            packet.source_port = self.port_behind(packet, packet.source_port);
            packet.source = self.addr;
        }
    }

    // Changes the target and its port.
    #[tactic(auto, unfolding(crate::specs::Translation::target_changed))]
    fn change_target(&self, packet: &mut Packet)
        ensures { packet.new ≡ target_changed self.now packet.old }
    {
        if self.suits(packet) {
            packet.target_port = self.port_behind(packet, packet.target_port);
            packet.target = self.addr;
        }
    }

    // These translations over others.
    pub(crate) fn over(new: Option<Target>, old: Option<Target>) -> Option<Target>
        ensures { result ≡ target_over new old }
    {
        match (new, old) {
            (None, old) => old,
            (Some(new), None) => Some(new),
            (Some(new), Some(old)) => Some(Target {
                addr: new.addr,
                port: new.port.or(old.port),
            }),
        }
    }
}

// Does what a rule with these translations does to a packet that it matches.
#[tactic(auto, unfolding(crate::specs::Translation::translated))]
pub(crate) fn translate(packet: &mut Packet, nat: &Option<Target>, rdr: &Option<Target>)
    ensures { packet.new ≡ translated nat.now rdr.now packet.old }
{
    if let Some(target) = nat {
        target.change_source(packet);
    }
    if let Some(target) = rdr {
        target.change_target(packet);
    }
}
