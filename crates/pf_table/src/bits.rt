//! Addresses and prefixes as runs of bits, the first the highest.
ghost use Rattle.std.specs.Prelude.{◌≡◌, ◌+◌, ◌-◌, ◌%◌, ◌<◌, ◌≤◌, ◌==◌};
ghost use Rattle.pf_addr.specs.Addr.{width, leading};
ghost use Rattle.pf_table.specs.Bits.{side, IsShared, IsFront};

use pf_addr::{Addr, Prefix};

// The bit behind the first `place` bits.
#[tactic(auto, unfolding(crate::specs::Bits::side))]
pub(crate) fn side(addr: &Addr, place: u8) -> bool
    requires { place < width addr.now }
    ensures { result ≡ side addr.now place }
{
    let behind = addr.width() - (place + 1);
    addr.number().checked_shr(u32::from(behind)).unwrap_or(0) % 2 == 1
}

// The first `len` bits of a prefix as a prefix.
pub(crate) fn front(prefix: &Prefix, len: u8) -> Prefix
    requires { len ≤ prefix.now.len }
    ensures { IsFront result prefix.now len }
{
    Prefix {
        addr: prefix.addr.network(len),
        len,
    }
}

// How many of the first bits two prefixes share, of which they are known to share `from`.
pub(crate) fn shared(a: &Prefix, b: &Prefix, from: u8) -> u8
    requires family { width a.now.addr ≡ width b.now.addr }
    requires in_a { from ≤ a.now.len }
    requires in_b { from ≤ b.now.len }
    requires same { leading a.now.addr from ≡ leading b.now.addr from }
    ensures { IsShared a.now b.now from result }
{
    let limit = a.len.min(b.len);
    let mut len = from;
    while len < limit && side(&a.addr, len) == side(&b.addr, len) {
        len += 1;
    }
    len
}
