//! An address of an interface, as it is kept.
use pf_addr::Masked;

/// An address with its network, and whether it is the first of its family of its interface.
#[derive(Clone, Copy, Debug)]
pub struct Entry {
    pub address: Masked,
    pub first: bool,
}
