//! What expansion takes beside a form.
use pf_parts::BlockKind;

/// Which of two options of a statement stands first, where a word of either may have a fault of one kind.
#[derive(Clone, Copy, Debug, PartialEq, Eq)]
pub struct Order {
    /// `group` stands before `user`.
    pub group_first: bool,
    /// `rdr-to` stands before `nat-to`.
    pub rdr_first: bool,
}

/// The policies of `set block-policy` and `set state-policy` at that moment (pf.conf(5), OPTIONS).
#[derive(Clone, Copy, Debug, PartialEq, Eq)]
pub struct Defaults {
    pub block: BlockKind,
    /// States are bound to their interface.
    pub bound: bool,
}
