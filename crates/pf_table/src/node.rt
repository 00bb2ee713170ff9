//! A node of a trie.
ghost use Rattle.std.specs.Prelude.{◌≡◌, Some, None};

use crate::entry::Entry;
use pf_addr::Prefix;

// One prefix of a table, or a place where two of them part.
#[derive(Clone, Copy, Debug)]
pub struct Node {
    pub prefix: Prefix,
    // Whether the entry of this prefix is negated; None where the table has no such entry.
    pub negated: Option<bool>,
    // The numbers of the nodes below it on either side.
    pub zero: Option<u32>,
    pub one: Option<u32>,
}

impl Node {
    ghost use Rattle.pf_table.specs.Node.{child, with_child, bare, entry_of};
    ghost use Rattle.pf_table.specs.Table.{is_sign};

    // A node with nothing below it.
    pub(crate) fn bare(prefix: Prefix) -> Node
        ensures { result ≡ bare prefix }
    {
        Node {
            prefix,
            negated: None,
            zero: None,
            one: None,
        }
    }

    // The number of the node below it on this side.
    pub(crate) fn child(&self, side: bool) -> Option<u32>
        ensures { result ≡ child self.now side }
    {
        if side { self.one } else { self.zero }
    }

    // The node with another one below it on this side.
    pub(crate) fn with_child(&self, side: bool, number: u32) -> Node
        ensures { result ≡ with_child self.now side number }
    {
        let mut node = *self;
        if side {
            node.one = Some(number);
        } else {
            node.zero = Some(number);
        }
        node
    }

    // The entry that it stands for.
    pub(crate) fn entry(&self) -> Option<Entry>
        ensures { result ≡ entry_of self.now }
    {
        let prefix = self.prefix;
        self.negated.map(|negated| Entry { prefix, negated })
    }

    // Whether it stands for an entry of this sign.
    pub(crate) fn has_sign(&self, sign: bool) -> bool
        ensures { result ≡ is_sign self.now.negated sign }
    {
        match self.negated {
            None => false,
            Some(found) => found == sign,
        }
    }
}
