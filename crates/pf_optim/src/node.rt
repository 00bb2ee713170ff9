//! What stands at a path of the tree.
use crate::ruleset::Ruleset;
use pf_shelf::Shelf;
use pf_tree::Blank;
use std::alloc::Global;

/// A ruleset with its declared tables (pf.conf(5), Anchors). It is blank where it has neither rules nor tables.
#[derive(Debug, Drop)]
pub struct Node {
    pub rules: Ruleset,
    pub shelf: Shelf,
}

impl Blank for Node {
    ghost use Rattle.pf_optim.specs.Node.{is_bare};

    ghost is_blank = { λ node. is_bare node.rules node.shelf };

    fn fresh(alloc: Global) -> Node {
        Node {
            rules: Ruleset::new(alloc),
            shelf: Shelf::new(alloc),
        }
    }

    fn is_blank(&self) -> bool {
        self.rules.written().is_empty() && self.shelf.is_empty()
    }

    fn blank(&mut self) {
        let alloc = self.rules.allocator();
        self.rules = Ruleset::new(alloc);
        self.shelf = Shelf::new(alloc);
    }
}
