//! Payloads by paths.
ghost use Rattle.std.specs.Prelude.{◌≡◌, IfOk};
ghost use Rattle.std.specs.FinMap as finite;
ghost use Rattle.std.specs.Option.{option_copied};
ghost use Rattle.pf_tree.specs.Paths.{next_name};

use pf_base::{List, Name, NoMemory, Path};
use pf_tree::{Blank, Tree};
use std::alloc::Global;
use std::marker::Model;

/// Payloads by the paths of rulesets (pf.conf(5), ANCHORS). Clauses see the finite map from paths to those that aren't blank.
#[derive(Drop)]
pub struct AtPaths<P: Blank> {
    pub(crate) tree: Tree<P>,
}

impl<P: Blank> Model for AtPaths<P> {
    ghost use Rattle.std.specs.FinMap.{FinMap, code};
    ghost use Rattle.pf_tree.specs.Meaning.{path_code};
    ghost use Rattle.pf_tree.specs.Order.{path_cmp};

    ghost Value = { FinMap path_cmp P };

    ghost coded = { code path_code P.code };

    ghost view = { λ a. a.tree.payloads };
}

impl<P: Blank> AtPaths<P> {
    /// No payload anywhere. Takes no memory.
    pub fn new(alloc: Global) -> AtPaths<P>
        ensures { result ≡ finite.empty }
    {
        AtPaths {
            tree: Tree::new(alloc),
        }
    }

    /// The payload at a path, or None where none stands there. Takes no memory.
    pub fn get(&self, path: &Path) -> Option<&P>
        ensures { option_copied result ≡ finite.get self.now path.now }
    {
        self.tree.get(path)
    }

    /// The least name behind this one of a child of the path, in byte order, at or below which something stands; of all where
    /// none is given, and None where there is none. Takes no memory.
    pub fn next_child(&self, path: &Path, after: Option<&Name>) -> Option<Name>
        ensures { result ≡ next_name self.now path.now (option_copied after.entry) }
    {
        self.tree.next_child(path, after)
    }

    /// The paths at which something stands, in path order.
    pub fn paths(&self, alloc: Global) -> Result<List<Path>, NoMemory>
        ensures { IfOk result (λ paths. paths ≡ finite.keys self.now) }
    {
        self.tree.paths(alloc)
    }

    /// The tree itself. Takes no memory.
    pub fn tree(&self) -> &Tree<P>
        ensures { result.now.payloads ≡ self.now }
    {
        &self.tree
    }
}
