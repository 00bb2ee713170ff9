//! The tree: a finite map from paths to payloads.
ghost use Rattle.std.specs.Prelude.{◌≡◌, ℕ, List as Items, [], ◌∷◌, ◌++◌, Some, true, false, ◌||◌, not, IfOk, IfSome, OnOk};
ghost use Rattle.std.specs.FinMap as fin;
ghost use Rattle.std.specs.List.{list_all, list_any};
ghost use Rattle.std.specs.Option.{option_copied};
ghost use Rattle.pf_base.specs.Path.{IsPath, child_path};
ghost use Rattle.pf_tree.specs.Meaning.{NoneBlank, is_prepared, put_payload, shown};
ghost use Rattle.pf_tree.specs.Paths.{begins, is_nameless_below, next_name};

use crate::blank::Blank;
use crate::node::Node;
use pf_base::{List, Name, NoMemory, Path};
use std::alloc::Global;
use std::marker::Model;

/// A tree of payloads by the paths of rulesets (pf.conf(5), Anchors). Clauses see the finite map from paths to
/// the payloads that aren't blank, and which paths are prepared: a payload may be put there without memory.
#[derive(Drop)]
pub struct Tree<P: Blank> {
    root: Node<P>,
}

impl<P: Blank> Model for Tree<P> {
    ghost use Rattle.pf_tree.specs.Meaning.{HoldsPaths, Planted, planted_code};

    ghost Value = { Planted P };

    ghost coded = { planted_code P.code };

    ghost view = { λ a. a.root };

    ghost invariant = { λ a. HoldsPaths P.is_blank a.root };
}

impl<P: Blank> Tree<P> {
    /// The empty tree, in which the path without names alone is prepared. It takes no memory.
    pub fn new(alloc: Global) -> Tree<P>
        ensures payloads { result.payloads ≡ fin.empty }
        ensures prepared { (at : Items (Items ℕ)) → is_prepared result at ≡ begins [] at }
    {
        Tree {
            root: Node::new(alloc),
        }
    }

    /// The payload at a path; None exactly where the tree has none there. It takes no memory.
    pub fn get(&self, path: &Path) -> Option<&P>
        ensures value { option_copied result ≡ fin.get self.now.payloads path.now }
        ensures shown { IfSome result (λ payload. P.is_blank payload.now ≡ false) }
    {
        self.root.get(path.names())
    }

    /// The least name, in byte order, of a child of this path at or below which the tree has a payload; with `after`,
    /// of those behind it alone. None where there is no such name. It takes no memory.
    pub fn next_child(&self, path: &Path, after: Option<&Name>) -> Option<Name>
        ensures next { result ≡ next_name self.now.payloads path.now (option_copied after.entry) }
        ensures fits { IfSome result (λ name. child_path path.now name ≡ Some (path.now ++ name ∷ [])) }
    {
        self.root.next_child(path.names(), after)
    }

    /// Prepares paths. The payloads stay, also where no memory is found; no path is taken away.
    pub fn prepare(&mut self, alloc: Global, paths: &[Path]) -> Result<(), NoMemory>
        ensures payloads { self.new.payloads ≡ self.old.payloads }
        ensures prepared { OnOk result (list_all (λ path. is_prepared self.new path) paths.now ≡ true) }
        ensures kept { (at : Items (Items ℕ)) → is_prepared self.old at ≡ true → is_prepared self.new at ≡ true }
        ensures within { (at : Items (Items ℕ)) → is_prepared self.new at ≡ true → (is_prepared self.old at || list_any (λ path. begins path at) paths.now) ≡ true }
    {
        self.root.grow_all(alloc, paths)
    }

    /// Swaps the payload at a prepared path with this one. It takes no memory.
    pub fn install(&mut self, path: &Path, payload: &mut P)
        requires { is_prepared self.old path.now ≡ true }
        ensures payloads { self.new.payloads ≡ put_payload self.old.payloads path.now (shown P.is_blank payload.old) }
        ensures swapped { shown P.is_blank payload.new ≡ fin.get self.old.payloads path.now }
        ensures prepared { self.new.prepared ≡ self.old.prepared }
    {
        self.root.install(path.names(), payload);
    }

    /// Takes away every payload at or below a child of this path whose name begins with `_`. It takes no memory.
    pub fn clear_under(&mut self, path: &Path)
        ensures payloads { self.new.payloads ≡ fin.retain_keys self.old.payloads (λ at. not (is_nameless_below path.now at)) }
        ensures prepared { self.new.prepared ≡ self.old.prepared }
    {
        self.root.clear_under(path.names());
    }

    /// A law: no payload of the tree is blank, and what it has payloads at, or prepared, are paths.
    pub fn holds_paths(&self)
        ensures shown { NoneBlank P.is_blank self.now.payloads }
        ensures payloads { (at : Items (Items ℕ)) → fin.contains_key self.now.payloads at ≡ true → IsPath at }
        ensures prepared { (at : Items (Items ℕ)) → is_prepared self.now at ≡ true → IsPath at }
    {
        // What the tree's type keeps of its root, which is the law.
        let _root = &self.root;
    }

    /// All paths of the tree in path order: names compared from the front in byte order, and a path before those
    /// that it begins.
    pub fn paths(&self, alloc: Global) -> Result<List<Path>, NoMemory>
        ensures { IfOk result (λ paths. paths ≡ fin.keys self.now.payloads) }
    {
        let mut paths = List::new(alloc);
        self.root.add_paths(&Path::main(), &mut paths)?;
        Ok(paths)
    }
}
