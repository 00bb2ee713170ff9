//! The nodes of a tree: each has a payload and its children by their names.
ghost use Rattle.std.specs.Prelude.{◌≡◌, ℕ, List as Items, [], ◌∷◌, ◌++◌, map, true, false, ◌||◌, ◌==◌, not, IfSome, IfOk, OnOk, if◌then◌else◌};
ghost use Rattle.std.specs.FinMap as fin;
ghost use Rattle.std.specs.List.{list_all, list_any};
ghost use Rattle.std.specs.Option.{option_copied};
ghost use Rattle.pf_base.specs.Path.{IsPath, is_reserved};
ghost use Rattle.pf_tree.specs.Meaning.{is_prepared, put_payload, shown};
ghost use Rattle.pf_tree.specs.Paths.{begins, is_nameless_below, next_name};

use crate::blank::Blank;
use pf_base::{List, Name, NoMemory, Path};
use std::alloc::Global;
use std::collections::BTreeMap;
use std::marker::Model;
use std::mem;
use std::ops::Bound;

/// A payload and the children below it, by their names.
#[derive(Drop)]
pub struct Node<P: Blank> {
    payload: P,
    children: BTreeMap<Name, Box<Node<P>>>,
}

impl<P: Blank> Model for Node<P> {
    ghost use Rattle.std.specs.BTreeMap.{IsOrdered};
    ghost use Rattle.std.specs.FinMap as fin;
    ghost use Rattle.pf_tree.specs.Order.{name_cmp};
    ghost use Rattle.pf_tree.specs.Meaning.{Planted, planted_code, planted};
    ghost use Rattle.pf_tree.specs.Falls.{prepared_fall};

    ghost Value = { Planted P };

    ghost coded = { planted_code P.code };

    ghost view = { λ a. planted P.is_blank (λ child. child.value) a.payload a.children.entries };

    ghost invariant = { λ a. IsOrdered name_cmp a.children };

    ghost size = { λ node. fin.len node.prepared };

    ghost size_decreases = { λ a h. prepared_fall (λ child. child.value.prepared) tt a.children.entries h };
}

// Adds a path where something stands there.
fn add_path(there: bool, at: &Path, paths: &mut List<Path>) -> Result<(), NoMemory>
    ensures { OnOk result (paths.new ≡ paths.old ++ (if there then at.now ∷ [] else [])) }
{
    if !there {
        return Ok(());
    }
    paths.push_copy(at)?;
    Ok(())
}

impl<P: Blank> Node<P> {
    // A node without children, and with a blank payload.
    pub fn new(alloc: Global) -> Node<P>
        ensures payloads { result.payloads ≡ fin.empty }
        ensures prepared { (at : Items (Items ℕ)) → is_prepared result at ≡ begins [] at }
    {
        Node {
            payload: P::fresh(alloc),
            children: BTreeMap::new(alloc),
        }
    }

    // The payload of the node itself, where it isn't blank.
    pub fn own_payload(&self) -> Option<&P>
        ensures value { option_copied result ≡ fin.get self.now.payloads [] }
        ensures shown { IfSome result (λ payload. P.is_blank payload.now ≡ false) }
    {
        if self.payload.is_blank() {
            return None;
        }
        Some(&self.payload)
    }

    // The payload at this path.
    pub fn get(&self, names: &[Name]) -> Option<&P>
        ensures value { option_copied result ≡ fin.get self.now.payloads names.now }
        ensures shown { IfSome result (λ payload. P.is_blank payload.now ≡ false) }
    {
        match names.split_first() {
            None => self.own_payload(),
            Some((name, below)) => match self.children.get(name) {
                None => None,
                Some(child) => child.get(below),
            },
        }
    }

    // Whether all payloads at and below the node are blank.
    fn is_bare(&self) -> bool
        ensures { result ≡ (fin.len self.now.payloads == 0) }
    {
        if !self.payload.is_blank() {
            return false;
        }
        for child in self.children.values() {
            if !child.is_bare() {
                return false;
            }
        }
        true
    }

    // The least name of a child of the node itself, behind the given one, that has a payload at or below it.
    fn next_here(&self, after: Option<&Name>) -> Option<Name>
        ensures { result ≡ next_name self.now.payloads [] (option_copied after.entry) }
    {
        let start = match after {
            None => Bound::Unbounded,
            Some(name) => Bound::Excluded(*name),
        };
        for (name, child) in self.children.range((start, Bound::Unbounded)) {
            if !child.is_bare() {
                return Some(*name);
            }
        }
        None
    }

    // The same of the node at this path.
    pub fn next_child(&self, names: &[Name], after: Option<&Name>) -> Option<Name>
        ensures { result ≡ next_name self.now.payloads names.now (option_copied after.entry) }
    {
        match names.split_first() {
            None => self.next_here(after),
            Some((name, below)) => match self.children.get(name) {
                None => None,
                Some(child) => child.next_child(below, after),
            },
        }
    }

    // Adds the paths of the payloads at and below the node, which stands at a path itself, in path order.
    pub fn add_paths(&self, at: &Path, paths: &mut List<Path>) -> Result<(), NoMemory>
        requires { (below : Items (Items ℕ)) → is_prepared self.now below ≡ true → IsPath (at.now ++ below) }
        ensures { OnOk result (paths.new ≡ paths.old ++ map (λ below. at.now ++ below) (fin.keys self.now.payloads)) }
    {
        add_path(!self.payload.is_blank(), at, paths)?;
        for (name, child) in &self.children {
            // What the child's type keeps of it, which the proof of its paths must know.
            let _payload = &child.payload;
            let Some(below) = at.child(name) else {
                unreachable!()
            };
            child.add_paths(&below, paths)?;
        }
        Ok(())
    }

    // A node that has a node at this path and on the way to it, and blank payloads alone.
    fn branch(alloc: Global, names: &[Name]) -> Result<Box<Node<P>>, NoMemory>
        ensures payloads { IfOk result (λ node. node.value.payloads ≡ fin.empty) }
        ensures prepared { IfOk result (λ node. (at : Items (Items ℕ)) → is_prepared node.value at ≡ begins names.now at) }
    {
        let mut node = Node::new(alloc);
        let Some((name, below)) = names.split_first() else {
            let leaf = Box::new(alloc, node)?;
            return Ok(leaf);
        };
        let child = Node::branch(alloc, below)?;
        node.children.insert(*name, child)?;
        let node = Box::new(alloc, node)?;
        Ok(node)
    }

    // Makes nodes where there are none on the way to this path.
    pub fn grow(&mut self, alloc: Global, names: &[Name]) -> Result<(), NoMemory>
        ensures payloads { self.new.payloads ≡ self.old.payloads }
        ensures kept { (at : Items (Items ℕ)) → is_prepared self.old at ≡ true → is_prepared self.new at ≡ true }
        ensures within { (at : Items (Items ℕ)) → is_prepared self.new at ≡ true → (is_prepared self.old at || begins names.now at) ≡ true }
        ensures ok { OnOk result (is_prepared self.new names.now ≡ true) }
    {
        let children = &mut self.children;
        let Some((name, below)) = names.split_first() else {
            return Ok(());
        };
        if let Some(child) = children.get_mut(name) {
            return child.grow(alloc, below);
        }
        let child = Node::branch(alloc, below)?;
        children.insert(*name, child)?;
        Ok(())
    }

    // Makes nodes where there are none on the way to these paths.
    pub fn grow_all(&mut self, alloc: Global, paths: &[Path]) -> Result<(), NoMemory>
        ensures payloads { self.new.payloads ≡ self.old.payloads }
        ensures kept { (at : Items (Items ℕ)) → is_prepared self.old at ≡ true → is_prepared self.new at ≡ true }
        ensures within { (at : Items (Items ℕ)) → is_prepared self.new at ≡ true → (is_prepared self.old at || list_any (λ path. begins path at) paths.now) ≡ true }
        ensures ok { OnOk result (list_all (λ path. is_prepared self.new path) paths.now ≡ true) }
        ensures paths { ((at : Items (Items ℕ)) → is_prepared self.old at ≡ true → IsPath at) → (at : Items (Items ℕ)) → is_prepared self.new at ≡ true → IsPath at }
    {
        for path in paths {
            self.grow(alloc, path.names())?;
        }
        Ok(())
    }

    // Swaps the payload at this path.
    pub fn install(&mut self, names: &[Name], payload: &mut P)
        requires { is_prepared self.old names.now ≡ true }
        ensures payloads { self.new.payloads ≡ put_payload self.old.payloads names.now (shown P.is_blank payload.old) }
        ensures swapped { shown P.is_blank payload.new ≡ fin.get self.old.payloads names.now }
        ensures prepared { self.new.prepared ≡ self.old.prepared }
    {
        match names.split_first() {
            None => mem::swap(&mut self.payload, payload),
            Some((name, below)) => match self.children.get_mut(name) {
                None => unreachable!(),
                Some(child) => child.install(below, payload),
            },
        }
    }

    // Makes each payload at and below the node blank.
    pub fn blank_all(&mut self)
        ensures payloads { self.new.payloads ≡ fin.empty }
        ensures prepared { self.new.prepared ≡ self.old.prepared }
    {
        self.payload.blank();
        self.children.retain(
            |_, child| -> bool
                ensures stays { result ≡ true }
                ensures payloads { child.new.value.payloads ≡ fin.empty }
                ensures prepared { child.new.value.prepared ≡ child.old.value.prepared }
            {
                child.blank_all();
                true
            },
        );
    }

    // Makes each payload at and below a child blank whose name begins with `_`.
    pub fn clear_children(&mut self)
        ensures payloads { self.new.payloads ≡ fin.retain_keys self.old.payloads (λ at. not (is_nameless_below [] at)) }
        ensures prepared { self.new.prepared ≡ self.old.prepared }
    {
        self.children.retain(
            |name, child| -> bool
                ensures stays { result ≡ true }
                ensures payloads { child.new.value.payloads ≡ (if is_reserved name.now then fin.empty else child.old.value.payloads) }
                ensures prepared { child.new.value.prepared ≡ child.old.value.prepared }
            {
                if name.is_reserved() {
                    child.blank_all();
                }
                true
            },
        );
    }

    // Makes each payload at and below a child of this path blank whose name begins with `_`.
    pub fn clear_under(&mut self, names: &[Name])
        ensures payloads { self.new.payloads ≡ fin.retain_keys self.old.payloads (λ at. not (is_nameless_below names.now at)) }
        ensures prepared { self.new.prepared ≡ self.old.prepared }
    {
        match names.split_first() {
            None => self.clear_children(),
            Some((name, below)) => match self.children.get_mut(name) {
                None => {}
                Some(child) => child.clear_under(below),
            },
        }
    }
}
