//! Two binary tries in one vector of nodes: the first node is the root of IPv4, the second that of IPv6.
//! A node is made for a prefix of the table and where two of them part, so a prefix costs two at most.
ghost use Rattle.std.specs.Prelude.{◌≡◌, ◌<◌, ◌≤◌, ℕ, length, OnOk, OnErr, IfOk, Some};
ghost use Rattle.pf_addr.specs.Addr.{IsAddr};
ghost use Rattle.pf_table.specs.Bits.{Covers, side};
ghost use Rattle.pf_table.specs.Node.{child};
ghost use Rattle.pf_base.specs.OrderedMap.{map_of};
ghost use Rattle.pf_addr.specs.PrefixOrder.{prefix_cmp};
ghost use Rattle.pf_table.specs.Kept.{signs_in};
ghost use Rattle.pf_table.specs.Trie.{IsTrie, HasRoots, both_roots, root_of, node_at, prefix_at, len_at, over, grown, listed, CanGrow, IsNext, IsDeepest, IsHeldAt, IsFound, IsSignOf, resigned};

use crate::bits::{front, shared, side};
use crate::node::Node;
use pf_addr::{Addr, Prefix};
use pf_base::NoMemory;
use std::alloc::Global;
use std::collections::BTreeMap;

// The number of the root of an address's family.
pub(crate) fn root(addr: &Addr) -> usize
    ensures value { result ≡ root_of addr.now }
    ensures range { IsAddr addr.now }
{
    // Its clauses say that the address's number is within its family's width, which is the range.
    let _bits = addr.number();
    match addr {
        Addr::V4(_) => 0,
        Addr::V6(_) => 1,
    }
}

// The two roots.
pub(crate) fn roots(alloc: Global) -> Result<Vec<Node>, NoMemory>
    ensures { IfOk result (λ nodes. nodes.items ≡ both_roots) }
{
    let inet = Prefix {
        addr: Addr::V4(0),
        len: 0,
    };
    let inet6 = Prefix {
        addr: Addr::V6(0),
        len: 0,
    };
    let nodes = Vec::from_array(alloc, [Node::bare(inet), Node::bare(inet6)])?;
    Ok(nodes)
}

// The node of this number.
pub(crate) fn node(nodes: &[Node], at: usize) -> &Node
    requires { at < length nodes.now }
    ensures { result.now ≡ node_at nodes.now at }
{
    &nodes[at]
}

// The node below `at` on the way to the key, where it covers the key.
pub(crate) fn next(nodes: &[Node], at: usize, key: &Prefix) -> Option<usize>
    requires trie { IsTrie nodes.now }
    requires inside { at < length nodes.now }
    requires covers { Covers (prefix_at nodes.now at) key.now }
    ensures { IsNext nodes.now at key.now result }
{
    let from = node(nodes, at);
    if from.prefix.len == key.len {
        return None;
    }
    match from.child(side(&key.addr, from.prefix.len)) {
        None => None,
        Some(link) => {
            let below = link as usize;
            if node(nodes, below).prefix.covers(key) {
                Some(below)
            } else {
                None
            }
        }
    }
}

// The last node on the way to the key that covers it.
pub(crate) fn deepest(nodes: &[Node], key: &Prefix) -> usize
    requires trie { IsTrie nodes.now }
    requires roots { HasRoots nodes.now }
    ensures { IsDeepest nodes.now key.now result }
{
    let mut at = root(&key.addr);
    while let Some(below) = next(nodes, at, key) {
        at = below;
    }
    at
}

// A node of the key that is to stand above what lies below `parent` on its side.
fn between(nodes: &[Node], parent: &Node, key: &Prefix) -> Node
    requires inside { (c : ℕ) → child parent.now (side key.now.addr parent.now.prefix.len) ≡ Some c → c < length nodes.now }
    requires above { (c : ℕ) → child parent.now (side key.now.addr parent.now.prefix.len) ≡ Some c → key.now.len < len_at nodes.now c }
    requires shorter { parent.now.prefix.len < key.now.len }
    ensures { result ≡ over nodes.now key.now (child parent.now (side key.now.addr parent.now.prefix.len)) }
{
    let bare = Node::bare(*key);
    match parent.child(side(&key.addr, parent.prefix.len)) {
        None => bare,
        Some(below) => {
            let lower = &node(nodes, below as usize).prefix.addr;
            bare.with_child(side(lower, key.len), below)
        }
    }
}

// Puts a node of the key below `at`, above what was there, and gives its number.
fn grow(nodes: &mut Vec<Node>, at: usize, key: &Prefix) -> Result<usize, NoMemory>
    requires { CanGrow nodes.old.items at key.now }
    ensures value { IfOk result (λ number. number ≡ length nodes.old.items) }
    ensures ok { OnOk result (nodes.new.items ≡ grown nodes.old.items at key.now) }
    ensures err { OnErr result (nodes.new.items ≡ nodes.old.items) }
    ensures same { listed nodes.new.items ≡ listed nodes.old.items }
    ensures trie { IsTrie nodes.new.items }
    ensures more { length nodes.old.items ≤ length nodes.new.items }
    ensures held { IfOk result (IsHeldAt nodes.new.items key.now) }
{
    let number = nodes.len();
    let Ok(link) = u32::try_from(number) else {
        return Err(NoMemory);
    };
    let parent = *node(nodes, at);
    let added = between(nodes, &parent, key);
    nodes.push(added)?;
    nodes[at] = parent.with_child(side(&key.addr, parent.prefix.len), link);
    Ok(number)
}

// Puts a node where the ways to the key and to a node below `at` part, or where the key is on that way.
fn fork(nodes: &mut Vec<Node>, at: usize, below: usize, key: &Prefix) -> Result<usize, NoMemory>
    requires deepest { IsDeepest nodes.old.items key.now at }
    requires trie { IsTrie nodes.old.items }
    requires shorter { len_at nodes.old.items at < key.now.len }
    requires link { child (node_at nodes.old.items at) (side key.now.addr (len_at nodes.old.items at)) ≡ Some below }
    ensures same { listed nodes.new.items ≡ listed nodes.old.items }
    ensures trie { IsTrie nodes.new.items }
    ensures more { length nodes.old.items ≤ length nodes.new.items }
    ensures held { IfOk result (IsHeldAt nodes.new.items key.now) }
{
    let other = node(nodes, below).prefix;
    let from = node(nodes, at).prefix.len;
    let len = shared(key, &other, from);
    let parting = grow(nodes, at, &front(key, len))?;
    if len == key.len {
        return Ok(parting);
    }
    let place = grow(nodes, parting, key)?;
    Ok(place)
}

// The number of the key's node, which is put in where it is missing.
pub(crate) fn place(nodes: &mut Vec<Node>, key: &Prefix) -> Result<usize, NoMemory>
    requires trie { IsTrie nodes.old.items }
    requires roots { HasRoots nodes.old.items }
    ensures same { listed nodes.new.items ≡ listed nodes.old.items }
    ensures trie { IsTrie nodes.new.items }
    ensures more { length nodes.old.items ≤ length nodes.new.items }
    ensures held { IfOk result (IsHeldAt nodes.new.items key.now) }
{
    let at = deepest(nodes, key);
    let parent = *node(nodes, at);
    if parent.prefix.len == key.len {
        return Ok(at);
    }
    let place = match parent.child(side(&key.addr, parent.prefix.len)) {
        None => grow(nodes, at, key)?,
        Some(below) => fork(nodes, at, below as usize, key)?,
    };
    Ok(place)
}

// The number of the key's node, put in where it is missing, also into no nodes at all.
pub(crate) fn planted(nodes: &mut Vec<Node>, key: &Prefix) -> Result<usize, NoMemory>
    requires { IsTrie nodes.old.items }
    ensures same { listed nodes.new.items ≡ listed nodes.old.items }
    ensures trie { IsTrie nodes.new.items }
    ensures held { IfOk result (IsHeldAt nodes.new.items key.now) }
{
    if nodes.is_empty() {
        *nodes = roots(*nodes.allocator())?;
    }
    let at = place(nodes, key)?;
    Ok(at)
}

// The number of the key's node.
pub(crate) fn find(nodes: &[Node], key: &Prefix) -> Option<usize>
    requires { IsTrie nodes.now }
    ensures { IsFound nodes.now key.now result }
{
    if nodes.is_empty() {
        return None;
    }
    let at = deepest(nodes, key);
    if node(nodes, at).prefix.len == key.len {
        Some(at)
    } else {
        None
    }
}

// Gives a node this sign.
pub(crate) fn set_sign(nodes: &mut Vec<Node>, at: usize, sign: Option<bool>)
    requires { at < length nodes.old.items }
    ensures { nodes.new.items ≡ resigned nodes.old.items at sign }
{
    let mut changed = *node(nodes, at);
    changed.negated = sign;
    nodes[at] = changed;
}

// The sign of the longest node with one that covers the key.
pub(crate) fn narrowest(nodes: &[Node], key: &Prefix) -> Option<bool>
    requires { IsTrie nodes.now }
    ensures { IsSignOf nodes.now key.now key.now.len result }
{
    if nodes.is_empty() {
        return None;
    }
    let mut at = root(&key.addr);
    let mut found = node(nodes, at).negated;
    while let Some(below) = next(nodes, at, key) {
        at = below;
        found = node(nodes, at).negated.or(found);
    }
    found
}

// The prefixes of the nodes with their signs, in the order of prefixes.
pub(crate) fn signs(alloc: Global, nodes: &[Node]) -> Result<BTreeMap<Prefix, bool>, NoMemory>
    requires { IsTrie nodes.now }
    ensures { IfOk result (λ signs. map_of prefix_cmp signs ≡ signs_in nodes.now) }
{
    let mut signs = BTreeMap::new(alloc);
    for node in nodes {
        if let Some(negated) = node.negated {
            signs.insert(node.prefix, negated)?;
        }
    }
    Ok(signs)
}
