//! Names of interfaces, tables, queues, tags and the like.
ghost use Rattle.std.specs.Prelude.{◌≡◌, ◌≤◌, IfSome, IsSome, length, take, ◌↔◌};
ghost use Rattle.std.proofs.Common.{rules};
ghost use Rattle.std.specs.Cmp.{partial_order_from_own_ties};
ghost use Rattle.std.specs.Cmp.Lexicographic.{pointwise, slice_cmp};
ghost use Rattle.std.specs.Cmp.Rules.{comparing, hashing};
ghost use Rattle.std.specs.Hash as fed;
ghost use Rattle.std.specs.Ordering.{nat_cmp, as_partial_cmp};
ghost use Rattle.std.specs.Prelude.{nat_eq};
ghost use Rattle.pf_base.specs.Name.{IsNameText};

use std::cmp::Ordering;
use std::hash::{Hash, Hasher};
use std::marker::Model;

/// A name of 1 to 63 bytes. Clauses see the list of its bytes.
#[derive(Clone, Copy, Debug)]
pub struct Name {
    bytes: [u8; 63],
    len: u8,
}

impl Model for Name {
    ghost use Rattle.std.specs.Prelude.{List, ℕ, take, length, ◌≤◌};
    ghost use Rattle.std.specs.Coded.{coded_list, coded_ℕ};

    ghost Value = { List ℕ };

    ghost coded = { coded_list coded_ℕ };

    ghost use Rattle.pf_base.specs.Padding.{padded, IsPadded};
    ghost use Rattle.pf_base.specs.NameKept.{name_back};

    ghost view = { λ a. take a.len a.bytes };

    ghost invariant = { λ a. IsPadded 0 63 a.bytes a.len × (1 ≤ a.len) };

    ghost inverse = { λ text. record { bytes = padded 0 63 text; len = length text } };

    ghost inverse_ok = { name_back };
}

impl Name {
    ghost use Rattle.pf_base.specs.Path.{is_reserved};

    /// The longest name.
    pub const MOST: usize = 63;

    /// A name of these bytes; None where there is no byte, or where there are more than 63.
    pub fn new(bytes: &[u8]) -> Option<Name>
        ensures some { IsSome result ↔ IsNameText bytes.now }
        ensures same { IfSome result (λ name. name ≡ bytes.now) }
    {
        if bytes.is_empty() || bytes.len() > Name::MOST {
            return None;
        }
        let mut kept = [0u8; 63];
        kept[..bytes.len()].copy_from_slice(bytes);
        Some(Name {
            bytes: kept,
            len: bytes.len() as u8,
        })
    }

    /// Its bytes, 1 to 63 of them.
    pub fn bytes(&self) -> &[u8]
        ensures same { result.now ≡ self.now }
        ensures text { IsNameText self.now }
    {
        &self.bytes[..self.len as usize]
    }

    /// Whether it begins with `_`, as in paths the names of anchors without a name alone do (pf.conf(5), ANCHORS). Takes
    /// no memory.
    #[tactic(auto, unfolding(crate::specs::Path::is_reserved))]
    pub fn is_reserved(&self) -> bool
        ensures { result ≡ is_reserved self.now }
    {
        matches!(self.bytes(), [b'_', ..])
    }
}

/// A word as a fault bears it: its first 63 bytes. Takes no memory.
pub fn named_in_fault(word: &[u8]) -> Name
    requires { 1 ≤ length word.now }
    ensures { result ≡ take 63 word.now }
{
    let end = word.len().min(Name::MOST);
    match Name::new(&word[..end]) {
        Some(name) => name,
        None => unreachable!(),
    }
}

impl PartialEq for Name {
    ghost eq = { pointwise nat_eq };

    ghost laws = { Prim.search (comparing, rules) };

    fn eq(&self, other: &Name) -> bool {
        self.bytes() == other.bytes()
    }
}

impl Eq for Name {
    ghost laws = { Prim.search (comparing, rules) };
}

impl Ord for Name {
    ghost cmp = { slice_cmp nat_cmp };

    ghost total = { Prim.search (comparing, rules) };

    ghost matches_partial_cmp = { Prim.search (comparing, rules) };

    ghost matches_eq = { Prim.search (comparing, rules) };

    fn cmp(&self, other: &Name) -> Ordering {
        self.bytes().cmp(other.bytes())
    }
}

impl PartialOrd for Name {
    ghost partial_cmp = { as_partial_cmp (slice_cmp nat_cmp) };

    ghost laws = { partial_order_from_own_ties (Prim.search (comparing, rules)) (Prim.search (comparing, rules)) };

    fn partial_cmp(&self, other: &Name) -> Option<Ordering> {
        Some(self.cmp(other))
    }
}

impl Hash for Name {
    ghost hash_input = { fed.slice fed.u8 };

    ghost respects_eq = { Prim.search (hashing, rules) };

    fn hash<H: Hasher>(&self, state: &mut H) {
        self.bytes().hash(state);
    }
}
