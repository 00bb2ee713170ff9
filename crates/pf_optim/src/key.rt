//! The rules of which a profile tells.
ghost use Rattle.std.specs.Cmp.{partial_equiv_from_equiv};
ghost use Rattle.pf_optim.specs.Keys.{key_alike, key_input, keys};
ghost use Rattle.pf_rule.specs.FieldHash.{equality_laws};

use pf_base::{Path, Same};
use std::hash::{Hash, Hasher};

// A rule: its ruleset, and its place in the written list, from 1.
#[derive(Clone, Copy, Debug)]
pub(crate) struct Key {
    pub(crate) path: Path,
    pub(crate) place: u32,
}

impl Same for Key {
    ghost equality = { keys };

    fn same(&self, other: &Key) -> bool {
        self.path.same(&other.path) && self.place.same(&other.place)
    }
}

impl PartialEq for Key {
    ghost eq = { keys.same };

    ghost laws = { partial_equiv_from_equiv (equality_laws keys) };

    fn eq(&self, other: &Key) -> bool {
        self.same(other)
    }
}

impl Eq for Key {
    ghost laws = { equality_laws keys };
}

impl Hash for Key {
    ghost hash_input = { key_input };

    ghost respects_eq = { key_alike };

    fn hash<H: Hasher>(&self, state: &mut H) {
        self.path.names().hash(state);
        self.place.hash(state);
    }
}
