//! Profiles.
ghost use Rattle.std.specs.Prelude.{◌≡◌, ◌≤◌, length, All, IfOk};
ghost use Rattle.pf_optim.specs.Profile.{weight_at, weights_of};

use crate::key::Key;
use indexmap::IndexMap;
use pf_base::{NoMemory, Path};
use std::alloc::Global;
use std::marker::Model;

/// How often the rules of rulesets were used (pf.conf(5), "set ruleset-optimization profile"). Clauses see the rows, in the
/// order of their lines.
#[derive(Drop)]
pub struct Profile {
    pub(crate) counts: IndexMap<Key, u32>,
}

impl Model for Profile {
    ghost use Rattle.std.specs.Prelude.{List};
    ghost use Rattle.pf_optim.specs.ProfileSteps.{rows_of};
    ghost use Rattle.pf_optim.specs.declared.rows.Row.{Row};

    ghost Value = { List Row };

    ghost view = { λ a. rows_of a.counts.entries };
}

impl Profile {
    /// The weights of the rules of a ruleset with this many, in the order of its written list: how often each was used, and 0
    /// where no row tells of it.
    pub fn weights(&self, alloc: Global, path: &Path, count: u32) -> Result<Vec<u64>, NoMemory>
        ensures weights { IfOk result (λ weights. weights.items ≡ weights_of self.now path.now count) }
        ensures each { IfOk result (λ weights. length weights.items ≡ count) }
        ensures small { IfOk result (λ weights. All (λ weight. weight ≤ 4294967295) weights.items) }
    {
        let mut weights = Vec::new(alloc);
        for before in 0..count {
            weights.push(self.weight(path, before + 1))?;
        }
        Ok(weights)
    }

    // How often the rule at this place was used.
    fn weight(&self, path: &Path, place: u32) -> u64
        ensures weight { result ≡ weight_at self.now path.now place }
        ensures small { result ≤ 4294967295 }
    {
        let key = Key { path: *path, place };
        match self.counts.get(&key) {
            Some(count) => u64::from(*count),
            None => 0,
        }
    }
}
