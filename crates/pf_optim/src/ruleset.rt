//! A ruleset beside its optimised form.
ghost use Rattle.std.specs.Prelude.{◌≡◌, ◌<◌, ◌^◌, [], length, sum, true, IfOk};
ghost use Rattle.pf_optim.specs.Meaning.{are_written};
ghost use Rattle.pf_optim.specs.Ruleset.{written_of};
ghost use Rattle.pf_optim.specs.Skips.{IsSkip, skip};

use crate::form::optimised;
use crate::skip::skips_of;
use pf_auto::AutoTable;
use pf_base::{Level, List, NoMemory};
use pf_rule::Rule;
use std::alloc::Global;
use std::marker::Model;

/// A ruleset: its rules as they are written, the level and the weights by which they were optimised, and their optimised form
/// (pf.conf(5), "set ruleset-optimization"). Clauses see the first three, of which the form is a function. Without rules
/// the level is none.
#[derive(Debug, Drop)]
pub struct Ruleset {
    written: Vec<Rule>,
    level: Level,
    weights: Vec<u64>,
    fast: Vec<Rule>,
    automatic: Vec<AutoTable>,
    skips: Vec<[u32; 8]>,
}

impl Model for Ruleset {
    ghost use Rattle.pf_optim.specs.Ruleset.{IsForm, Written};

    ghost Value = { Written };

    ghost view = { λ a. record { rules = a.written.items; level = a.level; weights = a.weights.items } };

    ghost invariant = { λ a. IsForm (record { rules = a.written.items; level = a.level; weights = a.weights.items })
        a.fast.items a.automatic.items a.skips.items };
}

impl Ruleset {
    ghost use Rattle.pf_optim.specs.Ruleset.{IsSound, form_of};
    ghost use Rattle.pf_base.specs.declared.kind.Level.TheVariants.{None};

    /// The ruleset without rules, at the level none. Takes no memory.
    pub fn new(alloc: Global) -> Ruleset
        ensures { result ≡ written_of [] None [] }
    {
        Ruleset {
            written: Vec::new(alloc),
            level: Level::None,
            weights: Vec::new(alloc),
            fast: Vec::new(alloc),
            automatic: Vec::new(alloc),
            skips: Vec::new(alloc),
        }
    }

    // Where its memory comes from.
    pub(crate) fn allocator(&self) -> Global {
        *self.weights.allocator()
    }

    /// The rules as they are written. Takes no memory.
    pub fn written(&self) -> &[Rule]
        ensures rules { result.now ≡ self.now.rules }
        ensures sound { IsSound self.now }
    {
        self.written.as_slice()
    }

    /// The rules of the optimised form, in their order. Takes no memory.
    pub fn fast(&self) -> &[Rule]
        ensures rules { result.now ≡ (form_of self.now).rules }
        ensures few { length result.now < 2 ^ 30 }
    {
        self.fast.as_slice()
    }

    /// The tables that the optimiser made, which its rules name. Takes no memory.
    pub fn automatic(&self) -> &[AutoTable]
        ensures { result.now ≡ (form_of self.now).tables }
    {
        self.automatic.as_slice()
    }

    /// The level. Takes no memory.
    pub fn level(&self) -> Level
        ensures { result ≡ self.now.level }
    {
        self.level
    }

    /// Where the evaluation goes on when the rule of the optimised form at a place, from 0, fails in the field with this number:
    /// the next place whose field differs, or the number of rules. Takes no memory.
    pub fn skip(&self, place: u32, field: u8) -> u32
        requires inside { place < length (form_of self.now).rules }
        requires known { field < 8 }
        ensures skip { result ≡ skip (form_of self.now).rules place field }
        ensures is { IsSkip (form_of self.now).rules place field result }
    {
        self.skips[place as usize][field as usize]
    }
}

/// The ruleset of these rules at a level. A rule's weight tells how often it was used (pf.conf(5), "set ruleset-optimization").
pub fn optimise(
    alloc: Global,
    rules: List<Rule>,
    level: Level,
    weights: &[u64],
) -> Result<Ruleset, NoMemory>
    requires weighed { length rules ≡ length weights.now }
    requires few { length rules < 2 ^ 30 }
    requires light { sum weights.now < 2 ^ 60 }
    requires written { are_written rules ≡ true }
    ensures { IfOk result (λ made. made ≡ written_of rules level weights.now) }
{
    if rules.items().is_empty() {
        return Ok(Ruleset::new(alloc));
    }
    let form = optimised(alloc, rules.items(), level, weights)?;
    let skips = skips_of(alloc, form.rules.items())?;
    let mut kept = Vec::new(alloc);
    kept.extend_from_slice(weights)?;
    Ok(Ruleset {
        written: rules.into_items(),
        level,
        weights: kept,
        fast: form.rules.into_items(),
        automatic: form.tables.into_items(),
        skips,
    })
}
