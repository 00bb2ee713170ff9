//! The parameters that rules set (pf.conf(5), PARAMETERS, TRAFFIC NORMALISATION and
//! TRANSLATION).
ghost use Rattle.std.specs.Prelude.{◌≡◌};
ghost use Rattle.pf_rule.specs.Laying.{laid_over};

use crate::translation::Target;
use pf_parts::{Log, Prios, Queues, Scrub};

/// The parameters of a rule, or those that a packet has got so far.
#[derive(Clone, Copy, Debug, PartialEq, Eq)]
pub struct Params {
    /// `set queue`
    pub queue: Option<Queues>,
    /// `set prio`
    pub prio: Option<Prios>,
    /// `set tos`
    pub tos: Option<u8>,
    pub scrub: Scrub,
    pub log: Log,
    pub allow_opts: bool,
    /// `nat-to`
    pub nat: Option<Target>,
    /// `rdr-to`
    pub rdr: Option<Target>,
}

impl Params {
    /// No parameter is set.
    pub const NONE: Params = Params {
        queue: None,
        prio: None,
        tos: None,
        scrub: Scrub::NONE,
        log: Log::NONE,
        allow_opts: false,
        nat: None,
        rdr: None,
    };

    /// These parameters over others: a value replaces the other where it is given, as do the address and
    /// the port of a translation, and what is only set or not set stays set.
    pub fn over(&self, old: &Params) -> Params
        ensures { result ≡ laid_over self.now old.now }
    {
        Params {
            queue: self.queue.or(old.queue),
            prio: self.prio.or(old.prio),
            tos: self.tos.or(old.tos),
            scrub: self.scrub.over(&old.scrub),
            log: self.log.over(&old.log),
            allow_opts: old.allow_opts || self.allow_opts,
            nat: Target::over(self.nat, old.nat),
            rdr: Target::over(self.rdr, old.rdr),
        }
    }
}
