//! Queues, priorities, normalisation and logs (pf.conf(5), PARAMETERS and TRAFFIC NORMALISATION).
ghost use Rattle.std.specs.Prelude.{◌≡◌};
ghost use Rattle.pf_parts.specs.Laying.{log_over, scrub_over};

use pf_base::Name;

/// A queue, and the one for packets with low delay and for ACKs without data.
#[derive(Clone, Copy, Debug, PartialEq, Eq)]
pub struct Queues {
    pub first: Name,
    pub second: Option<Name>,
}

/// A priority, 0 to 7, and the one for packets with low delay and for ACKs without data.
#[derive(Clone, Copy, Debug, PartialEq, Eq)]
pub struct Prios {
    pub first: u8,
    pub second: Option<u8>,
}

/// How a packet is normalised.
#[derive(Clone, Copy, Debug, PartialEq, Eq)]
pub struct Scrub {
    pub no_df: bool,
    pub random_id: bool,
    pub reassemble_tcp: bool,
    pub min_ttl: Option<u8>,
    pub max_mss: Option<u16>,
}

impl Scrub {
    /// A packet stays as it is.
    pub const NONE: Scrub = Scrub {
        no_df: false,
        random_id: false,
        reassemble_tcp: false,
        min_ttl: None,
        max_mss: None,
    };

    /// This over another: a value replaces the other where it is given, and what is only set or not set
    /// stays set.
    pub fn over(&self, old: &Scrub) -> Scrub
        ensures { result ≡ scrub_over self.now old.now }
    {
        Scrub {
            no_df: old.no_df || self.no_df,
            random_id: old.random_id || self.random_id,
            reassemble_tcp: old.reassemble_tcp || self.reassemble_tcp,
            min_ttl: self.min_ttl.or(old.min_ttl),
            max_mss: self.max_mss.or(old.max_mss),
        }
    }
}

/// Whether a packet is logged, and how.
#[derive(Clone, Copy, Debug, PartialEq, Eq)]
pub struct Log {
    pub on: bool,
    pub all: bool,
    pub matches: bool,
    pub user: bool,
    /// The interface that it is logged to.
    pub to: Option<Name>,
}

impl Log {
    /// A packet isn't logged.
    pub const NONE: Log = Log {
        on: false,
        all: false,
        matches: false,
        user: false,
        to: None,
    };

    /// This over another: the interface replaces the other where it is given, and what is set stays set.
    pub fn over(&self, old: &Log) -> Log
        ensures { result ≡ log_over self.now old.now }
    {
        Log {
            on: old.on || self.on,
            all: old.all || self.all,
            matches: old.matches || self.matches,
            user: old.user || self.user,
            to: self.to.or(old.to),
        }
    }
}
