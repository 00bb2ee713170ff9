//! The plan of a load (pfctl(8), -f): its types, the draft that statements fill, what anchors do to it, and the end of a unit.
//! It stands on pf_base, pf_parts, pf_rule (rules), pf_decl (settings, tables, queues), pf_shelf (declared tables) and pf_fault (what
//! stops a load). The load above reads the statements one after the other and lays each on a draft; the machine takes plans.
#![tactic(auto)]

pub mod anchors;
pub mod draft;
pub mod end;
pub mod filled;
pub mod laws;
pub mod plan;

pub use anchors::nameless_path;
pub use draft::{AnchorFile, Draft, Filling, Policies, Ruleset};
pub use end::{end_fault, plan_of};
pub use filled::FilledPaths;
pub use laws::{drafts_stay_within, ends_come_to_something, ends_have_one_fault, ends_stay_within};
pub use plan::{Part, Plan, Whole};
