//! The tree of rulesets: payloads at the paths of anchors (pf.conf(5), Anchors).
//! It stands on pf_base. The layers above keep rulesets and tickets in it, and see of it a finite map from paths to
//! payloads and which paths are prepared.
#![tactic(auto)]

pub mod blank;
mod node;
pub mod tree;

pub use blank::Blank;
pub use tree::Tree;
