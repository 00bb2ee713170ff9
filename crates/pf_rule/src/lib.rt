//! Rules, packets and what one rule does with a packet: the tests of a rule, its effect on a walk with the
//! translation of the packet, the answer of a walk, what an evaluator sees of a walk, and the laws of walks
//! through lists of rules of any kind.
//! It stands on pf_base, pf_addr, pf_ops and pf_parts, whose types it hands on. The layers above make rules,
//! compare them by `Same` and by the values of their skip fields, walk through them by `Probe`, and read and
//! write packets and answers as text.
#![tactic(auto)]

pub mod applying;
pub mod criteria;
mod criterion;
pub mod effect;
mod equal;
pub mod evaluation;
pub mod field;
mod field_hash;
pub mod members;
pub mod packet;
pub mod params;
pub mod probe;
pub mod protocol;
pub mod reply;
pub mod rule;
pub mod testing;
pub mod translation;
pub mod walk;
pub mod walking;

pub use applying::{apply, effect_twice_is_once};
pub use criteria::{AddrSet, AddrTest, Criteria};
pub use effect::{Action, Effect};
pub use evaluation::{evaluate, last_matching_rule_decides};
pub use field::{FieldValue, equal_fields_test_alike};
pub use members::{Members, NoTables};
pub use packet::Packet;
pub use params::Params;
pub use pf_parts::{
    Base, BlockKind, Call, Direction, Flush, IfTest, Log, Overload, Prios, Queues, Rate, Scrub,
    StateKind, StateOptions, TagTest, Track,
};
pub use probe::Probe;
pub use protocol::{ICMP, ICMP6, TCP, UDP};
pub use reply::answer;
pub use rule::Rule;
pub use testing::{Tested, hit};
pub use translation::Target;
pub use walk::{Answer, Decision, Marks, Walk};
pub use walking::laws_of_walks;
