//! Why a load goes no further, and which of several faults of a statement decides (pf.conf(5)).
//! It stands on pf_base (kinds of faults and places). The layers above, the declarations of tables, plans and loads, answer by a
//! [`Stop`], and judge a statement's faults by [`first_of`].
#![tactic(auto)]

pub mod fault;

pub use fault::{Fault, Stop, first_of};
