//! Tests of what one packet meets: the tests of a rule and its effect on a walk, records of packets and the texts of answers, and
//! the replies and refusals of lines. Each module has the tests of one crate, of its public calls alone.
//! It stands on pf_rule, pf_record and pf_reply, and on pf_base, pf_addr and pf_ops, of whose values it makes rules. It has no code of
//! its own, and no layer stands on it: in the tested crates these tests would have each of them proved a second time.
#![tactic(auto)]

#[cfg(test)]
mod record;
#[cfg(test)]
mod reply;
#[cfg(test)]
mod rule;
