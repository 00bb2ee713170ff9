//! Tests of the crates on which all others stand: names, paths, lists and texts; addresses and prefixes; operators and the words of
//! numbers; the parts of a rule; tokens; the tree of rulesets, and the graph of its calls. Each module has the tests of one crate, of
//! its public calls alone.
//! It stands on pf_base, pf_addr, pf_ops, pf_parts, pf_token, pf_tree and pf_calls. It has no code of its own, and no layer stands on
//! it: in the tested crates these tests would have each of them proved a second time.
#![tactic(auto)]

#[cfg(test)]
mod addr;
#[cfg(test)]
mod base;
#[cfg(test)]
mod calls;
#[cfg(test)]
mod ops;
#[cfg(test)]
mod parts;
#[cfg(test)]
mod path;
#[cfg(test)]
mod token;
#[cfg(test)]
mod tree;
