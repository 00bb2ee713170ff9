//! Tests of what becomes of rules: words and combinations, the steps of the optimiser and the optimiser, the answers of trees of
//! rulesets, and the texts of rules and of lists of them. Each module has the tests of one crate, of its public calls alone.
//! It stands on pf_word, pf_combine, pf_cover, pf_auto, pf_order, pf_optim, pf_eval, pf_print and pf_show, and on the crates of whose
//! values it makes rules, tables and trees. It has no code of its own, and no layer stands on it: in the tested crates these tests
//! would have each of them proved a second time.
#![tactic(auto)]

#[cfg(test)]
mod auto;
#[cfg(test)]
mod combine;
#[cfg(test)]
mod cover;
#[cfg(test)]
mod eval;
#[cfg(test)]
mod optim;
#[cfg(test)]
mod order;
#[cfg(test)]
mod plain;
#[cfg(test)]
mod print;
#[cfg(test)]
mod show;
#[cfg(test)]
mod word;
