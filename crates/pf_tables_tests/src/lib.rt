//! Tests of what a load keeps beside rules: the facts of the host, tables with their shelves, declarations with their files, drafts
//! and plans, and the order of faults. Each module has the tests of one crate, of its public calls alone.
//! It stands on pf_host, pf_table, pf_shelf, pf_entries, pf_plan and pf_fault, and on pf_base, pf_addr, pf_source, pf_lexer and pf_decl,
//! by which it makes what they take. It has no code of its own, and no layer stands on it: in the tested crates these tests would have
//! each of them proved a second time.
#![tactic(auto)]

#[cfg(test)]
mod entries;
#[cfg(test)]
mod fault;
#[cfg(test)]
mod host;
#[cfg(test)]
mod plan;
#[cfg(test)]
mod shelf;
#[cfg(test)]
mod table;
