//! The base of all crates: names, lists and texts, places in files, the kinds of faults of a file, the
//! counter of tests and its ledgers, decided equality, laws of ordered maps, and what several formats share
//! (lines, words and numbers of a text). It stands on std alone. The layers above use its types, read texts
//! by its definitions, and call its laws.
#![tactic(auto)]

pub mod fault;
pub mod kind;
pub mod list;
pub mod map;
pub mod memory;
pub mod name;
pub mod path;
pub mod path_fault;
mod path_text;
pub mod plain;
pub mod same;
pub mod steps;
pub mod text;

pub use fault::{FaultKind, Place};
pub use kind::{Family, Level};
pub use list::{List, Text};
pub use map::{name_map_laws, path_map_laws};
pub use memory::NoMemory;
pub use name::{Name, named_in_fault};
pub use path::Path;
pub use path_fault::PathFault;
pub use plain::{is_plain_byte, plain_name};
pub use same::Same;
pub use steps::{Ledger, Steps, Uncounted};
