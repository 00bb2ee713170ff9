//! The outside of the program: files, the input and the output, as traits that say what such an object tells of
//! itself, with objects in memory that may fail, objects that never do, and the real ones.
//! It stands on pf_base. The layers above take any object of the traits and rest on the traits' clauses alone.
#![tactic(auto)]

pub mod fault;
pub mod files;
pub mod memory;
pub mod real;
pub mod sink;
pub mod source;
pub mod sure;

pub use fault::{Failed, FilesFault, SinkFault};
pub use files::{Files, HeldFile};
pub use memory::{FailedWrite, MemoryFiles, MemorySink, MemorySource};
pub use real::{RealFiles, RealSink, RealSource};
pub use sink::Sink;
pub use source::{LastRead, Source};
pub use sure::{SureFiles, SureSink, SureSource};
