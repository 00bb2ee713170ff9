//! The parts of a rule that need no address: states with their options, logs, normalisation, queues,
//! priorities, kinds of blocks, tests of interfaces and tags, directions and the calls of anchors; and the text of
//! each, one definition and one printing function.
//! It stands on pf_base, and on itoa for decimal numbers. The layers above make rules and answers of these
//! parts, and print them by these functions, which append to a buffer: without memory a front of a part may
//! be appended.
#![tactic(auto)]

pub mod block;
pub mod block_text;
pub mod call;
mod call_target;
pub mod call_text;
pub mod direction;
mod equal;
pub mod item;
pub mod matching;
pub mod param_text;
pub mod params;
pub mod state;
pub mod state_text;
pub mod text;

pub use block::BlockKind;
pub use block_text::put_block_kind;
pub use call::{Base, Call, printed_calls_read_back};
pub use call_text::put_call;
pub use direction::Direction;
pub use matching::{IfTest, TagTest};
pub use param_text::{
    put_allow_opts, put_label, put_log, put_prio, put_queue, put_scrub, put_tag, put_tos,
};
pub use params::{Log, Prios, Queues, Scrub};
pub use state::{Flush, Overload, Rate, StateKind, StateOptions, Track};
pub use state_text::put_state;
pub use text::{put, put_name, put_named, put_number, put_numbered, put_quoted};
