//! Directions.

/// The way that a packet takes through its interface, `in` or `out` of pf.conf(5).
#[derive(Clone, Copy, Debug, PartialEq, Eq)]
pub enum Direction {
    In,
    Out,
}
