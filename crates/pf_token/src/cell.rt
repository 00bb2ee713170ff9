//! A byte of a text where it stands.
use pf_base::Place;

/// A byte that is to be read, and its place.
#[derive(Clone, Copy, Debug, PartialEq, Eq)]
pub struct Cell {
    pub byte: u8,
    pub place: Place,
}
