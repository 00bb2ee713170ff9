//! A name and what it stands for.
use pf_base::Name;

/// A name and what it stands for: a group of an interface, an address of a host, or a number.
#[derive(Debug, Drop)]
pub struct Row<T> {
    pub name: Name,
    pub value: T,
}
