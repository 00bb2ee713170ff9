//! What is wrong with the text of a path.

/// The first fault of a text that is no path. A position counts the bytes of the text from 0.
#[derive(Clone, Copy, Debug, PartialEq, Eq)]
pub enum PathFault {
    /// A name without a byte.
    Empty,
    /// A byte at this position that no name has, or the first byte of the names `.` and `..`.
    BadByte(u64),
    /// A name that begins with `_`.
    Reserved,
    /// A name of this many bytes, over 63.
    TooLong(u64),
    /// This many names, over 8.
    TooDeep(u64),
}
