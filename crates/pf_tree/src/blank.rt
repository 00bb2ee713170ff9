//! Payloads that may be blank.
ghost use Rattle.std.specs.Prelude.{◌≡◌, Bool, true};

use std::alloc::Global;

/// A payload that may be blank: a path with a blank payload isn't in the tree. None of these takes memory.
pub trait Blank: Drop {
    /// Whether a payload is blank.
    ghost is_blank: { Self → Bool };

    /// A blank payload.
    fn fresh(alloc: Global) -> Self
        ensures { is_blank result ≡ true };

    /// Whether it is blank.
    fn is_blank(&self) -> bool
        ensures { result ≡ is_blank self.now };

    /// Makes it blank.
    fn blank(&mut self)
        ensures { is_blank self.new ≡ true };
}
