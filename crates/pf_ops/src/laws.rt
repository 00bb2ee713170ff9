//! Laws of the definitions, for the crates above: a caller of a law has its clauses.
ghost use Rattle.std.specs.Prelude.{◌≡◌, ℕ, ◌<◌, ◌↔◌, IsTrue, Some};
ghost use Rattle.pf_ops.specs.declared.numbers.Numbers.{Numbers as Set};
ghost use Rattle.pf_ops.specs.Numbers.{Covers, IsKept, SameNumbers, covers};
ghost use Rattle.pf_ops.specs.Words.{bits_of, flags_of, letters_of};

/// Two sets of numbers up to a greatest one, in the form in which sets are kept: where they have the same
/// numbers they are one value, and one covers the other exactly where it has each of the other's numbers.
pub fn equal_sets_are_one_value()
    ensures one { (top : ℕ) (set other : Set) → IsKept top set → IsKept top other → SameNumbers top set other
        → set ≡ other }
    ensures subset { (top : ℕ) (set other : Set) → IsKept top set → IsKept top other
        → (IsTrue (covers set other) ↔ Covers top set other) }
{}

/// The letters of a set of TCP flags have its bits again.
pub fn letters_of_flags_read_back()
    ensures bits { (bits : ℕ) → bits < 256 → bits_of (letters_of bits) ≡ bits }
    ensures flags { (bits : ℕ) → 0 < bits → bits < 256 → flags_of (letters_of bits) ≡ Some bits }
{}
