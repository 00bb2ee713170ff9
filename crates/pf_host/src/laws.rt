//! Laws of the definitions, for the crates above: a caller of a law has its clauses.
ghost use Rattle.std.specs.Prelude.{◌≡◌, ℕ, List};
ghost use Rattle.pf_host.specs.declared.fault.FactsCause.{FactsCause as Cause};
ghost use Rattle.pf_host.specs.Facts.{HostFacts};
ghost use Rattle.pf_host.specs.Meaning.{IsFactsText, IsFaultAt};

use pf_addr::texts_are_read_in_one_way;

/// A facts file has no first fault, and a text has no two. So [`crate::read_facts`] takes no text with a fault,
/// and refuses no facts file.
pub fn facts_and_one_fault_exclude_each_other()
    ensures apart { (text : List ℕ) (facts : HostFacts) (line : ℕ) (cause : Cause) → IsFactsText text facts → IsFaultAt text line cause → ⊥ }
    ensures one { (text : List ℕ) (line : ℕ) (cause : Cause) (other_line : ℕ) (other_cause : Cause) → IsFaultAt text line cause → IsFaultAt text other_line other_cause → (line ≡ other_line) × (cause ≡ other_cause) }
{}

/// A text says one thing of a host: two readings of a facts file are equal.
pub fn facts_have_one_meaning()
    ensures { (text : List ℕ) (facts other : HostFacts) → IsFactsText text facts → IsFactsText text other → facts ≡ other }
{
    texts_are_read_in_one_way();
}
