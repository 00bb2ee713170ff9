//! Laws of the definitions, for the crates above: a caller of a law has its clauses.
ghost use Rattle.std.specs.Prelude.{◌≡◌, ℕ, List, Option, Result};
ghost use Rattle.pf_base.specs.declared.fault.FaultKind.{FaultKind as Fault};
ghost use Rattle.pf_addr.specs.declared.prefix.Prefix.{Prefix};
ghost use Rattle.pf_host.specs.Facts.{HostFacts};
ghost use Rattle.pf_rule.specs.declared.criteria.AddrTest.{AddrTest};
ghost use Rattle.pf_rule.specs.declared.translation.Target.{Target};
ghost use Rattle.pf_syntax.specs.declared.form.HostItem.{HostItem};
ghost use Rattle.pf_syntax.specs.declared.form.TargetWords.{TargetWords};
ghost use Rattle.pf_word.specs.Hosts.{HostWordMeans, HostsMean};
ghost use Rattle.pf_word.specs.Targets.{TargetMeans};
ghost use Rattle.pf_word.specs.declared.words.Words.{Words as Read};

use pf_addr::{equal_values_are_one, texts_are_read_in_one_way};

/// A host word, the hosts of a list and the target of a translation mean one thing alone. So [`crate::host_prefixes`] answers
/// a fault of a word exactly where the word has it.
pub fn words_have_one_meaning()
    ensures word { (facts : HostFacts) (word : List ℕ) (mask : Option (List ℕ)) (answer other : Result (List Prefix) Fault)
        → HostWordMeans facts word mask answer → HostWordMeans facts word mask other → answer ≡ other }
    ensures hosts { (facts : HostFacts) (items : List HostItem) (words other : Read AddrTest) → HostsMean facts items words → HostsMean facts items other → words ≡ other }
    ensures target { (facts : HostFacts) (target : TargetWords) (words other : Read Target) → TargetMeans facts target words → TargetMeans facts target other → words ≡ other }
{
    texts_are_read_in_one_way();
    equal_values_are_one();
}

/// Each host word, each list of hosts and each target of a translation means something: it can't be that no answer is what
/// it means.
pub fn each_word_means_something()
    ensures word { (facts : HostFacts) (word : List ℕ) (mask : Option (List ℕ)) → ((answer : Result (List Prefix) Fault) → HostWordMeans facts word mask answer → ⊥) → ⊥ }
    ensures hosts { (facts : HostFacts) (items : List HostItem) → ((words : Read AddrTest) → HostsMean facts items words → ⊥) → ⊥ }
    ensures target { (facts : HostFacts) (target : TargetWords) → ((words : Read Target) → TargetMeans facts target words → ⊥) → ⊥ }
{}
