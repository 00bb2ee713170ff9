//! What a run over lines is, for any machine and any step of it: events with outages, what is written, what was
//! refused, lines that were executed, and a run that stops. It stands on pf_source. Its function has no code:
//! it is a law of runs. The program states its clauses by these definitions.
#![tactic(auto)]

ghost use Rattle.std.specs.Prelude.{◌≡◌, ℕ, List};
ghost use Rattle.pf_source.specs.Disk.{Disk};
ghost use Rattle.pf_runs.specs.Runs.{DoesOneThing, Script, Stepped};

/// A machine, by its step: what a line does, by the files and the machine before it.
pub trait Machine {
    ghost step: { Disk → Self → List ℕ → Stepped Self → Type 0 };
}

/// Where a line does one thing alone, a list of lines has one run without outages at most: so what it writes, and the
/// machine behind it, are determined.
pub fn a_script_has_one_run<M: Machine>()
    ensures { (disk : Disk) → DoesOneThing M.step disk → (machine : M) (lines : List (List ℕ)) (a b : Script M.step disk machine lines) → a.events ≡ b.events }
{}
