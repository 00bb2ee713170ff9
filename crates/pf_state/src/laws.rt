//! Laws of commits, without code.
ghost use Rattle.std.specs.Prelude.{◌≡◌, ℕ, List};
ghost use Rattle.std.specs.FinMap as finite;
ghost use Rattle.pf_state.specs.Commits.{committed, stands_at};
ghost use Rattle.pf_state.specs.Rulesets.{Rulesets};
ghost use Rattle.pf_state.specs.declared.ready.Staged.{Staged as AnyStaged};

/// A load is one replacement: at the path of each of its rulesets stands that ruleset, with its tables renewed from those that
/// stood there; the rulesets of nameless anchors below go; and all others stand as they did.
pub fn a_load_is_one_replacement()
    ensures { (parts : List AnyStaged) (rulesets : Rulesets) (path : List (List ℕ)) → finite.get (committed parts rulesets) path ≡ stands_at parts rulesets path }
{}
