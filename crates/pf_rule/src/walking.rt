//! Walks through lists of rules, of which [`crate::Walk`] is one kind.
ghost use Rattle.std.specs.Prelude.{◌≡◌, ◌≤◌, List, ◌++◌, true, length};
ghost use Rattle.pf_rule.specs.Walking.{DoAlike, OneEffect, Walking, once, reached_through, walked_through};

/// Laws of the walk through a list of rules (pf.conf(5), PACKET FILTERING), for walks `W` and rules `R`
/// of any kind.
pub fn laws_of_walks<W, R>()
    // A walk that has stopped stays as it is.
    ensures stopped { (on : Walking W R) (rules : List R) (walk : W) →
        on.stopped walk ≡ true → walked_through on rules walk ≡ walk }
    // A walk through two lists is a walk through the second after one through the first.
    ensures joined { (on : Walking W R) (front back : List R) (walk : W) →
        walked_through on (front ++ back) walk ≡ walked_through on back (walked_through on front walk) }
    // Deeds that are alike give walks that are alike.
    ensures alike { (one other : Walking W R) (rules : List R) (walk : W) →
        DoAlike one other rules → walked_through one rules walk ≡ walked_through other rules walk }
    // Rules of one effect have it once, where some of them hits at the walk before the first.
    ensures once { (on : Walking W R) (effect : W → W) (rules : List R) (walk : W) →
        OneEffect on effect rules → walked_through on rules walk ≡ once on effect rules walk }
    // Each rule is reached at most once.
    ensures reached { (on : Walking W R) (rules : List R) (walk : W) →
        reached_through on rules walk ≤ length rules }
{}
