//! Laws of blocks and orders, for the crate above: a caller of a law has its clauses.
ghost use Rattle.std.specs.Prelude.{◌≡◌, ◌≤◌, ℕ, List, Bool, true, length};
ghost use Rattle.std.specs.List.{flat_map, list_all, list_any, zip};
ghost use Rattle.std.specs.List.Sorted.{IsPermutation};
ghost use Rattle.pf_order.specs.Blocks.{runs_of};
ghost use Rattle.pf_order.specs.Cost.{cost};
ghost use Rattle.pf_order.specs.Order.{by_weight, gain, gain_order, profile_order};
ghost use Rattle.pf_order.specs.Runs.{are_cut, is_filled, is_linked};
ghost use Rattle.pf_rule.specs.declared.rule.Rule.{Rule};

/// Both orders of a block hold its rules and no others, so a test passes at some rule in the one exactly where it does in the
/// other. The gain of the order by gain is never less than that of the rules as they are.
pub fn orders_hold_the_same_rules()
    ensures gain { (rules : List Rule) → IsPermutation rules (gain_order rules) }
    ensures more { (rules : List Rule) → gain rules ≤ gain (gain_order rules) }
    ensures some_gain { (test : Rule → Bool) (rules : List Rule) →
        list_any test (gain_order rules) ≡ list_any test rules }
    ensures profile { (rules : List Rule) (weights : List ℕ) → length rules ≡ length weights →
        IsPermutation rules (profile_order rules weights) }
    ensures some_profile { (test : Rule → Bool) (rules : List Rule) (weights : List ℕ) → length rules ≡ length weights →
        list_any test (profile_order rules weights) ≡ list_any test rules }
{}

/// The order by a profile costs the least: no order of the same rules, each with its own weight, has a smaller sum of weights
/// times places, counted from 1.
pub fn the_most_used_first_cost_least()
    ensures { (rules : List Rule) (weights : List ℕ) (others : List (Rule × ℕ)) →
        IsPermutation (zip rules weights) others → cost (by_weight rules weights) ≤ cost others }
{}

/// The runs of neighbours that join, of items of any kind: one behind the other they are the whole list, in each run every
/// item joins the next, no run could be joined to the next one, and none is empty.
pub fn runs_are_the_longest<X>()
    ensures whole { (joins : X → X → Bool) (items : List X) → flat_map (λ run. run) (runs_of joins items) ≡ items }
    ensures linked { (joins : X → X → Bool) (items : List X) → list_all (is_linked joins) (runs_of joins items) ≡ true }
    ensures cut { (joins : X → X → Bool) (items : List X) → are_cut joins (runs_of joins items) ≡ true }
    ensures filled { (joins : X → X → Bool) (items : List X) → list_all is_filled (runs_of joins items) ≡ true }
{}
