//! Laws of combining, for the crate above: a caller of a law has its clauses. Each speaks of rules with their weights.
ghost use Rattle.std.specs.Prelude.{◌≡◌, ◌≤◌, ◌+◌, ◌∷◌, [], ℕ, Bool, List, true, length, map};
ghost use Rattle.std.specs.List.{list_all, list_any, range_with_len, sum_by};
ghost use Rattle.pf_auto.specs.Merged.{merged_from};
ghost use Rattle.pf_auto.specs.Standing.{StandFor, names_between, names_none};
ghost use Rattle.pf_rule.specs.Around.{Around};
ghost use Rattle.pf_rule.specs.Hit.{hits_at};
ghost use Rattle.pf_rule.specs.declared.effect.Effect.{Effect};
ghost use Rattle.pf_rule.specs.declared.rule.Rule.{Rule};
ghost use Rattle.pf_rule.specs.declared.walk.Walk.{Walk};

/// Where each automatic table answers by its entries, the combined rules match together what the rules match: at each
/// walk some of the one matches exactly where some of the other does.
pub fn combined_rules_match_together()
    ensures { (around : Around) (next : ℕ) (items : List (Rule × ℕ)) (walk : Walk) →
        StandFor around (merged_from next items).tables →
        list_any (λ item. hits_at around item.0 walk) (merged_from next items).items
        ≡ list_any (λ item. hits_at around item.0 walk) items }
{}

/// What the effects of all rules pass, those of the combined ones pass. Together with their tables these are no more than
/// the rules, their weights together stay, and a rule alone stays as it is.
pub fn combined_rules_keep_what_others_had()
    ensures effects { (test : Effect → Bool) (next : ℕ) (items : List (Rule × ℕ)) →
        list_all (λ item. test item.0.effect) items ≡ true →
        list_all (λ item. test item.0.effect) (merged_from next items).items ≡ true }
    ensures few { (next : ℕ) (items : List (Rule × ℕ)) →
        length (merged_from next items).items + length (merged_from next items).tables ≤ length items }
    ensures total { (next : ℕ) (items : List (Rule × ℕ)) →
        sum_by (λ item. item.1) (merged_from next items).items ≡ sum_by (λ item. item.1) items }
    ensures single { (next : ℕ) (item : Rule × ℕ) → merged_from next (item ∷ []) ≡ record { items = item ∷ []; tables = [] } }
{}

/// The tables are numbered from the given number on, so that `Auto` of this number and a place names the table at this
/// place. Of rules that name no automatic table the combined ones name these alone.
pub fn tables_are_numbered_on()
    ensures numbers { (next : ℕ) (items : List (Rule × ℕ)) →
        map (λ table. table.number) (merged_from next items).tables ≡ range_with_len next (length (merged_from next items).tables) }
    ensures names { (next : ℕ) (items : List (Rule × ℕ)) →
        list_all (λ item. names_none item.0) items ≡ true →
        list_all (λ item. names_between next (next + length (merged_from next items).tables) item.0) (merged_from next items).items ≡ true }
{}
