//! Laws of drafts and of the ends of units, without code: a caller of a law has its clauses.
ghost use Rattle.std.specs.Prelude.{◌≡◌, ◌<◌, ℕ, Bool, List, Option, IfSome};
ghost use Rattle.pf_base.specs.declared.fault.Place.{Place};
ghost use Rattle.pf_decl.specs.declared.form.OptionLine.{OptionLine};
ghost use Rattle.pf_decl.specs.declared.form.Queue.{Queue};
ghost use Rattle.pf_fault.specs.declared.fault.Fault.{Fault as AnyFault};
ghost use Rattle.pf_parts.specs.declared.params.Queues.{Queues};
ghost use Rattle.pf_rule.specs.declared.rule.Rule.{Rule};
ghost use Rattle.pf_shelf.specs.declared.decl.TableDecl.{TableDecl};
ghost use Rattle.pf_plan.specs.Anchors as anchors;
ghost use Rattle.pf_plan.specs.Drafts as drafts;
ghost use Rattle.pf_plan.specs.Ends.{HasEndFault};
ghost use Rattle.pf_plan.specs.Numbered.{PlacesWithin};
ghost use Rattle.pf_plan.specs.declared.draft.Draft.{Draft as AnyDraft};

use pf_decl::queues_are_judged_once;

/// A unit's end has one fault or none.
pub fn ends_have_one_fault()
    ensures { (draft : AnyDraft) (fault other : Option AnyFault) → HasEndFault draft fault → HasEndFault draft other → fault ≡ other }
{
    queues_are_judged_once();
}

/// It can't be that nothing is what comes at a unit's end.
pub fn ends_come_to_something()
    ensures { (draft : AnyDraft) → ((fault : Option AnyFault) → HasEndFault draft fault → ⊥) → ⊥ }
{}

/// In which files the fault of a unit's end stands.
pub fn ends_stay_within()
    ensures { (count : ℕ) (draft : AnyDraft) (fault : Option AnyFault) → HasEndFault draft fault → PlacesWithin count draft → IfSome fault (λ one. one.place.file < count) }
{}

/// What is laid on a draft leaves its places in the files that have a number.
pub fn drafts_stay_within()
    ensures begun { (count : ℕ) (path : List (List ℕ)) (place : Place) → place.file < count → PlacesWithin count (drafts.begun_draft path place) }
    ensures rules { (count : ℕ) (draft : AnyDraft) (rules : List Rule) (queues : Option Queues) (place : Place) → PlacesWithin count draft → place.file < count → PlacesWithin count (drafts.with_rules draft rules queues place) }
    ensures table { (count : ℕ) (draft : AnyDraft) (table : TableDecl) → PlacesWithin count draft → PlacesWithin count (drafts.with_table draft table) }
    ensures lines { (count : ℕ) (draft : AnyDraft) (lines : List OptionLine) → PlacesWithin count draft → PlacesWithin count (drafts.with_lines draft lines) }
    ensures queue { (count : ℕ) (draft : AnyDraft) (queue : Queue) → PlacesWithin count draft → queue.place.file < count → PlacesWithin count (drafts.with_queue draft queue) }
    ensures opened { (count : ℕ) (draft : AnyDraft) (path : List (List ℕ)) (place : Place) (nameless : Bool) → PlacesWithin count draft → place.file < count → PlacesWithin count (anchors.opened draft path place nameless) }
    ensures closed { (count : ℕ) (draft : AnyDraft) → PlacesWithin count draft → PlacesWithin count (anchors.closed draft) }
    ensures load { (count : ℕ) (draft : AnyDraft) (path : List (List ℕ)) (file : List ℕ) → PlacesWithin count draft → PlacesWithin count (anchors.with_load draft path file) }
    ensures unit { (count : ℕ) (draft : AnyDraft) (path : List (List ℕ)) (place : Place) → PlacesWithin count draft → place.file < count → PlacesWithin count (anchors.next_unit draft path place) }
{}
