//! What an evaluator sees of a walk.
ghost use Rattle.std.specs.Prelude.{◌≡◌, ◌+◌, IsFalse};
ghost use Rattle.pf_rule.specs.Answer.{answer_of_walk};
ghost use Rattle.pf_rule.specs.Around.{around_by};
ghost use Rattle.pf_rule.specs.Effect.{effect_on, is_anchor};
ghost use Rattle.pf_rule.specs.Hit.{Finds};
ghost use Rattle.pf_rule.specs.Probe.{marks_of, skipped_by, with_marks};

use crate::members::Members;
use crate::rule::Rule;
use crate::testing::{Tested, hit};
use crate::walk::{Answer, Marks, Walk};
use crate::{applying, reply};
use pf_addr::Ifaces;
use pf_base::{Ledger, Name, Steps};

/// A walk whose packet is hidden: it shows only by tests, which are counted under `L`, its interface
/// also by `skips`, and its tag also by `answer`.
pub trait Probe<L: Ledger> {
    ghost use Rattle.pf_rule.specs.declared.walk.Walk.{Walk};

    ghost walk: { Self → Walk };

    /// Tests a rule at the walk.
    fn test<M: Members, I: Ifaces>(
        &mut self,
        rule: &Rule,
        members: &M,
        ifaces: &I,
        steps: &mut Steps<L>,
    ) -> Tested
        ensures found { let around = around_by (M.member members.now) (I.in_group ifaces.now) (I.dynamic ifaces.now) in
            Finds around rule.now (walk self.old) result }
        ensures same { walk self.new ≡ walk self.old }
        ensures counted { steps.new ≡ steps.old + 1 };

    /// Does what a rule that matches does. The rule is no anchor.
    fn apply(&mut self, rule: &Rule)
        requires { IsFalse (is_anchor rule.now.effect.action) }
        ensures { walk self.new ≡ effect_on rule.now.effect (walk self.old) };

    /// The walk's marks.
    fn marks(&self) -> Marks
        ensures { result ≡ marks_of (walk self.now) };

    /// Changes the walk's marks alone.
    fn set_marks(&mut self, marks: Marks)
        ensures { walk self.new ≡ with_marks marks (walk self.old) };

    /// Whether the packet's interface has one of these names or is in one of these groups.
    fn skips<I: Ifaces>(&self, skip: &[Name], ifaces: &I) -> bool
        ensures { result ≡ skipped_by (I.in_group ifaces.now) skip.now (walk self.now) };

    /// What the walk answers where no other rule follows.
    fn answer(&self) -> Answer
        ensures { result ≡ answer_of_walk (walk self.now) };
}

impl<L: Ledger> Probe<L> for Walk {
    ghost walk = { λ walk. walk };

    fn test<M: Members, I: Ifaces>(
        &mut self,
        rule: &Rule,
        members: &M,
        ifaces: &I,
        steps: &mut Steps<L>,
    ) -> Tested {
        hit(rule, self, members, ifaces, steps)
    }

    fn apply(&mut self, rule: &Rule) {
        applying::apply(self, rule);
    }

    fn marks(&self) -> Marks {
        Marks {
            matched: self.matched,
            stop: self.stop,
        }
    }

    fn set_marks(&mut self, marks: Marks) {
        self.matched = marks.matched;
        self.stop = marks.stop;
    }

    fn skips<I: Ifaces>(&self, skip: &[Name], ifaces: &I) -> bool {
        skip.iter()
            .any(|name| ifaces.in_group(name, &self.packet.iface))
    }

    fn answer(&self) -> Answer {
        reply::answer(self)
    }
}
