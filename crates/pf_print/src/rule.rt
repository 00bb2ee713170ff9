//! The text of a rule (pf.conf(5), GRAMMAR, `pf-rule`).
ghost use Rattle.std.specs.Prelude.{◌≡◌, ◌++◌, OnErr, OnOk};
ghost use Rattle.pf_parts.specs.Appending.{Extends};
ghost use Rattle.pf_print.specs.RuleText.{rule_text, tests_text};

use crate::criteria::{put_ends, put_front, put_marks};
use crate::effect::{put_action, put_effect};
use pf_base::NoMemory;
use pf_rule::Rule;

// What the rule tests.
fn put_tests(out: &mut Vec<u8>, rule: &Rule) -> Result<(), NoMemory>
    ensures ok { OnOk result (out.new.items ≡ out.old.items ++ tests_text rule.now) }
    ensures kept { Extends out.old.items out.new.items }
{
    put_front(out, rule)?;
    put_ends(out, &rule.criteria)?;
    put_marks(out, &rule.criteria, &rule.effect)?;
    Ok(())
}

#[tactic(auto, unfolding(crate::specs::RuleText::rule_text))]
fn append_rule(out: &mut Vec<u8>, rule: &Rule) -> Result<(), NoMemory>
    ensures ok { OnOk result (out.new.items ≡ out.old.items ++ rule_text rule.now) }
    ensures kept { Extends out.old.items out.new.items }
{
    put_action(out, &rule.effect.action)?;
    put_tests(out, rule)?;
    put_effect(out, &rule.effect)?;
    Ok(())
}

/// Appends the text of a rule in its one spelling: its action, and behind it each part that it has, with single spaces. Without
/// memory `out` is as before (pf.conf(5), GRAMMAR).
pub fn put_rule(out: &mut Vec<u8>, rule: &Rule) -> Result<(), NoMemory>
    ensures ok { OnOk result (out.new.items ≡ out.old.items ++ rule_text rule.now) }
    ensures err { OnErr result (out.new.items ≡ out.old.items) }
{
    let before = out.len();
    let appended = append_rule(out, rule);
    if appended.is_err() {
        out.truncate(before);
    }
    appended
}
