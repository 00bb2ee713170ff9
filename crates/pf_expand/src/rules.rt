//! The rules of a statement without a fault.
ghost use Rattle.std.specs.Prelude.{◌≡◌, map, IfOk};
ghost use Rattle.pf_expand.specs.Rules as says;

use crate::order::Defaults;
use pf_base::{List, NoMemory};
use pf_form::{FlagsForm, Head, RuleForm};
use pf_ops::TcpFlags;
use pf_parts::{BlockKind, Call, Direction, IfTest, StateKind, StateOptions};
use pf_rule::{Action, AddrTest, Criteria, Effect, Params, Rule, TCP, Target};
use std::alloc::Global;

/// `flags S/SA`: of SYN and ACK only SYN is set.
const OPENING: TcpFlags = TcpFlags { set: 2, mask: 18 };

fn action_of(head: &Head, call: &Call, defaults: &Defaults) -> Action
    ensures { result ≡ says.action_of head.now call.now defaults.now }
{
    match head {
        Head::Pass => Action::Pass,
        Head::Block(None) => Action::Block(defaults.block),
        Head::Block(Some(kind)) => Action::Block(*kind),
        Head::Match => Action::Match,
        Head::Anchor { .. } => Action::Anchor(*call),
        Head::Antispoof => Action::Block(BlockKind::Drop),
        Head::LoadAnchor { .. } => Action::Match,
    }
}

fn state_of(head: &Head, written: Option<StateKind>) -> StateKind
    ensures { result ≡ says.state_of head.now written }
{
    match head {
        Head::Pass => match written {
            None => StateKind::Keep,
            Some(kind) => kind,
        },
        Head::Block(_) | Head::Match | Head::Antispoof => StateKind::None,
        Head::Anchor { .. } | Head::LoadAnchor { .. } => StateKind::None,
    }
}

fn makes_state(state: StateKind) -> bool
    ensures { result ≡ says.makes_state state }
{
    match state {
        StateKind::None => false,
        StateKind::Keep | StateKind::Modulate | StateKind::Synproxy => true,
    }
}

fn options_of(stateful: bool, defaults: &Defaults, written: &StateOptions) -> StateOptions
    ensures { result ≡ says.options_of stateful defaults.now written.now }
{
    let mut options = *written;
    options.if_bound = stateful && (written.if_bound || (defaults.bound && !written.floating));
    options.floating = false;
    options
}

fn params_of(written: &Params, nat: &[Target], rdr: &[Target]) -> Params
    ensures { result ≡ says.params_of written.now nat.now rdr.now }
{
    let mut params = *written;
    params.nat = nat.first().copied();
    params.rdr = rdr.first().copied();
    params
}

/// What each rule of the statement does.
pub(crate) fn effect_of(
    form: &RuleForm,
    call: &Call,
    defaults: &Defaults,
    nat: &[Target],
    rdr: &[Target],
) -> Effect
    ensures { result ≡ says.effect_of form.now call.now defaults.now nat.now rdr.now }
{
    let state = state_of(&form.head, form.state);
    Effect {
        action: action_of(&form.head, call, defaults),
        quick: form.quick,
        tag: form.tag,
        state,
        options: options_of(makes_state(state), defaults, &form.options),
        params: params_of(&form.params, nat, rdr),
        label: form.label,
    }
}

fn direction_of(head: &Head, written: Option<Direction>) -> Option<Direction>
    ensures { result ≡ says.direction_of head.now written }
{
    match head {
        Head::Antispoof => Some(Direction::In),
        Head::Pass | Head::Block(_) | Head::Match => written,
        Head::Anchor { .. } | Head::LoadAnchor { .. } => written,
    }
}

/// What each rule of the statement tests.
pub(crate) fn start_of(form: &RuleForm) -> Criteria
    ensures { result ≡ says.start_of form.now }
{
    Criteria {
        iface: IfTest::Any,
        direction: direction_of(&form.head, form.direction),
        family: None,
        proto: None,
        source: AddrTest::Any,
        source_port: None,
        target: AddrTest::Any,
        target_port: None,
        user: None,
        group: None,
        flags: None,
        icmp: None,
        tos: form.tos,
        prio: form.prio,
        tagged: form.tagged,
    }
}

fn is_tcp_or_any(proto: Option<u8>) -> bool
    ensures { result ≡ says.is_tcp_or_any proto }
{
    match proto {
        None => true,
        Some(proto) => proto == TCP,
    }
}

fn flags_of(flags: &Option<FlagsForm>, stateful: bool, proto: Option<u8>) -> Option<TcpFlags>
    ensures { result ≡ says.flags_of flags.now stateful proto }
{
    match flags {
        Some(FlagsForm::Any) => None,
        Some(FlagsForm::Test(test)) => Some(*test),
        None => {
            if stateful && is_tcp_or_any(proto) {
                Some(OPENING)
            } else {
                None
            }
        }
    }
}

// The rule of a combination.
fn rule_of(form: &RuleForm, effect: &Effect, start: &Criteria) -> Rule
    ensures { result ≡ says.rule_of form.now effect.now start.now }
{
    let mut criteria = *start;
    criteria.flags = flags_of(&form.flags, makes_state(effect.state), start.proto);
    Rule {
        criteria,
        effect: *effect,
    }
}

/// The rules of combinations.
pub(crate) fn rules_of(
    alloc: Global,
    form: &RuleForm,
    effect: &Effect,
    found: &[Criteria],
) -> Result<List<Rule>, NoMemory>
    ensures { IfOk result (λ rules. rules ≡ map (says.rule_of form.now effect.now) found.now) }
{
    let mut rules = List::new(alloc);
    for criteria in found {
        rules.push_copy(&rule_of(form, effect, criteria))?;
    }
    Ok(rules)
}
