//! The gain of an order of rules.
ghost use Rattle.std.specs.Prelude.{◌≡◌, ◌≤◌, ◌<◌, ◌^◌, [], length, count_by};
ghost use Rattle.pf_order.specs.Order.{agreements, first_agreements, gain};

use pf_base::Same;
use pf_rule::Rule;

/// The gain of a list of rules: the pairs of a field and two neighbours that agree in it, of the eight fields by which a rule
/// that fails lets others be passed over. Takes no memory.
pub fn gain(rules: &[Rule]) -> u64
    requires { length rules.now < 2 ^ 32 }
    ensures { result ≡ gain rules.now }
{
    let mut total = 0;
    let mut place = rules.len();
    while place > 0 {
        place -= 1;
        total += first_agreements(&rules[place], &rules[place + 1..]);
    }
    total
}

// In how many fields a rule agrees with the first of those behind it.
fn first_agreements(rule: &Rule, behind: &[Rule]) -> u64
    ensures value { result ≡ first_agreements rule.now behind.now }
    ensures most { result ≤ 8 }
{
    match behind {
        [] => 0,
        [next, ..] => agreements(rule, next),
    }
}

// In how many of the eight skip fields two rules agree.
#[tactic(auto, unfolding(crate::specs::Order::agreements))]
fn agreements(one: &Rule, other: &Rule) -> u64
    ensures value { result ≡ agreements one.now other.now }
    ensures most { result ≤ 8 }
{
    let (one, other) = (&one.criteria, &other.criteria);
    count(&[
        one.iface.same(&other.iface),
        one.direction.same(&other.direction),
        one.family.same(&other.family),
        one.proto.same(&other.proto),
        one.source.same(&other.source),
        one.source_port.same(&other.source_port),
        one.target.same(&other.target),
        one.target_port.same(&other.target_port),
    ])
}

fn count(flags: &[bool]) -> u64
    ensures value { result ≡ count_by (λ flag. flag) flags.now }
    ensures most { result ≤ length flags.now }
{
    flags.iter().filter(|flag| **flag).count() as u64
}
