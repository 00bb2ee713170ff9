//! Skip steps: where the evaluation goes on when a rule fails in a field.
ghost use Rattle.std.specs.Prelude.{◌≡◌, ◌+◌, ◌<◌, ◌^◌, length, IfOk, if◌then◌else◌};
ghost use Rattle.pf_optim.specs.SkipSteps.{first_row, row_by, row_of, rows_from};

use pf_base::{NoMemory, Same};
use pf_rule::Rule;
use std::alloc::Global;

// The skips of each rule in the eight fields, in one pass from the last rule to the first.
pub(crate) fn skips_of(alloc: Global, rules: &[Rule]) -> Result<Vec<[u32; 8]>, NoMemory>
    requires { length rules.now < 2 ^ 32 }
    ensures { IfOk result (λ rows. rows.items ≡ rows_from 0 rules.now) }
{
    let mut rows = Vec::new(alloc);
    let mut place = rules.len();
    let mut next = [place as u32; 8];
    while place > 0 {
        place -= 1;
        next = row_at(place as u32, &rules[place], &rules[place + 1..], &next);
        rows.push(next)?;
    }
    rows.reverse();
    Ok(rows)
}

// The skips of a rule, where the rules behind it begin with one that has these.
fn row_at(place: u32, rule: &Rule, behind: &[Rule], next: &[u32; 8]) -> [u32; 8]
    requires fits { place + 1 < 2 ^ 32 }
    requires next { next.now ≡ first_row (place + 1) behind.now }
    ensures { result ≡ row_of place rule.now behind.now }
{
    match behind {
        [] => *next,
        [other, ..] => row_by(place, rule, other, next),
    }
}

fn row_by(place: u32, rule: &Rule, other: &Rule, next: &[u32; 8]) -> [u32; 8]
    requires { place + 1 < 2 ^ 32 }
    ensures { result ≡ row_by place rule.now other.now next.now }
{
    let (one, other) = (&rule.criteria, &other.criteria);
    [
        step(one.iface.same(&other.iface), next[0], place),
        step(one.direction.same(&other.direction), next[1], place),
        step(one.family.same(&other.family), next[2], place),
        step(one.proto.same(&other.proto), next[3], place),
        step(one.source.same(&other.source), next[4], place),
        step(one.source_port.same(&other.source_port), next[5], place),
        step(one.target.same(&other.target), next[6], place),
        step(one.target_port.same(&other.target_port), next[7], place),
    ]
}

fn step(same: bool, next: u32, place: u32) -> u32
    requires { place + 1 < 2 ^ 32 }
    ensures { result ≡ (if same then next else place + 1) }
{
    if same { next } else { place + 1 }
}
