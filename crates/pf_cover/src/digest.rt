//! Which rules are likely to be equal. No more than a hint where to look first: what is found there is tested.
ghost use Rattle.std.specs.Prelude.{◌≡◌, length, IfOk};

use crate::corner::{AXES, ends_at};
use pf_base::NoMemory;
use pf_rule::Rule;
use std::alloc::Global;

// A number of a rule's criteria that is the same of equal ones, and the rule's place in its block.
#[derive(Clone, Copy, Debug)]
struct Digest {
    number: u128,
    place: usize,
}

/// For each rule the place of the last one before it with its digest, or their number where there is none.
pub(crate) fn likely_equals(alloc: Global, rules: &[Rule]) -> Result<Vec<usize>, NoMemory>
    ensures { IfOk result (λ hints. length hints.items ≡ length rules.now) }
{
    let mut digests = digests_of(alloc, rules)?;
    digests.sort_by_key(|digest| digest.number)?;
    let mut hints = vec![in alloc; rules.len(); rules.len()]?;
    for i in 1..digests.len() {
        if digests[i - 1].number == digests[i].number {
            hint_at(&mut hints, digests[i].place, digests[i - 1].place);
        }
    }
    Ok(hints)
}

fn digests_of(alloc: Global, rules: &[Rule]) -> Result<Vec<Digest>, NoMemory> {
    let mut digests = Vec::new(alloc);
    for i in 0..rules.len() {
        digests.push(Digest {
            number: number_of(&rules[i]),
            place: i,
        })?;
    }
    Ok(digests)
}

fn number_of(rule: &Rule) -> u128 {
    let mut number: u128 = 0;
    for axis in AXES {
        let ends = ends_at(axis, &rule.criteria);
        number = number
            .wrapping_mul(6364136223846793005)
            .wrapping_add(ends.low);
        number = number
            .wrapping_mul(6364136223846793005)
            .wrapping_add(ends.depth);
    }
    number
}

fn hint_at(hints: &mut Vec<usize>, place: usize, hint: usize)
    ensures { length hints.new.items ≡ length hints.old.items }
{
    if place < hints.len() {
        hints[place] = hint;
    }
}
