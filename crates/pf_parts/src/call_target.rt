//! The rulesets that are called (pf.conf(5), ANCHORS).
ghost use Rattle.std.specs.Prelude.{◌≡◌, ◌≤◌, length, take};
ghost use Rattle.pf_parts.specs.CallTarget.{start_of, target_of};

use crate::call::{Base, Call};
use pf_base::Path;

// The path of the first names of a path.
fn front_of(path: &Path, count: usize) -> Path
    requires { count ≤ length path.now }
    ensures { result ≡ take count path.now }
{
    let mut front = Path::main();
    for name in &path.names()[..count] {
        match front.child(name) {
            Some(longer) => front = longer,
            None => unreachable!(),
        }
    }
    front
}

// The path where the call's names begin.
fn start_of(base: Base, at: &Path) -> Option<Path>
    ensures { result ≡ start_of base at.now }
{
    match base {
        Base::Below => Some(*at),
        Base::Up(ups) => {
            let count = at.names().len().checked_sub(usize::from(ups))?;
            Some(front_of(at, count))
        }
        Base::Root => Some(Path::main()),
    }
}

/// The path of the ruleset that a rule at this path calls, where there is one.
#[tactic(auto, unfolding(crate::specs::CallTarget::target_of))]
pub(crate) fn target(call: &Call, at: &Path) -> Option<Path>
    ensures { result ≡ target_of call.now at.now }
{
    let start = start_of(call.base, at)?;
    start.join(&call.path).ok()
}
