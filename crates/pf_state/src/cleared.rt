//! Which rulesets go with a load: those of anchors without a name below the rulesets that it fills (pf.conf(5), ANCHORS).
ghost use Rattle.std.specs.Prelude.{◌≡◌};
ghost use Rattle.std.specs.Option.{option_copied};
ghost use Rattle.pf_tree.specs.Paths as paths;
ghost use Rattle.pf_state.specs.Commits as says;

use crate::ready::Staged;
use pf_base::{Name, Path};

// The name behind a path that another path begins with.
fn name_behind<'a>(path: &[Name], at: &'a [Name]) -> Option<&'a Name>
    ensures { option_copied result ≡ paths.name_behind path.now at.now }
{
    let mut path = path;
    let mut at = at;
    while let Some((first, rest)) = path.split_first() {
        let Some((other, behind)) = at.split_first() else {
            return None;
        };
        if *first != *other {
            return None;
        }
        path = rest;
        at = behind;
    }
    at.first()
}

// Whether a path stands at or below a child of another whose name begins with `_`.
fn is_nameless_below(path: &[Name], at: &[Name]) -> bool
    ensures { result ≡ paths.is_nameless_below path.now at.now }
{
    match name_behind(path, at) {
        Some(name) => name.is_reserved(),
        None => false,
    }
}

/// Whether the ruleset at this path goes with a load of these parts.
pub(crate) fn is_cleared(parts: &[Staged], at: &Path) -> bool
    ensures { result ≡ says.is_cleared parts.now at.now }
{
    parts
        .iter()
        .any(|part| is_nameless_below(part.path.names(), at.names()))
}
