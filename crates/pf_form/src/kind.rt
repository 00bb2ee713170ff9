//! What the head of a form tells of its rules (pf.conf(5), PACKET FILTERING and ANCHORS).
ghost use Rattle.std.specs.Prelude.{◌≡◌};
ghost use Rattle.pf_form.specs.Kinds as says;

use crate::form::Head;

/// Whether a state is made.
pub fn makes_states(head: &Head) -> bool
    ensures { result ≡ says.makes_states head.now }
{
    matches!(head, Head::Pass)
}

/// Whether it is an anchor rule.
pub fn is_anchor(head: &Head) -> bool
    ensures { result ≡ says.is_anchor head.now }
{
    matches!(head, Head::Anchor { .. })
}

/// Whether a translation may stand in a rule of this head.
pub fn may_translate(head: &Head) -> bool
    ensures { result ≡ says.may_translate head.now }
{
    match head {
        Head::Pass | Head::Match | Head::Anchor { .. } => true,
        Head::Block(_) | Head::Antispoof | Head::LoadAnchor { .. } => false,
    }
}
