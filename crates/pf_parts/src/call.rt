//! The calls of anchor rules (pf.conf(5), ANCHORS).
ghost use Rattle.std.specs.Prelude.{◌≡◌, ◌↔◌, Ok};
ghost use Rattle.pf_parts.specs.CallTarget.{target_of};
ghost use Rattle.pf_parts.specs.CallText.{IsCall, IsCallText, call_text, read_call};
ghost use Rattle.pf_parts.specs.declared.call.Call.{Call as AnyCall};

use crate::{call_target, call_text};
use pf_base::{Path, PathFault};

/// Where a call's names begin.
#[derive(Clone, Copy, Debug, PartialEq, Eq)]
pub enum Base {
    /// At the rule's own ruleset.
    Below,
    /// So many rulesets above the rule's own, 1 to 8.
    Up(u8),
    /// At the main ruleset.
    Root,
}

/// The rulesets that an anchor rule calls: the one whose names follow the base, or with `children` each
/// ruleset right below that.
#[derive(Clone, Copy, Debug, PartialEq, Eq)]
pub struct Call {
    pub base: Base,
    pub path: Path,
    pub children: bool,
}

impl Call {
    /// The call of a text (pf.conf(5), ANCHORS): names with `/` between them, from the main ruleset on behind a
    /// first `/`, from one further up behind each `..`; a last `*` calls each ruleset right below. Faults are those
    /// of [`Path::parse`], places counted from the text's begin; then `TooDeep` for the number of over eight `..`.
    pub fn parse(text: &[u8]) -> Result<Call, PathFault>
        ensures read { result ≡ read_call text.now }
        ensures grammar { (call : AnyCall) → (result ≡ Ok call) ↔ IsCallText call text.now }
    {
        call_text::read(text)
    }

    /// The path of the ruleset that a rule at this path calls; None exactly where it has fewer names than the
    /// call goes up, or where the target would have more than 8 names.
    pub fn target(&self, at: &Path) -> Option<Path>
        ensures { result ≡ target_of self.now at.now }
    {
        call_target::target(self, at)
    }
}

/// A law: the text that is printed of a call is read as the call. The call goes up from one to eight rulesets, from the main
/// ruleset or from its own, and names something; none of its names begins with `_`.
pub fn printed_calls_read_back()
    ensures { (call : AnyCall) → IsCall call → read_call (call_text call) ≡ Ok call }
{}
