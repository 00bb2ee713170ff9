//! Faults of a form that count behind those of its words.
ghost use Rattle.std.specs.Prelude.{◌≡◌};
ghost use Rattle.pf_grammar.specs.Late as says;

use pf_form::kind::{is_anchor, makes_states};
use pf_form::setting::is_no_scrub;
use pf_form::{Draft, RuleForm};
use pf_parts::StateOptions;
use pf_syntax::FormFault;

// Whether options exclude each other, or a table of sources has no limit.
fn options_clash(options: &StateOptions) -> bool
    ensures { result ≡ says.options_clash options.now }
{
    (options.if_bound && options.floating)
        || (options.overload.is_some()
            && !(options.max_src_conn.is_some() || options.max_src_conn_rate.is_some()))
}

// Whether a state clause stands where no state is made, or its options are at fault.
#[tactic(auto, unfolding(crate::specs::Late::has_state_fault))]
fn has_state_fault(draft: &Draft) -> bool
    ensures { result ≡ says.has_state_fault draft.now }
{
    (draft.form.state.is_some() && !makes_states(&draft.form.head))
        || draft.repeated_option
        || options_clash(&draft.form.options)
}

// Whether the rule has a log, a part of `set`, scrub or allow-opts.
fn has_params(form: &RuleForm) -> bool
    ensures { result ≡ says.has_params form.now }
{
    form.params.log.on
        || form.params.queue.is_some()
        || form.params.prio.is_some()
        || form.params.tos.is_some()
        || !is_no_scrub(&form.params.scrub)
        || form.params.allow_opts
}

// Whether an anchor rule has what it can't have.
#[tactic(auto, unfolding(crate::specs::Late::has_anchor_effect))]
fn has_anchor_effect(form: &RuleForm) -> bool
    ensures { result ≡ says.has_anchor_effect form.now }
{
    is_anchor(&form.head)
        && (has_params(form)
            || form.tag.is_some()
            || form.state.is_some()
            || form.label.is_some()
            || form.nat.is_some()
            || form.rdr.is_some())
}

/// The first of the faults that count behind those of the words: `BadFlags`, `StateOptions`, `AnchorEffect`.
#[tactic(auto, unfolding(crate::specs::Late::late_of))]
pub fn late_of(draft: &Draft) -> Option<FormFault>
    ensures { result ≡ says.late_of draft.now }
{
    if draft.unknown_flag {
        Some(FormFault::BadFlags)
    } else if has_state_fault(draft) {
        Some(FormFault::StateOptions)
    } else if has_anchor_effect(&draft.form) {
        Some(FormFault::AnchorEffect)
    } else {
        None
    }
}
