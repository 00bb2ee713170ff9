//! The texts of what a rule does (pf.conf(5), PARAMETERS, STATEFUL FILTERING, TRAFFIC NORMALISATION and TRANSLATION).
ghost use Rattle.std.specs.Prelude.{◌≡◌, ◌++◌, OnOk, codes};
ghost use Rattle.std.specs.Option.{option_map};
ghost use Rattle.pf_parts.specs.Appending.{Extends};
ghost use Rattle.pf_parts.specs.BlockText.{block_text};
ghost use Rattle.pf_parts.specs.CallText.{call_text};
ghost use Rattle.pf_parts.specs.NameText.{quoted};
ghost use Rattle.pf_parts.specs.ParamText.{prio_text, queue_text, scrub_text, tag_text};
ghost use Rattle.pf_parts.specs.Parts.{spaced, with_number, word_if};
ghost use Rattle.pf_record.specs.TranslationText.{nat_text, rdr_text};
ghost use Rattle.pf_print.specs.RuleText as says;

use crate::criteria::is_pass;
use pf_base::NoMemory;
use pf_parts::{
    BlockKind, Call, Prios, Queues, put, put_allow_opts, put_block_kind, put_call, put_label,
    put_numbered, put_prio, put_queue, put_scrub, put_state, put_tag,
};
use pf_record::{put_nat, put_rdr};
use pf_rule::{Action, Effect, Params};

fn put_block(out: &mut Vec<u8>, kind: BlockKind) -> Result<(), NoMemory>
    ensures ok { OnOk result (out.new.items ≡ out.old.items ++ (codes "block " ++ block_text kind)) }
    ensures kept { Extends out.old.items out.new.items }
{
    put(out, b"block ")?;
    put_block_kind(out, kind)?;
    Ok(())
}

fn put_anchor(out: &mut Vec<u8>, call: &Call) -> Result<(), NoMemory>
    ensures ok { OnOk result (out.new.items ≡ out.old.items ++ (codes "anchor " ++ quoted (call_text call.now))) }
    ensures kept { Extends out.old.items out.new.items }
{
    put(out, b"anchor \"")?;
    put_call(out, call)?;
    put(out, b"\"")?;
    Ok(())
}

/// Appends how a rule begins.
#[tactic(auto, unfolding(crate::specs::RuleText::action_text))]
pub(crate) fn put_action(out: &mut Vec<u8>, action: &Action) -> Result<(), NoMemory>
    ensures ok { OnOk result (out.new.items ≡ out.old.items ++ says.action_text action.now) }
    ensures kept { Extends out.old.items out.new.items }
{
    match action {
        Action::Pass => put(out, b"pass")?,
        Action::Match => put(out, b"match")?,
        Action::Block(kind) => put_block(out, *kind)?,
        Action::Anchor(call) => put_anchor(out, call)?,
    }
    Ok(())
}

// The state that a rule makes which passes packets.
fn put_made_state(out: &mut Vec<u8>, effect: &Effect) -> Result<(), NoMemory>
    ensures ok { OnOk result (out.new.items ≡ out.old.items ++ spaced (says.state_part effect.now)) }
    ensures kept { Extends out.old.items out.new.items }
{
    if is_pass(&effect.action) {
        put(out, b" ")?;
        put_state(out, effect.state, &effect.options)?;
    }
    Ok(())
}

fn put_set_queue(out: &mut Vec<u8>, queues: &Option<Queues>) -> Result<(), NoMemory>
    ensures ok { OnOk result (out.new.items ≡ out.old.items ++ spaced (option_map (λ q. says.setting_text (queue_text q)) queues.now)) }
    ensures kept { Extends out.old.items out.new.items }
{
    if queues.is_some() {
        put(out, b" set")?;
    }
    put_queue(out, queues)?;
    Ok(())
}

fn put_set_prio(out: &mut Vec<u8>, prios: Option<Prios>) -> Result<(), NoMemory>
    ensures ok { OnOk result (out.new.items ≡ out.old.items ++ spaced (option_map (λ p. says.setting_text (prio_text p)) prios)) }
    ensures kept { Extends out.old.items out.new.items }
{
    if prios.is_some() {
        put(out, b" set")?;
    }
    put_prio(out, prios)?;
    Ok(())
}

fn put_set_tos(out: &mut Vec<u8>, tos: Option<u8>) -> Result<(), NoMemory>
    ensures ok { OnOk result (out.new.items ≡ out.old.items ++ spaced (with_number (codes "set tos") tos)) }
    ensures kept { Extends out.old.items out.new.items }
{
    if let Some(tos) = tos {
        put_numbered(out, b" set tos ", u32::from(tos))?;
    }
    Ok(())
}

// What a rule sets.
fn put_settings(out: &mut Vec<u8>, params: &Params) -> Result<(), NoMemory>
    ensures ok { OnOk result (out.new.items ≡ out.old.items ++ (spaced (option_map (λ q. says.setting_text (queue_text q)) params.now.queue)
        ++ spaced (option_map (λ p. says.setting_text (prio_text p)) params.now.prio) ++ spaced (with_number (codes "set tos") params.now.tos))) }
    ensures kept { Extends out.old.items out.new.items }
{
    put_set_queue(out, &params.queue)?;
    put_set_prio(out, params.prio)?;
    put_set_tos(out, params.tos)?;
    Ok(())
}

// The tag and the state.
fn put_tag_and_state(out: &mut Vec<u8>, effect: &Effect) -> Result<(), NoMemory>
    ensures ok { OnOk result (out.new.items ≡ out.old.items ++ (spaced (option_map tag_text effect.now.tag) ++ spaced (says.state_part effect.now))) }
    ensures kept { Extends out.old.items out.new.items }
{
    put_tag(out, &effect.tag)?;
    put_made_state(out, effect)?;
    Ok(())
}

// How packets are normalised and translated, and whether they may have IP options.
fn put_changes(out: &mut Vec<u8>, params: &Params) -> Result<(), NoMemory>
    ensures ok { OnOk result (out.new.items ≡ out.old.items ++ (spaced (scrub_text params.now.scrub) ++ spaced (option_map nat_text params.now.nat)
        ++ spaced (option_map rdr_text params.now.rdr) ++ spaced (word_if params.now.allow_opts (codes "allow-opts")))) }
    ensures kept { Extends out.old.items out.new.items }
{
    put_scrub(out, &params.scrub)?;
    put_nat(out, &params.nat)?;
    put_rdr(out, &params.rdr)?;
    put_allow_opts(out, params.allow_opts)?;
    Ok(())
}

// The tag, the state and what the rule sets.
fn put_sets(out: &mut Vec<u8>, effect: &Effect) -> Result<(), NoMemory>
    ensures ok { OnOk result (out.new.items ≡ out.old.items ++ says.parts_text (says.set_parts effect.now)) }
    ensures kept { Extends out.old.items out.new.items }
{
    put_tag_and_state(out, effect)?;
    put_settings(out, &effect.params)?;
    Ok(())
}

// What else the rule does.
fn put_others(out: &mut Vec<u8>, effect: &Effect) -> Result<(), NoMemory>
    ensures ok { OnOk result (out.new.items ≡ out.old.items ++ says.parts_text (says.change_parts effect.now)) }
    ensures kept { Extends out.old.items out.new.items }
{
    put_changes(out, &effect.params)?;
    put_label(out, &effect.label)?;
    Ok(())
}

/// Appends what a rule does.
pub(crate) fn put_effect(out: &mut Vec<u8>, effect: &Effect) -> Result<(), NoMemory>
    ensures ok { OnOk result (out.new.items ≡ out.old.items ++ says.effect_text effect.now) }
    ensures kept { Extends out.old.items out.new.items }
{
    put_sets(out, effect)?;
    put_others(out, effect)?;
    Ok(())
}
