//! The text of an answer.
ghost use Rattle.std.specs.Prelude.{◌≡◌, ◌++◌, IsTrue, OnErr, OnOk, codes};
ghost use Rattle.std.specs.Option.{option_map};
ghost use Rattle.pf_parts.specs.Appending.{Extends};
ghost use Rattle.pf_record.specs.AnswerText.{answer_parts, answer_text};
ghost use Rattle.pf_parts.specs.BlockText.{block_text};
ghost use Rattle.pf_parts.specs.ParamText.{log_text, prio_text, queue_text, scrub_text, tag_text};
ghost use Rattle.pf_parts.specs.Parts.{joined, spaced, with_number, word_if};
ghost use Rattle.pf_parts.specs.StateText.{state_text};
ghost use Rattle.pf_record.specs.TranslationText.{nat_text, rdr_text};
ghost use Rattle.pf_rule.specs.Effect.{is_deciding};

use crate::translation::{put_nat, put_rdr};
use pf_base::{Name, NoMemory};
use pf_parts::{
    BlockKind, Log, put, put_allow_opts, put_block_kind, put_label, put_log, put_prio, put_queue,
    put_scrub, put_state, put_tag, put_tos,
};
use pf_rule::{Action, Answer, Decision, Params};

fn put_passed(out: &mut Vec<u8>, decision: &Decision) -> Result<(), NoMemory>
    ensures ok { OnOk result (out.new.items ≡ out.old.items ++ (codes "pass " ++ state_text decision.now.state decision.now.options)) }
    ensures kept { Extends out.old.items out.new.items }
{
    put(out, b"pass ")?;
    put_state(out, decision.state, &decision.options)?;
    Ok(())
}

fn put_blocked(out: &mut Vec<u8>, kind: BlockKind) -> Result<(), NoMemory>
    ensures ok { OnOk result (out.new.items ≡ out.old.items ++ (codes "block " ++ block_text kind)) }
    ensures kept { Extends out.old.items out.new.items }
{
    put(out, b"block ")?;
    put_block_kind(out, kind)?;
    Ok(())
}

fn put_log_and_tag(out: &mut Vec<u8>, log: &Log, tag: &Option<Name>) -> Result<(), NoMemory>
    ensures ok { OnOk result (out.new.items
        ≡ out.old.items ++ (spaced (log_text log.now) ++ spaced (option_map tag_text tag.now))) }
    ensures kept { Extends out.old.items out.new.items }
{
    put_log(out, log)?;
    put_tag(out, tag)?;
    Ok(())
}

// What a rule sets: the queue, the priority and the type of service.
fn put_set(out: &mut Vec<u8>, params: &Params) -> Result<(), NoMemory>
    ensures ok { OnOk result (out.new.items ≡ out.old.items ++ (spaced (option_map queue_text params.now.queue)
        ++ spaced (option_map prio_text params.now.prio) ++ spaced (with_number (codes "tos") params.now.tos))) }
    ensures kept { Extends out.old.items out.new.items }
{
    put_queue(out, &params.queue)?;
    put_prio(out, params.prio)?;
    put_tos(out, params.tos)?;
    Ok(())
}

// How a packet is normalised and translated, and whether it may have IP options.
fn put_changes(out: &mut Vec<u8>, params: &Params) -> Result<(), NoMemory>
    ensures ok { OnOk result (out.new.items ≡ out.old.items ++ (spaced (scrub_text params.now.scrub)
        ++ spaced (option_map nat_text params.now.nat) ++ spaced (option_map rdr_text params.now.rdr)
        ++ spaced (word_if params.now.allow_opts (codes "allow-opts")))) }
    ensures kept { Extends out.old.items out.new.items }
{
    put_scrub(out, &params.scrub)?;
    put_nat(out, &params.nat)?;
    put_rdr(out, &params.rdr)?;
    put_allow_opts(out, params.allow_opts)?;
    Ok(())
}

fn append_pass(out: &mut Vec<u8>, tag: &Option<Name>, decision: &Decision) -> Result<(), NoMemory>
    ensures ok { OnOk result (out.new.items
        ≡ out.old.items ++ joined (codes " ") (answer_parts Action.Pass tag.now decision.now)) }
    ensures kept { Extends out.old.items out.new.items }
{
    put_passed(out, decision)?;
    put_log_and_tag(out, &decision.params.log, tag)?;
    put_set(out, &decision.params)?;
    put_changes(out, &decision.params)?;
    put_label(out, &decision.label)?;
    Ok(())
}

fn append_block(
    out: &mut Vec<u8>,
    kind: BlockKind,
    tag: &Option<Name>,
    decision: &Decision,
) -> Result<(), NoMemory>
    ensures ok { OnOk result (out.new.items
        ≡ out.old.items ++ joined (codes " ") (answer_parts (Action.Block kind) tag.now decision.now)) }
    ensures kept { Extends out.old.items out.new.items }
{
    put_blocked(out, kind)?;
    put_log_and_tag(out, &decision.params.log, tag)?;
    put_label(out, &decision.label)?;
    Ok(())
}

#[tactic(auto, unfolding(crate::specs::AnswerText::answer_text))]
fn append_answer(out: &mut Vec<u8>, answer: &Answer) -> Result<(), NoMemory>
    requires { IsTrue (is_deciding answer.now.decision.action) }
    ensures ok { OnOk result (out.new.items ≡ out.old.items ++ answer_text answer.now) }
    ensures kept { Extends out.old.items out.new.items }
{
    if answer.skip {
        put(out, b"skip")?;
        return Ok(());
    }
    match answer.decision.action {
        Action::Pass => append_pass(out, &answer.tag, &answer.decision)?,
        Action::Block(kind) => append_block(out, kind, &answer.tag, &answer.decision)?,
        Action::Match | Action::Anchor(_) => unreachable!(),
    }
    Ok(())
}

/// Appends the answer's text: `skip`, or `pass` with its state or `block` with its kind, and then what else
/// stands in it, with single spaces. Without memory `out` is as before.
pub fn put_answer(out: &mut Vec<u8>, answer: &Answer) -> Result<(), NoMemory>
    requires { IsTrue (is_deciding answer.now.decision.action) }
    ensures ok { OnOk result (out.new.items ≡ out.old.items ++ answer_text answer.now) }
    ensures err { OnErr result (out.new.items ≡ out.old.items) }
{
    let before = out.len();
    let appended = append_answer(out, answer);
    if appended.is_err() {
        out.truncate(before);
    }
    appended
}
