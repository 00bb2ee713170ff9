//! The options of a rule (pf.conf(5), GRAMMAR, `filteropt`).
ghost use Rattle.std.specs.Prelude.{◌≡◌, Ok};
ghost use Rattle.std.specs.Result.{result_and};
ghost use Rattle.pf_grammar.specs.Options as says;
ghost use Rattle.pf_grammar.specs.Options.{allow_option, flags_part, groups, icmp_part, label_part, nat_part, no_state, option, option_behind, option_words, prio_part, rdr_part, scrub_option, set_option, state_clause, tag_part, tagged_part, tos_part, users};
ghost use Rattle.pf_syntax.specs.Taking.{Takes};
ghost use Rattle.pf_syntax.specs.Words.{keyword};

use crate::keyword::OptionWord;
use pf_base::Family;
use pf_form::Draft;
use pf_form::flags::take_flags;
use pf_form::kind::may_translate;
use pf_form::setting::{ReadSet, is_no_scrub, take_prio, take_scrub, take_settings, take_tos};
use pf_form::state::take_state_options;
use pf_parts::{Overload, StateKind, TagTest};
use pf_rule::Params;
use pf_syntax::keyword::{Key, take_key};
use pf_syntax::list::take_list;
use pf_syntax::operator::{EachIcmpType, EachOp, take_target};
use pf_syntax::{Cursor, Stop};

const OPTION_WORDS: [Key<OptionWord>; 19] = [
    Key(b"user", OptionWord::User),
    Key(b"group", OptionWord::Group),
    Key(b"flags", OptionWord::Flags),
    Key(b"icmp-type", OptionWord::IcmpType),
    Key(b"icmp6-type", OptionWord::Icmp6Type),
    Key(b"tos", OptionWord::Tos),
    Key(b"prio", OptionWord::Prio),
    Key(b"tagged", OptionWord::Tagged),
    Key(b"tag", OptionWord::Tag),
    Key(b"no", OptionWord::No),
    Key(b"keep", OptionWord::Keep),
    Key(b"modulate", OptionWord::Modulate),
    Key(b"synproxy", OptionWord::Synproxy),
    Key(b"set", OptionWord::Set),
    Key(b"scrub", OptionWord::Scrub),
    Key(b"allow-opts", OptionWord::AllowOpts),
    Key(b"label", OptionWord::Label),
    Key(b"nat-to", OptionWord::NatTo),
    Key(b"rdr-to", OptionWord::RdrTo),
];

// Takes the tests of the user.
#[tactic(auto, unfolding(crate::specs::Options::users))]
fn take_users(cursor: &mut Cursor, draft: &mut Draft) -> Result<(), Stop>
    ensures { Takes (users draft.old) cursor.old (result_and result (Ok draft.new)) cursor.new }
{
    if !draft.form.users.items().is_empty() {
        return Err(Stop::Outside);
    }
    let tests = take_list(&EachOp, cursor)?;
    draft.group_first = !draft.form.groups.items().is_empty();
    draft.form.users = tests;
    Ok(())
}

// Takes the tests of the group.
#[tactic(auto, unfolding(crate::specs::Options::groups))]
fn take_groups(cursor: &mut Cursor, draft: &mut Draft) -> Result<(), Stop>
    ensures { Takes (groups draft.old) cursor.old (result_and result (Ok draft.new)) cursor.new }
{
    if !draft.form.groups.items().is_empty() {
        return Err(Stop::Outside);
    }
    let tests = take_list(&EachOp, cursor)?;
    draft.form.groups = tests;
    Ok(())
}

// Takes the flags.
#[tactic(auto, unfolding(crate::specs::Options::flags_part))]
fn take_flags_part(cursor: &mut Cursor, draft: &mut Draft) -> Result<(), Stop>
    ensures { Takes (flags_part draft.old) cursor.old (result_and result (Ok draft.new)) cursor.new }
{
    if draft.form.flags.is_some() {
        return Err(Stop::Outside);
    }
    let read = take_flags(cursor)?;
    draft.form.flags = Some(read.flags);
    draft.unknown_flag = read.unknown;
    Ok(())
}

// Takes ICMP types of a family.
#[tactic(auto, unfolding(crate::specs::Options::icmp_part))]
fn take_icmp_part(cursor: &mut Cursor, family: Family, draft: &mut Draft) -> Result<(), Stop>
    ensures { Takes (icmp_part family draft.old) cursor.old (result_and result (Ok draft.new)) cursor.new }
{
    if !draft.form.icmp.items().is_empty() {
        return Err(Stop::Outside);
    }
    let types = take_list(&EachIcmpType { family }, cursor)?;
    draft.form.icmp = types;
    Ok(())
}

// Takes a value of `tos`.
#[tactic(auto, unfolding(crate::specs::Options::tos_part))]
fn take_tos_part(cursor: &mut Cursor, draft: &mut Draft) -> Result<(), Stop>
    ensures { Takes (tos_part draft.old) cursor.old (result_and result (Ok draft.new)) cursor.new }
{
    if draft.form.tos.is_some() {
        return Err(Stop::Outside);
    }
    let value = take_tos(cursor)?;
    draft.form.tos = Some(value);
    Ok(())
}

// Takes a priority.
#[tactic(auto, unfolding(crate::specs::Options::prio_part))]
fn take_prio_part(cursor: &mut Cursor, draft: &mut Draft) -> Result<(), Stop>
    ensures { Takes (prio_part draft.old) cursor.old (result_and result (Ok draft.new)) cursor.new }
{
    if draft.form.prio.is_some() {
        return Err(Stop::Outside);
    }
    let value = take_prio(cursor)?;
    draft.form.prio = Some(value);
    Ok(())
}

// Whether no tag is tested yet.
fn tests_no_tag(test: &TagTest) -> bool
    ensures { result ≡ says.tests_no_tag test.now }
{
    matches!(test, TagTest::Any)
}

// Takes the tag that is tested.
#[tactic(auto, unfolding(crate::specs::Options::tagged_part))]
fn take_tagged_part(cursor: &mut Cursor, negated: bool, draft: &mut Draft) -> Result<(), Stop>
    ensures { Takes (tagged_part negated draft.old) cursor.old (result_and result (Ok draft.new)) cursor.new }
{
    if !tests_no_tag(&draft.form.tagged) {
        return Err(Stop::Outside);
    }
    let name = cursor.take_name()?;
    draft.form.tagged = TagTest::Is { name, negated };
    Ok(())
}

// Takes the tag that is set.
#[tactic(auto, unfolding(crate::specs::Options::tag_part))]
fn take_tag_part(cursor: &mut Cursor, draft: &mut Draft) -> Result<(), Stop>
    ensures { Takes (tag_part draft.old) cursor.old (result_and result (Ok draft.new)) cursor.new }
{
    if draft.form.tag.is_some() {
        return Err(Stop::Outside);
    }
    let name = cursor.take_name()?;
    draft.form.tag = Some(name);
    Ok(())
}

// Takes `state` behind `no`.
#[tactic(auto, unfolding(crate::specs::Options::no_state))]
fn take_no_state(cursor: &mut Cursor, draft: &mut Draft) -> Result<(), Stop>
    ensures { Takes (no_state draft.old) cursor.old (result_and result (Ok draft.new)) cursor.new }
{
    if draft.form.state.is_some() {
        return Err(Stop::Outside);
    }
    cursor.take_keyword(b"state")?;
    draft.form.state = Some(StateKind::None);
    Ok(())
}

// Takes a state clause behind its first word.
#[tactic(auto, unfolding(crate::specs::Options::state_clause))]
fn take_state_clause(cursor: &mut Cursor, kind: StateKind, draft: &mut Draft) -> Result<(), Stop>
    ensures { Takes (state_clause kind draft.old) cursor.old (result_and result (Ok draft.new)) cursor.new }
{
    if draft.form.state.is_some() {
        return Err(Stop::Outside);
    }
    // A type within the options, which the proof of the assignment must know.
    let _type: Option<Overload> = None;
    let read = take_state_options(cursor)?;
    draft.form.state = Some(kind);
    draft.form.options = read.options;
    draft.repeated_option = read.repeated;
    Ok(())
}

// The parts of `set` that stand before.
fn set_before(params: &Params) -> ReadSet
    ensures { result ≡ says.set_before params.now }
{
    ReadSet {
        queue: params.queue,
        prio: params.prio,
        tos: params.tos,
    }
}

// Takes parts of `set`.
#[tactic(auto, unfolding(crate::specs::Options::set_option))]
fn take_set_option(cursor: &mut Cursor, draft: &mut Draft) -> Result<(), Stop>
    ensures { Takes (set_option draft.old) cursor.old (result_and result (Ok draft.new)) cursor.new }
{
    let before = set_before(&draft.form.params);
    let set = take_settings(cursor, before)?;
    draft.form.params.queue = set.queue;
    draft.form.params.prio = set.prio;
    draft.form.params.tos = set.tos;
    Ok(())
}

// Takes the parts of `scrub`.
#[tactic(auto, unfolding(crate::specs::Options::scrub_option))]
fn take_scrub_option(cursor: &mut Cursor, draft: &mut Draft) -> Result<(), Stop>
    ensures { Takes (scrub_option draft.old) cursor.old (result_and result (Ok draft.new)) cursor.new }
{
    if !is_no_scrub(&draft.form.params.scrub) {
        return Err(Stop::Outside);
    }
    let scrub = take_scrub(cursor)?;
    draft.form.params.scrub = scrub;
    Ok(())
}

// Lays `allow-opts` on the rule.
#[tactic(auto, unfolding(crate::specs::Options::allow_option))]
fn take_allow_option(cursor: &mut Cursor, draft: &mut Draft) -> Result<(), Stop>
    ensures { Takes (allow_option draft.old) cursor.old (result_and result (Ok draft.new)) cursor.new }
{
    if draft.form.params.allow_opts {
        return Err(Stop::Outside);
    }
    draft.form.params.allow_opts = true;
    Ok(())
}

// Takes the label.
#[tactic(auto, unfolding(crate::specs::Options::label_part))]
fn take_label_part(cursor: &mut Cursor, draft: &mut Draft) -> Result<(), Stop>
    ensures { Takes (label_part draft.old) cursor.old (result_and result (Ok draft.new)) cursor.new }
{
    if draft.form.label.is_some() {
        return Err(Stop::Outside);
    }
    let name = cursor.take_name()?;
    draft.form.label = Some(name);
    Ok(())
}

// Takes the source behind `nat-to`.
#[tactic(auto, unfolding(crate::specs::Options::nat_part))]
fn take_nat_part(cursor: &mut Cursor, draft: &mut Draft) -> Result<(), Stop>
    ensures { Takes (nat_part draft.old) cursor.old (result_and result (Ok draft.new)) cursor.new }
{
    if !may_translate(&draft.form.head) || draft.form.nat.is_some() {
        return Err(Stop::Outside);
    }
    let words = take_target(cursor)?;
    draft.rdr_first = draft.form.rdr.is_some();
    draft.form.nat = Some(words);
    Ok(())
}

// Takes the target behind `rdr-to`.
#[tactic(auto, unfolding(crate::specs::Options::rdr_part))]
fn take_rdr_part(cursor: &mut Cursor, draft: &mut Draft) -> Result<(), Stop>
    ensures { Takes (rdr_part draft.old) cursor.old (result_and result (Ok draft.new)) cursor.new }
{
    if !may_translate(&draft.form.head) || draft.form.rdr.is_some() {
        return Err(Stop::Outside);
    }
    let words = take_target(cursor)?;
    draft.form.rdr = Some(words);
    Ok(())
}

// Takes what stands behind the keyword of an option.
fn take_option_behind(cursor: &mut Cursor, word: OptionWord, draft: &mut Draft) -> Result<(), Stop>
    ensures { Takes (option_behind word draft.old) cursor.old (result_and result (Ok draft.new)) cursor.new }
{
    match word {
        OptionWord::User => take_users(cursor, draft),
        OptionWord::Group => take_groups(cursor, draft),
        OptionWord::Flags => take_flags_part(cursor, draft),
        OptionWord::IcmpType => take_icmp_part(cursor, Family::Inet, draft),
        OptionWord::Icmp6Type => take_icmp_part(cursor, Family::Inet6, draft),
        OptionWord::Tos => take_tos_part(cursor, draft),
        OptionWord::Prio => take_prio_part(cursor, draft),
        OptionWord::Tagged => take_tagged_part(cursor, false, draft),
        OptionWord::Tag => take_tag_part(cursor, draft),
        OptionWord::No => take_no_state(cursor, draft),
        OptionWord::Keep => take_state_clause(cursor, StateKind::Keep, draft),
        OptionWord::Modulate => take_state_clause(cursor, StateKind::Modulate, draft),
        OptionWord::Synproxy => take_state_clause(cursor, StateKind::Synproxy, draft),
        OptionWord::Set => take_set_option(cursor, draft),
        OptionWord::Scrub => take_scrub_option(cursor, draft),
        OptionWord::AllowOpts => take_allow_option(cursor, draft),
        OptionWord::Label => take_label_part(cursor, draft),
        OptionWord::NatTo => take_nat_part(cursor, draft),
        OptionWord::RdrTo => take_rdr_part(cursor, draft),
    }
}

// Takes the keyword of an option.
#[tactic(auto, unfolding(crate::specs::Options::option_words))]
fn take_option_word(cursor: &mut Cursor) -> Result<OptionWord, Stop>
    ensures { Takes (keyword option_words) cursor.old result cursor.new }
{
    take_key(&OPTION_WORDS, cursor)
}

// Takes an option, and lays it on the rule.
#[tactic(auto, unfolding(crate::specs::Options::option))]
fn lay_option(cursor: &mut Cursor, draft: &mut Draft) -> Result<(), Stop>
    ensures { Takes (option draft.old) cursor.old (result_and result (Ok draft.new)) cursor.new }
{
    if cursor.passes_sign(b"!") {
        cursor.take_keyword(b"tagged")?;
        return take_tagged_part(cursor, true, draft);
    }
    let word = take_option_word(cursor)?;
    take_option_behind(cursor, word, draft)
}

/// Takes an option, and gives the rule with it.
pub fn take_option(cursor: &mut Cursor, before: Draft) -> Result<Draft, Stop>
    ensures { Takes (option before) cursor.old result cursor.new }
{
    let mut draft = before;
    lay_option(cursor, &mut draft)?;
    Ok(draft)
}
