//! The line of a setting, as it is shown (pf.conf(5), OPTIONS).
ghost use Rattle.std.specs.Prelude.{◌≡◌, ◌++◌, [], ◌∷◌, codes, decimal, IfOk, OnOk};
ghost use Rattle.pf_decl.specs.Lines as says;
ghost use Rattle.pf_parts.specs.BlockText.{block_text};

use crate::form::{OptionLine, SetForm, Setting};
use pf_base::{Level, List, Name, NoMemory};
use pf_parts::{BlockKind, put, put_block_kind, put_named, put_numbered};
use std::alloc::Global;

fn level_text(level: Level) -> &'static [u8]
    ensures { result.now ≡ says.level_text level }
{
    match level {
        Level::None => b"none",
        Level::Basic => b"basic",
        Level::Profile => b"profile",
    }
}

fn policy_text(bound: bool) -> &'static [u8]
    ensures { result.now ≡ says.policy_text bound }
{
    if bound { b"if-bound" } else { b"floating" }
}

// Appends two texts.
fn put_both(out: &mut Vec<u8>, first: &[u8], second: &[u8]) -> Result<(), NoMemory>
    ensures { OnOk result (out.new.items ≡ out.old.items ++ (first.now ++ second.now)) }
{
    put(out, first)?;
    put(out, second)?;
    Ok(())
}

// Appends a text, a name and a number.
fn put_counted(out: &mut Vec<u8>, before: &[u8], name: &Name, number: u32) -> Result<(), NoMemory>
    ensures { OnOk result (out.new.items ≡ out.old.items ++ (before.now ++ name.now ++ codes " " ++ decimal number)) }
{
    put_both(out, before, name.bytes())?;
    put_numbered(out, b" ", number)?;
    Ok(())
}

// Appends a text and the kind of a block.
fn put_blocked(out: &mut Vec<u8>, before: &[u8], kind: BlockKind) -> Result<(), NoMemory>
    ensures { OnOk result (out.new.items ≡ out.old.items ++ (before.now ++ block_text kind)) }
{
    put(out, before)?;
    put_block_kind(out, kind)?;
    Ok(())
}

fn yes_text(yes: bool) -> &'static [u8]
    ensures { result.now ≡ says.yes_text yes }
{
    if yes { b"yes" } else { b"no" }
}

fn no_df_text(no_df: bool) -> &'static [u8]
    ensures { result.now ≡ says.no_df_text no_df }
{
    if no_df { b" no-df" } else { b"" }
}

// Appends three texts.
fn put_three(out: &mut Vec<u8>, first: &[u8], second: &[u8], third: &[u8]) -> Result<(), NoMemory>
    ensures { OnOk result (out.new.items ≡ out.old.items ++ (first.now ++ second.now ++ third.now)) }
{
    put_both(out, first, second)?;
    put(out, third)?;
    Ok(())
}

// Appends the line of a setting.
#[tactic(auto, unfolding(crate::specs::Lines::set_text))]
fn put_set(out: &mut Vec<u8>, form: &SetForm) -> Result<(), NoMemory>
    ensures { OnOk result (out.new.items ≡ out.old.items ++ says.set_text form.now) }
{
    match form {
        SetForm::Skip(name) => put_named(out, b"set skip on ", name),
        SetForm::BlockPolicy(kind) => put_blocked(out, b"set block-policy ", *kind),
        SetForm::StatePolicy(bound) => put_both(out, b"set state-policy ", policy_text(*bound)),
        SetForm::RulesetOptimization(level) => {
            put_both(out, b"set ruleset-optimization ", level_text(*level))
        }
        SetForm::Timeout { name, value } => put_counted(out, b"set timeout ", name, *value),
        SetForm::Limit { name, most } => put_counted(out, b"set limit ", name, *most),
        SetForm::Optimization(word) => put_both(out, b"set optimization ", word.bytes()),
        SetForm::Debug(word) => put_both(out, b"set debug ", word.bytes()),
        SetForm::Reassemble { fragments, no_df } => put_three(
            out,
            b"set reassemble ",
            yes_text(*fragments),
            no_df_text(*no_df),
        ),
        SetForm::LogInterface(name) => put_named(out, b"set loginterface ", name),
        SetForm::Fingerprints(name) => put_named(out, b"set fingerprints ", name),
    }
}

// What a load must know of a setting.
fn setting_of(form: &SetForm) -> Setting
    ensures { result ≡ says.setting_of form.now }
{
    match form {
        SetForm::Skip(name) => Setting::Skip(*name),
        SetForm::BlockPolicy(kind) => Setting::Block(*kind),
        SetForm::StatePolicy(bound) => Setting::Bound(*bound),
        SetForm::RulesetOptimization(level) => Setting::Level(*level),
        SetForm::Timeout { .. } | SetForm::Limit { .. } | SetForm::Reassemble { .. } => {
            Setting::Other
        }
        SetForm::Optimization(_)
        | SetForm::Debug(_)
        | SetForm::LogInterface(_)
        | SetForm::Fingerprints(_) => Setting::Other,
    }
}

/// The line of a setting with one member, with what a load must know of it.
pub fn line_of(alloc: Global, form: &SetForm) -> Result<OptionLine, NoMemory>
    ensures { IfOk result (λ line. line ≡ says.line_of form.now) }
{
    let mut text = Vec::new(alloc);
    put_set(&mut text, form)?;
    Ok(OptionLine {
        setting: setting_of(form),
        text: List::of(text),
    })
}

/// The one line of a setting that takes no list.
pub fn one_line(alloc: Global, form: &SetForm) -> Result<List<OptionLine>, NoMemory>
    ensures { IfOk result (λ lines. lines ≡ says.line_of form.now ∷ []) }
{
    let line = line_of(alloc, form)?;
    let mut lines = List::new(alloc);
    lines.push(line)?;
    Ok(lines)
}
