//! `set` (pf.conf(5), GRAMMAR, `option`, and OPTIONS).
ghost use Rattle.std.specs.Prelude.{◌≡◌, IsTrue};
ghost use Rattle.std.specs.List.{list_all};
ghost use Rattle.pf_syntax.specs.LeftOut.{texts_of};
ghost use Rattle.pf_syntax.specs.Lists.{list_of};
ghost use Rattle.pf_syntax.specs.Taking.{Takes};
ghost use Rattle.pf_syntax.specs.Words.{is_name};
ghost use Rattle.pf_decl.specs.Settings as says;
ghost use Rattle.pf_decl.specs.Settings.{line, one_line, one_of};

use crate::form::{OptionLine, SetForm};
use crate::keyword::SetWord;
use crate::line;
use pf_base::{Level, List, Name};
use pf_parts::BlockKind;
use pf_syntax::keyword::{Key, take_key};
use pf_syntax::list::{Take, take_list};
use pf_syntax::listed::{Listed, is_one_of};
use pf_syntax::{Cursor, Stop};

const SET_WORDS: [Key<SetWord>; 11] = [
    Key(b"skip", SetWord::Skip),
    Key(b"block-policy", SetWord::BlockPolicy),
    Key(b"state-policy", SetWord::StatePolicy),
    Key(b"ruleset-optimization", SetWord::RulesetOptimization),
    Key(b"timeout", SetWord::Timeout),
    Key(b"limit", SetWord::Limit),
    Key(b"optimization", SetWord::Optimization),
    Key(b"debug", SetWord::Debug),
    Key(b"reassemble", SetWord::Reassemble),
    Key(b"loginterface", SetWord::LogInterface),
    Key(b"fingerprints", SetWord::Fingerprints),
];

const BLOCK_POLICIES: [Key<BlockKind>; 2] = [
    Key(b"drop", BlockKind::Drop),
    Key(b"return", BlockKind::Return),
];

const STATE_POLICIES: [Key<bool>; 2] = [Key(b"if-bound", true), Key(b"floating", false)];

const LEVELS: [Key<Level>; 3] = [
    Key(b"none", Level::None),
    Key(b"basic", Level::Basic),
    Key(b"profile", Level::Profile),
];

const YES_OR_NO: [Key<bool>; 2] = [Key(b"yes", true), Key(b"no", false)];

const TIMEOUTS: [Listed; 20] = [
    Listed(b"tcp.first"),
    Listed(b"tcp.opening"),
    Listed(b"tcp.established"),
    Listed(b"tcp.closing"),
    Listed(b"tcp.finwait"),
    Listed(b"tcp.closed"),
    Listed(b"tcp.tsdiff"),
    Listed(b"udp.first"),
    Listed(b"udp.single"),
    Listed(b"udp.multiple"),
    Listed(b"icmp.first"),
    Listed(b"icmp.error"),
    Listed(b"other.first"),
    Listed(b"other.single"),
    Listed(b"other.multiple"),
    Listed(b"frag"),
    Listed(b"interval"),
    Listed(b"src.track"),
    Listed(b"adaptive.start"),
    Listed(b"adaptive.end"),
];

const LIMITS: [Listed; 7] = [
    Listed(b"states"),
    Listed(b"frags"),
    Listed(b"src-nodes"),
    Listed(b"tables"),
    Listed(b"table-entries"),
    Listed(b"anchors"),
    Listed(b"pktdelay-pkts"),
];

const OPTIMIZATIONS: [Listed; 6] = [
    Listed(b"default"),
    Listed(b"normal"),
    Listed(b"high-latency"),
    Listed(b"satellite"),
    Listed(b"aggressive"),
    Listed(b"conservative"),
];

const DEBUG_LEVELS: [Listed; 8] = [
    Listed(b"emerg"),
    Listed(b"alert"),
    Listed(b"crit"),
    Listed(b"err"),
    Listed(b"warning"),
    Listed(b"notice"),
    Listed(b"info"),
    Listed(b"debug"),
];

// The name that a word is, where it is one of these.
fn listed_name(words: &[Listed], word: &[u8]) -> Option<Name>
    requires { IsTrue (list_all is_name (texts_of words.now)) }
    ensures { result ≡ says.listed (texts_of words.now) word.now }
{
    if is_one_of(words, word) {
        Name::new(word)
    } else {
        None
    }
}

// Takes one of these words.
fn take_one_of(words: &[Listed], cursor: &mut Cursor) -> Result<Name, Stop>
    requires { IsTrue (list_all is_name (texts_of words.now)) }
    ensures { Takes (one_of (texts_of words.now)) cursor.old result cursor.new }
{
    match cursor.next_word() {
        None => Err(Stop::Outside),
        Some(word) => match listed_name(words, word) {
            None => Err(Stop::Outside),
            Some(name) => {
                cursor.pass();
                Ok(name)
            }
        },
    }
}

// Takes the name of a timeout.
#[tactic(auto, unfolding(pf_syntax::specs::Fault::timeouts))]
fn take_timeout_name(cursor: &mut Cursor) -> Result<Name, Stop>
    ensures { Takes says.timeout_name cursor.old result cursor.new }
{
    take_one_of(&TIMEOUTS, cursor)
}

// Takes the name of what is limited.
#[tactic(auto, unfolding(crate::specs::Settings::limits))]
fn take_limit_name(cursor: &mut Cursor) -> Result<Name, Stop>
    ensures { Takes says.limit_name cursor.old result cursor.new }
{
    take_one_of(&LIMITS, cursor)
}

// Takes a member of `skip on`.
#[tactic(auto, unfolding(crate::specs::Settings::skip))]
fn take_skip(cursor: &mut Cursor) -> Result<SetForm, Stop>
    ensures { Takes says.skip cursor.old result cursor.new }
{
    let iface = cursor.take_name()?;
    Ok(SetForm::Skip(iface))
}

// Takes a member of `timeout`.
#[tactic(auto, unfolding(crate::specs::Settings::timeout))]
fn take_timeout(cursor: &mut Cursor) -> Result<SetForm, Stop>
    ensures { Takes says.timeout cursor.old result cursor.new }
{
    let name = take_timeout_name(cursor)?;
    let value = cursor.take_number(0, u32::MAX)?;
    Ok(SetForm::Timeout { name, value })
}

// Takes a member of `limit`.
#[tactic(auto, unfolding(crate::specs::Settings::limit))]
fn take_limit(cursor: &mut Cursor) -> Result<SetForm, Stop>
    ensures { Takes says.limit cursor.old result cursor.new }
{
    let name = take_limit_name(cursor)?;
    let most = cursor.take_number(0, u32::MAX)?;
    Ok(SetForm::Limit { name, most })
}

// The members of `skip on`, as lines.
#[derive(Clone, Copy)]
struct SkipLines;

impl Take<OptionLine> for SkipLines {
    ghost grammar = { λ _. line says.skip };

    fn take(&self, cursor: &mut Cursor) -> Result<OptionLine, Stop> {
        let form = take_skip(cursor)?;
        let line = line::line_of(cursor.alloc(), &form)?;
        Ok(line)
    }
}

// The members of `timeout`, as lines.
#[derive(Clone, Copy)]
struct TimeoutLines;

impl Take<OptionLine> for TimeoutLines {
    ghost grammar = { λ _. line says.timeout };

    fn take(&self, cursor: &mut Cursor) -> Result<OptionLine, Stop> {
        let form = take_timeout(cursor)?;
        let line = line::line_of(cursor.alloc(), &form)?;
        Ok(line)
    }
}

// The members of `limit`, as lines.
#[derive(Clone, Copy)]
struct LimitLines;

impl Take<OptionLine> for LimitLines {
    ghost grammar = { λ _. line says.limit };

    fn take(&self, cursor: &mut Cursor) -> Result<OptionLine, Stop> {
        let form = take_limit(cursor)?;
        let line = line::line_of(cursor.alloc(), &form)?;
        Ok(line)
    }
}

// Takes what stands behind `skip`.
fn take_skip_lines(cursor: &mut Cursor) -> Result<List<OptionLine>, Stop>
    ensures { Takes says.skip_lines cursor.old result cursor.new }
{
    cursor.take_keyword(b"on")?;
    take_list(&SkipLines, cursor)
}

fn take_timeout_lines(cursor: &mut Cursor) -> Result<List<OptionLine>, Stop>
    ensures { Takes (list_of (line says.timeout)) cursor.old result cursor.new }
{
    take_list(&TimeoutLines, cursor)
}

fn take_limit_lines(cursor: &mut Cursor) -> Result<List<OptionLine>, Stop>
    ensures { Takes (list_of (line says.limit)) cursor.old result cursor.new }
{
    take_list(&LimitLines, cursor)
}

#[tactic(auto, unfolding(crate::specs::Settings::block_policy, crate::specs::Settings::block_policies))]
fn take_block_policy(cursor: &mut Cursor) -> Result<List<OptionLine>, Stop>
    ensures { Takes (one_line says.block_policy) cursor.old result cursor.new }
{
    let kind = take_key(&BLOCK_POLICIES, cursor)?;
    let lines = line::one_line(cursor.alloc(), &SetForm::BlockPolicy(kind))?;
    Ok(lines)
}

#[tactic(auto, unfolding(crate::specs::Settings::state_policy, crate::specs::Settings::state_policies))]
fn take_state_policy(cursor: &mut Cursor) -> Result<List<OptionLine>, Stop>
    ensures { Takes (one_line says.state_policy) cursor.old result cursor.new }
{
    let bound = take_key(&STATE_POLICIES, cursor)?;
    let lines = line::one_line(cursor.alloc(), &SetForm::StatePolicy(bound))?;
    Ok(lines)
}

#[tactic(auto, unfolding(crate::specs::Settings::ruleset_optimization, crate::specs::Settings::level_words))]
fn take_ruleset_optimization(cursor: &mut Cursor) -> Result<List<OptionLine>, Stop>
    ensures { Takes (one_line says.ruleset_optimization) cursor.old result cursor.new }
{
    let level = take_key(&LEVELS, cursor)?;
    let lines = line::one_line(cursor.alloc(), &SetForm::RulesetOptimization(level))?;
    Ok(lines)
}

#[tactic(auto, unfolding(crate::specs::Settings::optimization, crate::specs::Settings::optimizations))]
fn take_optimization(cursor: &mut Cursor) -> Result<List<OptionLine>, Stop>
    ensures { Takes (one_line says.optimization) cursor.old result cursor.new }
{
    let word = take_one_of(&OPTIMIZATIONS, cursor)?;
    let lines = line::one_line(cursor.alloc(), &SetForm::Optimization(word))?;
    Ok(lines)
}

#[tactic(auto, unfolding(crate::specs::Settings::debug, crate::specs::Settings::debug_levels))]
fn take_debug(cursor: &mut Cursor) -> Result<List<OptionLine>, Stop>
    ensures { Takes (one_line says.debug) cursor.old result cursor.new }
{
    let word = take_one_of(&DEBUG_LEVELS, cursor)?;
    let lines = line::one_line(cursor.alloc(), &SetForm::Debug(word))?;
    Ok(lines)
}

#[tactic(auto, unfolding(crate::specs::Settings::reassemble, crate::specs::Settings::yes_or_no))]
fn take_reassemble(cursor: &mut Cursor) -> Result<List<OptionLine>, Stop>
    ensures { Takes (one_line says.reassemble) cursor.old result cursor.new }
{
    let fragments = take_key(&YES_OR_NO, cursor)?;
    let no_df = cursor.passes(b"no-df");
    let lines = line::one_line(cursor.alloc(), &SetForm::Reassemble { fragments, no_df })?;
    Ok(lines)
}

#[tactic(auto, unfolding(crate::specs::Settings::log_interface))]
fn take_log_interface(cursor: &mut Cursor) -> Result<List<OptionLine>, Stop>
    ensures { Takes (one_line says.log_interface) cursor.old result cursor.new }
{
    let iface = cursor.take_name()?;
    let lines = line::one_line(cursor.alloc(), &SetForm::LogInterface(iface))?;
    Ok(lines)
}

#[tactic(auto, unfolding(crate::specs::Settings::fingerprints))]
fn take_fingerprints(cursor: &mut Cursor) -> Result<List<OptionLine>, Stop>
    ensures { Takes (one_line says.fingerprints) cursor.old result cursor.new }
{
    let file = cursor.take_name()?;
    let lines = line::one_line(cursor.alloc(), &SetForm::Fingerprints(file))?;
    Ok(lines)
}

// Takes what stands behind the keyword of a setting.
#[tactic(auto, unfolding(crate::specs::Settings::set_behind))]
fn take_set_behind(cursor: &mut Cursor, word: SetWord) -> Result<List<OptionLine>, Stop>
    ensures { Takes (says.set_behind word) cursor.old result cursor.new }
{
    match word {
        SetWord::Skip => take_skip_lines(cursor),
        SetWord::BlockPolicy => take_block_policy(cursor),
        SetWord::StatePolicy => take_state_policy(cursor),
        SetWord::RulesetOptimization => take_ruleset_optimization(cursor),
        SetWord::Timeout => take_timeout_lines(cursor),
        SetWord::Limit => take_limit_lines(cursor),
        SetWord::Optimization => take_optimization(cursor),
        SetWord::Debug => take_debug(cursor),
        SetWord::Reassemble => take_reassemble(cursor),
        SetWord::LogInterface => take_log_interface(cursor),
        SetWord::Fingerprints => take_fingerprints(cursor),
    }
}

/// Takes a setting behind `set`: a line for each member, in order.
#[tactic(auto, unfolding(crate::specs::Settings::setting, crate::specs::Settings::set_words))]
pub fn take_setting(cursor: &mut Cursor) -> Result<List<OptionLine>, Stop>
    ensures { Takes says.setting cursor.old result cursor.new }
{
    let word = take_key(&SET_WORDS, cursor)?;
    take_set_behind(cursor, word)
}
