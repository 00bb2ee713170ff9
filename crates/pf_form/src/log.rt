//! Logs and `quick` (pf.conf(5), GRAMMAR, `logopts`).
ghost use Rattle.pf_form.specs.Log.{log_first, log_option, log_options, log_part, logged, quick_first};
ghost use Rattle.pf_syntax.specs.Taking.{Takes};

use crate::keyword::LogWord;
use pf_parts::Log;
use pf_syntax::keyword::{Key, take_key};
use pf_syntax::list::{Lay, take_in_brackets};
use pf_syntax::{Cursor, Stop};

/// Whether packets are logged, and whether the rule is quick.
#[derive(Clone, Copy, Debug, PartialEq, Eq)]
pub struct Logged {
    pub log: Log,
    pub quick: bool,
}

const LOG_WORDS: [Key<LogWord>; 4] = [
    Key(b"all", LogWord::All),
    Key(b"matches", LogWord::Matches),
    Key(b"user", LogWord::User),
    Key(b"to", LogWord::To),
];

const PLAIN: Log = Log {
    on: true,
    all: false,
    matches: false,
    user: false,
    to: None,
};

// Takes what stands behind a keyword of a log.
#[tactic(auto, unfolding(crate::specs::Log::log_part))]
fn take_log_part(cursor: &mut Cursor, word: LogWord, before: Log) -> Result<Log, Stop>
    ensures { Takes (log_part word before) cursor.old result cursor.new }
{
    let mut log = before;
    match word {
        LogWord::All => {
            if log.all {
                return Err(Stop::Outside);
            }
            log.all = true;
        }
        LogWord::Matches => {
            if log.matches {
                return Err(Stop::Outside);
            }
            log.matches = true;
        }
        LogWord::User => {
            if log.user {
                return Err(Stop::Outside);
            }
            log.user = true;
        }
        LogWord::To => {
            if log.to.is_some() {
                return Err(Stop::Outside);
            }
            let iface = cursor.take_name()?;
            log.to = Some(iface);
        }
    }
    Ok(log)
}

// Takes an option of a log.
#[tactic(auto, unfolding(crate::specs::Log::log_option, crate::specs::Log::log_words))]
fn take_log_option(cursor: &mut Cursor, before: Log) -> Result<Log, Stop>
    ensures { Takes (log_option before) cursor.old result cursor.new }
{
    let word = take_key(&LOG_WORDS, cursor)?;
    take_log_part(cursor, word, before)
}

// The options of a log.
#[derive(Clone, Copy)]
struct LogParts;

impl Lay<Log> for LogParts {
    ghost part = { λ _. log_option };

    fn lay(&self, cursor: &mut Cursor, value: Log) -> Result<Log, Stop> {
        take_log_option(cursor, value)
    }
}

// Takes the options behind `log`, where they stand.
#[tactic(auto, unfolding(crate::specs::Log::log_options))]
fn take_log_options(cursor: &mut Cursor) -> Result<Log, Stop>
    ensures { Takes log_options cursor.old result cursor.new }
{
    if cursor.is_at_sign(b"(") {
        take_in_brackets(&LogParts, cursor, PLAIN)
    } else {
        Ok(PLAIN)
    }
}

// Takes what stands behind `log`.
#[tactic(auto, unfolding(crate::specs::Log::log_first))]
fn take_log_first(cursor: &mut Cursor) -> Result<Logged, Stop>
    ensures { Takes log_first cursor.old result cursor.new }
{
    let log = take_log_options(cursor)?;
    let quick = cursor.passes(b"quick");
    Ok(Logged { log, quick })
}

// Takes what stands behind `quick`.
#[tactic(auto, unfolding(crate::specs::Log::quick_first))]
fn take_quick_first(cursor: &mut Cursor) -> Result<Logged, Stop>
    ensures { Takes quick_first cursor.old result cursor.new }
{
    if cursor.passes(b"log") {
        let log = take_log_options(cursor)?;
        return Ok(Logged { log, quick: true });
    }
    Ok(Logged {
        log: Log::NONE,
        quick: true,
    })
}

/// Takes `log` and `quick`, where they stand.
#[tactic(auto, unfolding(crate::specs::Log::logged))]
pub fn take_logged(cursor: &mut Cursor) -> Result<Logged, Stop>
    ensures { Takes logged cursor.old result cursor.new }
{
    if cursor.passes(b"log") {
        return take_log_first(cursor);
    }
    if cursor.passes(b"quick") {
        return take_quick_first(cursor);
    }
    Ok(Logged {
        log: Log::NONE,
        quick: false,
    })
}
