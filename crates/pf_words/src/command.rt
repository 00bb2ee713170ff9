//! The program as clap's command.
ghost use Rattle.std.specs.Prelude.{◌≡◌, IfOk, false};
ghost use Rattle.clap.specs.Words.{app_of, rule_of};
ghost use Rattle.pf_words.specs.Program.{bare_program, flag_rule, option_rule, program, with_options, with_tasks};

use clap::{Arg, ArgAction, Command};
use std::alloc::{AllocError, Global};

// An option of one letter, which takes one value.
fn option<'a>(alloc: Global, id: &'a str, letter: char) -> Arg<'a>
    ensures rule { rule_of result ≡ option_rule id.now letter }
    ensures global { result.global ≡ false }
{
    Arg::new(alloc, id).short(letter).action(ArgAction::Set)
}

// A flag of one letter.
fn flag<'a>(alloc: Global, id: &'a str, letter: char) -> Arg<'a>
    ensures rule { rule_of result ≡ flag_rule id.now letter }
    ensures global { result.global ≡ false }
{
    Arg::new(alloc, id).short(letter).action(ArgAction::SetTrue)
}

// The command without its arguments.
fn bare_command<'a>(alloc: Global) -> Command<'a>
    ensures { app_of result ≡ bare_program }
{
    Command::new(alloc, "pfctl")
        .no_binary_name(true)
        .disable_help_flag(true)
}

// What is to be done: -S, -f, -g and -H.
fn with_tasks<'a>(alloc: Global, command: Command<'a>) -> Result<Command<'a>, AllocError>
    ensures { IfOk result (λ made. app_of made ≡ with_tasks (app_of command.entry)) }
{
    command
        .arg(flag(alloc, "script", 'S'))?
        .arg(option(alloc, "file", 'f'))?
        .arg(option(alloc, "generate", 'g'))?
        .arg(option(alloc, "hosts", 'H'))
}

// The options of a load: -o, -a, -P and -D.
fn with_options<'a>(alloc: Global, command: Command<'a>) -> Result<Command<'a>, AllocError>
    ensures { IfOk result (λ made. app_of made ≡ with_options (app_of command.entry)) }
{
    command
        .arg(option(alloc, "level", 'o'))?
        .arg(option(alloc, "path", 'a'))?
        .arg(option(alloc, "profile", 'P'))?
        .arg(option(alloc, "define", 'D'))
}

/// The program's command.
pub(crate) fn command<'a>(alloc: Global) -> Result<Command<'a>, AllocError>
    ensures { IfOk result (λ made. app_of made ≡ program) }
{
    with_options(alloc, with_tasks(alloc, bare_command(alloc))?)
}
