//! The command line as clap is told of it.

ghost use Rattle.std.specs.Prelude.{◌≡◌, IfOk, false};
ghost use Rattle.clap.specs.Words.{app_of, rule_of};
ghost use Rattle.mask_words.specs.Command.{flag_rule, mask_command, option_rule, required_rule};

use crate::names;
use clap::{Arg, ArgAction, Command};
use std::alloc::{AllocError, Global};

fn required_word<'a>(alloc: Global, id: &'a str) -> Arg<'a>
    ensures rule { rule_of result ≡ required_rule id.entry.now }
    ensures local { result.global ≡ false }
{
    Arg::new(alloc, id).required(true).action(ArgAction::Set)
}

fn option<'a>(alloc: Global, name: &'a str) -> Arg<'a>
    ensures rule { rule_of result ≡ option_rule name.entry.now }
    ensures local { result.global ≡ false }
{
    Arg::new(alloc, name).long(name).action(ArgAction::Set)
}

fn flag<'a>(alloc: Global, name: &'a str) -> Arg<'a>
    ensures rule { rule_of result ≡ flag_rule name.entry.now }
    ensures local { result.global ≡ false }
{
    Arg::new(alloc, name).long(name).action(ArgAction::SetTrue)
}

/// The one simple command that a command line is.
pub(crate) fn mask_command<'a>(alloc: Global) -> Result<Command<'a>, AllocError>
    ensures app { IfOk result (λ c. app_of c ≡ mask_command) }
{
    Command::new(alloc, "mask")
        .disable_help_flag(true)
        .arg(required_word(alloc, names::TASK))?
        .arg(required_word(alloc, names::ARGUMENT))?
        .arg(option(alloc, names::SIZE))?
        .arg(option(alloc, names::WORKERS))?
        .arg(option(alloc, names::BLOCK))?
        .arg(option(alloc, names::BUDGET))?
        .arg(option(alloc, names::WORDS))?
        .arg(option(alloc, names::WIRES))?
        .arg(flag(alloc, names::TALLIES))
}
