ghost use Rattle.std.specs.Prelude.{◌≡◌, IfOk};
ghost use Rattle.clap.specs.Words.{app_of, with_rule};
ghost use Rattle.pm_words.specs.Line.{bare, flag, line, mode, option};

use clap::{Arg, ArgAction, Command};
use std::alloc::{AllocError, Global};

fn with_option<'a>(
    alloc: Global,
    command: Command<'a>,
    name: &'a str,
) -> Result<Command<'a>, AllocError>
    ensures { IfOk result (λ c. app_of c ≡ with_rule (app_of command.entry) (option name.entry.now)) }
{
    let arg = Arg::new(alloc, name).long(name).action(ArgAction::Set);
    command.arg(arg)
}

fn with_journal<'a>(alloc: Global, command: Command<'a>) -> Result<Command<'a>, AllocError>
    ensures { IfOk result (λ c. app_of c ≡ with_rule (app_of command.entry) flag) }
{
    let arg = Arg::new(alloc, "journal")
        .long("journal")
        .action(ArgAction::SetTrue);
    command.arg(arg)
}

fn with_mode<'a>(alloc: Global) -> Result<Command<'a>, AllocError>
    ensures { IfOk result (λ c. app_of c ≡ with_rule bare mode) }
{
    let arg = Arg::new(alloc, "mode")
        .required(true)
        .action(ArgAction::Set);
    let command = Command::new(alloc, "pdesmas")
        .no_binary_name(true)
        .disable_help_flag(true);
    command.arg(arg)
}

/// The command line as the parser is told it: each value is a text, so that the limits are told by us alone.
pub fn command<'a>(alloc: Global) -> Result<Command<'a>, AllocError>
    ensures { IfOk result (λ c. app_of c ≡ line) }
{
    let first = with_mode(alloc)?;
    let second = with_option(alloc, first, "workers")?;
    let third = with_option(alloc, second, "budget")?;
    let fourth = with_option(alloc, third, "epoch")?;
    let fifth = with_option(alloc, fourth, "window")?;
    let sixth = with_option(alloc, fifth, "seed")?;
    let seventh = with_option(alloc, sixth, "from")?;
    with_journal(alloc, seventh)
}
