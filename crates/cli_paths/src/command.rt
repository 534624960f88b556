//! The command, as `clap` reads it.

ghost use Rattle.std.specs.Prelude.{◌≡◌, IfOk};
ghost use Rattle.clap.specs.Simple.{App, app_of, with_rule};
ghost use Rattle.cli_paths.specs.Command.{paths, bare, addresses_rule, option_rule};

use clap::{Arg, ArgAction, Command};
use std::alloc::{AllocError, Global};

// The command without its arguments. All words are arguments, and there is no help.
fn bare<'a>(alloc: Global) -> Command<'a>
    ensures { app_of result ≡ bare }
{
    Command::new(alloc, "drmpaths")
        .no_binary_name(true)
        .disable_help_flag(true)
}

// The plain word.
fn with_addresses<'a>(alloc: Global, command: Command<'a>) -> Result<Command<'a>, AllocError>
    ensures { IfOk result (λ c. app_of c ≡ with_rule (app_of command.entry) addresses_rule) }
{
    let arg = Arg::new(alloc, "addresses")
        .action(ArgAction::Set)
        .required(true);
    command.arg(arg)
}

// An option of one text, on top of a command, if there is one.
fn with_option<'a>(
    alloc: Global,
    command: Result<Command<'a>, AllocError>,
    name: &'a str,
) -> Result<Command<'a>, AllocError>
    ensures { (app : App) → IfOk command.entry (λ c. app_of c ≡ app) → IfOk result (λ c. app_of c ≡ with_rule app (option_rule name.entry.now)) }
{
    let command = command?;
    let arg = Arg::new(alloc, name).long(name).action(ArgAction::Set);
    command.arg(arg)
}

/// The command.
pub(crate) fn command<'a>(alloc: Global) -> Result<Command<'a>, AllocError>
    ensures { IfOk result (λ c. app_of c ≡ paths) }
{
    let command = with_addresses(alloc, bare(alloc));
    let command = with_option(alloc, command, "window");
    let command = with_option(alloc, command, "reach");
    let command = with_option(alloc, command, "first");
    let command = with_option(alloc, command, "frames");
    let command = with_option(alloc, command, "idle");
    with_option(alloc, command, "limit")
}
