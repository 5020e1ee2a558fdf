//! The command line that the program takes, built of the tables of its subcommands.
ghost use Rattle.std.specs.Prelude.{◌≡◌, IfOk, false};
ghost use Rattle.clap.specs.Words.{app_of, rule_of, with_rule, with_subcommand};
ghost use Rattle.clap.specs.declared.builder.command.Command.TheViews.{out-Command};
ghost use Rattle.coap_arguments.specs.CommandLine.{asking_apps, base_app, coap_app, flag_of, more_asking_apps};
ghost use Rattle.coap_arguments.specs.CommandLine.{option_of, optional_word, other_apps, repeated_of, required_word};
ghost use Rattle.coap_arguments.specs.CommandLine.{short_flag_of, with_apps};
ghost use Rattle.coap_arguments.specs.Tables.{app_in, begins_required, rule_in, with_subcommands};

use crate::arguments::{Argument, Form, Subcommand};
use crate::put_away::put_away;
use crate::tables::{ASKING, ASKING_MORE, GROUPS, OTHERS};
use clap::{Arg, ArgAction, Command};
use std::alloc::{AllocError, Global};

// A word that has to be there: its name, and what help says of it.
fn positional<'a>(alloc: Global, name: &'a str, help: &'a str) -> Arg<'a>
    ensures rule { rule_of result ≡ required_word name.entry.now }
    ensures own { result.global ≡ false }
{
    Arg::new(alloc, name)
        .help(help)
        .required(true)
        .action(ArgAction::Set)
}

// A word that may be left out.
fn optional<'a>(alloc: Global, name: &'a str, help: &'a str) -> Arg<'a>
    ensures rule { rule_of result ≡ optional_word name.entry.now }
    ensures own { result.global ≡ false }
{
    Arg::new(alloc, name).help(help).action(ArgAction::Set)
}

// An option that may be left out: its name, how help names its value, and what help says of it.
fn option<'a>(alloc: Global, name: &'a str, value_name: &'a str, help: &'a str) -> Arg<'a>
    ensures rule { rule_of result ≡ option_of name.entry.now }
    ensures own { result.global ≡ false }
{
    Arg::new(alloc, name)
        .long(name)
        .value_name(value_name)
        .help(help)
        .action(ArgAction::Set)
}

// An option that may be given any number of times.
fn repeated<'a>(alloc: Global, name: &'a str, value_name: &'a str, help: &'a str) -> Arg<'a>
    ensures rule { rule_of result ≡ repeated_of name.entry.now }
    ensures own { result.global ≡ false }
{
    Arg::new(alloc, name)
        .long(name)
        .value_name(value_name)
        .help(help)
        .action(ArgAction::Append)
}

// An option without a value.
fn flag<'a>(alloc: Global, name: &'a str, help: &'a str) -> Arg<'a>
    ensures rule { rule_of result ≡ flag_of name.entry.now }
    ensures own { result.global ≡ false }
{
    Arg::new(alloc, name)
        .long(name)
        .help(help)
        .action(ArgAction::SetTrue)
}

// An option without a value, which a letter stands for, too.
fn short_flag<'a>(alloc: Global, name: &'a str, letter: char, help: &'a str) -> Arg<'a>
    ensures rule { rule_of result ≡ short_flag_of letter name.entry.now }
    ensures own { result.global ≡ false }
{
    flag(alloc, name, help).short(letter)
}

// What an argument of the table is to clap.
fn argument_of<'a>(alloc: Global, argument: &Argument) -> Arg<'a>
    ensures rule { rule_of result ≡ rule_in argument.now }
    ensures own { result.global ≡ false }
{
    let (name, help) = (argument.name, argument.help);
    match argument.form {
        Form::Required => positional(alloc, name, help),
        Form::Optional => optional(alloc, name, help),
        Form::Single { value_name } => option(alloc, name, value_name, help),
        Form::Repeated { value_name } => repeated(alloc, name, value_name, help),
        Form::Flag => flag(alloc, name, help),
        Form::ShortFlag { letter } => short_flag(alloc, name, letter, help),
    }
}

// A command with one more argument, which is no subcommand's.
fn with_argument<'a>(command: Command<'a>, argument: Arg<'a>) -> Result<Command<'a>, AllocError>
    requires own { argument.global ≡ false }
    requires plain { (out-Command command).has_globals ≡ false }
    ensures app { IfOk result (λ c. app_of c ≡ with_rule (app_of command.entry) (rule_of argument.entry)) }
    ensures own { IfOk result (λ c. (out-Command c).has_globals ≡ false) }
{
    command.arg(argument)
}

// Whether the first of these arguments has to be there.
fn begins_required(arguments: &[Argument]) -> bool
    ensures { result ≡ begins_required arguments.now }
{
    match arguments {
        [
            Argument {
                form: Form::Required,
                ..
            },
            ..
        ] => true,
        _ => false,
    }
}

// What a subcommand of the table is to clap: one that needs words answers with its help where it has none.
fn subcommand_of<'a>(alloc: Global, subcommand: &Subcommand) -> Result<Command<'a>, AllocError>
    ensures app { IfOk result (λ c. app_of c ≡ app_in subcommand.now) }
    ensures own { IfOk result (λ c. (out-Command c).has_globals ≡ false) }
{
    let arguments = subcommand.arguments;
    let mut command = Command::new(alloc, subcommand.name)
        .about(subcommand.about)
        .after_help(subcommand.example)
        .arg_required_else_help(begins_required(arguments));
    for argument in arguments {
        command = with_argument(command, argument_of(alloc, argument))?;
    }
    Ok(command)
}

// The program with one more subcommand of the table.
fn add_subcommand<'a>(
    alloc: Global,
    program: Command<'a>,
    subcommand: &Subcommand,
) -> Result<Command<'a>, AllocError>
    ensures { IfOk result (λ c. app_of c ≡ with_subcommand (app_of program.entry) (app_in subcommand.now).top) }
{
    match subcommand_of(alloc, subcommand) {
        Ok(command) => program.subcommand(command),
        Err(error) => {
            put_away(program);
            Err(error)
        }
    }
}

// A program with the subcommands of a table.
fn with_table<'a>(
    alloc: Global,
    program: Command<'a>,
    subcommands: &[Subcommand],
) -> Result<Command<'a>, AllocError>
    ensures { IfOk result (λ c. app_of c ≡ with_subcommands (app_of program.entry) subcommands.now) }
{
    let mut program = program;
    for subcommand in subcommands {
        program = add_subcommand(alloc, program, subcommand)?;
    }
    Ok(program)
}

// The program with the subcommands that ask nothing of a server elsewhere.
fn with_others<'a>(alloc: Global, program: Command<'a>) -> Result<Command<'a>, AllocError>
    ensures { IfOk result (λ c. app_of c ≡ with_apps (app_of program.entry) other_apps) }
{
    with_table(alloc, program, OTHERS.as_slice())
}

// The program with those that ask a server for a body or send it one.
fn with_asking<'a>(alloc: Global, program: Command<'a>) -> Result<Command<'a>, AllocError>
    ensures { IfOk result (λ c. app_of c ≡ with_apps (app_of program.entry) asking_apps) }
{
    with_table(alloc, program, ASKING.as_slice())
}

// The program with those that ask something else of a server.
fn with_asking_more<'a>(alloc: Global, program: Command<'a>) -> Result<Command<'a>, AllocError>
    ensures { IfOk result (λ c. app_of c ≡ with_apps (app_of program.entry) more_asking_apps) }
{
    with_table(alloc, program, ASKING_MORE.as_slice())
}

// The program without its subcommands.
fn without_subcommands<'a>(alloc: Global) -> Command<'a>
    ensures { app_of result ≡ base_app }
{
    Command::new(alloc, "coap")
        .after_help(GROUPS)
        .subcommand_required(true)
        .arg_required_else_help(true)
}

/// The command line that the program takes: its words name a subcommand.
pub fn coap_command<'a>(alloc: Global) -> Result<Command<'a>, AllocError>
    // The command line is the one that the definitions have: its subcommands with their words.
    ensures { IfOk result (λ c. app_of c ≡ coap_app) }
{
    let program = with_others(alloc, without_subcommands(alloc))?;
    let program = with_asking(alloc, program)?;
    with_asking_more(alloc, program)
}
