//! The command line, as `clap` reads it.
use crate::commands::{AFTER_HELP, COMMANDS, CommandRow, Group};
use crate::options::{ASKED, KEPT, OptionRow, PRINTED, READ, SENT, Takes};
use clap::{Arg, ArgAction, ArgGroup, Command, value_parser};
use std::alloc::{AllocError, Global};

/// The program's command line.
pub(crate) fn command<'a>(alloc: Global) -> Result<Command<'a>, AllocError> {
    let command = Command::new(alloc, "babel-dump")
        .version("1.2.0")
        .about(
            "Shows what Babel packets of one sender announce (RFC 8966, RFC 9079), from a packet \
             capture or a dump",
        )
        .after_help(AFTER_HELP)
        .no_binary_name(true)
        .args_override_self(true)
        .bin_name("babel-dump")?
        .subcommand_required(true);
    with_commands(alloc, command, COMMANDS)
}

/// The command line with these commands.
fn with_commands<'a>(
    alloc: Global,
    mut command: Command<'a>,
    rows: &'a [CommandRow],
) -> Result<Command<'a>, AllocError> {
    for row in rows {
        command = command.subcommand(subcommand(alloc, row)?)?;
    }
    Ok(command)
}

/// The command of a row.
fn subcommand<'a>(alloc: Global, row: &'a CommandRow) -> Result<Command<'a>, AllocError> {
    let command = Command::new(alloc, row.name)
        .about(row.about)
        .after_help(row.after_help);
    let command = with_options(alloc, command, SENT)?;
    let command = with_options(alloc, command, READ)?;
    let command = with_options(alloc, command, KEPT)?;
    let command = with_options(alloc, command, PRINTED)?;
    let command = with_options(alloc, command, ASKED)?;
    with_groups(alloc, command, row.groups)
}

/// The command with those of these options and arguments that it has.
fn with_options<'a>(
    alloc: Global,
    mut command: Command<'a>,
    rows: &'a [OptionRow],
) -> Result<Command<'a>, AllocError> {
    for row in rows {
        if row.is_of(command.get_name()) {
            command = command.arg(arg(alloc, row)?)?;
        }
    }
    Ok(command)
}

/// The command with these groups of its options.
fn with_groups<'a>(
    alloc: Global,
    mut command: Command<'a>,
    groups: &'a [Group],
) -> Result<Command<'a>, AllocError> {
    for group in groups {
        command = command.group(arg_group(alloc, group)?)?;
    }
    Ok(command)
}

/// The group of options.
fn arg_group<'a>(alloc: Global, group: &'a Group) -> Result<ArgGroup<'a>, AllocError> {
    ArgGroup::new(alloc, group.id)
        .required(group.is_required)
        .multiple(group.is_multiple)
        .args(group.options)
}

/// The option or argument of a row.
fn arg<'a>(alloc: Global, row: &'a OptionRow) -> Result<Arg<'a>, AllocError> {
    let mut arg = taking(Arg::new(alloc, row.id), row)
        .required(row.is_required)
        .help(row.help);
    for id in row.conflicts {
        arg = arg.conflicts_with(id)?;
    }
    if let Some(id) = row.unless {
        arg = arg.required_unless_present(id)?;
    }
    match row.needs {
        Some(id) => arg.requires_arg(id),
        None => Ok(arg),
    }
}

/// The argument with what a row takes.
fn taking<'a>(arg: Arg<'a>, row: &'a OptionRow) -> Arg<'a> {
    match row.takes {
        Takes::Nothing => arg.long(row.id).action(ArgAction::SetTrue),
        Takes::Word(name) | Takes::Words(name) => with_value(arg, row.id, name),
        Takes::Following(name) => with_value(arg, row.id, name).num_args(1..),
        Takes::Number(name, least, most) => {
            with_value(arg, row.id, name).value_parser(value_parser!(u32).range(least..=most))
        }
        Takes::OneOf(name, words) => with_value(arg, row.id, name)
            .value_parser(words)
            .action(ArgAction::Set),
        Takes::File(name) => arg.value_name(name),
        Takes::Files(name) => arg.value_name(name).action(ArgAction::Append),
    }
}

/// The argument as an option with a value that is called so.
fn with_value<'a>(arg: Arg<'a>, id: &'a str, name: &'a str) -> Arg<'a> {
    arg.long(id).value_name(name).action(ArgAction::Append)
}
