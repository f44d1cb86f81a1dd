// What a command takes, as `clap` is told.
ghost use Rattle.std.specs.Prelude.{◌≡◌, IfOk, IfSome, true, false, is_some, map, option_map, string_bytes};
ghost use Rattle.clap.specs.Words.{rule_of, app_of, fault_of, found_of, is_simple_and_free, matches_of, rows_of};
ghost use Rattle.blic_words.specs.Commands.{app_of_form, flag_word, given_of, is_free_of_faults, option_word, required_word, texts_of as texts_given};

use crate::options::{Options, text_of};
use clap::error::ErrorKind;
use clap::{Arg, ArgAction, ArgMatches, Command};
use std::alloc::{AllocError, Global};

/// The command that takes operands, options with one value each, and flags.
pub(crate) fn command<'a>(
    alloc: Global,
    name: &'a str,
    operands: &[&'a str],
    options: &[&'a str],
    flags: &[&'a str],
) -> Result<Command<'a>, AllocError>
    ensures { IfOk result (λ command. app_of command ≡ app_of_form (record { name = name.entry.now; operands = map (λ o. o.now) operands.entry.now; options = map (λ o. o.now) options.entry.now; flags = map (λ f. f.now) flags.entry.now })) }
{
    let mut command = Command::new(alloc, name);
    for operand_name in operands {
        command = command.arg(required(alloc, operand_name))?;
    }
    for option_name in options {
        command = command.arg(option(alloc, option_name))?;
    }
    for flag_name in flags {
        command = command.arg(flag(alloc, flag_name))?;
    }
    Ok(command)
}

/// The operands' texts and the options that the arguments give, if the command takes them.
pub(crate) fn given<'w>(
    alloc: Global,
    command: Command<'w>,
    operands: &[&str],
    words: &'w [String],
) -> Result<Option<(Vec<&'w str>, Options)>, AllocError>
    requires { is_simple_and_free (app_of command) ≡ true }
    ensures { IfOk result (λ given. option_map (λ g. (map (λ t. t.now) g.0.items, g.1)) given ≡ given_of (app_of command.entry) (map (λ o. o.now) operands.entry.now) (map string_bytes words.entry.now)) }
{
    let Some(matches) = taken(command, words)? else {
        return Ok(None);
    };
    Ok(texts_of(alloc, &matches, operands)?.zip(Options::read(&matches)))
}

// The texts that were given under the operands' names, in their order, if all were.
fn texts_of<'w>(
    alloc: Global,
    matches: &ArgMatches<'w>,
    operands: &[&str],
) -> Result<Option<Vec<&'w str>>, AllocError>
    ensures { IfOk result (λ texts. option_map (λ t. map (λ t. t.now) t.items) texts ≡ texts_given (map (λ o. o.now) operands.entry.now) (rows_of (found_of matches.now))) }
{
    let mut texts = Vec::new(alloc);
    for operand in operands {
        match text_of(matches, operand) {
            Some(text) => texts.push(text)?,
            None => return Ok(None),
        }
    }
    Ok(Some(texts))
}

// What the arguments give, if the command takes them.
fn taken<'a>(
    command: Command<'a>,
    words: &'a [String],
) -> Result<Option<ArgMatches<'a>>, AllocError>
    requires { is_simple_and_free (app_of command) ≡ true }
    ensures rows { IfOk result (λ matches. IfSome matches (λ m. rows_of (found_of m) ≡ matches_of (app_of command.entry) (map string_bytes words.entry.now))) }
    ensures faults { IfOk result (λ matches. is_some matches ≡ is_free_of_faults (fault_of (app_of command.entry) (map string_bytes words.entry.now))) }
{
    match command.try_get_matches_from(words) {
        Ok(matches) => Ok(Some(matches)),
        Err(error) => match error.kind() {
            ErrorKind::OutOfMemory => Err(AllocError),
            _ => Ok(None),
        },
    }
}

// An operand, an argument that has to be given.
fn required<'a>(alloc: Global, name: &'a str) -> Arg<'a>
    ensures rule { rule_of result ≡ required_word name.entry.now }
    ensures local { result.global ≡ false }
{
    Arg::new(alloc, name).required(true).action(ArgAction::Set)
}

// An option by its long name, with one value.
fn option<'a>(alloc: Global, name: &'a str) -> Arg<'a>
    ensures rule { rule_of result ≡ option_word name.entry.now }
    ensures local { result.global ≡ false }
{
    Arg::new(alloc, name).long(name).action(ArgAction::Set)
}

// A flag by its long name.
fn flag<'a>(alloc: Global, name: &'a str) -> Arg<'a>
    ensures rule { rule_of result ≡ flag_word name.entry.now }
    ensures local { result.global ≡ false }
{
    Arg::new(alloc, name).long(name).action(ArgAction::SetTrue)
}
