//! The command line as clap knows it.
ghost use Rattle.std.specs.Prelude.{◌≡◌, true, false, IfOk, IfErr, map};
ghost use Rattle.clap.specs.Words.{app_of, found_of, kind_of, rows_of, rule_of, subcommand_of, subcommand_rows_of, takes};
ghost use Rattle.mq_words.specs.CommandLine.{AskedIsTold, bare_app, command_app, ids_of, line_app, value_rule, values_found, values_in};
ghost use Rattle.mq_words.specs.Words.{texts};

use clap::error::ErrorKind;
use clap::{Arg, ArgAction, ArgMatches, Error};
use mq_addr::addr_bytes;
use mq_wire::NoMemory;
use std::alloc::{AllocError, Global};

static SCRIPT_IDS: [&str; 2] = ["SEED", "N"];

static UDP_IDS: [&str; 6] = ["ADDR", "PORT", "TARGET", "TPORT", "VERSION", "COUNT"];

/// A word that has to be there.
fn value<'a>(alloc: Global, id: &'a str) -> Arg<'a>
    ensures rule { rule_of result ≡ value_rule id.entry.now }
    ensures local { result.global ≡ false }
{
    Arg::new(alloc, id).required(true).action(ArgAction::Set)
}

/// A subcommand with these values.
fn line<'a>(
    alloc: Global,
    name: &'a str,
    ids: &'a [&'a str],
) -> Result<clap::Command<'a>, AllocError>
    ensures { IfOk result (λ c. app_of c ≡ line_app name.entry.now (map (λ s. s.now) ids.entry.now)) }
{
    let mut line = clap::Command::new(alloc, name);
    for id in ids {
        line = line.arg(value(alloc, id))?;
    }
    Ok(line)
}

/// No word is taken for a program's name, or for a call for help.
fn bare_line<'a>(alloc: Global) -> clap::Command<'a>
    ensures { app_of result ≡ bare_app }
{
    clap::Command::new(alloc, "masque")
        .no_binary_name(true)
        .disable_help_flag(true)
        .disable_help_subcommand(true)
}

/// The whole command line.
fn command_line<'a>(alloc: Global) -> Result<clap::Command<'a>, AllocError>
    ensures { IfOk result (λ c. app_of c ≡ command_app) }
{
    let replay = line(alloc, "replay", &[])?;
    let generate = line(alloc, "gen", SCRIPT_IDS.as_slice())?;
    let soak = line(alloc, "soak", SCRIPT_IDS.as_slice())?;
    let udp = line(alloc, "udp", UDP_IDS.as_slice())?;
    bare_line(alloc)
        .subcommand(replay)?
        .subcommand(generate)?
        .subcommand(soak)?
        .subcommand(udp)
}

/// Words that clap takes, as it reads them: the one error is want of memory.
fn parse<'a>(alloc: Global, words: &'a [String]) -> Result<ArgMatches<'a>, Error>
    requires { takes command_app (texts words.now) ≡ true }
    ensures found { IfOk result (λ m. subcommand_rows_of m ≡ subcommand_of command_app (texts words.entry.now)) }
    ensures refused { IfErr result (λ e. kind_of e ≡ ErrorKind.OutOfMemory) }
{
    command_line(alloc)?.try_get_matches_from(words)
}

/// Only want of memory becomes this.
fn no_memory(error: Error) -> NoMemory
    requires { kind_of error ≡ ErrorKind.OutOfMemory }
{
    NoMemory
}

/// The ids of a subcommand's values.
fn ids_of(name: &str) -> &'static [&'static str]
    ensures { map (λ s. s.now) result.now ≡ ids_of name.now }
{
    if name == "gen" || name == "soak" {
        return SCRIPT_IDS.as_slice();
    }
    if name == "udp" {
        return UDP_IDS.as_slice();
    }
    &[]
}

/// The name of a subcommand, and its values by their ids.
fn values_of<'a>(
    alloc: Global,
    name: &'a str,
    line: &ArgMatches<'a>,
) -> Result<Vec<&'a str>, NoMemory>
    ensures { IfOk result (λ values. map (λ s. s.now) values.items ≡ values_in (name.entry.now, rows_of (found_of line.now))) }
{
    let mut values = Vec::new(alloc);
    values.push(name)?;
    for id in ids_of(name) {
        if let Some(value) = line.get_str(id) {
            values.push(value)?;
        }
    }
    Ok(values)
}

/// Words that clap takes, as it tells them: the name of a subcommand, and its values by their ids.
pub fn told_words<'a>(alloc: Global, words: &'a [String]) -> Result<Vec<&'a str>, NoMemory>
    requires { takes command_app (texts words.now) ≡ true }
    ensures { IfOk result (λ values. map (λ s. s.now) values.items ≡ values_found (subcommand_of command_app (texts words.entry.now))) }
{
    let matches = match parse(alloc, words) {
        Ok(matches) => matches,
        Err(error) => return Err(no_memory(error)),
    };
    match matches.subcommand() {
        Some((name, line)) => values_of(alloc, name, line),
        None => Ok(Vec::new(alloc)),
    }
}

/// Clap takes words that ask for something, and tells them.
pub fn asked_is_told()
    ensures { AskedIsTold }
{
    addr_bytes();
}
