ghost use Rattle.std.specs.Prelude.{◌≡◌, ◌⊎◌, IfErr, IfOk, Some, map, option_map};
ghost use Rattle.clap.specs.Words.{App, kind_of, subcommand_rows_of, with_subcommand};
ghost use Rattle.clap.specs.declared.error.kind.ErrorKind.TheVariants as kind;
ghost use Rattle.command_line.specs.Arguments.{AreTables, IsApp, Tables, program_app, top_app};
ghost use Rattle.command_line.specs.Page.{IsWordsError};
ghost use Rattle.command_line.specs.Words.{AskFor, AskForNothing, CallForHelp, HasFault, Mean, alone, asked, asked_of, task_of};

use crate::arguments::{Building, command};
use crate::commands::{check, rows};
use crate::error::Error;
use crate::matches::args_in;
use crate::request::{Args, Request};
use crate::subcommands::{
    explain_command, explained, formats, levels, merge_command, replay_command, rows_command,
};
use clap::error::ErrorKind;
use clap::{ArgMatches, Command};
use oim_explain::EscapedName;
use std::alloc::{AllocError, Global};
use std::convert::AsStr;

const PROGRAM: &str = "xbrlmerge";

// Between releases, this constant is the next version with `-dev`. `tests/gate/unit/test_version.py`
// compares this version with the versions in other files.
const VERSION: &str = "0.3.0-dev";

const ABOUT: &str = "Merges xBRL-JSON reports, and finds where they contradict each other";

const MORE: &str =
    "Without arguments, xbrlmerge merges the bundle on standard input: the first line is a sheet, and
each other line that is not empty is a report.

Example:
  cat examples/sheet.json examples/issuer.json examples/statfeed.json | xbrlmerge

Status of each command; if several apply, the highest:
  0  done
  1  a report was refused, and standard error shows why; or `explain` found a fault
  2  `merge` wrote nothing, because a row exceeds --allow
  3  not done, or not completed: invalid arguments, a refused sheet or event, a file or device
     that failed, output above a limit, or out of memory";

/// Parses the arguments after the program's name.
///
/// Errors: `Usage` if the arguments are not valid, and out of memory.
pub(crate) fn read_words<W: AsStr>(alloc: Global, words: &[W]) -> Result<Args<'_>, Error<'_>>
    ensures ok { IfOk result (λ args. Mean (map W.text words.entry.now) (asked_of args)) }
    ensures err { IfErr result (IsWordsError (map W.text words.entry.now)) }
{
    if words.is_empty() {
        return Ok(alone(alloc, Request::Bundle));
    }
    match parse(alloc, words) {
        Ok(args) => Ok(args),
        Err(error) => match error.kind() {
            ErrorKind::DisplayHelp | ErrorKind::DisplayVersion => {
                Ok(alone(alloc, Request::Help(error)))
            }
            ErrorKind::OutOfMemory => Err(Error::OutOfMemory),
            _ => Err(Error::from(printable_error(alloc, words)?)),
        },
    }
}

/// Returns the error for the escaped arguments, since clap prints arguments unescaped. If the
/// escaped arguments are valid, the error for the arguments is returned.
fn printable_error<W: AsStr>(alloc: Global, words: &[W]) -> Result<clap::Error, AllocError> {
    let escaped = escape_each(alloc, words)?;
    match usage_error(alloc, escaped.as_slice())? {
        Some(error) => Ok(error),
        None => match usage_error(alloc, words)? {
            Some(error) => Ok(error),
            None => missing_command(alloc),
        },
    }
}

/// Returns the error if clap refuses the arguments, also because an option lacks another one that it
/// needs.
fn usage_error<W: AsStr>(alloc: Global, words: &[W]) -> Result<Option<clap::Error>, AllocError> {
    match program(alloc, true)?.try_get_matches_from(words) {
        Ok(matches) if matches.subcommand().is_none() => Ok(Some(missing_command(alloc)?)),
        Ok(_) => Ok(None),
        Err(error) => Ok(Some(error)),
    }
}

fn escape_each<W: AsStr>(alloc: Global, words: &[W]) -> Result<Vec<String>, AllocError> {
    let mut escaped = Vec::with_capacity(alloc, words.len())?;
    for word in words {
        let shown = EscapedName(word.as_str());
        escaped.push(format!(in alloc; "{shown}")?)?;
    }
    Ok(escaped)
}

fn alone(alloc: Global, request: Request<'_>) -> Args<'_>
    ensures { asked_of result ≡ alone (task_of request.entry) }
{
    Args {
        request,
        reports: Vec::new(alloc),
        list: None,
        is_null: false,
        output: None,
        most: None,
        is_quiet: false,
        is_verbose: false,
    }
}

fn parse<W: AsStr>(alloc: Global, words: &[W]) -> Result<Args<'_>, clap::Error>
    ensures ok { IfOk result (λ args. AskFor (map W.text words.entry.now) (asked_of args)) }
    ensures err { IfErr result (λ e. (kind_of e ≡ kind.OutOfMemory)
        ⊎ HasFault (map W.text words.entry.now) (kind_of e) ⊎ AskForNothing (map W.text words.entry.now)) }
    ensures help { IfErr result (λ e. (kind_of e ≡ kind.DisplayHelp) ⊎ (kind_of e ≡ kind.DisplayVersion) → CallForHelp (map W.text words.entry.now)) }
{
    let matches = program(alloc, false)?.try_get_matches_from(words)?;
    match args_of(alloc, &matches)? {
        Some(args) => Ok(args),
        None => Err(missing_command(alloc)?),
    }
}

fn missing_command(alloc: Global) -> Result<clap::Error, AllocError>
    ensures { IfOk result (λ e. kind_of e ≡ kind.MissingSubcommand) }
{
    program(alloc, true)?.error(ErrorKind::MissingSubcommand, "a command is missing")
}

fn args_of<'w>(alloc: Global, matches: &ArgMatches<'w>) -> Result<Option<Args<'w>>, AllocError>
    ensures { IfOk result (λ o. option_map asked_of o ≡ asked (subcommand_rows_of matches.now)) }
{
    match matches.subcommand() {
        Some((name, inner)) => args_in(alloc, name, inner),
        None => Ok(None),
    }
}

// The help lists the commands in this order. If `is_strict`, clap also refuses an option that lacks
// another one that it needs. clap's contracts do not cover such rules, so `parse` is not strict, and
// `args_in` tests for this. Only error messages come from the strict program.
fn program<'w>(alloc: Global, is_strict: bool) -> Building<'w>
    ensures { IfOk result (λ c. (t : Tables) × AreTables t × IsApp (program_app is_strict t) c) }
{
    let (levels, formats, explained) = (levels(), formats(), explained());
    let verdicts = command(alloc, "verdicts", rows::VERDICTS_ABOUT, rows::VERDICTS_MORE);
    let sources = command(alloc, "sources", rows::SOURCES_ABOUT, rows::SOURCES_MORE);
    let check = command(alloc, "check", check::ABOUT, check::MORE);
    let program = with_command(top(alloc), merge_command(alloc, levels, is_strict));
    let program = with_command(program, rows_command(alloc, verdicts, formats, is_strict));
    let program = with_command(program, rows_command(alloc, sources, formats, is_strict));
    let program = with_command(program, rows_command(alloc, check, formats, is_strict));
    let program = with_command(program, explain_command(alloc, explained, is_strict));
    with_command(program, replay_command(alloc, is_strict))
}

fn top<'w>(alloc: Global) -> Building<'w>
    ensures { IfOk result (IsApp top_app) }
{
    Command::new(alloc, PROGRAM)
        .no_binary_name(true)
        .version(VERSION)
        .about(ABOUT)
        .after_help(MORE)
        .bin_name(PROGRAM)
}

/// Adds a subcommand.
fn with_command<'w>(program: Building<'w>, command: Building<'w>) -> Building<'w>
    ensures { (a s : App) → IfOk program.entry (IsApp a) → IfOk command.entry (IsApp s)
        → IfOk result (IsApp (with_subcommand a s.top)) }
{
    program?.subcommand(command?)
}
