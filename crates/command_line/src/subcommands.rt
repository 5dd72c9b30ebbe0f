//! The arguments of each command.
ghost use Rattle.std.specs.Prelude.{◌≡◌, IfOk};
ghost use Rattle.clap.specs.Words.{App};
ghost use Rattle.command_line.specs.Arguments.{IsApp, explain_app, explained_names, format_names, level_names, merge_app, replay_app, rows_app, texts_of};

use crate::arguments::{
    Building, choice, command, flag, option, parsed, with, with_flag_of, with_reports,
};
use crate::commands::{explain, merge, replay};
use clap::builder::ValueParser;
use std::alloc::Global;

static LEVELS: [&str; 4] = ["none", "complete", "consistent", "all"];

static FORMATS: [&str; 3] = ["lines", "json", "csv"];

/// The formats of `explain`.
static EXPLAINED: [&str; 2] = ["text", "json"];

pub(crate) fn merge_command<'w>(
    alloc: Global,
    levels: &'w [&'w str],
    is_strict: bool,
) -> Building<'w>
    ensures { IfOk result (IsApp (merge_app is_strict levels.entry)) }
{
    let allow = option(
        alloc,
        "allow",
        "LEVEL",
        "The loosest level that a row may have",
    );
    let command = command(alloc, "merge", merge::ABOUT, merge::MORE);
    let command = with(command, choice(allow, levels, "all"));
    with_reports(alloc, command, is_strict)
}

pub(crate) fn rows_command<'w>(
    alloc: Global,
    command: Building<'w>,
    formats: &'w [&'w str],
    is_strict: bool,
) -> Building<'w>
    ensures { (a : App) → IfOk command.entry (IsApp a) → IfOk result (IsApp (rows_app is_strict a formats.entry)) }
{
    let format = option(alloc, "format", "FORMAT", "The output format");
    let help =
        "Write csv with a byte order mark, and with a ' before each text that may be a formula";
    let command = with(command, choice(format, formats, "lines"));
    let command = with_flag_of(
        command,
        flag(alloc, "spreadsheet", help),
        "format",
        is_strict,
    );
    with_reports(alloc, command, is_strict)
}

pub(crate) fn explain_command<'w>(
    alloc: Global,
    formats: &'w [&'w str],
    is_strict: bool,
) -> Building<'w>
    ensures { IfOk result (IsApp (explain_app is_strict formats.entry)) }
{
    let format = option(alloc, "format", "FORMAT", "The output format");
    let command = command(alloc, "explain", explain::ABOUT, explain::MORE);
    with_reports(
        alloc,
        with(command, choice(format, formats, "text")),
        is_strict,
    )
}

pub(crate) fn replay_command<'w>(alloc: Global, is_strict: bool) -> Building<'w>
    ensures { IfOk result (IsApp (replay_app is_strict)) }
{
    let replicas = option(
        alloc,
        "replicas",
        "N",
        "The number of replicas, from 1 to 64",
    );
    let replicas = parsed(replicas.required(true), ValueParser::Signed(1, 64));
    let help = "The file of the schedule, with one event per line";
    let events = option(alloc, "events", "EVENTS", help).required(true);
    let command = with(
        command(alloc, "replay", replay::ABOUT, replay::MORE),
        replicas,
    );
    with_reports(alloc, with(command, events), is_strict)
}

pub(crate) fn levels<'w>() -> &'w [&'w str]
    ensures { texts_of result ≡ level_names }
{
    LEVELS.as_slice()
}

pub(crate) fn formats<'w>() -> &'w [&'w str]
    ensures { texts_of result ≡ format_names }
{
    FORMATS.as_slice()
}

pub(crate) fn explained<'w>() -> &'w [&'w str]
    ensures { texts_of result ≡ explained_names }
{
    EXPLAINED.as_slice()
}
