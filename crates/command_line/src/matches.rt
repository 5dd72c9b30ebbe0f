//! Requests from what clap found among the words.
ghost use Rattle.std.specs.Prelude.{◌≡◌, ◌||◌, [], IfOk, Some, codes, map, option_and_then, option_map, unwrap_or};
ghost use Rattle.clap.specs.Walk.{all_of, first_of};
ghost use Rattle.clap.specs.Words.{found_of, rows_of};
ghost use Rattle.oim_value.specs.Level.{level_with};
ghost use Rattle.command_line.specs.Words.{asked_by, asked_of, check_asked, explained_asked, format_asked, format_named, is_alone, is_from_words, is_set, lacks, number_at, output_named, source_of, subcommand_asked, task_asked, task_of, work_of};

use crate::print_format::PrintFormat;
use crate::request::{Args, Request, Subcommand};
use clap::ArgMatches;
use clap::parser::ValueSource;
use oim_explain::Format;
use oim_value::Level;
use row_formats::RowFormat;
use std::alloc::{AllocError, Global};

/// Returns the arguments of the command with this name, or None if an option lacks another one that
/// it needs.
pub(crate) fn args_in<'w>(
    alloc: Global,
    name: &str,
    matches: &ArgMatches<'w>,
) -> Result<Option<Args<'w>>, AllocError>
    ensures { IfOk result (λ o. option_map asked_of o ≡ asked_by name.now (rows_of (found_of matches.now))) }
{
    if lacks(matches, "null", "reports-from") || lacks(matches, "spreadsheet", "format") {
        return Ok(None);
    }
    let Some(request) = request_in(name, matches) else {
        return Ok(None);
    };
    let reports = names_in(alloc, matches)?;
    Ok(Some(Args {
        request,
        reports,
        list: text_in(matches, "reports-from"),
        is_null: flag_in(matches, "null"),
        output: output_in(matches),
        most: number_in(matches, "most-output"),
        is_quiet: flag_in(matches, "quiet"),
        is_verbose: flag_in(matches, "verbose"),
    }))
}

fn request_in<'w>(name: &str, matches: &ArgMatches<'w>) -> Option<Request<'w>>
    ensures { option_map task_of result ≡ task_asked name.now (rows_of (found_of matches.now)) }
{
    let sheet = text_in(matches, "sheet")?;
    if name == "explain" {
        return Some(Request::Explain(sheet, explained_in(matches)));
    }
    Some(Request::Under(sheet, subcommand_in(name, matches)?))
}

fn subcommand_in<'w>(name: &str, matches: &ArgMatches<'w>) -> Option<Subcommand<'w>>
    ensures { option_map work_of result ≡ subcommand_asked name.now (rows_of (found_of matches.now)) }
{
    match name {
        "merge" => Some(Subcommand::Merge(level_in(matches)?)),
        "verdicts" => Some(Subcommand::Verdicts(format_in(matches)?)),
        "sources" => Some(Subcommand::Sources(format_in(matches)?)),
        "check" => check_in(matches),
        "replay" => {
            let replicas = count_in(matches, "replicas")?;
            Some(Subcommand::Replay(replicas, text_in(matches, "events")?))
        }
        _ => None,
    }
}

fn check_in<'w>(matches: &ArgMatches<'w>) -> Option<Subcommand<'w>>
    ensures { option_map work_of result ≡ check_asked (rows_of (found_of matches.now)) }
{
    if is_alone(matches) {
        return Some(Subcommand::Check(None));
    }
    Some(Subcommand::Check(Some(format_in(matches)?)))
}

/// True if there is one report, and neither a file of names nor a format.
fn is_alone(matches: &ArgMatches<'_>) -> bool
    ensures { result ≡ is_alone (rows_of (found_of matches.now)) (unwrap_or (all_of (codes "REPORT") (rows_of (found_of matches.now))) []) }
{
    match matches.get_strs("REPORT") {
        Some(reports) => reports.len() == 1 && !is_batch(matches),
        None => false,
    }
}

fn is_batch(matches: &ArgMatches<'_>) -> bool
    ensures { result ≡ (is_from_words (source_of (codes "format") (rows_of (found_of matches.now))) || is_from_words (source_of (codes "reports-from") (rows_of (found_of matches.now)))) }
{
    is_from_words(matches, "format") || is_from_words(matches, "reports-from")
}

fn level_in(matches: &ArgMatches<'_>) -> Option<Level>
    ensures { result ≡ option_and_then level_with (first_of (codes "allow") (rows_of (found_of matches.now))) }
{
    Level::read(text_in(matches, "allow")?)
}

fn format_in(matches: &ArgMatches<'_>) -> Option<PrintFormat>
    ensures { result ≡ format_asked (rows_of (found_of matches.now)) }
{
    let for_spreadsheet = flag_in(matches, "spreadsheet");
    read_format(text_in(matches, "format")?, for_spreadsheet)
}

fn read_format(text: &str, for_spreadsheet: bool) -> Option<PrintFormat>
    ensures { result ≡ format_named for_spreadsheet text.now }
{
    match text {
        "lines" => Some(PrintFormat::Lines),
        "json" => Some(PrintFormat::Rows(RowFormat::Json)),
        "csv" if for_spreadsheet => Some(PrintFormat::Rows(RowFormat::SpreadsheetCsv)),
        "csv" => Some(PrintFormat::Rows(RowFormat::Csv)),
        _ => None,
    }
}

fn explained_in(matches: &ArgMatches<'_>) -> Format
    ensures { result ≡ explained_asked (rows_of (found_of matches.now)) }
{
    match text_in(matches, "format") {
        Some(text) if text == "json" => Format::Json,
        _ => Format::Text,
    }
}

fn output_in<'w>(matches: &ArgMatches<'w>) -> Option<&'w str>
    ensures { option_map (λ s. s.now) result ≡ option_and_then output_named (first_of (codes "output") (rows_of (found_of matches.now))) }
{
    match text_in(matches, "output") {
        Some(text) if text == "-" => None,
        output => output,
    }
}

/// True if the first option is there without the second one, which it needs.
fn lacks(matches: &ArgMatches<'_>, flag: &str, option: &str) -> bool
    ensures { result ≡ lacks flag.now option.now (rows_of (found_of matches.now)) }
{
    flag_in(matches, flag) && !is_from_words(matches, option)
}

fn is_from_words(matches: &ArgMatches<'_>, id: &str) -> bool
    ensures { result ≡ is_from_words (source_of id.now (rows_of (found_of matches.now))) }
{
    matches!(source_in(matches, id), Some(ValueSource::CommandLine))
}

fn source_in(matches: &ArgMatches<'_>, id: &str) -> Option<ValueSource>
    ensures { result ≡ source_of id.now (rows_of (found_of matches.now)) }
{
    matches.value_source(id)
}

fn flag_in(matches: &ArgMatches<'_>, id: &str) -> bool
    ensures { result ≡ is_set id.now (rows_of (found_of matches.now)) }
{
    match text_in(matches, id) {
        Some(text) => text == "true",
        None => false,
    }
}

fn number_in(matches: &ArgMatches<'_>, id: &str) -> Option<u64>
    ensures { result ≡ number_at id.now (rows_of (found_of matches.now)) }
{
    text_in(matches, id)?.parse::<u64>().ok()
}

fn count_in(matches: &ArgMatches<'_>, id: &str) -> Option<usize>
    ensures { result ≡ number_at id.now (rows_of (found_of matches.now)) }
{
    text_in(matches, id)?.parse::<usize>().ok()
}

fn text_in<'w>(matches: &ArgMatches<'w>, id: &str) -> Option<&'w str>
    ensures { option_map (λ s. s.now) result ≡ first_of id.now (rows_of (found_of matches.now)) }
{
    matches.get_str(id)
}

fn names_in<'w>(alloc: Global, matches: &ArgMatches<'w>) -> Result<Vec<&'w str>, AllocError>
    ensures { IfOk result (λ v. map (λ s. s.now) v.items ≡ unwrap_or (all_of (codes "REPORT") (rows_of (found_of matches.now))) []) }
{
    match matches.get_strs("REPORT") {
        Some(reports) => Vec::from_slice(alloc, reports),
        None => Ok(Vec::new(alloc)),
    }
}
