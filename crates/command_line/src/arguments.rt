ghost use Rattle.std.specs.Prelude.{◌≡◌, IfOk, false};
ghost use Rattle.clap.specs.Words.{App, Rule, rule_of, with_rule};
ghost use Rattle.command_line.specs.Arguments.{IsApp, beside, command_app, flag_rule, one_of_names, option_rule, parsed_by, reports_rule, with_output_of, with_reports_of};

use clap::builder::ValueParser;
use clap::{Arg, ArgAction, Command};
use std::alloc::{AllocError, Global};

/// A command that is being built, or the first error. The functions below take and return it, because
/// a function with a `?` for each argument would be slow to prove.
pub(crate) type Building<'w> = Result<Command<'w>, AllocError>;

/// Returns an option with a value.
pub(crate) fn option<'w>(alloc: Global, name: &'w str, value: &'w str, help: &'w str) -> Arg<'w>
    ensures rule { rule_of result ≡ option_rule name.now }
    ensures local { result.global ≡ false }
{
    Arg::new(alloc, name)
        .long(name)
        .value_name(value)
        .help(help)
}

/// Returns the argument with a parser of its values.
pub(crate) fn parsed<'w>(argument: Arg<'w>, parser: ValueParser<'w>) -> Arg<'w>
    ensures rule { rule_of result ≡ parsed_by parser.entry (rule_of argument.entry) }
    ensures local { result.global ≡ argument.entry.global }
{
    argument.value_parser(parser)
}

/// Returns the argument with one of these names as its value.
pub(crate) fn choice<'w>(argument: Arg<'w>, names: &'w [&'w str], default: &'w str) -> Arg<'w>
    ensures rule { rule_of result ≡ one_of_names names.entry default.now (rule_of argument.entry) }
    ensures local { result.global ≡ argument.entry.global }
{
    parsed(argument, ValueParser::Names(names)).default_value(default)
}

/// Returns an option without a value.
pub(crate) fn flag<'w>(alloc: Global, name: &'w str, help: &'w str) -> Arg<'w>
    ensures rule { rule_of result ≡ flag_rule name.now }
    ensures local { result.global ≡ false }
{
    Arg::new(alloc, name)
        .long(name)
        .action(ArgAction::SetTrue)
        .help(help)
}

/// Returns a command with this name and help, and the option for a sheet.
pub(crate) fn command<'w>(
    alloc: Global,
    name: &'w str,
    about: &'w str,
    more: &'w str,
) -> Building<'w>
    ensures { IfOk result (IsApp (command_app name.now)) }
{
    let help = "The sheet: a file that lists the concepts and dimensions that reports may use";
    Command::new(alloc, name)
        .about(about)
        .after_help(more)
        .arg(option(alloc, "sheet", "SHEET", help).required(true))
}

/// Adds an argument.
pub(crate) fn with<'w>(command: Building<'w>, argument: Arg<'w>) -> Building<'w>
    ensures { (a : App) (r : Rule) → IfOk command.entry (IsApp a) → rule_of argument.entry ≡ r
        → argument.entry.global ≡ false → IfOk result (IsApp (with_rule a r)) }
{
    command?.arg(argument)
}

/// Adds an option without a value, which is valid only beside another option. If `is_strict`, clap
/// refuses it without that option.
pub(crate) fn with_flag_of<'w>(
    command: Building<'w>,
    flag: Arg<'w>,
    option: &'w str,
    is_strict: bool,
) -> Building<'w>
    ensures { (a : App) (r : Rule) → IfOk command.entry (IsApp a) → rule_of flag.entry ≡ r
        → flag.entry.global ≡ false → IfOk result (IsApp (with_rule a (beside is_strict r))) }
{
    let flag = requiring(flag, option, is_strict)?;
    with(command, flag)
}

fn requiring<'w>(flag: Arg<'w>, option: &'w str, is_strict: bool) -> Result<Arg<'w>, AllocError>
    ensures rule { IfOk result (λ r. rule_of r ≡ beside is_strict (rule_of flag.entry)) }
    ensures local { IfOk result (λ r. r.global ≡ flag.entry.global) }
{
    if is_strict {
        flag.requires_arg(option)
    } else {
        Ok(flag)
    }
}

/// Adds the arguments for the output file, for the bound of the output and for second lines.
fn with_output<'w>(alloc: Global, command: Building<'w>) -> Building<'w>
    ensures { (a : App) → IfOk command.entry (IsApp a) → IfOk result (IsApp (with_output_of a)) }
{
    let output_help = "Write the complete output to FILE, or nothing; - is standard output";
    let most_help = "Stop with status 3 if the output is longer than BYTES";
    let verbose_help = "Also print the file of a refused report, and why a file failed";
    let output = option(alloc, "output", "FILE", output_help).short('o');
    let most = option(alloc, "most-output", "BYTES", most_help);
    let most = parsed(most, ValueParser::Unsigned(1, u64::MAX));
    let verbose = flag(alloc, "verbose", verbose_help);
    with(with(with(command, output), most), verbose)
}

/// Adds the arguments for any number of reports, for the output and for the progress line.
pub(crate) fn with_reports<'w>(
    alloc: Global,
    command: Building<'w>,
    is_strict: bool,
) -> Building<'w>
    ensures { (a : App) → IfOk command.entry (IsApp a) → IfOk result (IsApp (with_reports_of is_strict a)) }
{
    let list_help = "Also read the reports named in FILE, one per line; - is standard input";
    let null_help = "Names in the file of --reports-from end with NUL, not with a line end";
    let command = with(command, option(alloc, "reports-from", "FILE", list_help));
    let null = flag(alloc, "null", null_help).short('0');
    let command = with_flag_of(command, null, "reports-from", is_strict);
    let command = with_output(alloc, command);
    let quiet = flag(alloc, "quiet", "Do not show progress on a terminal");
    with(with(command, quiet), reports(alloc))
}

fn reports<'w>(alloc: Global) -> Arg<'w>
    ensures rule { rule_of result ≡ reports_rule }
    ensures local { result.global ≡ false }
{
    Arg::new(alloc, "REPORT")
        .num_args(0..)
        .help("The report files, counted from 1 in this order")
}
