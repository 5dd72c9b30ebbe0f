ghost use Rattle.std.specs.Prelude.{◌≡◌, IfOk, IfErr, option_map};
ghost use Rattle.command_line.specs.Page.{IsInput, IsInputError, input_of};
ghost use Rattle.command_line.specs.ReportNames.{AreReportNames, IsNameError, name_end, without_return};
ghost use Rattle.command_line.specs.Words.{asked_of, name_texts, task_of};

use crate::error::{Error, STANDARD_INPUT};
use crate::folder::{Folder, read_bytes};
use crate::print_format::PrintFormat;
use oim_explain::Format;
use oim_names::Encoded;
use oim_report::after_mark;
use oim_value::Level;
use oim_write::{BOUND_PER_BYTE, default_bound};
use std::alloc::Global;
use std::io::Read;

/// The parsed arguments.
#[derive(Drop)]
pub(crate) struct Args<'w> {
    pub request: Request<'w>,
    /// The report names among the arguments. They precede the names in the file.
    pub reports: Vec<&'w str>,
    /// The file that lists more report names; it may be standard input.
    pub list: Option<&'w str>,
    /// True if NUL ends each name in the file, not a line end, which may be CR LF. The last name
    /// needs no end.
    pub is_null: bool,
    /// The name of the output file; None for standard output.
    pub output: Option<&'w str>,
    /// The bound of the output; None for the default.
    pub most: Option<u64>,
    /// True if the progress line is suppressed.
    pub is_quiet: bool,
    /// True if a second line is printed for a refusal or a fault, as on a terminal.
    pub is_verbose: bool,
}

impl<'w> Args<'w> {
    /// The bound of the output before anything is read.
    pub(crate) fn first_bound(&self) -> u64 {
        match self.most {
            Some(most) => most,
            None if self.request.is_bounded() => default_bound(0),
            None => u64::MAX,
        }
    }

    /// How many bytes each byte that is read adds to the bound.
    pub(crate) fn output_per_byte(&self) -> u64 {
        match self.most {
            Some(_) => 0,
            None => BOUND_PER_BYTE,
        }
    }

    /// Returns the bytes of the bundle or of the file of names, or no bytes if neither is read.
    ///
    /// Errors: `Unread`, `TooLong`, and out of memory.
    pub(crate) fn read_input<F: Folder, R: Read + Drop>(
        &self,
        alloc: Global,
        folder: &F,
        input: R,
    ) -> Result<Encoded, Error<'w>>
        ensures ok { IfOk result (IsInput (F.gives folder.now) (R.remaining input) (input_of (task_of self.now.request) (option_map (λ name. name.now) self.now.list))) }
        ensures err { IfErr result (IsInputError (F.fails folder.now) (R.remaining input) (input_of (task_of self.now.request) (option_map (λ name. name.now) self.now.list))) }
    {
        let Some(name) = self.input_name() else {
            return Ok(Encoded::from_vec(Vec::new(alloc)));
        };
        if name == STANDARD_INPUT {
            read_bytes(alloc, input, name)
        } else {
            folder.read_named(alloc, name)
        }
    }

    fn input_name(&self) -> Option<&'w str>
        ensures { option_map (λ name. name.now) result ≡ input_of (task_of self.now.request) (option_map (λ name. name.now) self.now.list) }
    {
        match &self.request {
            Request::Bundle => Some(STANDARD_INPUT),
            _ => self.list,
        }
    }

    /// Returns the names of all reports, given the bytes of the file of names. A byte order mark and
    /// empty names in the file are skipped.
    ///
    /// Errors: `Unread` if the file is not UTF-8; `NoNames` if there is a file of names, but no
    /// report is named; out of memory.
    pub(crate) fn names<'n>(
        &'n self,
        alloc: Global,
        bytes: &'n [u8],
    ) -> Result<Vec<&'n str>, Error<'w>>
        ensures ok { IfOk result (λ names. AreReportNames (asked_of self.now) bytes.now (name_texts names.items)) }
        ensures err { IfErr result (IsNameError (asked_of self.now) bytes.now) }
    {
        let mut all = Vec::from_slice(alloc, self.reports.as_slice())?;
        let Some(list) = self.list else {
            return Ok(all);
        };
        let Ok(text) = str::from_utf8(after_mark(bytes)) else {
            return Err(Error::Unread(list, Some("It is not UTF-8.")));
        };
        for name in text.split(self.end()) {
            let name = self.without_return(name);
            if name.is_empty() {
                continue;
            }
            all.push(name)?;
        }
        if all.as_slice().is_empty() {
            return Err(Error::NoNames(list));
        }
        Ok(all)
    }

    fn end(&self) -> char
        ensures { result ≡ name_end self.now.is_null }
    {
        if self.is_null { '\0' } else { '\n' }
    }

    fn without_return<'n>(&self, name: &'n str) -> &'n str
        ensures { result.now ≡ without_return self.now.is_null name.now }
    {
        if self.is_null {
            name
        } else {
            name.strip_suffix('\r').unwrap_or(name)
        }
    }
}

/// The work that the arguments ask for.
#[derive(Drop)]
pub(crate) enum Request<'w> {
    /// Merge the bundle on standard input.
    Bundle,
    /// Print help or the version. clap returns both as errors.
    Help(clap::Error),
    /// Explain the reports, and the sheet in this file.
    Explain(&'w str, Format),
    /// Run another command under the sheet in this file.
    Under(&'w str, Subcommand<'w>),
}

impl Request<'_> {
    /// True if the output has a bound by default. Other output does not repeat the URIs of names.
    fn is_bounded(&self) -> bool {
        match self {
            Request::Explain(..) => true,
            Request::Under(_, subcommand) => subcommand.repeats_names(),
            Request::Bundle | Request::Help(_) => false,
        }
    }
}

/// A command with its own arguments. It runs only if the sheet is accepted.
#[derive(Clone, Copy)]
pub(crate) enum Subcommand<'w> {
    Merge(Level),
    Verdicts(PrintFormat),
    Sources(PrintFormat),
    /// Check the reports. The format is None for a report alone.
    Check(Option<PrintFormat>),
    /// Run the schedule in this file on this many replicas.
    Replay(usize, &'w str),
}

impl Subcommand<'_> {
    /// True if the output repeats URIs or file names, as JSON and CSV do. It may then be much longer
    /// than the reports.
    fn repeats_names(self) -> bool {
        matches!(
            self,
            Subcommand::Verdicts(PrintFormat::Rows(_)) | Subcommand::Sources(PrintFormat::Rows(_))
        )
    }
}
