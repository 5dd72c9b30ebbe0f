ghost use Rattle.std.specs.Prelude.{◌≡◌, false, true};
ghost use Rattle.command_line.specs.Printed.{Shows};

use std::fmt::Display;
use std::io::Write;

// Terminal codes: `BACK` moves the cursor to the start of the line, and `CLEARED` also erases the
// line.

const BACK: &str = "\r";

const CLEARED: &str = "\r\x1b[K";

/// How many of all reports, and how many bytes, were read.
#[derive(Clone, Copy)]
pub(crate) struct Progress {
    pub read: usize,
    pub all: usize,
    pub bytes: u64,
}

/// Standard error. If it is a terminal and `is_quiet` is not set, one line shows how many reports
/// and megabytes were read. Failed writes are ignored.
#[derive(Drop)]
pub(crate) struct Console<E> {
    err: E,
    is_terminal: bool,
    pub is_quiet: bool,
    /// True if a second line is printed for a refusal or a fault.
    pub is_verbose: bool,
    is_shown: bool,
    /// True if `print` wrote every text so far. Only contracts use this: if it is false, lines may be
    /// missing on standard error. No other module can set it, so each line is tried.
    is_whole: bool,
}

impl<E: Write> Console<E> {
    pub(crate) fn new(err: E, is_terminal: bool) -> Console<E>
        ensures { (result.err ≡ err) × (result.is_terminal ≡ is_terminal) × (result.is_verbose ≡ is_terminal) }
    {
        Console {
            err,
            is_terminal,
            is_quiet: false,
            is_verbose: is_terminal,
            is_shown: false,
            is_whole: true,
        }
    }

    /// If a bundle is expected from a terminal, prints that, and how to list the commands.
    pub(crate) fn tell_awaited(&mut self, is_bundle: bool, is_input_terminal: bool)
        ensures { (is_bundle ≡ true → is_input_terminal ≡ false) → self.new ≡ self.old }
    {
        if is_bundle && is_input_terminal {
            self.print(
                "Waiting for a bundle on standard input; `xbrlmerge --help` shows the commands.\n",
            );
        }
    }

    /// Prints a text, also if an earlier one failed to be written.
    pub(crate) fn print<T: Display + Drop>(&mut self, text: T)
        ensures { Shows E.contents (T.output text) self.old self.new }
    {
        let is_written = write!(self.err, "{text}").is_ok();
        self.is_whole = self.is_whole && is_written;
    }

    /// Prints how much was read over the previous progress line, unless the line is suppressed or
    /// standard error is not a terminal.
    pub(crate) fn show(&mut self, progress: Progress)
        ensures { self.old.is_terminal ≡ false → self.new ≡ self.old }
    {
        if self.is_terminal && !self.is_quiet {
            let Progress { read, all, bytes } = progress;
            let megabytes = bytes / 1_000_000;
            let _ = write!(self.err, "{BACK}{read} of {all} reports, {megabytes} MB");
            self.is_shown = true;
        }
    }

    pub(crate) fn clear(&mut self)
        ensures { self.old.is_terminal ≡ false → self.new ≡ self.old }
    {
        if self.is_terminal && self.is_shown {
            let _ = write!(self.err, "{CLEARED}");
            self.is_shown = false;
        }
    }
}
