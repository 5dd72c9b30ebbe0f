//! The command line of `xbrlmerge`: arguments, files, printed lines and exit statuses. The
//! libraries do the merging.
#![tactic(auto)]

mod arguments;
mod causes;
mod commands;
mod console;
mod disk;
mod ending;
mod error;
mod folder;
mod inputs;
pub mod laws;
mod matches;
mod output;
mod print_format;
mod program;
mod request;
mod subcommands;
mod words;

pub use disk::{Disk, Named};
pub use error::Error;
pub use folder::Folder;
pub use program::{Ran, Streams, run, run_words};
