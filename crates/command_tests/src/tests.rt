mod files;
mod memory;
mod ran;
mod run;
mod terminals;
mod words;
