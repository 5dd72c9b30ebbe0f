//! Calls of `oim_merge`, `row_formats` and `oim_explain` for C. The calls take bytes and numbers,
//! and write bytes and numbers to the caller's memory. `include/xbrlmerge.h` states the rules for
//! callers.
#![tactic(auto)]

mod calls;
mod check;
mod check_all;
mod explain;
mod output;
mod refusal_name;
mod reports;
mod row_call;
#[cfg(test)]
mod tests;
mod version;
