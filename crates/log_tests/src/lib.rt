//! Tests of the calls of `disk_model`, `file_disk` and `group_log`, and a caller of the log that
//! they run. Nothing stands here but tests.
#![tactic(auto)]

#[cfg(test)]
mod client;
#[cfg(test)]
mod disk_tests;
#[cfg(test)]
mod file_refusals;
#[cfg(test)]
mod file_tests;
#[cfg(test)]
mod journal_tests;
#[cfg(test)]
mod same;
