//! Tests of the calls of `auditor`, `stream_dump`, `stream_export`, `stream_gen`, `chain_trial`,
//! `send_top` and `host_io`. Nothing stands here but tests.
#![tactic(auto)]

#[cfg(test)]
mod audit_tests;
#[cfg(test)]
mod chain_tests;
#[cfg(test)]
mod dump_tests;
#[cfg(test)]
mod export_tests;
#[cfg(test)]
mod fault_tests;
#[cfg(test)]
mod host_tests;
#[cfg(test)]
mod name_tests;
#[cfg(test)]
mod note_tests;
#[cfg(test)]
mod reading_tests;
#[cfg(test)]
mod run_tests;
#[cfg(test)]
mod same;
#[cfg(test)]
mod separator_tests;
#[cfg(test)]
mod showing_tests;
#[cfg(test)]
mod store_run_tests;
#[cfg(test)]
mod streams;
#[cfg(test)]
mod trial_tests;
#[cfg(test)]
mod trouble_tests;
