//! Tests of the calls of `clone_resolve`, `guard_rules`, `provenance`, `clone_pieces`,
//! `file_survey` and `composer`. Nothing stands here but tests.
#![tactic(auto)]

#[cfg(test)]
mod call_tests;
#[cfg(test)]
mod guard_tests;
#[cfg(test)]
mod piece_tests;
#[cfg(test)]
mod same;
#[cfg(test)]
mod silent_tests;
#[cfg(test)]
mod step_tests;
#[cfg(test)]
mod streams;
#[cfg(test)]
mod survey_tests;
#[cfg(test)]
mod trace_tests;
#[cfg(test)]
mod values;
#[cfg(test)]
mod whole_tests;
