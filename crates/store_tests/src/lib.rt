//! Tests of the calls of `store_journal` and `store_scrub`, and callers of the store that they run.
//! Nothing stands here but tests.
#![tactic(auto)]

#[cfg(test)]
mod client;
#[cfg(test)]
mod crash_tests;
#[cfg(test)]
mod made_tests;
#[cfg(test)]
mod opened_tests;
#[cfg(test)]
mod same;
#[cfg(test)]
mod scrub_tests;
#[cfg(test)]
mod sparse_tests;
#[cfg(test)]
mod streams;
