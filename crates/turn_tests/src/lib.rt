//! Tests of `turn_sessions`. Nothing stands here but tests.
#![tactic(auto)]

#[cfg(test)]
mod fault_tests;
#[cfg(test)]
mod places;
#[cfg(test)]
mod same;
#[cfg(test)]
mod schedule_tests;
#[cfg(test)]
mod turn_tests;
