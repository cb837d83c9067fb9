//! Tests of `group_replay`. Nothing stands here but tests.
#![tactic(auto)]

#[cfg(test)]
mod fault_tests;
#[cfg(test)]
mod image;
#[cfg(test)]
mod same;
#[cfg(test)]
mod taking_tests;
