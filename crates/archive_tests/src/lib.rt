//! Tests of `archive_writer`. Nothing stands here but tests.
#![tactic(auto)]

#[cfg(test)]
mod archive_tests;
#[cfg(test)]
mod images;
#[cfg(test)]
mod same;
