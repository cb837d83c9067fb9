//! Tests of the calls of `sx_base`, `crc32c_part`, `path_rules`, `tlv_frame`, `send_commands` and
//! `cmd_reader`. Nothing stands here but tests.
#![tactic(auto)]

#[cfg(test)]
mod base_tests;
#[cfg(test)]
mod checksum_tests;
#[cfg(test)]
mod command_tests;
#[cfg(test)]
mod feed_tests;
#[cfg(test)]
mod frames;
#[cfg(test)]
mod layout_tests;
#[cfg(test)]
mod path_tests;
#[cfg(test)]
mod reader_tests;
#[cfg(test)]
mod same;
