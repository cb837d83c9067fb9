//! Tests of the calls of `extent_map`, `shared_map`, `inode_tree`, `subvol`, `subvol_catalog`,
//! `path_index` and `tree_view`. Nothing stands here but tests.
#![tactic(auto)]

#[cfg(test)]
mod catalog_tests;
#[cfg(test)]
mod contents_tests;
#[cfg(test)]
mod edit_tests;
#[cfg(test)]
mod extent_tests;
#[cfg(test)]
mod index_tests;
#[cfg(test)]
mod inode_tests;
#[cfg(test)]
mod map_tests;
#[cfg(test)]
mod marks;
#[cfg(test)]
mod plain;
#[cfg(test)]
mod same;
#[cfg(test)]
mod view_tests;
