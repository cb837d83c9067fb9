//! The commands that make the inodes of a subvolume again, spelled in one of two forms.
#![tactic(auto)]

mod form;
mod making;
mod plain;
mod setting;
mod spelling;

pub use form::{Canonical, Form, Receivable};
pub use spelling::Spelling;
