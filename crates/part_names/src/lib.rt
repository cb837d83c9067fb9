//! What is said in front of files: another name for the parts of a file, and the CTRANSIDs that are
//! meant where it names subvolumes.
#![tactic(auto)]

mod named_files;
mod overrides;
mod overriding;
mod parent;

pub use named_files::{NamedFile, NamedFiles};
pub use overrides::{FileOverride, Overrides};
pub use overriding::{given_or, override_command, override_item};
pub use parent::Parent;
