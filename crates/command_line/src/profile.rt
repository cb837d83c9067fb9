// What a request does outside.
ghost use Rattle.std.specs.Prelude.{◌≡◌, Some};
ghost use Rattle.std.specs.Option.{option_map};
ghost use Rattle.program_model.specs.Profiles.{profile, store_of};
ghost use Rattle.command_line.specs.Meaning.{base_meant, request_meant};
ghost use Rattle.command_line.specs.Outside.{access_meant, how_meant, store_meant};
ghost use Rattle.command_line.specs.Names.{numbered};

use crate::file_names::FileNames;
use crate::guard_arguments::GuardArguments;
use crate::request::{Base, Request};

/// How files are read.
#[derive(Debug, Clone, Copy, PartialEq, Eq)]
pub enum How {
    /// Not at all.
    NoFiles,
    /// Once, in their order, so that a pipe serves.
    Once,
    /// Twice, in their order, and parts of them again.
    Twice,
    /// Once each, in turns.
    InTurns,
}

/// What is done to the store of a file.
#[derive(Debug, Clone, Copy, PartialEq, Eq)]
pub enum Access {
    /// It is made.
    Makes,
    /// It is changed.
    Changes,
    /// It is only read.
    Reads,
}

/// A store, and what is done to it.
#[derive(Debug, Clone, Copy, PartialEq, Eq)]
pub struct StoreAccess<'a> {
    /// The name of its file.
    pub file: &'a str,
    /// What is done to it.
    pub access: Access,
}

impl<'a> Request<'a> {
    /// The guards that are asked about each command of a stream.
    #[tactic(auto, unfolding(program_model::specs::Profiles::profile))]
    pub fn guards(&self) -> GuardArguments<'a>
        ensures { result ≡ (profile (request_meant self.now)).guards }
    {
        match self {
            Request::Compose { .. } => GuardArguments::none(),
            Request::Audit { guards, .. } => guards.again(),
            Request::Dump { .. } => GuardArguments::none(),
            Request::Text { .. } => GuardArguments::none(),
            Request::Pack { .. } => GuardArguments::none(),
            Request::Export { .. } => GuardArguments::none(),
            Request::Squash { .. } => GuardArguments::none(),
            Request::Gen { .. } => GuardArguments::none(),
            Request::Trial { .. } => GuardArguments::none(),
            Request::Init { .. } => GuardArguments::none(),
            Request::Drop { .. } => GuardArguments::none(),
            Request::Receive { guards, .. } => guards.again(),
            Request::List { .. } => GuardArguments::none(),
            Request::Show { .. } => GuardArguments::none(),
            Request::Cat { .. } => GuardArguments::none(),
            Request::Scrub { .. } => GuardArguments::none(),
            Request::Send { .. } => GuardArguments::none(),
            Request::Restore { .. } => GuardArguments::none(),
            Request::Stream { .. } => GuardArguments::none(),
            Request::Tar { .. } => GuardArguments::none(),
            Request::Interleave { turns, .. } => turns.guards(),
        }
    }

    /// The names of the files that are read.
    #[tactic(auto, unfolding(program_model::specs::Profiles::profile))]
    pub fn file_names(&self) -> FileNames<'a>
        ensures { result ≡ (profile (request_meant self.now)).files.files }
    {
        match self {
            Request::Compose { files, .. } => files.names(),
            Request::Audit { files, .. } => files.names(),
            Request::Dump { file } => FileNames::one(file),
            Request::Text { file } => FileNames::one(file),
            Request::Pack { file } => FileNames::one(file),
            Request::Export { files, .. } => files.names(),
            Request::Squash { file, .. } => file.names(),
            Request::Gen { .. } => FileNames::none(),
            Request::Trial { .. } => FileNames::none(),
            Request::Init { .. } => FileNames::none(),
            Request::Drop { .. } => FileNames::none(),
            Request::Receive { files, .. } => files.names(),
            Request::List { .. } => FileNames::none(),
            Request::Show { .. } => FileNames::none(),
            Request::Cat { .. } => FileNames::none(),
            Request::Scrub { .. } => FileNames::none(),
            Request::Send { .. } => FileNames::none(),
            Request::Restore { .. } => FileNames::none(),
            Request::Stream { .. } => FileNames::none(),
            Request::Tar { .. } => FileNames::none(),
            Request::Interleave { turns, .. } => turns.names(),
        }
    }

    /// The name of the file of a number, which is counted from 1.
    pub fn file_name(&self, number: u64) -> Option<&'a str>
        ensures { option_map (λ name. name.now) result
            ≡ numbered (profile (request_meant self.now)).files.files number }
    {
        self.file_names().numbered(number)
    }

    /// How these files are read.
    #[tactic(auto, unfolding(program_model::specs::Profiles::profile))]
    pub fn reading(&self) -> How
        ensures { how_meant result ≡ (profile (request_meant self.now)).how }
    {
        match self {
            Request::Compose { .. } => How::Twice,
            Request::Audit { .. } => How::Once,
            Request::Dump { .. } => How::Once,
            Request::Text { .. } => How::Once,
            Request::Pack { .. } => How::Once,
            Request::Export { .. } => How::Once,
            Request::Squash { .. } => How::Twice,
            Request::Gen { .. } => How::NoFiles,
            Request::Trial { .. } => How::NoFiles,
            Request::Init { .. } => How::NoFiles,
            Request::Drop { .. } => How::NoFiles,
            Request::Receive { .. } => How::Once,
            Request::List { .. } => How::NoFiles,
            Request::Show { .. } => How::NoFiles,
            Request::Cat { .. } => How::NoFiles,
            Request::Scrub { .. } => How::NoFiles,
            Request::Send { .. } => How::NoFiles,
            Request::Restore { .. } => How::NoFiles,
            Request::Stream { .. } => How::NoFiles,
            Request::Tar { .. } => How::NoFiles,
            Request::Interleave { .. } => How::InTurns,
        }
    }

    /// The store, where there is one, and what is done to it.
    #[tactic(auto, unfolding(program_model::specs::Profiles::profile))]
    pub fn store(&self) -> Option<StoreAccess<'a>>
        ensures { option_map store_meant result ≡ (profile (request_meant self.now)).store }
    {
        match self {
            Request::Compose { base, .. } => of_base(base),
            Request::Audit { base, .. } => of_base(base),
            Request::Dump { .. } => None,
            Request::Text { .. } => None,
            Request::Pack { .. } => None,
            Request::Export { base, .. } => of_base(base),
            Request::Squash { base, .. } => of_base(base),
            Request::Gen { .. } => None,
            Request::Trial { .. } => None,
            Request::Init { store } => opened(store, Access::Makes),
            Request::Drop { store, .. } => opened(store, Access::Changes),
            Request::Receive { store, .. } => opened(store, Access::Changes),
            Request::List { store } => opened(store, Access::Reads),
            Request::Show { store, .. } => opened(store, Access::Reads),
            Request::Cat { store, .. } => opened(store, Access::Reads),
            Request::Scrub { store } => opened(store, Access::Reads),
            Request::Send { store, .. } => opened(store, Access::Reads),
            Request::Restore { store, .. } => opened(store, Access::Reads),
            Request::Stream { store, .. } => opened(store, Access::Reads),
            Request::Tar { store, .. } => opened(store, Access::Reads),
            Request::Interleave { store, .. } => opened(store, Access::Changes),
        }
    }

    /// Whether something may be written to standard output.
    #[tactic(auto, unfolding(program_model::specs::Profiles::profile))]
    pub fn prints(&self) -> bool
        ensures { result ≡ (profile (request_meant self.now)).prints }
    {
        match self {
            Request::Compose { .. } => true,
            Request::Audit { .. } => true,
            Request::Dump { .. } => true,
            Request::Text { .. } => true,
            Request::Pack { .. } => true,
            Request::Export { .. } => true,
            Request::Squash { .. } => true,
            Request::Gen { .. } => true,
            Request::Trial { .. } => true,
            Request::Init { .. } => false,
            Request::Drop { .. } => false,
            Request::Receive { .. } => true,
            Request::List { .. } => true,
            Request::Show { .. } => true,
            Request::Cat { .. } => true,
            Request::Scrub { .. } => true,
            Request::Send { .. } => true,
            Request::Restore { .. } => true,
            Request::Stream { .. } => true,
            Request::Tar { .. } => true,
            Request::Interleave { .. } => true,
        }
    }
}

fn opened<'a>(file: &'a str, access: Access) -> Option<StoreAccess<'a>>
    ensures { option_map store_meant result
        ≡ Some (record { file = file.now; access = access_meant access }) }
{
    Some(StoreAccess { file, access })
}

// The store of a base, which is only read.
fn of_base<'a>(base: &Base<'a>) -> Option<StoreAccess<'a>>
    ensures { option_map store_meant result ≡ store_of (base_meant base.now) }
{
    match base {
        Base::Nothing => None,
        Base::InStore { store } => opened(store, Access::Reads),
    }
}
