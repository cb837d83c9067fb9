// What a request is answered.
ghost use Rattle.std.specs.Prelude.{◌≡◌, []};
ghost use Rattle.program_model.specs.Answers.{flat};
ghost use Rattle.program_model.specs.Answers.{NoMemory};
ghost use Rattle.store_commands.specs.Ending.{outcome_meant};
ghost use Rattle.store_model.specs.Answers.{OfAnyWord};
ghost use Rattle.request_answers.specs.Answered.{answer_of, end_meant};

use std::alloc::Global;
use store_commands::StoreEnd;
use sx_base::{Blob, Outcome};

/// What a request is answered.
#[derive(Debug, Drop)]
pub enum Answer {
    /// The arguments mean nothing.
    Usage,
    /// It ended so.
    Ended(Outcome),
    /// The store's device failed.
    StoreFault,
    /// The bytes stand for no store.
    NotStore {
        /// The first group at fault, counted from 1; the header counts as group 0.
        group: u64,
    },
    /// The store has nothing of this name or path.
    Missing {
        /// The name or the path.
        what: Blob,
    },
    /// There is no room in the store.
    LogFull {
        /// The place where the next bytes would stand, in bytes.
        end: u64,
        /// How many bytes they are.
        wanted: u64,
        /// The greatest size of the store, in bytes.
        limit: u64,
    },
    /// There is something already where a store was to be made.
    StoreThere {
        /// Its size, in bytes.
        size: u64,
    },
    /// A group of the store has another checksum than the one that stands behind it.
    Damaged {
        /// The group, counted from 1.
        group: u64,
        /// The checksum that stands there.
        stored: u32,
        /// The checksum of the bytes in front of it.
        computed: u32,
    },
}

/// The answer of an outcome. Takes no memory.
pub(crate) fn ended(outcome: Outcome) -> Answer
    ensures { answer_of result ≡ flat (OfAnyWord (outcome_meant outcome)) }
{
    Answer::Ended(outcome)
}

/// The answer where there was no memory.
pub(crate) fn no_memory() -> Answer
    ensures { answer_of result ≡ NoMemory }
{
    Answer::Ended(Outcome::NoMemory)
}

/// The answer of an end, of a request that asks for no name. Takes no memory.
pub(crate) fn end_answer(alloc: Global, end: StoreEnd) -> Answer
    ensures { answer_of result ≡ flat (end_meant [] [] end) }
{
    named_answer(end, Blob::new(alloc), Blob::new(alloc))
}

/// The answer of an end, of a request that asks for this name and this path.
pub(crate) fn named_answer(end: StoreEnd, name: Blob, path: Blob) -> Answer
    ensures { answer_of result ≡ flat (end_meant name path end) }
{
    match end {
        StoreEnd::Ends(outcome) => Answer::Ended(outcome),
        StoreEnd::StoreFault => Answer::StoreFault,
        StoreEnd::NotStore { group } => Answer::NotStore { group },
        StoreEnd::NoName => Answer::Missing { what: name },
        StoreEnd::NoFile => Answer::Missing { what: path },
        StoreEnd::LogFull { end, wanted, limit } => Answer::LogFull { end, wanted, limit },
        StoreEnd::StoreThere { size } => Answer::StoreThere { size },
        StoreEnd::Damaged {
            group,
            stored,
            computed,
        } => Answer::Damaged {
            group,
            stored,
            computed,
        },
    }
}
