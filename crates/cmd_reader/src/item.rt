// What a reader gives: commands with their places, what is seen of them, or the reason why there is
// none.
use send_commands::Command;
use sx_base::Verdict;

/// A command with where it stands.
#[derive(Debug, Clone, Copy)]
pub struct Item<'a> {
    /// The command, whose bytes stand in the reader.
    pub command: Command<'a>,
    /// Its number in its file, counted from 1.
    pub number: u64,
    /// The place in the file of its frame's first byte.
    pub offset: u64,
    /// The place in the file of the first byte of its data, 0 where it has no data.
    pub data_at: u64,
    /// The version of its stream.
    pub version: u32,
    /// Whether the bytes of its frame are the canonical spelling of the command: the wanted
    /// attributes alone, in rising order of their numbers.
    pub canonical: bool,
}

/// What is seen of a command that is not made, unless it begins a part or names another subvolume.
#[derive(Debug, Clone, Copy)]
pub struct Glance<'a> {
    /// The command itself where it begins a part or names a key beside its own, None where it does
    /// neither.
    pub mention: Option<Command<'a>>,
    /// The version of its stream.
    pub version: u32,
}

/// Why a reader stops.
#[derive(Debug, Clone, Copy, PartialEq, Eq)]
pub enum ReadStop {
    /// The bytes are refused.
    Refused(Verdict),
    /// The inputs failed.
    InputFault,
    /// The file gave 2^62 bytes and no end.
    InputTooLong,
}
