// When standard output may not take what a command writes.
ghost use Rattle.std.specs.Prelude.{◌≡◌, ◌≤◌, None};
ghost use Rattle.command_line.specs.Meaning.{request_meant};
ghost use Rattle.sx_base.specs.Causes.{Rose};
ghost use Rattle.host_io.specs.Edge.{barred_for, writes_stream};

use crate::advice::{TO_A_TERMINAL, TO_ITSELF, TO_THE_STORE};
use crate::named_files::{have_output, is_output};
use command_line::Request;
use std::io::IsTerminal;
use sx_base::{Failed, Sink};

/// Why standard output may not take what a command writes.
#[derive(Debug, Clone, Copy, PartialEq, Eq)]
pub(crate) enum BarredOutput {
    /// It is a terminal, and the command writes a stream.
    Terminal,
    /// It is one of the files that the command reads.
    Input,
    /// It is the file of the store.
    Store,
}

impl BarredOutput {
    /// What a person is told.
    pub(crate) fn advice(self) -> &'static str {
        match self {
            BarredOutput::Terminal => TO_A_TERMINAL,
            BarredOutput::Input => TO_ITSELF,
            BarredOutput::Store => TO_THE_STORE,
        }
    }
}

/// Why standard output may not take what a request writes, if it may not.
pub(crate) fn barred_output(
    rt: &HostRuntime,
    request: Option<&Request<'_>>,
) -> Option<BarredOutput> {
    let request = request?;
    barred_for(
        is_store(rt, request),
        have_output(rt, request),
        writes_stream(request) && rt.stdout().is_terminal(),
    )
}

// The same, by whether standard output is the store, one of the files, or a terminal that would get
// a stream.
fn barred_for(is_store: bool, is_input: bool, is_stream_to_terminal: bool) -> Option<BarredOutput>
    ensures { result ≡ barred_for is_store is_input is_stream_to_terminal }
{
    if is_store {
        return Some(BarredOutput::Store);
    }
    if is_input {
        return Some(BarredOutput::Input);
    }
    if is_stream_to_terminal {
        return Some(BarredOutput::Terminal);
    }
    None
}

// Whether standard output is the file of the store of a request.
fn is_store(rt: &HostRuntime, request: &Request<'_>) -> bool {
    match request.store() {
        Some(store) => is_output(rt, store.file),
        None => false,
    }
}

// Whether a request writes a stream to standard output.
fn writes_stream(request: &Request<'_>) -> bool
    ensures { result ≡ writes_stream (request_meant request.now) }
{
    match request {
        Request::Compose { .. } => true,
        Request::Export { .. } => true,
        Request::Squash { .. } => true,
        Request::Send { .. } => true,
        Request::Restore { .. } => true,
        Request::Stream { .. } => true,
        Request::Tar { .. } => true,
        Request::Audit { .. } => false,
        Request::Dump { .. } => false,
        Request::Text { .. } => false,
        Request::Pack { .. } => true,
        Request::Gen { .. } => false,
        Request::Trial { .. } => false,
        Request::Init { .. } => false,
        Request::Drop { .. } => false,
        Request::Receive { .. } => false,
        Request::List { .. } => false,
        Request::Show { .. } => false,
        Request::Cat { .. } => false,
        Request::Scrub { .. } => false,
        Request::Interleave { .. } => false,
    }
}

/// A sink that takes nothing: each write is answered `Failed` and raises the count of faults, which
/// ends at the greatest u64.
#[derive(Debug, Drop)]
pub(crate) struct BarredSink {
    faults: u64,
}

impl BarredSink {
    /// With no fault counted yet.
    pub(crate) fn new() -> BarredSink
        ensures { result.faults ≡ 0 }
    {
        BarredSink { faults: 0 }
    }
}

impl Sink for BarredSink {
    ghost taken = { λ _. None };

    ghost faults = { λ s. s.faults };

    fn write(&mut self, piece: &[u8]) -> Result<usize, Failed> {
        let _ = piece.len();
        self.faults = self.faults.saturating_add(1);
        Err(Failed)
    }
}
