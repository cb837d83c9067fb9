// What the words of a call ask for.
ghost use Rattle.std.specs.Prelude.{◌≡◌, map, option_map};
ghost use Rattle.std.specs.String.{string_bytes};
ghost use Rattle.program_model.specs.Requests.{request_in, a_store, a_snapshot, a_path, a_file, a_base_and_files, a_base_and_file, a_store_and_files, a_schedule, guarded, two_numbers};
ghost use Rattle.program_model.specs.Requests as requests;
ghost use Rattle.command_line.specs.Meaning.{request_meant};

use crate::arguments::{
    OverBase, OverBaseOnce, Snapshot, chain_in, guards_end, only, over_base_in, over_base_once,
    snapshot_in,
};
use crate::file_arguments::FileArguments;
use crate::guard_arguments::GuardArguments;
use crate::request::Request;
use crate::turn_arguments::TurnArguments;
use crate::word::Word;

/// What the words after the program's name ask for; `None` exactly where they mean nothing. Takes
/// no memory.
#[tactic(auto, unfolding(program_model::specs::Requests::request_in, program_model::specs::Requests::taken_by, program_model::specs::Requests::commands))]
pub fn parse(words: &[String]) -> Option<Request<'_>>
    ensures { option_map request_meant result ≡ request_in (map string_bytes words.now) }
{
    let [name, words @ ..] = words else {
        return None;
    };
    match name.as_str() {
        "compose" => read_compose(words),
        "audit" => read_audit(words),
        "dump" => read_dump(words),
        "text" => read_text(words),
        "pack" => read_pack(words),
        "export" => read_export(words),
        "squash" => read_squash(words),
        "gen" => read_gen(words),
        "trial" => read_trial(words),
        "init" => read_init(words),
        "drop" => read_drop(words),
        "receive" => read_receive(words),
        "list" => read_list(words),
        "show" => read_show(words),
        "cat" => read_cat(words),
        "scrub" => read_scrub(words),
        "send" => read_send(words),
        "restore" => read_restore(words),
        "stream" => read_stream(words),
        "tar" => read_tar(words),
        "interleave" => read_interleave(words),
        _ => None,
    }
}

// `compose STORE FILE..`
fn read_compose(words: &[String]) -> Option<Request<'_>>
    ensures { option_map request_meant result
        ≡ a_base_and_files requests.Compose (map string_bytes words.now) }
{
    let Some(over) = over_base_in(words) else {
        return None;
    };
    let OverBase { base, files } = over;
    Some(Request::Compose { base, files })
}

// `audit [GUARD..] STORE FILE..`
fn read_audit(words: &[String]) -> Option<Request<'_>>
    ensures { option_map request_meant result
        ≡ guarded (λ guards. a_base_and_files (requests.Audit guards))
        (map string_bytes words.now) }
{
    let end = guards_end(words)?;
    let guards = GuardArguments::among(&words[..end]);
    let Some(over) = over_base_in(&words[end..]) else {
        return None;
    };
    let OverBase { base, files } = over;
    Some(Request::Audit {
        guards,
        base,
        files,
    })
}

// `dump FILE`
fn read_dump(words: &[String]) -> Option<Request<'_>>
    ensures { option_map request_meant result ≡ a_file requests.Dump (map string_bytes words.now) }
{
    let file = only(words)?;
    Some(Request::Dump { file })
}

// `text FILE`
fn read_text(words: &[String]) -> Option<Request<'_>>
    ensures { option_map request_meant result ≡ a_file requests.Text (map string_bytes words.now) }
{
    let file = only(words)?;
    Some(Request::Text { file })
}

// `pack FILE`
fn read_pack(words: &[String]) -> Option<Request<'_>>
    ensures { option_map request_meant result ≡ a_file requests.Pack (map string_bytes words.now) }
{
    let file = only(words)?;
    Some(Request::Pack { file })
}

// `export STORE FILE..`
fn read_export(words: &[String]) -> Option<Request<'_>>
    ensures { option_map request_meant result
        ≡ a_base_and_files requests.Export (map string_bytes words.now) }
{
    let Some(over) = over_base_in(words) else {
        return None;
    };
    let OverBase { base, files } = over;
    Some(Request::Export { base, files })
}

// `squash STORE FILE`
fn read_squash(words: &[String]) -> Option<Request<'_>>
    ensures { option_map request_meant result
        ≡ a_base_and_file requests.Squash (map string_bytes words.now) }
{
    let Some(over) = over_base_once(words) else {
        return None;
    };
    let OverBaseOnce { base, file } = over;
    Some(Request::Squash { base, file })
}

// `gen COUNT SEED`
fn read_gen(words: &[String]) -> Option<Request<'_>>
    ensures { option_map request_meant result
        ≡ two_numbers requests.Gen (map string_bytes words.now) }
{
    let Some(chain) = chain_in(words) else {
        return None;
    };
    Some(Request::Gen {
        count: chain.count,
        seed: chain.seed,
    })
}

// `trial COUNT SEED`
fn read_trial(words: &[String]) -> Option<Request<'_>>
    ensures { option_map request_meant result
        ≡ two_numbers requests.Trial (map string_bytes words.now) }
{
    let Some(chain) = chain_in(words) else {
        return None;
    };
    Some(Request::Trial {
        count: chain.count,
        seed: chain.seed,
    })
}

// `init STORE`
fn read_init(words: &[String]) -> Option<Request<'_>>
    ensures { option_map request_meant result ≡ a_store requests.Init (map string_bytes words.now) }
{
    let store = only(words)?;
    Some(Request::Init { store })
}

// `drop STORE NAME`
fn read_drop(words: &[String]) -> Option<Request<'_>>
    ensures { option_map request_meant result
        ≡ a_snapshot requests.Drop (map string_bytes words.now) }
{
    let Some(snapshot) = snapshot_in(words) else {
        return None;
    };
    let Snapshot { store, name } = snapshot;
    Some(Request::Drop { store, name })
}

// `receive [GUARD..] STORE FILE..`
fn read_receive(words: &[String]) -> Option<Request<'_>>
    ensures { option_map request_meant result
        ≡ guarded (λ guards. a_store_and_files (requests.Receive guards))
        (map string_bytes words.now) }
{
    let end = guards_end(words)?;
    let guards = GuardArguments::among(&words[..end]);
    let [store, files @ ..] = &words[end..] else {
        return None;
    };
    let files = FileArguments::of(files)?;
    Some(Request::Receive {
        guards,
        store: store.as_str(),
        files,
    })
}

// `list STORE`
fn read_list(words: &[String]) -> Option<Request<'_>>
    ensures { option_map request_meant result
        ≡ a_store requests.ListAll (map string_bytes words.now) }
{
    let store = only(words)?;
    Some(Request::List { store })
}

// `show STORE NAME`
fn read_show(words: &[String]) -> Option<Request<'_>>
    ensures { option_map request_meant result
        ≡ a_snapshot requests.Show (map string_bytes words.now) }
{
    let Some(snapshot) = snapshot_in(words) else {
        return None;
    };
    let Snapshot { store, name } = snapshot;
    Some(Request::Show { store, name })
}

// `cat STORE NAME PATH`
fn read_cat(words: &[String]) -> Option<Request<'_>>
    ensures { option_map request_meant result ≡ a_path requests.Cat (map string_bytes words.now) }
{
    let [store, name, path] = words else {
        return None;
    };
    let name = Word::of(name.as_str())?;
    let path = Word::of(path.as_str())?;
    Some(Request::Cat {
        store: store.as_str(),
        name,
        path,
    })
}

// `scrub STORE`
fn read_scrub(words: &[String]) -> Option<Request<'_>>
    ensures { option_map request_meant result
        ≡ a_store requests.Scrub (map string_bytes words.now) }
{
    let store = only(words)?;
    Some(Request::Scrub { store })
}

// `send STORE NAME`
fn read_send(words: &[String]) -> Option<Request<'_>>
    ensures { option_map request_meant result
        ≡ a_snapshot requests.Send (map string_bytes words.now) }
{
    let Some(snapshot) = snapshot_in(words) else {
        return None;
    };
    let Snapshot { store, name } = snapshot;
    Some(Request::Send { store, name })
}

// `restore STORE NAME`
fn read_restore(words: &[String]) -> Option<Request<'_>>
    ensures { option_map request_meant result
        ≡ a_snapshot requests.Restore (map string_bytes words.now) }
{
    let Some(snapshot) = snapshot_in(words) else {
        return None;
    };
    let Snapshot { store, name } = snapshot;
    Some(Request::Restore { store, name })
}

// `stream STORE NAME`
fn read_stream(words: &[String]) -> Option<Request<'_>>
    ensures { option_map request_meant result
        ≡ a_snapshot requests.Stream (map string_bytes words.now) }
{
    let Some(snapshot) = snapshot_in(words) else {
        return None;
    };
    let Snapshot { store, name } = snapshot;
    Some(Request::Stream { store, name })
}

// `tar STORE NAME`
fn read_tar(words: &[String]) -> Option<Request<'_>>
    ensures { option_map request_meant result
        ≡ a_snapshot requests.Tar (map string_bytes words.now) }
{
    let Some(snapshot) = snapshot_in(words) else {
        return None;
    };
    let Snapshot { store, name } = snapshot;
    Some(Request::Tar { store, name })
}

// `interleave STORE SCHEDULE [GUARD..] FILE ..`
fn read_interleave(words: &[String]) -> Option<Request<'_>>
    ensures { option_map request_meant result
        ≡ a_schedule requests.Interleave (map string_bytes words.now) }
{
    let [store, schedule, files @ ..] = words else {
        return None;
    };
    let turns = TurnArguments::of(schedule.as_str(), files)?;
    Some(Request::Interleave {
        store: store.as_str(),
        turns,
    })
}
