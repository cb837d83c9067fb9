// That there is memory, and an index of the least subvolume. Files with several names stand in the
// tests of bases.
use crate::same::same;
use extent_map::Nowhere;
use path_index::PathIndex;
use send_model::edits_keep_subvolumes_lawful;
use std::test::Fail;
use subvol::Subvol;
use sx_base::Blob;

// How long a path is.
fn len_of(path: Option<Blob>) -> Option<usize> {
    match path {
        Some(path) => Some(path.as_slice().len()),
        None => None,
    }
}

#[test]
fn root_alone(rt: HostRuntime) -> Result<(), Fail> {
    let alloc = rt.alloc();
    edits_keep_subvolumes_lawful::<Option<Nowhere>>();
    let index = PathIndex::new(alloc, Subvol::<Nowhere>::new_root(alloc)?)?;
    same(&rt, len_of(index.first_path(alloc, 256)?), Some(0));
    same(&rt, len_of(index.first_path(alloc, 257)?), None);
    same(&rt, index.is_nameable(256), true);
    same(&rt, index.is_nameable(257), false);
    Ok(())
}
