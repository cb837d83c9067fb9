// What is read of the files that are received.
use cmd_reader::Item;
use std::alloc::Global;

// A command that was read of the file with this number. And where memory comes from.
#[derive(Debug, Drop)]
pub(crate) struct FileItem<'a, 'b> {
    pub(crate) alloc: Global,
    pub(crate) file: u64,
    pub(crate) item: &'a Item<'b>,
}
