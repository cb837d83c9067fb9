// The files that there are.
use std::alloc::{AllocError, Global};
use sx_base::Blob;

/// A file.
#[derive(Debug, Drop)]
pub(crate) struct NamedBytes {
    pub(crate) name: String,
    pub(crate) bytes: Blob,
}

/// All files.
#[derive(Debug, Drop)]
pub(crate) struct Scene {
    pub(crate) alloc: Global,
    files: Vec<NamedBytes>,
}

impl Scene {
    /// Without any.
    pub(crate) fn new(alloc: Global) -> Scene {
        Scene {
            alloc,
            files: Vec::new(alloc),
        }
    }

    /// The files.
    pub(crate) fn files(&self) -> &[NamedBytes] {
        self.files.as_slice()
    }

    /// The bytes of a file, none where there is no file of this name.
    pub(crate) fn bytes(&self, name: &str) -> &[u8] {
        bytes_in(self.files.as_slice(), name)
    }

    /// Makes a file of bytes, in place of one of its name.
    pub(crate) fn set(&mut self, name: &str, bytes: Blob) -> Result<(), AllocError> {
        for file in self.files.iter_mut() {
            if file.name.as_str() == name {
                file.bytes = bytes;
                return Ok(());
            }
        }
        let name = String::from_str(self.alloc, name)?;
        if self.files.push(NamedBytes { name, bytes }).is_err() {
            return Err(AllocError);
        }
        Ok(())
    }

    /// A scene with the same files.
    pub(crate) fn copy(&self) -> Result<Scene, AllocError> {
        let mut copy = Scene::new(self.alloc);
        for file in self.files.iter() {
            copy.set(file.name.as_str(), file.bytes.copy()?)?;
        }
        Ok(copy)
    }
}

/// The bytes of a file of these, none where there is no file of this name.
pub(crate) fn bytes_in<'a>(files: &'a [NamedBytes], name: &str) -> &'a [u8] {
    for file in files {
        if file.name.as_str() == name {
            return file.bytes.as_slice();
        }
    }
    &[]
}
