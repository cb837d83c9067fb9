// Commands that name no inode's values: the head, names, data and END.
ghost use Rattle.std.specs.Prelude.{◌≡◌, ◌++◌, ◌≤◌, length, OnOk};
ghost use Rattle.send_model.specs.Command.{Subvol, Rename, Link, Write, Truncate, End};
ghost use Rattle.send_model.specs.Spelling.{stream_header};
ghost use Rattle.inode_commands.specs.Spelled.{IsShortPath, HasLength};

use crate::form::Form;
use crate::spelling::Spelling;
use send_commands::Command;
use std::alloc::AllocError;
use sx_base::Blob;
use tlv_frame::StreamHead;
use uuid::Uuid;

impl<F: Form> Spelling<F> {
    /// Appends the header of a stream. Fails for want of memory alone, as all these calls do.
    pub fn header(&self, to: &mut Blob) -> Result<(), AllocError>
        ensures added { OnOk result (to.new ≡ to.old ++ stream_header self.now.version) }
    {
        let header = StreamHead {
            version: self.version,
        };
        to.push_all(&header.bytes())
    }

    /// Appends the head of a full stream.
    pub fn head(
        &self,
        name: &[u8],
        uuid: Uuid,
        ctransid: u64,
        to: &mut Blob,
    ) -> Result<(), AllocError>
        requires short { HasLength name.now }
        ensures added { OnOk result
            (to.new ≡ to.old ++ F.spelled self.now.version (Subvol uuid ctransid name.now)) }
    {
        let path = name;
        let _sixteen = uuid.into_bytes();
        self.push(
            &Command::Subvol {
                uuid,
                ctransid,
                path,
            },
            to,
        )
    }

    /// Appends a RENAME.
    pub fn rename<'a>(
        &self,
        path: &'a [u8],
        path_to: &'a [u8],
        to: &mut Blob,
    ) -> Result<(), AllocError>
        requires short { IsShortPath path.now }
        requires short_to { IsShortPath path_to.now }
        ensures added { OnOk result
            (to.new ≡ to.old ++ F.spelled self.now.version (Rename path.now path_to.now)) }
    {
        self.push(&Command::Rename { path, path_to }, to)
    }

    /// Appends a LINK.
    pub fn link<'a>(&self, path: &'a [u8], first: &'a [u8], to: &mut Blob) -> Result<(), AllocError>
        requires short { IsShortPath path.now }
        requires short_first { IsShortPath first.now }
        ensures added { OnOk result
            (to.new ≡ to.old ++ F.spelled self.now.version (Link path.now first.now)) }
    {
        let path_link = first;
        self.push(&Command::Link { path, path_link }, to)
    }

    /// Appends a WRITE of these bytes.
    pub fn write<'a>(
        &self,
        path: &'a [u8],
        offset: u64,
        bytes: &'a [u8],
        to: &mut Blob,
    ) -> Result<(), AllocError>
        requires short { IsShortPath path.now }
        requires most { length bytes.now ≤ 49_152 }
        ensures added { OnOk result
            (to.new ≡ to.old ++ F.spelled self.now.version (Write path.now offset bytes.now)) }
    {
        self.push(
            &Command::Write {
                path,
                offset,
                bytes,
            },
            to,
        )
    }

    /// Appends a TRUNCATE.
    pub fn truncate(&self, path: &[u8], size: u64, to: &mut Blob) -> Result<(), AllocError>
        requires short { IsShortPath path.now }
        ensures added { OnOk result
            (to.new ≡ to.old ++ F.spelled self.now.version (Truncate size path.now)) }
    {
        self.push(&Command::Truncate { size, path }, to)
    }

    /// Appends END.
    pub fn end(&self, to: &mut Blob) -> Result<(), AllocError>
        ensures added { OnOk result (to.new ≡ to.old ++ F.spelled self.now.version End) }
    {
        self.push(&Command::End, to)
    }
}
