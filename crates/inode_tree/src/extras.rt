// What few inodes have: a device number, flags, a target, extended attributes.
ghost use Rattle.std.specs.Prelude.{◌≡◌, IfOk, OnOk};
ghost use Rattle.std.specs.Option.{option_copied};
ghost use Rattle.send_model.specs.Map.{bytes_cmp, value_at, with_value, without};
ghost use Rattle.inode_tree.specs.Extras.{no_extras};

use crate::name::{Bytes, BytesRef};
use shared_map::{Copied, Entries, SharedMap};
use std::alloc::{AllocError, Global};
use std::marker::Model;

// The four of them, of an inode that has one of them at least.
#[derive(Debug, Drop)]
struct Fields {
    rdev: u64,
    flags: u64,
    target: Bytes,
    xattrs: SharedMap<Bytes, Bytes>,
    alloc: Global,
}

impl Model for Fields {
    ghost use Rattle.inode_tree.specs.Extras.{Extras};

    ghost Value = { Extras };

    ghost view = { λ f. record {
      rdev = f.rdev;
      flags = f.flags;
      target = f.target;
      xattrs = f.xattrs;
    } };
}

impl Fields {
    // None of them yet.
    fn new(alloc: Global) -> Fields
        ensures { result ≡ no_extras }
    {
        Fields {
            rdev: 0,
            flags: 0,
            target: Bytes::none(),
            xattrs: SharedMap::new(alloc),
            alloc,
        }
    }
}

// What few inodes have. Where an inode has none of it, no memory is taken.
#[derive(Debug, Drop)]
pub(crate) struct Extras {
    fields: Option<Box<Fields>>,
}

impl Model for Extras {
    ghost use Rattle.std.specs.Option.{option_map_or};
    ghost use Rattle.inode_tree.specs.Extras as meant;

    ghost Value = { meant.Extras };

    ghost view = { λ e. option_map_or (λ b. b.value) e.fields meant.no_extras };
}

impl Extras {
    // Those of a new inode with this device number and this target. Fails for want of memory alone.
    pub(crate) fn new(alloc: Global, rdev: u64, target: &[u8]) -> Result<Extras, AllocError>
        ensures { IfOk result
            (λ e. e ≡ record no_extras { rdev = rdev; target = target.now }) }
    {
        if rdev == 0 && target.is_empty() {
            return Ok(Extras { fields: None });
        }
        let fields = Fields {
            rdev,
            flags: 0,
            target: Bytes::new(alloc, target)?,
            xattrs: SharedMap::new(alloc),
            alloc,
        };
        Ok(Extras {
            fields: Some(Box::new(alloc, fields)?),
        })
    }

    // The number of the device.
    pub(crate) fn rdev(&self) -> u64
        ensures { result ≡ self.now.rdev }
    {
        match &self.fields {
            Some(fields) => fields.rdev,
            None => 0,
        }
    }

    // The flags.
    pub(crate) fn flags(&self) -> u64
        ensures { result ≡ self.now.flags }
    {
        match &self.fields {
            Some(fields) => fields.flags,
            None => 0,
        }
    }

    // The target.
    pub(crate) fn target(&self) -> &[u8]
        ensures { result.now ≡ self.now.target }
    {
        match &self.fields {
            Some(fields) => fields.target.as_slice(),
            None => b"",
        }
    }

    // The extended attributes in rising order of their names.
    pub(crate) fn xattrs(&self) -> Entries<'_, Bytes, Bytes>
        ensures { result ≡ self.now.xattrs }
    {
        let Some(fields) = &self.fields else {
            return Entries::none();
        };
        fields.xattrs.iter()
    }

    // The value of an extended attribute, if there is one of the name.
    pub(crate) fn xattr(&self, name: &[u8]) -> Option<&Bytes>
        ensures { option_copied result ≡ value_at bytes_cmp name.now self.now.xattrs }
    {
        match &self.fields {
            Some(fields) => fields.xattrs.get(&BytesRef::new(name)),
            None => None,
        }
    }

    // Sets the flags. Fails for want of memory alone, and then nothing is said of the others.
    pub(crate) fn set_flags(&mut self, alloc: Global, flags: u64) -> Result<(), AllocError>
        ensures { OnOk result (self.new ≡ record self.old { flags = flags }) }
    {
        let mut fields = self.take(alloc)?;
        fields.flags = flags;
        self.fields = Some(fields);
        Ok(())
    }

    // Sets an extended attribute. Fails for want of memory alone, and then nothing is said of the
    // others.
    pub(crate) fn set_xattr(
        &mut self,
        alloc: Global,
        name: &[u8],
        value: &[u8],
    ) -> Result<(), AllocError>
        ensures { OnOk result (self.new
            ≡ record self.old
            { xattrs = with_value bytes_cmp name.now value.now self.old.xattrs }) }
    {
        let mut fields = self.take(alloc)?;
        let value = Bytes::new(alloc, value)?;
        fields.xattrs.insert(&BytesRef::new(name), value)?;
        self.fields = Some(fields);
        Ok(())
    }

    // Takes an extended attribute out. Fails for want of memory alone, and then nothing is said of
    // the others.
    pub(crate) fn remove_xattr(&mut self, name: &[u8]) -> Result<(), AllocError>
        ensures { OnOk result (self.new
            ≡ record self.old { xattrs = without bytes_cmp name.now self.old.xattrs }) }
    {
        let Some(mut fields) = self.fields.take() else {
            return Ok(());
        };
        let _value = fields.xattrs.remove(&BytesRef::new(name))?;
        self.fields = Some(fields);
        Ok(())
    }

    // Takes out what there is, to be changed and put back. Fails for want of memory alone.
    fn take(&mut self, alloc: Global) -> Result<Box<Fields>, AllocError>
        ensures { IfOk result (λ fields. fields.value ≡ self.old) }
    {
        match self.fields.take() {
            Some(fields) => Ok(fields),
            None => Ok(Box::new(alloc, Fields::new(alloc))?),
        }
    }
}

impl Copied for Extras {
    fn copy(&self) -> Result<Extras, AllocError> {
        let Some(fields) = &self.fields else {
            return Ok(Extras { fields: None });
        };
        let alloc = fields.alloc;
        let copy = Fields {
            rdev: fields.rdev,
            flags: fields.flags,
            target: fields.target.copy()?,
            xattrs: fields.xattrs.copy()?,
            alloc,
        };
        Ok(Extras {
            fields: Some(Box::new(alloc, copy)?),
        })
    }
}
