// A value with several owners, seen as the value.
ghost use Rattle.std.specs.Prelude.{◌≡◌, IfOk, OnOk};

use crate::keys::{Copied, Edit};
use std::alloc::{AllocError, Global};
use std::marker::Model;
use std::rc::Rc;

/// A value that its copies share, seen as the value.
#[derive(Debug, Drop)]
pub struct Shared<T> {
    rc: Rc<T>,
}

impl<T> Model for Shared<T> {
    ghost Value = { T };

    ghost view = { λ s. s.rc.value };
}

impl<T: Drop> Shared<T> {
    /// A value that nothing shares yet. Fails for want of memory alone.
    pub fn new(alloc: Global, value: T) -> Result<Shared<T>, AllocError>
        ensures { IfOk result (λ s. s ≡ value) }
    {
        Ok(Shared {
            rc: Rc::new(alloc, value)?,
        })
    }

    /// The value.
    pub fn get(&self) -> &T
        ensures { result.now ≡ self.now }
    {
        &self.rc
    }

    /// Changes the value, and says whether it had to be copied for that, since something else
    /// shares it. Fails for want of memory alone, and then nothing is said of the value or of the
    /// edit.
    pub fn edit<E: Edit<T>>(&mut self, alloc: Global, edit: &mut E) -> Result<bool, AllocError>
    where
        T: Copied,
        ensures value { OnOk result (self.new ≡ E.edited edit.old self.old) }
        ensures edit { OnOk result (edit.new ≡ E.left edit.old self.old) }
    {
        match Rc::get_mut(&mut self.rc) {
            Some(value) => {
                edit.edit(value)?;
                Ok(false)
            }
            None => {
                let mut value = self.rc.as_ref().copy()?;
                edit.edit(&mut value)?;
                self.rc = Rc::new(alloc, value)?;
                Ok(true)
            }
        }
    }
}

impl<T: Drop> Copied for Shared<T> {
    fn copy(&self) -> Result<Shared<T>, AllocError> {
        Ok(Shared {
            rc: self.rc.clone()?,
        })
    }
}

/// An edit of a value that may be shared, seen as the edit of the value itself. It tells whether
/// the value had to be copied.
#[derive(Debug, Drop)]
pub struct InShared<E> {
    edit: E,
    alloc: Global,
    copied: bool,
}

impl<E> Model for InShared<E> {
    ghost Value = { E };

    ghost view = { λ s. s.edit };
}

impl<E: Drop> InShared<E> {
    /// The edit of a value, for one that may be shared.
    pub fn new(alloc: Global, edit: E) -> InShared<E>
        ensures { result ≡ edit }
    {
        InShared {
            edit,
            alloc,
            copied: false,
        }
    }

    /// The edit itself.
    pub fn into_inner(self) -> E
        ensures { result ≡ self }
    {
        self.edit
    }

    /// Whether the value that was changed last had to be copied, since something else shared it.
    pub fn copied(&self) -> bool {
        self.copied
    }
}

impl<T: Copied, E: Edit<T>> Edit<Shared<T>> for InShared<E> {
    ghost edited = { λ s value. E.edited s value };

    ghost left = { λ s value. E.left s value };

    fn edit(&mut self, value: &mut Shared<T>) -> Result<(), AllocError> {
        self.copied = value.edit(self.alloc, &mut self.edit)?;
        Ok(())
    }
}
