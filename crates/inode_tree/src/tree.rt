// The tree, and what looks at it without changing it.
ghost use Rattle.std.specs.Prelude.{◌≡◌, None, Some, Result, Ok, Err, IfOk, IfSome, length};
ghost use Rattle.std.specs.Option.{option_copied, option_map};
ghost use Rattle.std.specs.Ordering.{nat_cmp};
ghost use Rattle.send_model.specs.Map.{named_cmp};
ghost use Rattle.send_model.specs.Subvolume.{root_alone, inode_at, named, is_directory, is_file, walk, spot};
ghost use Rattle.shared_map.specs.Sought.{entry_after};
ghost use Rattle.sx_base.specs.Answers.{Finds};
ghost use Rattle.inode_tree.specs.Places.{spot_of, FindsSpot, one_step};
ghost use Rattle.inode_tree.specs.Walked.{spot_below, Begins};

use crate::inode::Inode;
use crate::kind::NodeKind;
use crate::name::{Name, Place};
use crate::walked::{LastWalks, ROOT};
use extent_map::Origin;
use path_rules::{Parts, name_ok, split};
use shared_map::{Shared, SharedMap};
use std::alloc::{AllocError, Global};
use std::marker::Model;
use sx_base::Refusal;

/// The inodes and names of a subvolume, seen as that of the definitions over cells that are an
/// origin or zero. A copy shares all that neither changes.
#[derive(Debug, Drop)]
pub struct Tree<O: Origin> {
    pub(crate) inodes: SharedMap<u64, Shared<Inode<O>>>,
    pub(crate) names: SharedMap<Name, u64>,
    // How many names an inode has beyond its first.
    pub(crate) further: SharedMap<u64, u64>,
    pub(crate) next: u64,
    pub(crate) alloc: Global,
    // How many inodes were copied, and not shared, to change them.
    pub(crate) copied: u64,
    // Whether no call ran out of memory in the middle of a change. After that each change answers
    // want of memory.
    pub(crate) whole: bool,
    // Where the last walks led, while the tree is whole.
    pub(crate) last: LastWalks,
}

impl<O: Origin> Model for Tree<O> {
    ghost use Rattle.std.specs.Prelude.{Option};
    ghost use Rattle.send_model.specs.Subvolume.{Subvolume};
    ghost use Rattle.inode_tree.specs.Trees.{IsWholeTree};
    ghost use Rattle.inode_tree.specs.Walked.{IsRemembered};

    ghost Value = { Subvolume (Option O) };

    ghost view = { λ t. record { inodes = t.inodes; names = t.names; next = t.next } };

    ghost invariant = { λ t. IsWholeTree t.whole
        (record { inodes = t.inodes; names = t.names; next = t.next }) t.further
        × IsRemembered t.whole (record { inodes = t.inodes; names = t.names; next = t.next })
        t.last };
}

impl<O: Origin> Tree<O> {
    /// A root alone. Fails for want of memory alone.
    #[tactic(auto, unfolding(send_model::specs::Subvolume::root_alone))]
    pub fn new(alloc: Global) -> Result<Tree<O>, AllocError>
        ensures { IfOk result (λ tree. tree ≡ root_alone) }
    {
        let root = Inode::new(alloc, NodeKind::Directory, 0, b"")?;
        let mut inodes = SharedMap::new(alloc);
        inodes.insert(&ROOT, Shared::new(alloc, root)?)?;
        Ok(Tree {
            inodes,
            names: SharedMap::new(alloc),
            further: SharedMap::new(alloc),
            next: ROOT + 1,
            alloc,
            copied: 0,
            whole: true,
            last: LastWalks::new(alloc),
        })
    }

    /// An equal tree, which shares all inodes and names. Fails for want of memory alone.
    pub fn copy(&self) -> Result<Tree<O>, AllocError>
        ensures { IfOk result (λ tree. tree ≡ self.now) }
    {
        Ok(Tree {
            inodes: self.inodes.copy()?,
            names: self.names.copy()?,
            further: self.further.copy()?,
            next: self.next,
            alloc: self.alloc,
            copied: 0,
            whole: self.whole,
            last: LastWalks::new(self.alloc),
        })
    }

    /// The inode of a number, if there is one. Takes no memory.
    pub fn inode(&self, ino: u64) -> Option<&Inode<O>>
        ensures { option_copied result ≡ inode_at self.now ino }
    {
        match self.inodes.get(&ino) {
            Some(inode) => Some(inode.get()),
            None => None,
        }
    }

    /// How many inodes were copied since the tree was made, because a change met one that another
    /// tree shares. At the greatest u64 it stays. Takes no memory.
    pub fn copied(&self) -> u64 {
        self.copied
    }

    /// How many names all directories have. Takes no memory.
    pub fn name_count(&self) -> u64
        ensures { result ≡ length self.now.names }
    {
        self.names.len()
    }

    /// The number that the next new inode gets. Takes no memory.
    pub fn next_number(&self) -> u64
        ensures { result ≡ self.now.next }
    {
        self.next
    }

    /// The least inode number above `ino`, if there is one. Takes no memory.
    pub fn inode_after(&self, ino: u64) -> Option<u64>
        ensures { result ≡ option_map (λ e. e.0) (entry_after nat_cmp ino self.now.inodes) }
    {
        let (number, _inode) = self.inodes.next_after(&ino)?;
        Some(*number)
    }

    /// The least name above the given one, by the number of its directory and then by its bytes:
    /// the directory, the name, and the inode number that it names. Takes no memory.
    pub fn name_after(&self, directory: u64, name: &[u8]) -> Option<(u64, &[u8], u64)>
        ensures { option_map (λ n. ((n.0, n.1.now), n.2)) result
            ≡ entry_after named_cmp (directory, name.now) self.now.names }
    {
        let (name, ino) = self.names.next_after(&Place::new(directory, name))?;
        Some((name.directory(), name.bytes(), *ino))
    }

    /// The number of the inode that a path leads to. Takes no memory.
    ///
    /// # Errors
    /// The refusal of the walk: BadPath, NotDirectory or NoEntry.
    pub fn find(&self, path: &[u8]) -> Result<u64, Refusal>
        ensures { Finds result (walk self.now path.now) }
    {
        if let Some(ino) = self.known(path) {
            return Ok(ino);
        }
        if path.is_empty() {
            return Ok(ROOT);
        }
        let place = self.spot(path)?;
        match self.named(&place) {
            Some(ino) => Ok(ino),
            None => Err(Refusal::NoEntry),
        }
    }

    /// The number of the inode that a path leads to, from where the walk before came by if that
    /// serves; and remembers this walk.
    ///
    /// # Errors
    /// The refusal of the walk: BadPath, NotDirectory or NoEntry.
    pub fn reach(&mut self, path: &[u8]) -> Result<u64, Refusal>
        ensures found { Finds result (walk self.old path.now) }
        ensures same { self.new ≡ self.old }
    {
        if let Some(ino) = self.known(path) {
            return Ok(ino);
        }
        if path.is_empty() {
            return Ok(ROOT);
        }
        let place = self.place(path)?;
        let Some(ino) = self.named(&place) else {
            return Err(Refusal::NoEntry);
        };
        self.learn(path, ino);
        Ok(ino)
    }

    // What a path leads to, if that is remembered.
    pub(crate) fn known(&self, path: &[u8]) -> Option<u64>
        ensures { IfSome result (λ ino. walk self.now path.now ≡ Ok ino) }
    {
        if !self.whole {
            return None;
        }
        self.last.known(path)
    }

    // Remembers what a path leads to.
    pub(crate) fn learn(&mut self, path: &[u8], ino: u64)
        requires { walk self.old path.now ≡ Ok ino }
        ensures { self.new ≡ self.old }
    {
        self.last.learn_path(path, ino);
    }

    // What a name in a directory leads to. In a whole tree a name stands in a directory only.
    pub(crate) fn step(&self, directory: u64, name: &[u8]) -> Result<u64, Refusal>
        ensures { Finds result (one_step self.now directory name.now) }
    {
        let below = self.named(&Place::new(directory, name));
        if let Some(ino) = below {
            if self.whole {
                return Ok(ino);
            }
        }
        if !self.is_directory(directory) {
            return Err(Refusal::NotDirectory);
        }
        match below {
            Some(ino) => Ok(ino),
            None => Err(Refusal::NoEntry),
        }
    }

    // The inode number behind a name in a directory.
    pub(crate) fn named(&self, place: &Place<'_>) -> Option<u64>
        ensures { result ≡ named self.now place.now.0 place.now.1 }
    {
        self.names.get(place).copied()
    }

    /// What a name in a directory leads to. Takes no memory.
    pub fn name_in(&self, directory: u64, name: &[u8]) -> Option<u64>
        ensures { result ≡ named self.now directory name.now }
    {
        self.named(&Place::new(directory, name))
    }

    // Whether there is a directory of that number.
    #[tactic(auto, unfolding(send_model::specs::Subvolume::is_directory))]
    pub(crate) fn is_directory(&self, ino: u64) -> bool
        ensures { result ≡ is_directory self.now ino }
    {
        if self.whole && (ino == ROOT || ino == self.last.directory()) {
            return true;
        }
        match self.inodes.get(&ino) {
            Some(inode) => matches!(inode.get().kind(), NodeKind::Directory),
            None => false,
        }
    }

    /// Whether there is a regular file of that number. Takes no memory.
    #[tactic(auto, unfolding(send_model::specs::Subvolume::is_file))]
    pub fn is_file(&self, ino: u64) -> bool
        ensures { result ≡ is_file self.now ino }
    {
        match self.inodes.get(&ino) {
            Some(inode) => matches!(inode.get().kind(), NodeKind::File),
            None => false,
        }
    }

    // The place that a path names; remembers the way to its directory.
    pub(crate) fn place<'p>(&mut self, path: &'p [u8]) -> Result<Place<'p>, Refusal>
        ensures found { FindsSpot result (spot self.old path.now) }
        ensures same { self.new ≡ self.old }
    {
        let place = self.spot(path)?;
        let front = &path[..path.len() - place.name().len()];
        self.last.learn_front(front, place.directory());
        Ok(place)
    }

    // The place that a path names.
    pub(crate) fn spot<'p>(&self, path: &'p [u8]) -> Result<Place<'p>, Refusal>
        ensures { FindsSpot result (spot self.now path.now) }
    {
        if let Some(place) = self.near(path) {
            return Ok(place);
        }
        let (start, mut names) = self.begin(path)?;
        let Some(mut name) = names.next() else {
            return Err(Refusal::IsRoot);
        };
        let mut directory = start;
        for further in names {
            directory = self.step(directory, name)?;
            name = further;
        }
        if !self.is_directory(directory) {
            return Err(Refusal::NotDirectory);
        }
        Ok(Place::new(directory, name))
    }

    // The place of a path that is one name behind the remembered front, or one name in the root.
    fn near<'p>(&self, path: &'p [u8]) -> Option<Place<'p>>
        ensures { IfSome result (λ place. spot self.now path.now ≡ Ok (spot_of place)) }
    {
        if !self.whole {
            return None;
        }
        if let Some(rest) = self.last.rest(path) {
            if name_ok(rest) {
                return Some(Place::new(self.last.directory(), rest));
            }
            return None;
        }
        if name_ok(path) {
            return Some(Place::new(ROOT, path));
        }
        None
    }

    // Where the walk to the place of a path may begin, and the names from there on: at the
    // remembered directory, if the path goes on behind the remembered front, or at the root.
    fn begin<'p>(&self, path: &'p [u8]) -> Result<(u64, Parts<'p>), Refusal>
        ensures { Begins self.now path.now result }
    {
        if let Some(begin) = self.behind_front(path) {
            return Ok(begin);
        }
        match split(path) {
            Ok(names) => Ok((ROOT, names)),
            Err(_) => Err(Refusal::BadPath),
        }
    }

    // The remembered directory, and the names of a path that go on behind the remembered front.
    fn behind_front<'p>(&self, path: &'p [u8]) -> Option<(u64, Parts<'p>)>
        ensures { IfSome result
            (λ begin. spot self.now path.now ≡ spot_below self.now begin.0 begin.1) }
    {
        if !self.whole {
            return None;
        }
        let rest = self.last.rest(path)?;
        match split(rest) {
            Ok(names) => Some((self.last.directory(), names)),
            Err(_) => None,
        }
    }
}
