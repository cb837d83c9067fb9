// Whether a path leads to an inode, found by going over all names.
ghost use Rattle.std.specs.Prelude.{◌≡◌, IsTrue, IsFalse, true, false, Some, is_some, slice_get};
ghost use Rattle.std.specs.Option.{option_map};
ghost use Rattle.send_model.specs.Subvolume.{IsLawful, named, is_nameable};
ghost use Rattle.path_index.specs.Places.{places_of};
ghost use Rattle.path_index.specs.Ways.{HasWay};

use extent_map::Origin;
use inode_tree::Tree;
use send_model::first_paths_are_least;

// The number of the root of each subvolume.
const ROOT: u64 = 256;

// How many bytes a path has at most.
const LONGEST_PATH: usize = 4_095;

// Whether a path leads to an inode. Takes no memory.
pub(crate) fn is_nameable<O: Origin>(tree: &Tree<O>, ino: u64) -> bool
    requires { IsLawful tree.now }
    ensures { result ≡ is_nameable tree.now ino }
{
    first_paths_are_least::<Option<O>>();
    if ino == ROOT {
        return true;
    }
    let mut directory = 0;
    let mut last: &[u8] = b"";
    while let Some((next, name, there)) = tree.name_after(directory, last) {
        if ends_path(tree, next, name, there, ino) {
            return true;
        }
        directory = next;
        last = name;
    }
    false
}

// Whether a name leads to an inode, and ends a path.
fn ends_path<O: Origin>(tree: &Tree<O>, directory: u64, name: &[u8], there: u64, ino: u64) -> bool
    requires lawful { IsLawful tree.now }
    requires there { named tree.now directory name.now ≡ Some there }
    ensures yes { IsTrue result → (there ≡ ino) × HasWay tree.now (directory, name.now) true }
    ensures no { IsFalse result → there ≡ ino → HasWay tree.now (directory, name.now) false }
{
    there == ino && has_path(tree, directory, name)
}

// Whether the path that ends with a name is no longer than a path may be.
fn has_path<O: Origin>(tree: &Tree<O>, directory: u64, name: &[u8]) -> bool
    requires lawful { IsLawful tree.now }
    requires there { IsTrue (is_some (named tree.now directory name.now)) }
    ensures { HasWay tree.now (directory, name.now) result }
{
    let mut room = LONGEST_PATH - name.len();
    let mut at = directory;
    while at != ROOT {
        let Some((up, further)) = first_name(tree, at) else {
            return false;
        };
        if further.len() >= room {
            return false;
        }
        room -= further.len() + 1;
        at = up;
    }
    true
}

// The first name of an inode, with the number of its directory.
fn first_name<O: Origin>(tree: &Tree<O>, ino: u64) -> Option<(u64, &[u8])>
    requires { IsLawful tree.now }
    ensures { option_map (λ n. (n.0, n.1.now)) result
        ≡ slice_get (places_of tree.now.names ino) 0 }
{
    let mut directory = 0;
    let mut last: &[u8] = b"";
    while let Some((next, name, there)) = tree.name_after(directory, last) {
        if there == ino {
            return Some((next, name));
        }
        directory = next;
        last = name;
    }
    None
}
