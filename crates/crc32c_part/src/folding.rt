//! The checksum of many bytes. A word of eight bytes may be exclusive-ored into the words 65, 155,
//! 170, 195 and 209 places behind it and then be forgotten: the checksum stays the same. So each
//! word takes in what comes to it from the words before it. What is left are the last 209 words and
//! the bytes behind them, which go through the tables.

ghost use Rattle.std.specs.Prelude.{◌≡◌, ℕ, ◌+◌, ◌*◌, ◌<◌, ◌≤◌, List, ◌++◌, length, slice_index, take};
ghost use Rattle.send_model.specs.Checksum.{crc_of};
ghost use Rattle.crc32c_part.specs.FoldedSums.{distances, arriving, folded_sum};

use crate::by_tables;

/// The longest distance, in words. Those before the last so many do not matter any more.
const REACH: usize = 209;

/// How many moved words there is room for.
const ROOM: usize = 1024;

/// The checksum `crc` of some bytes, gone on with over at least 1672 `bytes`.
#[inline(never)]
pub fn by_folding(crc: u32, bytes: &[u8]) -> u32
    requires { 8 * REACH ≤ length bytes.now }
    ensures { result ≡ crc_of crc bytes.now }
{
    let mut words = [0; ROOM];
    begin(&mut words, crc);
    let mut end = REACH;
    let (blocks, _) = bytes[..bytes.len() - 8 * REACH].as_chunks::<512>();
    for block in blocks {
        let start = with_room(&mut words, end);
        move_block(&mut words, start, block);
        end = start + 64;
    }
    let start = with_room(&mut words, end);
    sum_rest(&mut words, start, &bytes[512 * blocks.len()..])
}

// The checksum so far as a word, with zeros behind it. It stands at the longest distance before the
// first word of the bytes, and so comes to that one alone.
fn begin(words: &mut [u64; ROOM], crc: u32)
    ensures { (bytes : List ℕ) → folded_sum 0 (take REACH words.new) bytes ≡ crc_of crc bytes }
{
    clear_behind(words, 0);
    words[0] = u64::from(crc);
}

// Where the next words go: to `end`, or, if there is no room, behind the last words, which go to
// the front.
fn with_room(words: &mut [u64; ROOM], end: usize) -> usize
    requires low { REACH ≤ end }
    requires high { end ≤ ROOM }
    ensures low { REACH ≤ result }
    ensures high { result + REACH ≤ ROOM }
    ensures same { (bytes : List ℕ) →
        folded_sum 0 (take result words.new) bytes ≡ folded_sum 0 (take end words.old) bytes }
{
    if end + REACH <= ROOM {
        return end;
    }
    words.copy_within(end - REACH..end, 0);
    REACH
}

// Moves the 64 words of a block. They are fewer than the shortest distance, so none waits for
// another, and the compiler takes several at once.
fn move_block(words: &mut [u64; ROOM], start: usize, block: &[u8; 512])
    requires low { REACH ≤ start }
    requires high { start + 64 ≤ ROOM }
    ensures { (rest : List ℕ) → 8 * REACH ≤ length rest →
        folded_sum 0 (take (start + 64) words.new) rest
        ≡ folded_sum 0 (take start words.old) (block.now ++ rest) }
{
    let (eights, _) = block.as_chunks::<8>();
    for k in 0..64 {
        words[start + k] = u64::from_le_bytes(eights[k]) ^ arriving_at(words, start + k);
    }
}

// What comes to the word at `place` from those before it.
#[inline]
fn arriving_at(words: &[u64; ROOM], place: usize) -> u64
    requires low { REACH ≤ place }
    requires high { place ≤ ROOM }
    ensures { result ≡ arriving distances (take place words.now) }
{
    words[place - 65]
        ^ words[place - 155]
        ^ words[place - 170]
        ^ words[place - 195]
        ^ words[place - 209]
}

// The checksum of moved words and the bytes behind them. The first 209 words of these take in what
// comes to them, and go through the tables with the others.
fn sum_rest(words: &mut [u64; ROOM], start: usize, bytes: &[u8]) -> u32
    requires low { REACH ≤ start }
    requires high { start + REACH ≤ ROOM }
    requires enough { 8 * REACH ≤ length bytes.now }
    ensures { result ≡ folded_sum 0 (take start words.old) bytes.now }
{
    clear_behind(words, start);
    let mut spelled = [[0; 8]; REACH];
    let (eights, _) = bytes.as_chunks::<8>();
    for k in 0..REACH {
        let word = u64::from_le_bytes(eights[k]) ^ arriving_at(words, start + k);
        spelled[k] = word.to_le_bytes();
    }
    by_tables(by_tables(0, spelled.as_flattened()), &bytes[8 * REACH..])
}

// Makes the words from `start` on zero, as far as any distance goes.
fn clear_behind(words: &mut [u64; ROOM], start: usize)
    requires { start + REACH ≤ ROOM }
    ensures same { take start words.new ≡ take start words.old }
    ensures zeros { (k : ℕ) → k < REACH → slice_index words.new (start + k) ≡ 0 }
{
    words[start..start + REACH].fill(0);
}
