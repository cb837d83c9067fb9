//! The checksum of a frame, CRC-32C with no inversion: by tables, sixteen bytes at a time and four
//! of what is left. Many bytes are folded first, until few are left.
#![tactic(auto)]

mod folding;
mod tables;

ghost use Rattle.std.specs.Prelude.{◌≡◌, suc, ◌*◌, ◌<◌, drop, bit_xor};
ghost use Rattle.send_model.specs.Checksum.{shifts, crc_byte, crc_of};

use crate::folding::by_folding;
use crate::tables::TABLES;

/// From this length on, in bytes, folding takes less time than the tables alone.
const FOLDED_FROM: usize = 4096;

/// The checksum `crc` of some bytes, gone on with over `bytes`. A checksum starts from 0, and
/// neither end inverts. Source: btrfs_crc32c in send-stream.c of btrfs-progs.
pub fn update(crc: u32, bytes: &[u8]) -> u32
    ensures { result ≡ crc_of crc bytes.now }
{
    if bytes.len() < FOLDED_FROM {
        return by_tables(crc, bytes);
    }
    by_folding(crc, bytes)
}

// The same by tables alone.
fn by_tables(crc: u32, bytes: &[u8]) -> u32
    ensures { result ≡ crc_of crc bytes.now }
{
    let mut sum = crc;
    let (blocks, rest) = bytes.as_chunks::<16>();
    for block in blocks {
        // What does not wait for the sum so far stands first: in the other order this is a third
        // slower.
        sum = last_twelve(block) ^ first_four(sum, block);
    }
    let (fours, rest) = rest.as_chunks::<4>();
    for four in fours {
        sum = four_more(sum, four);
    }
    for byte in rest {
        sum = one_more(sum, *byte);
    }
    sum
}

// Four bytes more.
#[inline]
fn four_more(crc: u32, four: &[u8; 4]) -> u32
    ensures { result ≡ crc_of crc four.now }
{
    stepped(3, ((crc ^ four[0] as u32) & 0xff) as u8)
        ^ stepped(2, ((crc >> 8 ^ four[1] as u32) & 0xff) as u8)
        ^ stepped(1, ((crc >> 16 ^ four[2] as u32) & 0xff) as u8)
        ^ stepped(0, ((crc >> 24 ^ four[3] as u32) & 0xff) as u8)
}

// One byte more.
#[inline]
fn one_more(crc: u32, byte: u8) -> u32
    ensures { result ≡ crc_byte crc byte }
{
    crc >> 8 ^ stepped(0, ((crc ^ byte as u32) & 0xff) as u8)
}

// The part of a block's first four bytes, which take in the checksum so far.
#[inline]
fn first_four(crc: u32, block: &[u8; 16]) -> u32
    ensures { bit_xor (crc_of 0 (drop 4 block.now)) result ≡ crc_of crc block.now }
{
    stepped(15, ((crc ^ block[0] as u32) & 0xff) as u8)
        ^ stepped(14, ((crc >> 8 ^ block[1] as u32) & 0xff) as u8)
        ^ stepped(13, ((crc >> 16 ^ block[2] as u32) & 0xff) as u8)
        ^ stepped(12, ((crc >> 24 ^ block[3] as u32) & 0xff) as u8)
}

// The part of a block's other bytes, which does not wait for the checksum so far.
#[inline]
fn last_twelve(block: &[u8; 16]) -> u32
    ensures { result ≡ crc_of 0 (drop 4 block.now) }
{
    stepped(11, block[4])
        ^ stepped(10, block[5])
        ^ stepped(9, block[6])
        ^ stepped(8, block[7])
        ^ stepped(7, block[8])
        ^ stepped(6, block[9])
        ^ stepped(5, block[10])
        ^ stepped(4, block[11])
        ^ stepped(3, block[12])
        ^ stepped(2, block[13])
        ^ stepped(1, block[14])
        ^ stepped(0, block[15])
}

// What a byte becomes while it and `following` more bytes are shifted out.
#[inline]
fn stepped(following: usize, byte: u8) -> u32
    requires { following < 16 }
    ensures { result ≡ shifts (8 * suc following) byte }
{
    TABLES[following][byte as usize]
}
