//! Published checksums, and long lists against a loop over single bits.

use crate::same::same;
use crc32c_part::update;
use std::process::Abort;
use std::test::Fail;

fn bit_by_bit(crc: u32, bytes: &[u8]) -> u32 {
    let mut sum = crc;
    for byte in bytes {
        sum ^= *byte as u32;
        for _ in 0..8 {
            sum = if sum & 1 == 1 {
                sum >> 1 ^ 0x82f6_3b78
            } else {
                sum >> 1
            };
        }
    }
    sum
}

fn counting_up() -> [u8; 32] {
    let mut bytes = [0; 32];
    for (i, byte) in bytes.iter_mut().enumerate() {
        *byte = (i & 0xff) as u8;
    }
    bytes
}

// The check value of CRC-32C and the examples of RFC 3720, appendix B.4, before their last
// inversion; the header of an END frame, with its checksum field as zero.
const PUBLISHED: &[(u32, &[u8], u32)] = &[
    (0xffff_ffff, b"123456789", 0x1cf9_6d7c),
    (0xffff_ffff, &[0; 32], !0x8a91_36aa),
    (0xffff_ffff, &[0xff; 32], !0x62a8_ab43),
    (0, &[0, 0, 0, 0, 21, 0, 0, 0, 0, 0], 0x9dc9_6c50),
    (0, &[0; 10], 0),
    (0x1234_5678, &[], 0x1234_5678),
];

#[test]
fn published_checksums(rt: HostRuntime) {
    for &(crc, bytes, want) in PUBLISHED {
        same(&rt, update(crc, bytes), want);
    }
    same(&rt, update(0xffff_ffff, &counting_up()), !0x46dd_794e);
}

// Both ways to take a checksum of these bytes give the same; the length is there to be shown.
fn is_as_bit_by_bit(rt: &impl Abort, crc: u32, bytes: &[u8]) {
    let len = bytes.len();
    same(rt, (len, update(crc, bytes)), (len, bit_by_bit(crc, bytes)));
}

// Bytes as they come from a number that is drawn again and again; the last of these numbers.
fn draw(bytes: &mut [u8]) -> u32 {
    let mut seed = 1u32;
    for byte in bytes.iter_mut() {
        seed = seed.wrapping_mul(1_664_525).wrapping_add(1_013_904_223);
        *byte = (seed >> 24) as u8;
    }
    seed
}

#[test]
fn every_length_as_bit_by_bit(rt: HostRuntime) {
    let mut bytes = [0; 4096];
    let seed = draw(&mut bytes);
    for len in 0..100 {
        is_as_bit_by_bit(&rt, seed, &bytes[..len]);
        is_as_bit_by_bit(&rt, len as u32, &bytes[len..]);
    }
}

// Lengths in bytes around multiples of 8, of 64 words and of 209 words, around the one from which
// words are moved first, around those at which one block of words more is moved, and around the
// first one at which words go back to the front.
const LENGTHS: &[usize] = &[
    0, 7, 8, 9, 511, 512, 513, 1671, 1672, 1673, 2047, 2048, 2049, 3343, 3344, 3345, 4087, 4088,
    4089, 4095, 4096, 4097, 4103, 4104, 4105, 4231, 4232, 4233, 5015, 5016, 5017, 6791, 6792, 6793,
    199_999, 200_000, 200_001,
];

// `len` bytes from place `from` on, or those that there are.
fn cut(bytes: &[u8], from: usize, len: usize) -> &[u8] {
    let behind = &bytes[from.min(bytes.len())..];
    &behind[..len.min(behind.len())]
}

#[test]
fn many_bytes_from_each_place(rt: HostRuntime) -> Result<(), Fail> {
    let mut bytes = vec![in rt.alloc(); 0; 200_016]?;
    let seed = draw(bytes.as_mut_slice());
    for len in LENGTHS {
        for from in 0..8 {
            let piece = cut(bytes.as_slice(), from, *len);
            same(&rt, piece.len(), *len);
            is_as_bit_by_bit(&rt, seed, piece);
        }
    }
    Ok(())
}

#[test]
fn many_bytes_in_two_pieces(rt: HostRuntime) -> Result<(), Fail> {
    let mut bytes = vec![in rt.alloc(); 0; 10_000]?;
    let seed = draw(bytes.as_mut_slice());
    let want = bit_by_bit(seed, bytes.as_slice());
    for len in LENGTHS {
        let (first, second) = bytes.as_slice().split_at((*len).min(bytes.len()));
        same(&rt, update(update(seed, first), second), want);
    }
    Ok(())
}
