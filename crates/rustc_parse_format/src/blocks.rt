//! Prefixes of bytes, found sixteen bytes at a time. The last block ends where the bytes end, so it
//! may overlap the one before it. If there are fewer bytes than a block has, each byte is examined.
//! The kit's crate memchr is slower up to some twenty bytes, faster from some thousands on, and
//! does not compare two texts.

ghost use Rattle.std.specs.Int.{bit_at};
ghost use Rattle.std.specs.List.{list_all};
ghost use Rattle.std.specs.Prelude.{◌≡◌, ◌<◌, ◌≤◌, ℕ, length, slice_index, take, true};
ghost use Rattle.rustc_parse_format.specs.Bytes.{IsFront, IsSharedFront, is_no_stop};
ghost use Rattle.rustc_parse_format.specs.LiteralUnits.{is_plain};

use std::simd::prelude::*;

/// The bytes at which a run ends: those below `low`, those above `high`, and four others, which may
/// be equal.
#[derive(Clone, Copy)]
pub struct Stops {
    /// The lowest byte of a run.
    pub low: u8,
    /// The highest byte of a run.
    pub high: u8,
    /// A byte between them at which a run ends.
    pub first: u8,
    /// Another such byte.
    pub second: u8,
    /// Another such byte.
    pub third: u8,
    /// Another such byte.
    pub fourth: u8,
}

impl Stops {
    ghost use Rattle.std.specs.Prelude.{not};
    ghost use Rattle.rustc_parse_format.specs.Bytes.{is_no_stop};

    /// Returns whether a run ends at the byte.
    #[inline(always)]
    fn has(self, byte: u8) -> bool
        ensures { result ≡ not (is_no_stop self byte) }
    {
        byte < self.low
            || byte > self.high
            || byte == self.first
            || byte == self.second
            || byte == self.third
            || byte == self.fourth
    }
}

/// Returns the number of bits below the lowest one that is set, or 64 if there is none.
#[inline(always)]
fn clear_bits(bits: u64) -> usize
    ensures { (k : ℕ) → k < result → bit_at bits k ≡ 0 }
{
    bits.trailing_zeros() as usize
}

/// Returns the number of lanes before the first one whose bit is set, or 16 if there is none.
#[inline(always)]
fn clear_lanes(bits: u64) -> usize
    ensures within { result ≤ 16 }
    ensures clear { (k : ℕ) → k < result → bit_at bits k ≡ 0 }
{
    clear_bits(bits | 65536)
}

/// Returns the number of lanes before the first one that is a stop, or 16 if there is none.
#[inline(always)]
fn front_lanes(lanes: u8x16, stops: Stops) -> usize
    ensures within { result ≤ 16 }
    ensures pass { (k : ℕ) → k < result → is_no_stop stops (slice_index lanes k) ≡ true }
{
    let mask = lanes.simd_lt(u8x16::splat(stops.low))
        | u8x16::splat(stops.high).simd_lt(lanes)
        | lanes.simd_eq(u8x16::splat(stops.first))
        | lanes.simd_eq(u8x16::splat(stops.second))
        | lanes.simd_eq(u8x16::splat(stops.third))
        | lanes.simd_eq(u8x16::splat(stops.fourth));
    clear_lanes(mask.to_bitmask())
}

/// Returns the number of lanes before the first one that differs from the lane of `others` or is a
/// quote, a backslash or a CR, or 16 if there is none.
#[inline(always)]
fn plain_lanes(lanes: u8x16, others: u8x16) -> usize
    ensures within { result ≤ 16 }
    ensures same { (k : ℕ) → k < result → slice_index lanes k ≡ slice_index others k }
    ensures pass { (k : ℕ) → k < result → is_plain (slice_index lanes k) ≡ true }
{
    let mask = lanes.simd_ne(others)
        | lanes.simd_eq(u8x16::splat(b'"'))
        | lanes.simd_eq(u8x16::splat(b'\\'))
        | lanes.simd_eq(u8x16::splat(b'\r'));
    clear_lanes(mask.to_bitmask())
}

/// Returns the length of the longest prefix without stops, of sixteen bytes or more.
#[inline(always)]
fn front_by_blocks(bytes: &[u8], stops: Stops) -> usize
    requires { 16 ≤ length bytes.now }
    ensures within { result ≤ length bytes.now }
    ensures pass { list_all (is_no_stop stops) (take result bytes.now) ≡ true }
{
    let last = bytes.len() - 16;
    let mut at = 0;
    while at < last {
        let run = front_lanes(u8x16::from_slice(&bytes[at..]), stops);
        if run < 16 {
            return at + run;
        }
        at += 16;
    }
    last + front_lanes(u8x16::from_slice(&bytes[last..]), stops)
}

/// Returns the length of the longest prefix without stops. No block is read for one or two bytes.
#[inline(always)]
pub fn front_width(bytes: &[u8], stops: Stops) -> usize
    ensures { IsFront (is_no_stop stops) bytes.now result }
{
    if bytes.is_empty() || stops.has(bytes[0]) {
        return 0;
    }
    let start = if bytes.len() < 16 || stops.has(bytes[1]) {
        0
    } else {
        front_by_blocks(bytes, stops)
    };
    for i in start..bytes.len() {
        if stops.has(bytes[i]) {
            return i;
        }
    }
    bytes.len()
}

/// Returns the length of the longest prefix that both have and that is without quotes, backslashes
/// and CRs. Returns 0 without examining a block if one has fewer than 16 bytes, or if their first
/// bytes differ.
#[inline(always)]
pub fn plain_front(bytes: &[u8], others: &[u8]) -> usize
    ensures { IsSharedFront is_plain bytes.now others.now result }
{
    let limit = bytes.len().min(others.len());
    if limit < 16 || bytes[0] != others[0] {
        return 0;
    }
    let last = limit - 16;
    let mut at = 0;
    while at < last {
        let count = plain_lanes(
            u8x16::from_slice(&bytes[at..]),
            u8x16::from_slice(&others[at..]),
        );
        if count < 16 {
            return at + count;
        }
        at += 16;
    }
    last + plain_lanes(
        u8x16::from_slice(&bytes[last..]),
        u8x16::from_slice(&others[last..]),
    )
}
