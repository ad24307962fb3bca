// Passing over runs of bytes that leave the machine as it is.
ghost use Rattle.std.specs.Prelude.{◌≡◌, ◌+◌, ◌≤◌, length, drop, map, IsTrue};
ghost use Rattle.std.specs.List.{prefix_len};
ghost use Rattle.std.specs.Simd.Lanes.{mask_l};
ghost use Rattle.json_span.specs.Machine.{IsSkipped, between};
ghost use Rattle.json_span.specs.Plain.{is_stop, is_plain_byte};
ghost use Rattle.json_span.specs.Table.{class_of};
ghost use Rattle.json_span.specs.declared.class.Class.TheVariants as class;
ghost use Rattle.json_span.specs.declared.phase.Run.TheVariants as runs;

use crate::phase::Run;
use std::simd::prelude::*;

/// The place of the first byte from here on that may change the machine, or the end.
#[inline(always)]
pub fn skip(text: &[u8], from: usize, run: Run) -> usize
    requires { from ≤ length text.now }
    ensures range { (from ≤ result) × (result ≤ length text.now) }
    ensures skipped { IsSkipped run (between text.now from result) }
{
    match run {
        Run::Plain => skip_plain(text, from),
        Run::Digits => skip_digits(text, from),
        Run::Blanks => skip_blanks(text, from),
        Run::Nothing => from,
    }
}

/// The same, where the run is mostly white space.
#[inline(always)]
pub fn skip_blanks_or_none(text: &[u8], from: usize, run: Run) -> usize
    requires { from ≤ length text.now }
    ensures range { (from ≤ result) × (result ≤ length text.now) }
    ensures skipped { IsSkipped run (between text.now from result) }
{
    match run {
        Run::Blanks => skip_blanks(text, from),
        Run::Nothing => from,
        _ => skip_any(text, from, run),
    }
}

/// The same, out of line.
#[inline(never)]
fn skip_any(text: &[u8], from: usize, run: Run) -> usize
    requires { from ≤ length text.now }
    ensures range { (from ≤ result) × (result ≤ length text.now) }
    ensures skipped { IsSkipped run (between text.now from result) }
{
    skip(text, from, run)
}

/// The place of the first byte that does not stand for itself in a string.
#[inline(always)]
fn skip_plain(text: &[u8], from: usize) -> usize
    requires { from ≤ length text.now }
    ensures range { (from ≤ result) × (result ≤ length text.now) }
    ensures skipped { IsSkipped runs.Plain (between text.now from result) }
{
    plain_end(text, from)
}

/// Which of 16 bytes do not stand for themselves in a string, a bit for each.
#[inline(always)]
fn stops(lanes: u8x16) -> u64
    ensures { result ≡ mask_l (map is_stop lanes) }
{
    (lanes.simd_eq(u8x16::splat(b'"'))
        | lanes.simd_eq(u8x16::splat(b'\\'))
        | lanes.simd_lt(u8x16::splat(0x20))).to_bitmask()
}

/// The end of a run of bytes that stand for themselves in a string, 16 at a time.
#[inline(always)]
fn plain_end(text: &[u8], from: usize) -> usize
    requires { from ≤ length text.now }
    ensures value { result ≡ from + prefix_len is_plain_byte (drop from text.now) }
    ensures bound { result ≤ length text.now }
{
    let mut at = from;
    while text.len() - at >= 16 {
        let found = stops(u8x16::from_slice(&text[at..]));
        if found != 0 {
            return at + found.trailing_zeros() as usize;
        }
        at += 16;
    }
    last_plain_end(text, at)
}

/// The end of such a run, byte by byte.
#[inline(always)]
fn last_plain_end(text: &[u8], from: usize) -> usize
    requires { from ≤ length text.now }
    ensures { result ≡ from + prefix_len is_plain_byte (drop from text.now) }
{
    let mut at = from;
    while at < text.len() && text[at] != b'"' && text[at] != b'\\' && text[at] >= 0x20 {
        at += 1;
    }
    at
}

/// The place of the first byte that is no digit.
#[inline(always)]
fn skip_digits(text: &[u8], from: usize) -> usize
    requires { from ≤ length text.now }
    ensures range { (from ≤ result) × (result ≤ length text.now) }
    ensures skipped { IsSkipped runs.Digits (between text.now from result) }
{
    let mut at = from;
    while at < text.len() && text[at] >= b'0' && text[at] <= b'9' {
        at += 1;
    }
    at
}

/// The place of the first byte that is no white space. Blanks come in runs more often than tabs and line ends.
#[inline(always)]
fn skip_blanks(text: &[u8], from: usize) -> usize
    requires { from ≤ length text.now }
    ensures range { (from ≤ result) × (result ≤ length text.now) }
    ensures skipped { IsSkipped runs.Blanks (between text.now from result) }
{
    let mut at = from;
    while at < text.len() && text[at] <= b' ' && is_blank(text[at]) {
        at += 1;
    }
    at
}

/// Whether the byte is white space.
#[inline(always)]
fn is_blank(byte: u8) -> bool
    ensures { IsTrue result → class_of byte ≡ class.Blank }
{
    byte == b' ' || byte == b'\n' || byte == b'\r' || byte == b'\t'
}
