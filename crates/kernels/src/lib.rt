// Fast passes over rows of bits: which filters have all of their bits, as the bits of words.
#![tactic(auto)]

ghost use Rattle.std.specs.Prelude.{◌≡◌, true, false, ◌&&◌, ◌||◌, not, ◌≢◌, ◌⊎◌, ltb, eqb, length, get_or};
ghost use Rattle.std.specs.Prelude.{ℕ, ◌+◌, ◌-◌, ◌*◌, ◌/◌, ◌%◌, ◌^◌, ◌≤◌, ◌<◌};
ghost use Rattle.std.specs.Int.Bits.{bit_and, bit_or};
ghost use Rattle.memory.specs.Bits.{bit, bit_in};
ghost use Rattle.memory.specs.Ranges.{any};
ghost use Rattle.kernels.specs.Rows.{row_of, all_in, Words};
ghost use Rattle.kernels.specs.Blocks.{Shows, Open, Upto, OpenBlock, Squeezed, BlockIn, GroupIn};
ghost use Rattle.kernels.specs.Masks.{has_mask, Had, Lacked};

use words::bits;

// A row of bits: its first byte, and the bit that counts among those that a filter has in it.
#[derive(Clone, Copy)]
pub struct Row {
    pub at: usize,
    pub low: usize,
}

// ---- words of 64 bits

// The lowest m bits.
pub fn lowest(x: u64, m: usize) -> u64
    requires { (0 < m) × (m ≤ 64) }
    ensures { (i : ℕ) → i < 64 → bit result i ≡ (ltb i m && bit x i) }
{
    (x << (64 - m)) >> (64 - m)
}

// A word with bit b alone.
pub fn single(b: usize) -> u64
    requires { b < 64 }
    ensures { (result ≡ 2 ^ b) × ((i : ℕ) → i < 64 → bit result i ≡ eqb i b) }
{
    1 << b
}

// The highest bit that is set.
pub fn top(bits: u64) -> usize
    requires { 0 < bits }
    ensures { (result < 64) × (bit bits result ≡ true) × ((i : ℕ) → result < i → i < 64 → bit bits i ≡ false) }
{
    bits.ilog2() as usize
}

// The bits without bit f.
pub fn without(bits: u64, f: usize) -> u64
    requires { f < 64 }
    ensures { (i : ℕ) → i < 64 → bit result i ≡ (not (eqb i f) && bit bits i) }
{
    bits & !(1 << f)
}

// The set bits of a word, the highest first.
pub mod ones;

// ---- permutations of a word's bits

// Bit 16 i + j becomes bit 4 j + i.
fn interleaved(x: u64) -> u64
    ensures { (i j : ℕ) → i < 4 → j < 16 → bit result (4 * j + i) ≡ bit x (16 * i + j) }
{
    let a = bits::exchanged(x, 30, 0x0000_0000_cccc_cccc);
    let b = bits::exchanged(a, 15, 0x0000_aaaa_0000_aaaa);
    let c = bits::exchanged(b, 24, 0x0000_0000_ff00_ff00);
    bits::exchanged(c, 12, 0x0000_f0f0_0000_f0f0)
}

// Bit 4 i + j becomes bit 16 j + i. The exchanges of `interleaved` from the last to the first: one function for both would test the order.
fn by_fours(x: u64) -> u64
    ensures { (i j : ℕ) → i < 16 → j < 4 → bit result (16 * j + i) ≡ bit x (4 * i + j) }
{
    let a = bits::exchanged(x, 12, 0x0000_f0f0_0000_f0f0);
    let b = bits::exchanged(a, 24, 0x0000_0000_ff00_ff00);
    let c = bits::exchanged(b, 15, 0x0000_aaaa_0000_aaaa);
    bits::exchanged(c, 30, 0x0000_0000_cccc_cccc)
}

// Which of n filters, four to a word, are not shut.
pub fn having(x: u64, n: usize) -> u64
    requires { (0 < n) × (n ≤ 64) }
    ensures { Had x n result }
{
    let r = interleaved(x >> (16 - n.div_ceil(4)));
    lowest(!r, n)
}

// ---- filters of whole bytes: a bit out of each

// The bit of a byte that the mask has, in its place.
fn masked(at: usize, mask: u64, bytes: &[u8]) -> u64
    requires { at < length bytes.now }
    ensures { (result ≡ bit_and (get_or bytes.now at 0) mask) × (result < 256) }
{
    bytes[at] as u64 & mask
}

// Where byte k of those lies that are `step` bytes apart.
fn byte_at(at: usize, k: usize, step: usize) -> usize
    requires { at + k * step < 2 ^ 64 }
    ensures { result ≡ at + k * step }
{
    at + k * step
}

// Bit `low` of a byte out of each of n, `step` bytes from one to the next.
pub fn byte_bits(at: usize, low: usize, step: usize, n: usize, bytes: &[u8]) -> u64
    requires { (n ≤ 8) × ((i : ℕ) → i < n → at + i * step < length bytes.now) }
    ensures { (result < 2 ^ n) × ((i : ℕ) → i < n → bit result i ≡ bit (get_or bytes.now (at + i * step) 0) (low % 8)) }
{
    let s = low % 8;
    let mut r: u64 = 0;
    for k in (0..n).rev() {
        let b = masked(byte_at(at, k, step), 1 << s, bytes);
        r = r * 2 + b;
    }
    r >> s
}

// The same of n times eight bytes, below the bits of `above`.
pub fn row_bits(above: u64, at: usize, low: usize, step: usize, n: usize, bytes: &[u8]) -> u64
    requires { (n ≤ 8) × ((i : ℕ) → i < n * 8 → at + i * step < length bytes.now) }
    ensures { ((i : ℕ) → i < n * 8 → bit result i ≡ bit (get_or bytes.now (at + i * step) 0) (low % 8))
        × ((i : ℕ) → n * 8 + i < 64 → bit result (n * 8 + i) ≡ bit above i) }
{
    let mut r = above;
    for j in (0..n).rev() {
        let b = byte_bits(at + j * 8 * step, low, step, 8, bytes);
        r = (r << 8) | b;
    }
    r
}

// ---- filters of a bit and more, side by side in words

// Fields of bits in a word come together by two: what lies s bits further up is moved down beside the lower one, and `m` has the places of
// both.
fn join(y: u64, s: usize, m: u64) -> u64
    requires { s < 64 }
    ensures { result ≡ bit_and (bit_or y (y / 2 ^ s)) m }
{
    (y | (y >> s)) & m
}

// Every w-th bit of a word, side by side; not at w = 4, which `quarters` does. A loop for all widths would need tables of shifts and masks.
fn squeeze(x: u64, w: usize) -> u64
    requires { ((e : ℕ) × (0 < e) × (e < 7) × (w ≡ 2 ^ e)) × (w ≢ 4) }
    ensures { Squeezed w x result }
{
    match w {
        2 => {
            let a = join(x & 0x5555_5555_5555_5555, 1, 0x3333_3333_3333_3333);
            let b = join(a, 2, 0x0f0f_0f0f_0f0f_0f0f);
            let c = join(b, 4, 0x00ff_00ff_00ff_00ff);
            let d = join(c, 8, 0x0000_ffff_0000_ffff);
            join(d, 16, 0x0000_0000_ffff_ffff)
        }
        8 => {
            let a = join(x & 0x0101_0101_0101_0101, 7, 0x0003_0003_0003_0003);
            let b = join(a, 14, 0x0000_000f_0000_000f);
            join(b, 28, 0x0000_0000_0000_00ff)
        }
        16 => {
            let a = join(x & 0x0001_0001_0001_0001, 15, 0x0000_0003_0000_0003);
            join(a, 30, 0x0000_0000_0000_000f)
        }
        32 => join(x & 0x0000_0001_0000_0001, 31, 0x0000_0000_0000_0003),
        _ => x & 1,
    }
}

// Every second bit of two words, side by side: those of the first lowest.
fn halves(a: u64, b: u64) -> u64
    ensures { (i : ℕ) → i < 32 → (bit result i ≡ bit a (i * 2)) × (bit result (32 + i) ≡ bit b (i * 2)) }
{
    let x = squeeze(a, 2);
    let y = squeeze(b, 2);
    (y << 32) | x
}

// Every fourth bit of four words, side by side: those of the first lowest.
fn quarters(a: u64, b: u64, c: u64, d: u64) -> u64
    ensures { (i : ℕ) → i < 16 → (bit result i ≡ bit a (i * 4)) × (bit result (16 + i) ≡ bit b (i * 4))
        × (bit result (32 + i) ≡ bit c (i * 4)) × (bit result (48 + i) ≡ bit d (i * 4)) }
{
    let m: u64 = 0x1111_1111_1111_1111;
    let x = ((d & m) << 1) | (c & m);
    let y = (x << 1) | (b & m);
    by_fours((y << 1) | (a & m))
}

// Which pairs of bits have one that is set: bit 2i for bits 2i and 2i + 1.
pub fn pairs(bits: u64) -> u64
    ensures { (i : ℕ) → i < 32 → (bit result (2 * i) ≡ (bit bits (2 * i) || bit bits (2 * i + 1))) × (bit result (2 * i + 1) ≡ false) }
{
    join(bits, 1, 0x5555_5555_5555_5555)
}

impl Row {
    // The word from byte o of the row on, moved down by `low`.
    fn word(self, o: usize, bytes: &[u8]) -> u64
        requires { (self.at + o + 8 ≤ length bytes.now) × (self.low < 64) }
        ensures { (i : ℕ) → self.low + i < 64 → bit result i ≡ bit_in bytes.now (self.at + o) (self.low + i) }
    {
        words::get64(bytes, self.at + o) >> self.low
    }
}

// Eight words, each without the bits that word q + j of a row, moved down, lacks.
fn and_row(f: [u64; 8], row: Row, q: usize, bytes: &[u8]) -> [u64; 8]
    requires { (row.at + q * 8 + 64 ≤ length bytes.now) × (row.low < 64) }
    ensures { (j : ℕ) → j < 8 → (i : ℕ) → row.low + i < 64
        → bit (get_or result j 0) i ≡ (bit_in bytes.now (row.at + (q + j) * 8) (row.low + i) && bit (get_or f j 0) i) }
{
    let mut r = f;
    for j in 0..8 {
        r[j] &= row.word((q + j) * 8, bytes);
    }
    r
}

// Words q to q + 7 of all rows, each moved down by its `low`. The loop over the rows is the outer one, so that the words stay in registers.
fn field_block(q: usize, rows: &[Row], bytes: &[u8]) -> [u64; 8]
    requires { BlockIn rows.now q (length bytes.now) }
    ensures { (j : ℕ) → j < 8 → Words bytes.now rows.now (q + j) (get_or result j 0) }
{
    let mut r = [u64::MAX; 8];
    for row in rows {
        let f = and_row(r, *row, q, bytes);
        r = f;
    }
    r
}

// Filters of w = 8 to 64 bits in each row: those of the n blocks from word q on.
fn more_words(w: usize, q: usize, n: usize, rows: &[Row], bytes: &[u8]) -> u64
    requires sizes { ((e : ℕ) × (2 < e) × (e < 7) × (w ≡ 2 ^ e)) × (64 / w * w ≡ 64)
        × (n * 8 * (64 / w) ≤ 64) × (n ≤ 8) × (q < 2 ^ 60) }
    requires rows { ((b : ℕ) → b < n → BlockIn rows.now (q + b * 8) (length bytes.now))
        × ((k : ℕ) → k < length rows.now → (row_of rows.now k).low < w) }
    ensures { Shows (all_in bytes.now rows.now w) (q * (64 / w)) (n * 8 * (64 / w)) result }
{
    let per = 64 / w;
    let mut r: u64 = 0;
    for b in (0..n).rev() {
        let f = field_block(q + b * 8, rows, bytes);
        for j in (0..8).rev() {
            let s = squeeze(f[j], w);
            r = (r << per) | s;
        }
    }
    r
}

// Which of the filters `from` to `from` + m - 1 have all bits, at w = 8 and more; `from` is a multiple of 64.
fn passed(w: usize, from: usize, m: usize, rows: &[Row], bytes: &[u8]) -> u64
    requires { (7 < w) × (0 < m) × (m ≤ 64) × (from % 64 ≡ 0)
        × GroupIn rows.now w (from + m) (length bytes.now) }
    ensures { Open (all_in bytes.now rows.now w) from m result }
{
    let n = (m * w).div_ceil(512);
    let a = more_words(w, from / 64 * w, n, rows, bytes);
    lowest(a, m)
}

// Eight words: n filters from `first` on, at w = 8 and more, 64 to a word. No twin of `few_block`: a word comes out of several blocks.
fn wide_block(w: usize, first: usize, n: usize, rows: &[Row], bytes: &[u8]) -> [u64; 8]
    requires { (7 < w) × (n ≤ 512) × (first % 64 ≡ 0) × GroupIn rows.now w (first + n) (length bytes.now) }
    ensures { OpenBlock (all_in bytes.now rows.now w) first n result }
{
    let mut r = [0u64; 8];
    for j in 0..n.div_ceil(64) {
        r[j] = passed(w, first + j * 64, (n - j * 64).min(64), rows, bytes);
    }
    r
}

// The first n bits of eight words.
fn part(f: [u64; 8], n: usize) -> [u64; 8]
    requires { n ≤ 512 }
    ensures { Upto (λ j i. bit (get_or f j 0) i) n result }
{
    let mut r = [0u64; 8];
    for j in 0..n.div_ceil(64) {
        r[j] = lowest(f[j], (n - j * 64).min(64));
    }
    r
}

// A word of filters out of W = 2 or 4 of eight, from the k-th on: every W-th bit of them, side by side.
fn packed<const W: usize>(f: [u64; 8], k: usize) -> u64
    requires { ((W ≡ 2) ⊎ (W ≡ 4)) × (k + W ≤ 8) }
    ensures { (i : ℕ) → i < 64 → bit result i ≡ bit (get_or f (k + i * W / 64) 0) (i * W % 64) }
{
    if W == 2 {
        return halves(f[k], f[k + 1]);
    }
    quarters(f[k], f[k + 1], f[k + 2], f[k + 3])
}

// Eight words: n filters from `first` on, of W = 2 or 4 bits in each row. A block of the rows has those of 8 / W words.
fn few_block<const W: usize>(first: usize, n: usize, rows: &[Row], bytes: &[u8]) -> [u64; 8]
    requires { ((W ≡ 2) ⊎ (W ≡ 4)) × (n ≤ 512) × (first % 512 ≡ 0) × GroupIn rows.now W (first + n) (length bytes.now) }
    ensures { OpenBlock (all_in bytes.now rows.now W) first n result }
{
    let mut r = [0u64; 8];
    for b in 0..(n * W).div_ceil(512) {
        let f = field_block(first / 64 * W + b * 8, rows, bytes);
        for k in 0..8 / W {
            r[b * (8 / W) + k] = packed::<W>(f, k * W);
        }
    }
    part(r, n)
}

// Which of the n filters from `first` on, 512 at the most, have all bits of their rows, 64 to a word. A row has w bits of each filter, 64
// at the most, of which `low` counts, and is read in whole blocks of 64 bytes; `first` is a multiple of 512.
pub fn block(w: usize, first: usize, n: usize, rows: &[Row], bytes: &[u8]) -> [u64; 8]
    requires { (0 < n) × (n ≤ 512) × (first % 512 ≡ 0)
        × GroupIn rows.now w (first + n) (length bytes.now) }
    ensures { OpenBlock (all_in bytes.now rows.now w) first n result }
{
    match w {
        1 => {
            let f = field_block(first / 64, rows, bytes);
            if n == 512 { f } else { part(f, n) }
        }
        2 => few_block::<2>(first, n, rows, bytes),
        4 => few_block::<4>(first, n, rows, bytes),
        _ => wide_block(w, first, n, rows, bytes),
    }
}

// ---- filters that have all bits of a mask

// The bits of a mask that a word lacks.
fn missing(x: u64, m: u64) -> u64
    ensures { (i : ℕ) → i < 64 → bit result i ≡ (bit m i && not (bit x i)) }
{
    m & !x
}

// The highest bit of each field of 16 bits that is not 0: the sum carries into it if a lower one is set.
fn nonzero(d: u64) -> u64
    ensures { ((i : ℕ) → i < 4 → bit result (16 * i + 15) ≡ any (λ b. bit d (16 * i + b)) 16)
        × ((i j : ℕ) → i < 4 → j < 15 → bit result (16 * i + j) ≡ false) }
{
    (((d & 0x7fff_7fff_7fff_7fff) + 0x7fff_7fff_7fff_7fff) | d) & 0x8000_8000_8000_8000
}

// A mask of 16 bits, four times.
fn four_times(m: u64) -> u64
    requires { m < 65536 }
    ensures { (i b : ℕ) → i < 4 → b < 16 → bit result (16 * i + b) ≡ bit m b }
{
    m * 0x0001_0001_0001_0001
}

// Which filters of 16 bits, four to a word, lack a bit of the mask: those of n words, after the ones of `start`.
pub fn lacking(start: u64, m: u64, at: usize, n: usize, bytes: &[u8]) -> u64
    requires { (m < 65536) × (at + n * 8 ≤ length bytes.now) }
    ensures { Lacked start m at n bytes.now result }
{
    let mask = four_times(m);
    let mut r = start;
    for j in 0..n {
        let d = missing(words::get64(bytes, at + j * 8), mask);
        let z = nonzero(d);
        r = (r >> 1) | z;
    }
    r
}

// Has a word all bits of a mask?
fn has_mask(x: u64, m: u64) -> bool
    ensures { result ≡ not (any (λ b. bit m b && not (bit x b)) 64) }
{
    x & m == m
}

// Which of the n words from byte `at` on have all bits of a mask.
pub fn words_with(m: u64, at: usize, n: usize, bytes: &[u8]) -> u64
    requires { (n ≤ 64) × (at + n * 8 ≤ length bytes.now) }
    ensures { Open (has_mask bytes.now at 64 m) 0 n result }
{
    let mut r: u64 = 0;
    for k in (0..n).rev() {
        let b = has_mask(words::get64(bytes, at + k * 8), m);
        r = (r << 1) | u64::from(b);
    }
    r
}
