// Bytes in a slice: little-endian numbers of four and of eight bytes, copies and fills. And bits of a word.
#![tactic(auto)]

ghost use Rattle.std.specs.Prelude.{◌≡◌, ◌+◌, ◌*◌, ◌≤◌, ◌<◌, length, replicate};
ghost use Rattle.memory.specs.Lists.{write};
ghost use Rattle.memory.specs.Words.{bytes4, bytes8, word, words_bytes, Word64};

pub mod bits;

// The number that four bytes from `at` on make, the lowest first.
pub fn get32(s: &[u8], at: usize) -> u32
    requires { at + 4 ≤ length s.now }
    ensures { result ≡ word s.now at }
{
    u32::from_le_bytes([s[at], s[at + 1], s[at + 2], s[at + 3]])
}

// The four bytes of x from `at` on, the lowest first.
pub fn put32(s: &mut [u8], at: usize, x: u32)
    requires { at + 4 ≤ length s.old }
    ensures { s.new ≡ write s.old at (bytes4 x) }
{
    copy_at(s, at, &u32::to_le_bytes(x));
}

// The bytes of words from `at` on, one word after another.
pub fn put_words(s: &mut [u8], at: usize, ws: &[u32])
    requires { at + length ws.now * 4 ≤ length s.old }
    ensures { s.new ≡ write s.old at (words_bytes ws.now) }
{
    for (i, w) in ws.iter().enumerate() {
        put32(s, at + i * 4, *w);
    }
}

// The eight bytes from `at` on, the lowest first: one load.
pub fn get64(s: &[u8], at: usize) -> u64
    requires { at + 8 ≤ length s.now }
    ensures { Word64 s.now at result }
{
    u64::from_le_bytes([
        s[at],
        s[at + 1],
        s[at + 2],
        s[at + 3],
        s[at + 4],
        s[at + 5],
        s[at + 6],
        s[at + 7],
    ])
}

// The eight bytes of x from `at` on, the lowest first.
pub fn put64(s: &mut [u8], at: usize, x: u64)
    requires { at + 8 ≤ length s.old }
    ensures { s.new ≡ write s.old at (bytes8 x) }
{
    copy_at(s, at, &u64::to_le_bytes(x));
}

// dst becomes src. By bytes: `copy_from_slice` first asks by their addresses whether the two overlap, and then wants C's `memmove`.
pub fn copy(dst: &mut [u8], src: &[u8])
    requires { length dst.old ≡ length src.now }
    ensures { dst.new ≡ src.now }
{
    for i in 0..src.len() {
        dst[i] = src[i];
    }
}

// The same of few bytes. Eight are read before they are written: one move, though the compiler doesn't see that the two lie apart. (Not
// more than eight: of 16 it makes C's `memmove` where a processor has no such move.)
pub fn copy_few(dst: &mut [u8], src: &[u8])
    requires { length dst.old ≡ length src.now }
    ensures { dst.new ≡ src.now }
{
    for k in 0..src.len() / 8 {
        let i = 8 * k;
        let mut part = [0u8; 8];
        copy(&mut part, &src[i..i + 8]);
        copy(&mut dst[i..i + 8], &part);
    }
    for j in src.len() / 8 * 8..src.len() {
        dst[j] = src[j];
    }
}

// src is written into dst from `at` on.
pub fn copy_at(dst: &mut [u8], at: usize, src: &[u8])
    requires { at + length src.now ≤ length dst.old }
    ensures { dst.new ≡ write dst.old at src.now }
{
    copy(&mut dst[at..at + src.len()], src);
}

// n bytes of dst from `at` on become v.
pub fn fill_at(dst: &mut [u8], at: usize, n: usize, v: u8)
    requires { at + n ≤ length dst.old }
    ensures { dst.new ≡ write dst.old at (replicate n v) }
{
    dst[at..at + n].fill(v);
}
