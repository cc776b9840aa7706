// Words and entries in a row of bytes: is a number among the words, which entry has a key. Document 01, "Calls".
#![tactic(auto)]

ghost use Rattle.std.specs.Prelude.{◌≡◌, false, ◌≢◌, ◌+◌, ◌*◌, ◌≤◌, ◌<◌, length};
ghost use Rattle.layout.specs.Keys.{word_size, same_key, key_at};
ghost use Rattle.layout.specs.Geometry.{page, entries_per_page};
ghost use Rattle.layout.specs.Items.{entry_size};
ghost use Rattle.laws.specs.Units.{UnitSound};
ghost use Rattle.keys.specs.Key.{key_is};
ghost use Rattle.items.specs.Scans.{words_per_page, has_word, last_entry, place_of};

use geometry::{Chip, areas};
use keys::Key;

// Words that are compared at once: in pages of one and two units, and in larger ones.
const FEW: usize = 16;

const MANY: usize = 64;

// Their bytes, and the entries that have so many words.
const FEW_BYTES: usize = FEW * areas::WORD_SIZE;

const MANY_BYTES: usize = MANY * areas::WORD_SIZE;

const MANY_ENTRIES: usize = MANY_BYTES / areas::ENTRY_SIZE;

// Entries that are looked through at once.
const RUN: usize = 64;

// ---- words

// Is one of the N words from byte `at` on the number j. No exit before the end, so that many words are compared at once; their count is a
// constant, so that no loop is left.
fn block_has<const N: usize>(at: usize, j: u32, s: &[u8]) -> bool
    requires { at + N * word_size ≤ length s.now }
    ensures { result ≡ has_word s.now at N j }
{
    let mut found = false;
    for i in 0..N {
        found |= words::get32(s, at + i * areas::WORD_SIZE) == j;
    }
    found
}

// Those behind the first m of n words, a word at a time.
fn rest_have(at: usize, m: usize, n: usize, j: u32, s: &[u8]) -> bool
    requires { (m ≤ n) × (at + n * word_size ≤ length s.now) × (has_word s.now at m j ≡ false) }
    ensures { result ≡ has_word s.now at n j }
{
    let mut found = false;
    for i in m..n {
        found |= words::get32(s, at + i * areas::WORD_SIZE) == j;
    }
    found
}

// Is one of the n words from byte `at` on the number j.
pub fn has_word(at: usize, n: usize, j: u32, s: &[u8]) -> bool
    requires { at + n * word_size ≤ length s.now }
    ensures { result ≡ has_word s.now at n j }
{
    let blocks = n / MANY;
    for b in 0..blocks {
        if block_has::<MANY>(at + b * MANY_BYTES, j, s) {
            return true;
        }
    }
    rest_have(at, blocks * MANY, n, j, s)
}

// ---- entries with a key

// Has the entry from byte `at` on the key.
#[tactic(auto, unfolding(layout::specs::Keys::same_key))]
fn is_key(at: usize, key: Key, s: &[u8]) -> bool
    requires { at + entry_size ≤ length s.now }
    ensures { result ≡ same_key (key_at s.now at) (key_is key) }
{
    let first = words::get32(s, at);
    let second = words::get32(s, at + areas::WORD_SIZE);
    keys::key_in(first, second) == key
}

// The newest of the n entries with the key, an entry at a time.
fn last_key(at: usize, n: usize, key: Key, s: &[u8]) -> Option<usize>
    requires { at + n * entry_size ≤ length s.now }
    ensures { result ≡ place_of (last_entry s.now at n (key_is key)) }
{
    for e in (0..n).rev() {
        if is_key(at + e * areas::ENTRY_SIZE, key, s) {
            return Some(e);
        }
    }
    None
}

// The same, after a pass over all words of the entries: it takes their numbers for keys too, but it has no exit and reads without a gap,
// and nearly always it finds none.
fn find_few(at: usize, count: usize, key: Key, s: &[u8]) -> Option<usize>
    requires { at + count * entry_size ≤ length s.now }
    ensures { result ≡ place_of (last_entry s.now at count (key_is key)) }
{
    if !has_word(at, count * 2, key.level, s) {
        return None;
    }
    last_key(at, count, key, s)
}

// The newest of the entries with the key, by runs from the newest on: the pass over a run has no exit, and what lies before the run with
// the key is not read.
pub fn find_entry(at: usize, count: usize, key: Key, s: &[u8]) -> Option<usize>
    requires { at + count * entry_size ≤ length s.now }
    ensures { result ≡ place_of (last_entry s.now at count (key_is key)) }
{
    let rest = count % RUN;
    for b in (0..count / RUN).rev() {
        let lo = rest + b * RUN;
        if let Some(e) = find_few(at + lo * areas::ENTRY_SIZE, RUN, key, s) {
            return Some(lo + e);
        }
    }
    find_few(at, rest, key, s)
}

// ---- full pages

// Is one of the words of a page of up to four units the number j.
fn small_has(chip: Chip, at: usize, j: u32, s: &[u8]) -> bool
    requires { (0 < chip.unit) × (chip.unit < 5) × (chip.unit ≢ 3) × (at + page chip.unit ≤ length s.now) }
    ensures { result ≡ has_word s.now at (words_per_page chip.unit) j }
{
    match chip.unit {
        4 => block_has::<MANY>(at, j, s),
        1 => block_has::<FEW>(at, j, s),
        _ => block_has::<FEW>(at, j, s) || block_has::<FEW>(at + FEW_BYTES, j, s),
    }
}

// Is one of the words of a full page the number j.
pub fn page_has(chip: Chip, at: usize, j: u32, s: &[u8]) -> bool
    requires { UnitSound chip.unit × (at + page chip.unit ≤ length s.now) }
    ensures { result ≡ has_word s.now at (words_per_page chip.unit) j }
{
    if chip.unit < 5 {
        return small_has(chip, at, j, s);
    }
    has_word(at, chip.deletions_per_page(), j, s)
}

// The newest entry of a full page with the key. In pages of more than four units it is looked for from the newest 64 words on that have
// the key.
pub fn find_in_page(chip: Chip, at: usize, key: Key, s: &[u8]) -> Option<usize>
    requires { UnitSound chip.unit × (at + page chip.unit ≤ length s.now) }
    ensures { result ≡ place_of (last_entry s.now at (entries_per_page chip.unit) (key_is key)) }
{
    if chip.unit < 5 {
        if small_has(chip, at, key.level, s) {
            return last_key(at, chip.entries_per_page(), key, s);
        }
        return None;
    }
    for b in (0..chip.page_size() / MANY_BYTES).rev() {
        if block_has::<MANY>(at + b * MANY_BYTES, key.level, s) {
            return last_key(at, (b + 1) * MANY_ENTRIES, key, s);
        }
    }
    None
}
