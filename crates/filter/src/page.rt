// A page's bloom filter. Document 01, "Filters".
ghost use Rattle.std.specs.Prelude.{◌≡◌, ◌||◌, ℕ, ◌+◌, ◌-◌, ◌*◌, ◌%◌, ◌<◌, ◌≤◌, eqb, length, replicate};
ghost use Rattle.layout.specs.Geometry.{page, entries_per_page};
ghost use Rattle.layout.specs.Items.{deletion_size};
ghost use Rattle.laws.specs.Units.{UnitSound};
ghost use Rattle.fnv.specs.Hashed.{bytes_of};
ghost use Rattle.filter.specs.Filter.{array_bit, key_bit, item_bytes, with_key, half_bits};
ghost use Rattle.filter.specs.Fourths.{FourthsOf, FilterPut};

use fnv::Hashed;
use geometry::{Chip, areas};

// Sets bit p.
fn set_bit(p: u32, bits: &mut [u8])
    requires { (length bits.old ≡ 256) × (p < 2048) }
    ensures { (x : ℕ) → x < 2048 → array_bit bits.new x ≡ (eqb p x || array_bit bits.old x) }
{
    let x = p as usize;
    let i = x / 8;
    bits[i] |= 1 << (x % 8);
}

// Sets the bits of the positions of a key or a number.
fn set_key(chip: Chip, count: usize, key: Hashed, bits: &mut [u8])
    requires { UnitSound chip.unit × (count ≤ 8) × (length bits.old ≡ 256) }
    ensures { (x : ℕ) → x < 2048
        → array_bit bits.new x ≡ (key_bit chip.unit count (bytes_of key) x || array_bit bits.old x) }
{
    let ps = fnv::positions(chip, count, key);
    for p in &ps[..count] {
        set_bit(*p, bits);
    }
}

// What is hashed of the item from byte `at` on, its first word: an entry's key or a deletion's number.
fn hashed_at(at: usize, ram: &[u8]) -> Hashed
    requires { at + 4 ≤ length ram.now }
    ensures { bytes_of result ≡ item_bytes ram.now at }
{
    fnv::of_number(words::get32(ram, at))
}

// The 2048 bits, none of which is set, become the bloom filter of S/2 items: those from byte `at` on, `step` bytes apart, and as the last
// one the key, which is not in RAM yet. The positions of all of them are set, `count` of each, and no other.
pub fn new_filter(
    chip: Chip,
    count: usize,
    at: usize,
    step: usize,
    key: Hashed,
    ram: &[u8],
    bits: &mut [u8],
)
    requires unit_sound { UnitSound chip.unit × (count ≤ 8) × (4 ≤ step)
        × (at + (entries_per_page chip.unit - 1) * step ≤ length ram.now) }
    requires bits_value { bits.old ≡ replicate 256 0 }
    ensures { (x : ℕ) → x < 2048 → array_bit bits.new x ≡ with_key chip.unit count at step (bytes_of key) ram.now x }
{
    let last = chip.entries_per_page() - 1;
    for i in 0..last {
        let old = hashed_at(at + i * step, ram);
        set_key(chip, count, old, bits);
    }
    set_key(chip, count, key, bits);
}

// The fourths of filter f of two go to their places in `out`: there the fourths of a sector lie one after the other.
fn put_fourths(chip: Chip, f: usize, bits: &[u8], out: &mut [u8])
    requires { (0 < chip.unit) × (f < 2) × (length bits.now ≡ 256) × (length out.old ≡ 512) }
    ensures { FilterPut chip.unit f (array_bit bits.now) out.old out.new }
{
    let piece = chip.fourth_size();
    for i in 0..Chip::SECTORS_PER_PAGE {
        let lo = i * piece;
        let hi = lo + piece;
        words::copy_at(out, lo + lo + f * piece, &bits[lo..hi]);
    }
}

// The bloom filter of half a page of deletions, those from byte `at` on and as the last one `last`, which is filter f of two, goes to its
// places in `out`. It is a function so that the bits of one filter alone lie on the stack.
fn half_filter(
    chip: Chip,
    count: usize,
    at: usize,
    last: Hashed,
    f: usize,
    ram: &[u8],
    out: &mut [u8],
)
    requires unit_sound { UnitSound chip.unit × (count ≤ 8) × (at + (entries_per_page chip.unit - 1) * deletion_size ≤ length ram.now) }
    requires f_bound { (f < 2) × (length out.old ≡ 512) }
    ensures { FilterPut chip.unit f (with_key chip.unit count at deletion_size (bytes_of last) ram.now)
        out.old out.new }
{
    let mut bits = [0u8; 256];
    new_filter(chip, count, at, areas::DELETION_SIZE, last, ram, &mut bits);
    put_fourths(chip, f, &bits, out);
}

// The first bytes of `out` become the bloom filters of the page of deletions from byte `at` on, whose last number is not in RAM yet: that
// of its first half, then that of its second, by their fourths.
pub fn number_filters(chip: Chip, count: usize, at: usize, number: u32, ram: &[u8], out: &mut [u8])
    requires unit_sound { UnitSound chip.unit × (count ≤ 8) × (at + page chip.unit ≤ length ram.now) }
    requires out_len { length out.old ≡ 512 }
    ensures { FourthsOf chip.unit 2 (half_bits chip.unit count at number ram.now) out.new }
{
    let step = areas::DELETION_SIZE;
    let middle = at + chip.deletions_per_filter() * step;
    let end = hashed_at(middle - step, ram);
    half_filter(chip, count, at, end, 0, ram, out);
    half_filter(chip, count, middle, fnv::of_number(number), 1, ram, out);
}
