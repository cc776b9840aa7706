// FNV-1a at 32 bits, the hash family of a key or a number and its positions in a filter. Document 01, "Filters".
#![tactic(auto)]

ghost use Rattle.std.specs.Prelude.{◌≡◌, ℕ, ◌+◌, ◌*◌, ◌%◌, ◌^◌, ◌<◌, ◌≤◌, bit_xor, slice_index};
ghost use Rattle.memory.specs.Power.{PowerOfTwo};
ghost use Rattle.memory.specs.Words.{bytes4};
ghost use Rattle.layout.specs.Keys.{key_bytes};
ghost use Rattle.layout.specs.Geometry.{sector, filter_bits};
ghost use Rattle.layout.specs.Hash.{fnv1a, fnv_family};
ghost use Rattle.laws.specs.Positions.{position_array};
ghost use Rattle.laws.specs.Units.{UnitSound};
ghost use Rattle.keys.specs.Key.{key_is};
ghost use Rattle.fnv.specs.Hashed.{bytes_of};

use geometry::Chip;
use keys::Key;

// What FNV-1a starts from.
const START: u32 = 2166136261;

// acc plus x shifted left by k, modulo 2^32.
fn add_shifted(acc: u32, x: u32, k: u32) -> u32
    requires { k < 32 }
    ensures { result ≡ (acc + x * 2 ^ k) % 2 ^ 32 }
{
    acc.wrapping_add(x << k)
}

// x times the prime 2^24 + 2^8 + 2^7 + 2^4 + 2 + 1, modulo 2^32, by wrapping adds and shifts.
pub fn times_prime(x: u32) -> u32
    ensures { result ≡ x * 16777619 % 2 ^ 32 }
{
    let a = add_shifted(x, x, 1);
    let b = add_shifted(a, x, 4);
    let c = add_shifted(b, x, 7);
    let d = add_shifted(c, x, 8);
    add_shifted(d, x, 24)
}

// One step of FNV-1a: exclusive-or with a byte, then times the prime.
pub fn absorb(h: u32, byte: u8) -> u32
    ensures { result ≡ bit_xor h byte * 16777619 % 2 ^ 32 }
{
    times_prime(h ^ u32::from(byte))
}

// FNV-1a of a slice.
pub fn fnv1a(bytes: &[u8]) -> u32
    ensures { result ≡ fnv1a bytes.now }
{
    let mut h = START;
    for byte in bytes {
        h = absorb(h, *byte);
    }
    h
}

// What is hashed behind j: the four bytes of a number. Made by two named functions, since `Hashed::from(j)` would be no plainer than
// `of_number(j)`, which says what is hashed.
#[derive(Clone, Copy)]
pub struct Hashed {
    pub number: u32,
}

// Of a key, its bytes.
pub fn of_key(key: Key) -> Hashed
    ensures { bytes_of result ≡ key_bytes (key_is key) }
{
    Hashed { number: key.level }
}

// Of a record number, its own.
pub fn of_number(j: u32) -> Hashed
    ensures { bytes_of result ≡ bytes4 j }
{
    Hashed { number: j }
}

// Hash j: FNV-1a over five bytes, j and then the number's four, lowest first.
pub fn hash(j: u8, x: Hashed) -> u32
    ensures { result ≡ fnv_family j (bytes_of x) }
{
    let [a, b, c, d] = x.number.to_le_bytes();
    fnv1a(&[j, a, b, c, d])
}

// The first bit of the fourth of a filter that a hash picks; a fourth has `size` bits.
fn fourth(size: u32, h: u32) -> u32
    requires { size ≤ 512 }
    ensures { (result ≡ h % 4 * size) × (result ≤ 3 * size) }
{
    h % 4 * size
}

// The bit that a hash picks in the fourth that starts at `base`; its size is a power of two, so that a mask does.
fn within(base: u32, size: u32, h: u32) -> u32
    requires { PowerOfTwo size × (size ≤ 512) × (base ≤ 3 * size) }
    ensures { (result ≡ base + h % size) × (result < 4 * size) }
{
    base + (h & (size - 1))
}

// The first bit of the fourth of a filter that has the positions: hash 0 picks it.
fn fourth_of(chip: Chip, x: Hashed) -> u32
    requires { UnitSound chip.unit }
    ensures { (result ≡ fnv_family 0 (bytes_of x) % 4 * sector chip.unit) × (result ≤ 3 * sector chip.unit) }
{
    let size = chip.sector_size() as u32;
    fourth(size, hash(0, x))
}

// Position i, in the fourth that starts at `start`.
fn position(chip: Chip, start: u32, i: usize, x: Hashed) -> u32
    requires { UnitSound chip.unit × (start ≤ 3 * sector chip.unit) × (i < 8) }
    ensures { (result ≡ start + fnv_family (i + 1) (bytes_of x) % sector chip.unit) × (result < filter_bits chip.unit) }
{
    let size = chip.sector_size() as u32;
    within(start, size, hash((i + 1) as u8, x))
}

// The `count` positions in a filter of 4S bits, (h0 mod 4) S + (hj mod S) for j = 1 to `count`, and zeros after them.
pub fn positions(chip: Chip, count: usize, x: Hashed) -> [u32; 8]
    requires { UnitSound chip.unit × (count ≤ 8) }
    ensures equal { result ≡ position_array fnv_family count chip.unit (bytes_of x) }
    ensures below { (i : ℕ) → i < count → slice_index result i < filter_bits chip.unit }
{
    let start = fourth_of(chip, x);
    let mut ps = [0u32; 8];
    for i in 0..count {
        ps[i] = position(chip, start, i, x);
    }
    ps
}
