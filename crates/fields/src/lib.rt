// Fields of bits taken out of a row of bytes, one after another, a run of bytes at a time.
#![tactic(auto)]

ghost use Rattle.std.specs.Prelude.{◌≡◌, ℕ, ◌+◌, ◌*◌, ◌^◌, ◌<◌, ◌≤◌, length};
ghost use Rattle.memory.specs.Lists.{tabulate};
ghost use Rattle.fields.specs.Sources.{field_byte, run_byte, Aligned, Near, Whole, Size, Reaches, Run, Runs};
ghost use Rattle.fields.specs.Halves.{Narrow, Half};
ghost use Rattle.fields.specs.Columns.{Column, Split, column_byte};

use words::bits;

// Fields in a row: the row's first byte, bits from a field to the next, first bit taken of each. How many are taken, each call says.
#[derive(Clone, Copy)]
pub struct Source {
    pub at: usize,
    pub step: usize,
    pub low: usize,
}

// ---- fields next to one another: the source's own bytes

fn copy_run(bytes: &[u8], s: Source, w: usize, y: usize, out: &mut [u8])
    requires { Aligned s w × (s.step ≡ w) × (0 < length out.old) × Run (length bytes.now) s w y (length out.old) }
    ensures { out.new ≡ tabulate (length out.old) (λ (i : ℕ). field_byte bytes.now s w (y + i)) }
{
    let a = s.at + y;
    words::copy(out, &bytes[a..a + out.len()]);
}

// ---- fields of whole bytes: runs of them

// Runs of N bytes, `stride` bytes from one to the next, the first from byte `at` on: bytes from their byte y on, where a run begins.
fn whole_runs<const N: usize>(bytes: &[u8], at: usize, stride: usize, y: usize, out: &mut [u8])
    requires runs { (0 < N) × (0 < length out.old) × Runs (length bytes.now) at stride N y (length out.old) }
    requires whole { Whole N y × Whole N (length out.old) }
    ensures { out.new ≡ tabulate (length out.old) (λ (i : ℕ). run_byte bytes.now at stride N (y + i)) }
{
    let first = at + y / N * stride;
    for k in 0..out.len() / N {
        let i = k * N;
        let a = first + k * stride;
        words::copy_few(&mut out[i..i + N], &bytes[a..a + N]);
    }
}

// The same by a size that is known when it runs: the compiler copies a run of a known size in one or two moves.
fn copy_runs(bytes: &[u8], at: usize, stride: usize, n: usize, y: usize, out: &mut [u8])
    requires size { Size n × (0 < length out.old) × Runs (length bytes.now) at stride n y (length out.old) }
    requires whole { Whole n y × Whole n (length out.old) }
    ensures { out.new ≡ tabulate (length out.old) (λ (i : ℕ). run_byte bytes.now at stride n (y + i)) }
{
    match n {
        1 => whole_runs::<1>(bytes, at, stride, y, out),
        2 => whole_runs::<2>(bytes, at, stride, y, out),
        4 => whole_runs::<4>(bytes, at, stride, y, out),
        8 => whole_runs::<8>(bytes, at, stride, y, out),
        _ => whole_runs::<16>(bytes, at, stride, y, out),
    }
}

fn wide_run(bytes: &[u8], s: Source, w: usize, y: usize, out: &mut [u8])
    requires aligned { Aligned s w × (8 ≤ w) × (0 < length out.old) × Run (length bytes.now) s w y (length out.old) }
    requires whole { Whole w (8 * y) × Whole w (8 * length out.old) }
    ensures { out.new ≡ tabulate (length out.old) (λ (i : ℕ). field_byte bytes.now s w (y + i)) }
{
    let at = s.at + s.low / 8;
    copy_runs(bytes, at, s.step / 8, w / 8, y, out);
}

// ---- every other field, several to a byte: two bytes make one

// The even fields of w bits of a byte, put together.
fn even_fields(x: u8, w: usize) -> u8
    requires { Narrow w }
    ensures { Half w x result }
{
    match w {
        1 => {
            let a = x & 0x55;
            let b = (a | (a >> 1)) & 0x33;
            (b | (b >> 2)) & 0x0f
        }
        2 => {
            let a = x & 0x33;
            (a | (a >> 2)) & 0x0f
        }
        _ => x & 0x0f,
    }
}

// Both bytes are read as one number: the compiler then takes eight pairs at a time.
fn halved_byte(bytes: &[u8], s: Source, w: usize, y: usize) -> u8
    requires { Aligned s w × Reaches (length bytes.now) s w y × (w < 8) × (s.step ≡ 2 * w) }
    ensures { result ≡ field_byte bytes.now s w y }
{
    let a = s.at + 2 * y;
    let x = u16::from_le_bytes([bytes[a], bytes[a + 1]]) >> s.low;
    let lo = even_fields((x % 256) as u8, w);
    let hi = even_fields((x / 256) as u8, w);
    hi * 16 + lo
}

// The compiler makes of it a loop for each width, so that no turn tests it.
fn halve_run(bytes: &[u8], s: Source, w: usize, y: usize, out: &mut [u8])
    requires { Aligned s w × (w < 8) × (s.step ≡ 2 * w) × Run (length bytes.now) s w y (length out.old) }
    ensures { out.new ≡ tabulate (length out.old) (λ (i : ℕ). field_byte bytes.now s w (y + i)) }
{
    for i in 0..out.len() {
        out[i] = halved_byte(bytes, s, w, y + i);
    }
}

// ---- one byte of each of 128 rows: the fields of w bits that it has, one after another for each

// A byte of each of eight rows `stride` bytes apart.
fn column(bytes: &[u8], a: usize, stride: usize) -> u64
    requires { a + 7 * stride < length bytes.now }
    ensures { Column bytes.now a stride result }
{
    u64::from_le_bytes([
        bytes[a],
        bytes[a + stride],
        bytes[a + 2 * stride],
        bytes[a + 3 * stride],
        bytes[a + 4 * stride],
        bytes[a + 5 * stride],
        bytes[a + 6 * stride],
        bytes[a + 7 * stride],
    ])
}

// The first w bits of each byte, then the second ones, and so on.
fn split(x: u64, w: usize) -> u64
    requires { Narrow w }
    ensures { Split w x result }
{
    match w {
        1 => {
            let a = bits::exchanged(x, 7, 0x00aa00aa00aa00aa);
            let b = bits::exchanged(a, 14, 0x0000cccc0000cccc);
            bits::exchanged(b, 28, 0x00000000f0f0f0f0)
        }
        2 => {
            let a = bits::exchanged(x, 12, 0x0000f0f00000f0f0);
            let b = bits::exchanged(a, 6, 0x00cc00cc00cc00cc);
            let c = bits::exchanged(b, 16, 0x00000000ffff0000);
            bits::exchanged(c, 8, 0x0000ff000000ff00)
        }
        _ => {
            let a = bits::exchanged(x, 4, 0x00f000f000f000f0);
            let b = bits::exchanged(a, 8, 0x0000ff000000ff00);
            bits::exchanged(b, 16, 0x00000000ffff0000)
        }
    }
}

// Of a byte of each of 128 rows, the first from byte `at` on, `stride` bytes apart: eight rows at a time, split by w bits.
pub fn columns(bytes: &[u8], at: usize, stride: usize, w: usize, out: &mut [u8])
    requires { Narrow w × (stride < 2 ^ 32) × (at + 127 * stride < length bytes.now) × (length out.old ≡ 128) }
    ensures { out.new ≡ tabulate 128 (column_byte bytes.now at stride w) }
{
    for i in 0..16 {
        let x = column(bytes, at + 8 * i * stride, stride);
        words::put64(out, 8 * i, split(x, w));
    }
}

// ---- any fields

// Bytes of the fields of a source, w bits of each, from byte y on, where a field begins. Of a field of less than a byte w bits are all or
// half.
pub fn field_run(bytes: &[u8], s: Source, w: usize, y: usize, out: &mut [u8])
    requires aligned { Aligned s w × Near s w × Run (length bytes.now) s w y (length out.old) }
    requires whole { Whole w (8 * y) × Whole w (8 * length out.old) }
    ensures { out.new ≡ tabulate (length out.old) (λ (i : ℕ). field_byte bytes.now s w (y + i)) }
{
    if out.is_empty() {
        return;
    }
    if s.step == w {
        copy_run(bytes, s, w, y, out);
    } else if w >= 8 {
        wide_run(bytes, s, w, y, out);
    } else {
        halve_run(bytes, s, w, y, out);
    }
}
