// A script from standard input, its answers to standard output. What the bytes of the input do is in `stream`; here they are moved, in
// chunks, and nothing else. The lent bytes are parameters of their own, as in the calls that they go on to (`lines::answer_next`), so that
// each function's contract says what it leaves of each.
#![tactic(auto)]

mod stream;

ghost use Rattle.std.specs.Prelude.{◌≡◌, List, ℕ, ◌*◌, ◌≤◌, length, IfOk, IfSome};
ghost use Rattle.console.specs.Buffers.{close};
ghost use Rattle.console.specs.Contract.{buffers_of};
ghost use Rattle.console.specs.Stream.{leaves};
ghost use Rattle.console.specs.Chunks.{FeedsPrefix, no_state, unformatted, initial, feed_all, close_if, Short, Leaves};
ghost use Rattle.layout.specs.Flash.{flash_of};

use geometry::Sizes;
use state::State;
use std::io::{Eprint, Read};
use stream::Fill;

// "Before any format the state is all zero."
fn begin() -> Fill
    ensures equal { result ≡ record { state = no_state; fill = 0; printed = 0 } }
    ensures zeros { (result.fill ≡ 0) × (result.printed ≡ 0) }
{
    let sizes = Sizes {
        sector_size: 0,
        ra_blocks: 0,
        da_blocks: 0,
        hash_count: 0,
    };
    let state = State {
        sizes,
        records: 0,
        deletions: 0,
    };
    Fill {
        state,
        fill: 0,
        printed: 0,
    }
}

// Answers are written: those of a chunk, or the last. Nothing is left to be written then.
fn write_answers(rt: &impl Print, q: Fill, out: &[u8]) -> Result<Fill, &'static str>
    requires { q.printed ≤ length out.now }
    ensures { IfOk result (λ p. p ≡ record { state = q.state; fill = q.fill; printed = 0 }) }
{
    match rt.write_all(&out[..q.printed]) {
        Ok(()) => Ok(Fill { printed: 0, ..q }),
        Err(_) => Err("replay: cannot write the answers\n"),
    }
}

// The next chunk is read, its lines are answered, and the answers are written: what is kept after it, none at the input's end. Or why it
// could not be read or written.
fn next_chunk(
    rt: &impl Print,
    input: &mut impl Read,
    p: Fill,
    chunk: &mut [u8],
    line: &mut [u8],
    main: &mut [u8],
    spare: &mut [u8],
    ram: &mut [u8],
    out: &mut [u8],
) -> Result<Option<Fill>, &'static str>
    requires { (p.fill ≤ length line.old) × (p.printed ≡ 0) × (length chunk.old * 32 ≤ length out.old) }
    ensures within { IfOk result (λ o. IfSome o (λ q. (q.fill ≤ length line.old) × (q.printed ≡ 0))) }
    ensures prefix { FeedsPrefix result (buffers_of p line.old main.old spare.old ram.old out.old) chunk.new
        line.new main.new spare.new ram.new out.new }
{
    let Ok(n) = input.read(chunk) else {
        return Err("replay: cannot read the input\n");
    };
    if n == 0 {
        return Ok(None);
    }
    let q = stream::feed(p, &chunk[..n], line, main, spare, ram, out);
    let kept = write_answers(rt, q, out)?;
    Ok(Some(kept))
}

// The input's end.
fn finish(
    rt: &(impl Print + Eprint),
    p: Fill,
    line: &[u8],
    main: &mut [u8],
    spare: &mut [u8],
    ram: &mut [u8],
    out: &mut [u8],
)
    requires { (p.fill ≤ length line.now) × (p.printed ≡ 0) × (32 ≤ length out.old) }
    ensures { (flash_of main.new spare.new ≡ (close (buffers_of p line.now main.old spare.old ram.old out.old)).volume.flash)
        × (ram.new ≡ (close (buffers_of p line.now main.old spare.old ram.old out.old)).volume.ram)
        × (out.new ≡ (close (buffers_of p line.now main.old spare.old ram.old out.old)).out) }
{
    let q = stream::close(p, line, main, spare, ram, out);
    if let Err(reason) = write_answers(rt, q, out) {
        let _ = rt.eprint(reason);
    }
}

// The whole input; the answer is whether its end was reached. A proved loop ends, so it counts its chunks, up to a number that no run
// reaches.
pub fn run(
    rt: &(impl Input + Print + Eprint),
    chunk: &mut [u8],
    line: &mut [u8],
    main: &mut [u8],
    spare: &mut [u8],
    ram: &mut [u8],
    out: &mut [u8],
) -> bool
    requires { (length chunk.old * 32 ≤ length out.old) × (32 ≤ length out.old) }
    ensures chunks { (chunks : List (List ℕ)) × Short (length chunk.old) chunks
        × Leaves (close_if result (feed_all (initial line.old main.old spare.old ram.old out.old) chunks))
        line.new main.new spare.new ram.new out.new }
    ensures input { length line.old ≡ 64 → ((input : List ℕ)
        × (flash_of main.new spare.new ≡ (leaves result (unformatted main.old spare.old ram.old) input).flash)
        × (ram.new ≡ (leaves result (unformatted main.old spare.old ram.old) input).ram)) }
{
    let mut input = rt.reader();
    let mut p = begin();
    'chunks: for _ in 0..u64::MAX {
        let kept = match next_chunk(rt, &mut input, p, chunk, line, main, spare, ram, out) {
            Ok(kept) => kept,
            Err(reason) => {
                let _ = rt.eprint(reason);
                return false;
            }
        };
        let Some(next) = kept else {
            break;
        };
        p = next;
    }
    finish(rt, p, line, main, spare, ram, out);
    true
}
