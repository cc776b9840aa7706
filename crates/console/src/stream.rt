// The input of the replay program, chunk by chunk: its bytes are put together to lines, and each line is answered. Document 01,
// "Replay program".
ghost use Rattle.std.specs.Prelude.{◌≡◌, [], ◌∷◌, cond, ◌+◌, ◌*◌, ◌≤◌, ltb, length};
ghost use Rattle.memory.specs.Lists.{write};
ghost use Rattle.console.specs.Buffers.{end_line, next_byte, feed, close};
ghost use Rattle.console.specs.Contract.{buffers_of};

use state::State;

// What is kept from one chunk to the next beside the buffers.
#[derive(Clone, Copy)]
pub struct Fill {
    pub state: State,
    pub fill: usize,
    pub printed: usize,
}

// A byte of a line is kept as long as the buffer has room. (Not by `get_mut`, whose contract does not say what the slice ends as.)
fn add_byte(c: u8, fill: usize, line: &mut [u8]) -> usize
    requires { fill ≤ length line.old }
    ensures equal { (result ≡ cond (ltb fill (length line.old)) (fill + 1) fill)
        × (line.new ≡ write line.old fill (c ∷ [])) }
    ensures within { result ≤ length line.old }
{
    if fill >= line.len() {
        return fill;
    }
    line[fill] = c;
    fill + 1
}

// A line's end: the line is answered behind what was printed.
fn end_line(
    p: Fill,
    line: &[u8],
    main: &mut [u8],
    spare: &mut [u8],
    ram: &mut [u8],
    out: &mut [u8],
) -> Fill
    requires { (p.fill ≤ length line.now) × (p.printed + 32 ≤ length out.old) }
    ensures equal { buffers_of result line.now main.new spare.new ram.new out.new
        ≡ end_line (buffers_of p line.now main.old spare.old ram.old out.old) }
    ensures within { (result.fill ≡ 0) × (result.printed ≤ p.printed + 32) }
{
    let at = p.printed;
    let reply = lines::answer_next(
        p.state,
        &line[..p.fill],
        main,
        spare,
        ram,
        &mut out[at..at + 32],
    );
    Fill {
        state: reply.state,
        fill: 0,
        printed: at + reply.length,
    }
}

// One byte of the input: a line feed ends the line, any other byte lengthens it.
fn next_byte(
    p: Fill,
    c: u8,
    line: &mut [u8],
    main: &mut [u8],
    spare: &mut [u8],
    ram: &mut [u8],
    out: &mut [u8],
) -> Fill
    requires { (p.fill ≤ length line.old) × (p.printed + 32 ≤ length out.old) }
    ensures equal { buffers_of result line.new main.new spare.new ram.new out.new
        ≡ next_byte (buffers_of p line.old main.old spare.old ram.old out.old) c }
    ensures within { (result.fill ≤ length line.old) × (result.printed ≤ p.printed + 32) }
{
    if c == b'\n' {
        return end_line(p, line, main, spare, ram, out);
    }
    Fill {
        fill: add_byte(c, p.fill, line),
        ..p
    }
}

// The bytes of a chunk, one after another: each line that ends is answered.
pub fn feed(
    p: Fill,
    chunk: &[u8],
    line: &mut [u8],
    main: &mut [u8],
    spare: &mut [u8],
    ram: &mut [u8],
    out: &mut [u8],
) -> Fill
    requires { (p.fill ≤ length line.old) × (p.printed + length chunk.now * 32 ≤ length out.old) }
    ensures equal { buffers_of result line.new main.new spare.new ram.new out.new
        ≡ feed (buffers_of p line.old main.old spare.old ram.old out.old) chunk.now }
    ensures within { (result.fill ≤ length line.old) × (result.printed ≤ length out.old) }
{
    let mut q = p;
    for c in chunk {
        q = next_byte(q, *c, line, main, spare, ram, out);
    }
    q
}

// The input's end: a line without its line feed is answered too.
pub fn close(
    p: Fill,
    line: &[u8],
    main: &mut [u8],
    spare: &mut [u8],
    ram: &mut [u8],
    out: &mut [u8],
) -> Fill
    requires { (p.fill ≤ length line.now) × (p.printed + 32 ≤ length out.old) }
    ensures equal { buffers_of result line.now main.new spare.new ram.new out.new
        ≡ close (buffers_of p line.now main.old spare.old ram.old out.old) }
    ensures within { result.printed ≤ length out.old }
{
    if p.fill == 0 {
        return p;
    }
    end_line(p, line, main, spare, ram, out)
}
