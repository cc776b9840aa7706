// Hashes test vectors. Each line of the input has some bytes in hexadecimal, `-` for none, and then
// a published hash; a line that starts with `#` is a comment. Each vector is answered by a line with
// its bytes and their FNV-1a: that is the line that was read, where the hash is as published.
// A line that is longer than 600 bytes is cut.
#![tactic(auto)]

ghost use Rattle.std.specs.Prelude.{◌*◌, ◌<◌, ◌≤◌, length};

use std::io::Read;

// The longest line that is not cut, and the most bytes that its digits make.
const LINE: usize = 600;

const BYTES: usize = LINE / 2;

// The line that is being read: its first `filled` bytes.
#[derive(Clone, Copy)]
struct Line {
    bytes: [u8; LINE],
    filled: usize,
    ghost within: { filled ≤ length bytes },
}

impl Line {
    // A line of which nothing is read yet.
    fn new() -> Line {
        Line {
            bytes: [0; LINE],
            filled: 0,
        }
    }

    // One byte more; a byte that finds no room is cut.
    fn push(&mut self, b: u8) {
        if self.filled < LINE {
            self.bytes[self.filled] = b;
            self.filled += 1;
        }
    }

    // The next line begins.
    fn clear(&mut self) {
        self.filled = 0;
    }

    // What is read of the line.
    fn text(&self) -> &[u8] {
        &self.bytes[..self.filled]
    }
}

// The value of a hexadecimal digit; of any other byte 0.
fn digit(c: u8) -> u8
    ensures { result < 16 }
{
    match c {
        b'0'..=b'9' => c - b'0',
        b'a'..=b'f' => c - b'a' + 10,
        _ => 0,
    }
}

// The byte that two digits make.
fn byte_of(high: u8, low: u8) -> u8 {
    digit(high) * 16 + digit(low)
}

// How many pairs of digits a text has, up to `most`. The text `-` has none.
fn pairs(text: &[u8], most: usize) -> usize
    ensures { (result ≤ most) × (result * 2 ≤ length text.now) }
{
    (text.len() / 2).min(most)
}

// Puts the bytes that a text gives in hexadecimal at the start of `out`, and answers how many there
// are.
fn decode(text: &[u8], out: &mut [u8]) -> usize
    ensures { result ≤ length out.new }
{
    let n = pairs(text, out.len());
    for (i, b) in out[..n].iter_mut().enumerate() {
        *b = byte_of(text[i * 2], text[i * 2 + 1]);
    }
    n
}

// A line's first word.
fn first_word(line: &[u8]) -> &[u8] {
    match line.iter().position(|c| *c == b' ') {
        Some(n) => &line[..n],
        None => line,
    }
}

// Writes a vector's bytes, as they were read, and their hash in eight digits. A write that fails is passed over.
fn answer(rt: &impl Print, text: &[u8]) {
    let mut bytes = [0u8; BYTES];
    let n = decode(text, &mut bytes);
    let h = fnv::fnv1a(&bytes[..n]);
    let _ = rt.write_all(text);
    let _ = println!(rt; " {h:08x}");
}

// Answers a line that has a vector: neither an empty line nor a comment.
fn handle(rt: &impl Print, line: &[u8]) {
    match line.first() {
        None | Some(b'#') => {}
        Some(_) => answer(rt, first_word(line)),
    }
}

// The bytes of a chunk go into the line; each whole line is handled.
fn feed(rt: &impl Print, chunk: &[u8], line: &mut Line) {
    for b in chunk {
        if *b == b'\n' {
            handle(rt, line.text());
            line.clear();
        } else {
            line.push(*b);
        }
    }
}

// Reads to the end of the input. A proved loop ends, so it counts its reads up to a number that no
// run uses up.
fn main(rt: HostRuntime) {
    let mut input = rt.reader();
    let mut line = Line::new();
    let mut chunk = [0u8; 4096];
    for _ in 0..u64::MAX {
        let n = input.read(&mut chunk).unwrap_or(0);
        if n == 0 {
            break;
        }
        feed(&rt, &chunk[..n], &mut line);
    }
    handle(&rt, line.text());
}
