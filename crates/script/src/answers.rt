// The writer of answers: an answer's line in decimal. Document 01, "Replay program".
ghost use Rattle.std.specs.Prelude.{◌≡◌, [], ◌∷◌, ◌++◌, ◌+◌, ◌≤◌, length};
ghost use Rattle.memory.specs.Lists.{write};
ghost use Rattle.text.specs.Text.{ascii};
ghost use Rattle.script.specs.Answers.{decimal, text};
ghost use Rattle.script.specs.Values.{answer_of};

// The answer to a line: n and d, a hit's moves and count, a miss's count, or a refusal's number.
#[derive(Clone, Copy)]
pub enum Answer {
    Ok(u32, u32),
    Hit(u32, u32),
    Miss(u32),
    No(u32),
    Bad,
}

// How many digits a number has in decimal.
fn digits_of(n: u32) -> usize
    ensures { result ≡ length (decimal n) }
{
    n.max(1).ilog10() as usize + 1
}

// Writes a number in decimal from `at` on; gives where it ends.
fn put_decimal(n: u32, at: usize, out: &mut [u8]) -> usize
    requires { at + 10 ≤ length out.old }
    ensures end { result ≡ at + length (decimal n) }
    ensures bytes { out.new ≡ write out.old at (decimal n) }
{
    let end = at + digits_of(n);
    let mut left = n;
    for i in (at..end).rev() {
        out[i] = (left % 10) as u8 + b'0';
        left /= 10;
    }
    end
}

// Writes a number and the byte that ends it from `at` on; gives where they end.
pub fn put_number(n: u32, terminator: u8, at: usize, out: &mut [u8]) -> usize
    requires { at + 11 ≤ length out.old }
    ensures end { (result ≡ at + length (decimal n ++ (terminator ∷ []))) × (result ≤ at + 11) }
    ensures bytes { out.new ≡ write out.old at (decimal n ++ (terminator ∷ [])) }
{
    let end = put_decimal(n, at, out);
    out[end] = terminator;
    end + 1
}

// Writes a word, a number and the byte that ends it at the start of `out`; gives where they end.
fn put_first(word: &[u8], n: u32, terminator: u8, out: &mut [u8]) -> usize
    requires { length word.now + 11 ≤ length out.old }
    ensures end { (result ≡ length (word.now ++ (decimal n ++ (terminator ∷ [])))) × (result ≤ length word.now + 11) }
    ensures bytes { out.new ≡ write out.old 0 (word.now ++ (decimal n ++ (terminator ∷ []))) }
{
    words::copy_at(out, 0, word);
    put_number(n, terminator, word.len(), out)
}

// Writes a word and two numbers as a line.
fn put_two(word: &[u8], n: u32, m: u32, out: &mut [u8]) -> usize
    requires { length word.now + 22 ≤ length out.old }
    ensures end { (result ≡ length (word.now ++ (decimal n ++ (ascii " " ++ (decimal m ++ ascii "\n")))))
        × (result ≤ length word.now + 22) }
    ensures bytes { out.new
        ≡ write out.old 0 (word.now ++ (decimal n ++ (ascii " " ++ (decimal m ++ ascii "\n")))) }
{
    let at = put_first(word, n, b' ', out);
    put_number(m, b'\n', at, out)
}

// Writes an answer's line at the start of `out`; gives its length.
pub fn put_answer(a: Answer, out: &mut [u8]) -> usize
    requires { 32 ≤ length out.old }
    ensures size { result ≡ length (text (answer_of a)) }
    ensures short { result ≤ 32 }
    ensures bytes { out.new ≡ write out.old 0 (text (answer_of a)) }
{
    match a {
        Answer::Ok(n, d) => put_two(b"ok ", n, d, out),
        Answer::Hit(moves, count) => put_two(b"hit ", moves, count, out),
        Answer::Miss(count) => put_first(b"miss ", count, b'\n', out),
        Answer::No(number) => put_first(b"no ", number, b'\n', out),
        Answer::Bad => {
            words::copy_at(out, 0, b"bad\n");
            4
        }
    }
}
