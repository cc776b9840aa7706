// The reader of a script's lines; the writer of their answers is `answers`. Document 01, "Replay program"; the definitions of the
// replay program are in `specs`.
#![tactic(auto)]

pub mod answers;

ghost use Rattle.std.specs.Prelude.{◌≡◌};
ghost use Rattle.std.proofs.Math.Option.{some};
ghost use Rattle.text.specs.Text.{digits_from};
ghost use Rattle.script.specs.Lines.{small, number, one_number, two_numbers, three_numbers, command};
ghost use Rattle.script.specs.Values.{number_of, command_of};

// What a line asks for.
#[derive(Clone, Copy)]
pub enum Command {
    Format(u32, u32, u32),
    Insert(u32, u32),
    Update(u32, u32),
    Delete(u32),
    Lookup(u32),
}

// ---- numbers

// The value of a word of digits, if it is below 2^32. It stops at 2^32, so that no word is too long.
#[tactic(auto, using(crate::specs::ReadNumber::digits_more))]
fn read_digits(word: &[u8]) -> Option<u32>
    ensures { number_of result ≡ small (digits_from 0 word.now) }
{
    let mut value: u32 = 0;
    for c in word {
        if !c.is_ascii_digit() {
            return None;
        }
        value = value
            .checked_mul(10)?
            .checked_add(text::digit_value(*c) as u32)?;
    }
    Some(value)
}

// A word as a number: digits, below 2^32, without leading zeros.
fn read_number(word: &[u8]) -> Option<u32>
    ensures { number_of result ≡ number word.now }
{
    match word {
        [] => None,
        [_] => read_digits(word),
        [b'0', ..] => None,
        _ => read_digits(word),
    }
}

// ---- commands

// `d key` and `l key`.
fn one_number(letter: u8, key: u32) -> Option<Command>
    ensures { command_of result ≡ one_number letter (some key) }
{
    match letter {
        b'd' => Some(Command::Delete(key)),
        b'l' => Some(Command::Lookup(key)),
        _ => None,
    }
}

// `i key moves` and `u key moves`.
fn two_numbers(letter: u8, key: u32, moves: u32) -> Option<Command>
    ensures { command_of result ≡ two_numbers letter (some key) (some moves) }
{
    match letter {
        b'i' => Some(Command::Insert(key, moves)),
        b'u' => Some(Command::Update(key, moves)),
        _ => None,
    }
}

// `f S R D`.
fn three_numbers(letter: u8, s: u32, r: u32, d: u32) -> Option<Command>
    ensures { command_of result ≡ three_numbers letter (some s) (some r) (some d) }
{
    match letter {
        b'f' => Some(Command::Format(s, r, d)),
        _ => None,
    }
}

// A letter and up to three numbers, between single spaces; any other line asks for nothing.
pub fn parse_line(line: &[u8]) -> Option<Command>
    ensures { command_of result ≡ command line.now }
{
    let mut words = line.split(|c| *c == b' ');
    let [letter] = words.next()? else {
        return None;
    };
    let x = read_number(words.next()?)?;
    let Some(second) = words.next() else {
        return one_number(*letter, x);
    };
    let y = read_number(second)?;
    let Some(third) = words.next() else {
        return two_numbers(*letter, x, y);
    };
    let z = read_number(third)?;
    if words.next().is_some() {
        return None;
    }
    three_numbers(*letter, x, y, z)
}
