// A field of a tab of levels, by its place in the lent bytes: a number, or a column's name in the header, quoted or not, and what ends it.
// Document 02, request 1; the grammar is in `specs/Grammar.antt`.
#![tactic(auto)]

pub mod reader;

ghost use Rattle.std.specs.Prelude.{◌≡◌, ◌<◌, drop, length};
ghost use Rattle.tab.specs.Reader.{decimal, word, name_of, bare, quoted, after, line_end, ends, field};
ghost use Rattle.tab.specs.Places.{place_in, field_in};

// A column of a tab.
#[derive(Clone, Copy)]
pub enum Column {
    Level,
    Moves,
    Goal,
}

// What was read: a number, 0 for a name, and the place after it.
#[derive(Clone, Copy)]
pub struct Field {
    pub value: u32,
    pub next: usize,
}

// ---- what ends a field

// The place after one given byte. (By index, here and below: `get` hands a pointer on in a pair, whose layout is the processor's.)
fn after_byte(tab: &[u8], at: usize, x: u8) -> Option<usize>
    ensures { place_in tab.now result ≡ after x (drop at tab.now) }
{
    if at < tab.len() && tab[at] == x {
        Some(at + 1)
    } else {
        None
    }
}

// The place after a line's end: LF, CRLF, or the end of the tab.
#[tactic(auto, unfolding(crate::specs::Reader::line_end))]
fn line_end(tab: &[u8], at: usize) -> Option<usize>
    ensures { place_in tab.now result ≡ line_end (drop at tab.now) }
{
    if at >= tab.len() {
        return Some(at);
    }
    match tab[at] {
        b'\n' => Some(at + 1),
        b'\r' => after_byte(tab, at + 1, b'\n'),
        _ => None,
    }
}

// The place after what ends a field of a column.
fn end_at(tab: &[u8], at: usize, c: Column) -> Option<usize>
    ensures { place_in tab.now result ≡ ends c (drop at tab.now) }
{
    match c {
        Column::Level | Column::Moves => after_byte(tab, at, b','),
        Column::Goal => line_end(tab, at),
    }
}

// ---- what stands in a field

// A decimal number. It stops where one digit more would be too many, so that no number has too many digits: leading zeros are free.
#[tactic(auto, using(crate::proofs::ReaderLaws::digits_more))]
fn decimal_at(tab: &[u8], at: usize) -> Option<Field>
    ensures { field_in tab.now result ≡ decimal (drop at tab.now) }
{
    let mut value: u32 = 0;
    let mut next = at;
    for c in tab.get(at..)? {
        if !c.is_ascii_digit() {
            break;
        }
        value = value
            .checked_mul(10)?
            .checked_add(text::digit_value(*c) as u32)?;
        next += 1;
    }
    (next > at).then_some(Field { value, next })
}

// A word, of one byte at least.
fn word_at(tab: &[u8], at: usize, w: &[u8]) -> Option<Field>
    requires { 0 < length w.now }
    ensures { field_in tab.now result ≡ word w.now (drop at tab.now) }
{
    let rest = tab.get(at..)?.strip_prefix(w)?;
    Some(Field {
        value: 0,
        next: tab.len() - rest.len(),
    })
}

// A column's name in the tab. (Not by a function that gives the name: of its answers the compiler makes a table of addresses, and the
// library for C has no data.)
fn name_at(tab: &[u8], at: usize, c: Column) -> Option<Field>
    ensures { field_in tab.now result ≡ word (name_of c) (drop at tab.now) }
{
    match c {
        Column::Level => word_at(tab, at, b"level"),
        Column::Moves => word_at(tab, at, b"moves"),
        Column::Goal => word_at(tab, at, b"goal"),
    }
}

// A column's name in the header, a number in a row.
#[tactic(auto, unfolding(crate::specs::Reader::bare))]
fn bare_at(tab: &[u8], at: usize, c: Column, header: bool) -> Option<Field>
    ensures { field_in tab.now result ≡ bare header c (drop at tab.now) }
{
    if header {
        name_at(tab, at, c)
    } else {
        decimal_at(tab, at)
    }
}

// A name or a number, quoted or not. It is read at one place for both, so that the compiler makes one copy of it.
#[tactic(auto, unfolding(crate::specs::Reader::quoted))]
fn content_at(tab: &[u8], at: usize, c: Column, header: bool) -> Option<Field>
    ensures { field_in tab.now result ≡ quoted (bare header c) (drop at tab.now) }
{
    let quoted = at < tab.len() && tab[at] == b'"';
    let start = if quoted { at + 1 } else { at };
    let content = bare_at(tab, start, c, header)?;
    if !quoted {
        return Some(content);
    }
    let end = after_byte(tab, content.next, b'"')?;
    Some(Field {
        value: content.value,
        next: end,
    })
}

// A field and what ends it.
#[tactic(auto, unfolding(crate::specs::Reader::field))]
pub fn field_at(tab: &[u8], at: usize, c: Column, header: bool) -> Option<Field>
    ensures { field_in tab.now result ≡ field header c (drop at tab.now) }
{
    let content = content_at(tab, at, c, header)?;
    let next = end_at(tab, content.next, c)?;
    Some(Field {
        value: content.value,
        next,
    })
}
