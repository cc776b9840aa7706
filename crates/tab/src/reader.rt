// A reader of a tab of levels: over the lent bytes, it goes on from field to field. Document 02, request 1. The functions over it are
// thin; they stand between a field's parser, crate `tab`, and the lines, whose functions have plain parameters.
ghost use Rattle.std.specs.Prelude.{◌≡◌, drop};
ghost use Rattle.tab.specs.Reader.{line, row, header};
ghost use Rattle.tab.specs.Places.{place_in};
ghost use Rattle.tab.specs.Lines.{ReadOn, line_in};

use crate::Column;

// The lent tab and the place of the next field.
#[derive(Drop)]
pub struct Reader<'a> {
    tab: &'a [u8],
    at: usize,
}

// The number of the next field, 0 in the header. The reader goes on to the place of the field after it.
fn field<'s, 'a>(r: &'s mut Reader<'a>, c: Column, header: bool) -> Option<u32>
    ensures { ReadOn r.old c header result r.new }
{
    let f = crate::field_at(r.tab, r.at, c, header)?;
    r.at = f.next;
    Some(f.value)
}

// ---- lines

// The numbers of a line, 0 in the header, and the place of the next line.
#[derive(Clone, Copy)]
pub struct Row {
    pub level: u32,
    pub moves: u32,
    pub goal: u32,
    pub next: usize,
}

// The line from a place on: its fields, in the order of the columns.
#[tactic(auto, unfolding(crate::specs::Reader::line))]
fn fields(tab: &[u8], at: usize, header: bool) -> Option<Row>
    ensures { line_in tab.now result ≡ line header (drop at tab.now) }
{
    let mut r = Reader { tab, at };
    let level = field(&mut r, Column::Level, header)?;
    let moves = field(&mut r, Column::Moves, header)?;
    let goal = field(&mut r, Column::Goal, header)?;
    Some(Row {
        level,
        moves,
        goal,
        next: r.at,
    })
}

// The row from a place on.
pub fn row_at(tab: &[u8], at: usize) -> Option<Row>
    ensures { line_in tab.now result ≡ row (drop at tab.now) }
{
    fields(tab, at, false)
}

// The place of the lines after the header of a tab.
pub fn header_at(tab: &[u8]) -> Option<usize>
    ensures { place_in tab.now result ≡ header tab.now }
{
    Some(fields(tab, 0, true)?.next)
}
