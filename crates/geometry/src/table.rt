// The table of sector sizes. Document 01, "S takes one row of this table".
ghost use Rattle.std.specs.Prelude.{◌≡◌, ◌<◌, IfSome};
ghost use Rattle.geometry.specs.Rows.{row_of, row_with, Ruled};

// A sector size in bytes, with the records and entries of a page and the bits of a filter; in one word, since a volume carries it.
#[derive(Clone, Copy)]
pub struct SizeRow {
    pub sector: u16,
    pub records: u16,
    pub entries: u16,
    pub bits: u16,
}

const ROWS: [SizeRow; 6] = [
    SizeRow {
        sector: 16,
        records: 4,
        entries: 8,
        bits: 64,
    },
    SizeRow {
        sector: 32,
        records: 8,
        entries: 16,
        bits: 128,
    },
    SizeRow {
        sector: 64,
        records: 16,
        entries: 32,
        bits: 256,
    },
    SizeRow {
        sector: 128,
        records: 32,
        entries: 64,
        bits: 512,
    },
    SizeRow {
        sector: 256,
        records: 64,
        entries: 128,
        bits: 1024,
    },
    SizeRow {
        sector: 512,
        records: 128,
        entries: 256,
        bits: 2048,
    },
];

// The table's row of this number, from 0 on.
pub fn row_at(i: usize) -> SizeRow
    requires { i < 6 }
    ensures equal { result ≡ row_of i }
    ensures ruled { Ruled result }
{
    ROWS[i]
}

// The row of a sector size, if it is one of the table's.
pub fn row_with(sector: u32) -> Option<SizeRow>
    ensures equal { result ≡ row_with sector }
    ensures ruled { IfSome result Ruled }
{
    for row in ROWS {
        if u32::from(row.sector) == sector {
            return Some(row);
        }
    }
    None
}
