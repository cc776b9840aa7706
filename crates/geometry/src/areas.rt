// Areas that grow at their end, and the places of their items. Document 01, "Records, entries, deletions".
ghost use Rattle.std.specs.Prelude.{◌≡◌, ◌*◌, ◌/◌, ◌%◌, ◌<◌};
ghost use Rattle.memory.specs.Power.{PowerOfTwo};
ghost use Rattle.layout.specs.Items as layout;
ghost use Rattle.layout.specs.Items.{Ra, KA, DA, item_place};
ghost use Rattle.geometry.specs.Shape.{shape, area, place};

pub use crate::Area;
use crate::Geometry;

// Bytes of a number.
pub const WORD_SIZE: usize = 4;

// Bytes of a record, of an entry and of a deletion.
pub const RECORD_SIZE: usize = 16;

pub const ENTRY_SIZE: usize = 8;

pub const DELETION_SIZE: usize = 4;

// Where a record's moves lie behind its key, and an entry's number behind its key.
pub const MOVES_AT: usize = WORD_SIZE;

pub const NUMBER_AT: usize = WORD_SIZE;

// ---- pages of items, whose number is a power of two, so that a mask does for a division

// The place of item n in its page.
pub fn slot(per_page: usize, n: usize) -> usize
    requires { PowerOfTwo per_page }
    ensures { (result ≡ n % per_page) × (result < per_page) }
{
    n & (per_page - 1)
}

// Those of n items that lie in full pages.
pub fn in_full_pages(per_page: usize, n: usize) -> usize
    requires { PowerOfTwo per_page }
    ensures { result ≡ n / per_page * per_page }
{
    n - slot(per_page, n)
}

// ---- areas

impl Area {
    // Does item n fill its page.
    pub fn fills(self, n: usize) -> bool
        ensures { result ≡ layout.fills (area self) n }
    {
        let q = self.per_page;
        slot(q, n) + 1 == q
    }
}

// The areas of records, of entries and of deletions: document 01's form, a constructor function for each.
pub fn record_area(g: Geometry) -> Area
    ensures { area result ≡ Ra (shape g) }
{
    Area {
        size: RECORD_SIZE,
        per_page: g.records_per_page(),
        first: 0,
        ram: g.ra_ram(),
    }
}

pub fn entry_area(g: Geometry) -> Area
    ensures { area result ≡ KA (shape g) }
{
    Area {
        size: ENTRY_SIZE,
        per_page: g.entries_per_page(),
        first: g.ka_block(),
        ram: g.ka_ram(),
    }
}

pub fn deletion_area(g: Geometry) -> Area
    ensures { area result ≡ DA (shape g) }
{
    Area {
        size: DELETION_SIZE,
        per_page: g.deletions_per_page(),
        first: g.da_block(),
        ram: g.da_ram(),
    }
}

// A byte of the RAM or of the flash.
#[derive(Clone, Copy, PartialEq, Eq)]
pub enum Place {
    Ram(usize),
    Flash(usize),
}

// Where item j of n lies.
pub fn item_place(g: Geometry, a: Area, n: usize, j: usize) -> Place
    requires { (n < 4294967296) × (j < 4294967296) }
    ensures { place result ≡ item_place (shape g).u (area a) n j }
{
    if j < in_full_pages(a.per_page, n) {
        Place::Flash(g.chip.block_address(a.first) + j * a.size)
    } else {
        Place::Ram(a.ram + slot(a.per_page, j) * a.size)
    }
}
