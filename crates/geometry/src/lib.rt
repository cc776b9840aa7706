// Volumes: their sizes, areas, addresses and the places of items.
#![tactic(auto)]

pub mod area;
pub mod areas;
pub mod chip;
pub mod index;
pub mod sets;
pub mod table;
pub mod volume;

ghost use Rattle.std.specs.Prelude.{◌≡◌};
ghost use Rattle.layout.specs.Geometry as layout;
ghost use Rattle.geometry.specs.Rows.{row_for};
ghost use Rattle.geometry.specs.Shape.{sizes_is, shape, rest_allowed, shaped_of};

pub use area::Area;
pub use areas::{Place, deletion_area, entry_area, item_place, record_area};
pub use chip::{AnyChip, Chip};
pub use table::SizeRow;
pub use volume::Geometry;

// ---- the shape of a volume

// What a format names: the sector size in bytes, the blocks of records and of deletions, the hash functions beside the first.
#[repr(C)]
#[derive(Clone, Copy)]
pub struct Sizes {
    pub sector_size: u32,
    pub ra_blocks: u32,
    pub da_blocks: u32,
    pub hash_count: u32,
}

// The hash functions of a volume whose format names none.
pub const DEFAULT_HASH_COUNT: u32 = 3;

impl Geometry {
    // The pages of the RAM by number: records, entries, deletions, filters of the entries, work, filters of the deletions.
    pub const RA_PAGE: usize = 0;

    pub const KA_PAGE: usize = 1;

    pub const DA_PAGE: usize = 2;

    pub const SKA_PAGE: usize = 3;

    pub const WORK_PAGE: usize = 4;

    pub const DELETION_SKA_PAGE: usize = 5;

    pub const RAM_PAGES: usize = 6;

    // ---- the table's columns

    pub fn records_per_page(self) -> usize
        ensures { result ≡ layout.records_per_page (shape self).u }
    {
        self.row.records as usize
    }

    pub fn entries_per_page(self) -> usize
        ensures { result ≡ layout.entries_per_page (shape self).u }
    {
        self.row.entries as usize
    }

    pub fn deletions_per_page(self) -> usize
        ensures { result ≡ layout.deletions_per_page (shape self).u }
    {
        self.chip.deletions_per_page()
    }

    pub fn filter_bits(self) -> usize
        ensures { result ≡ layout.filter_bits (shape self).u }
    {
        self.row.bits as usize
    }

    // ---- areas, in blocks

    pub fn ka_block(self) -> usize
        ensures { result ≡ layout.ka_block (shape self) }
    {
        self.ra
    }

    pub fn ka_blocks(self) -> usize
        ensures { result ≡ layout.ka_blocks (shape self) }
    {
        (self.ra + 1) / 2
    }

    pub fn da_block(self) -> usize
        ensures { result ≡ layout.da_block (shape self) }
    {
        self.ka_block() + self.ka_blocks()
    }

    pub fn index_block(self) -> usize
        ensures { result ≡ layout.index_block (shape self) }
    {
        self.da_block() + self.da
    }

    pub fn full_sets(self) -> usize
        ensures { result ≡ layout.full_sets (shape self) }
    {
        self.ra / self.filter_bits()
    }

    // The index over the deletions.
    pub fn deletion_index_block(self) -> usize
        ensures { result ≡ layout.deletion_index_block (shape self) }
    {
        let places = self.full_sets();
        self.index_block() + self.chip.index_blocks(places)
    }

    pub fn deletion_sets(self) -> usize
        ensures { result ≡ layout.deletion_sets (shape self) }
    {
        self.da / self.chip.sector_size()
    }

    // B.
    pub fn blocks(self) -> usize
        ensures { result ≡ layout.blocks (shape self) }
    {
        let places = self.deletion_sets();
        self.deletion_index_block() + self.chip.index_blocks(places)
    }

    // ---- capacities, and bytes of data, spare and RAM

    pub fn record_capacity(self) -> usize
        ensures { result ≡ layout.record_capacity (shape self) }
    {
        let ra = self.ra;
        let size = self.chip.sector_size();
        4 * ra * size
    }

    pub fn deletion_capacity(self) -> usize
        ensures { result ≡ layout.deletion_capacity (shape self) }
    {
        let da = self.da;
        let size = self.chip.sector_size();
        16 * da * size
    }

    pub fn main_size(self) -> usize
        ensures { result ≡ layout.main_size (shape self) }
    {
        self.chip.block_address(self.blocks())
    }

    pub fn spare_size(self) -> usize
        ensures { result ≡ layout.spare_size (shape self) }
    {
        Chip::first_sector(self.blocks())
    }

    pub fn ram_size(self) -> usize
        ensures { result ≡ layout.ram_size (shape self) }
    {
        self.chip.page_address(Geometry::RAM_PAGES)
    }

    // ---- first bytes of the RAM's pages, one function for each: document 01's form, constants of a geometry type by name

    pub fn ra_ram(self) -> usize
        ensures { result ≡ layout.ra_ram (shape self).u }
    {
        self.chip.page_address(Geometry::RA_PAGE)
    }

    pub fn ka_ram(self) -> usize
        ensures { result ≡ layout.ka_ram (shape self).u }
    {
        self.chip.page_address(Geometry::KA_PAGE)
    }

    pub fn da_ram(self) -> usize
        ensures { result ≡ layout.da_ram (shape self).u }
    {
        self.chip.page_address(Geometry::DA_PAGE)
    }

    pub fn ska_ram(self) -> usize
        ensures { result ≡ layout.ska_ram (shape self).u }
    {
        self.chip.page_address(Geometry::SKA_PAGE)
    }

    pub fn work_ram(self) -> usize
        ensures { result ≡ layout.work_ram (shape self).u }
    {
        self.chip.page_address(Geometry::WORK_PAGE)
    }

    pub fn deletion_ska_ram(self) -> usize
        ensures { result ≡ layout.deletion_ska_ram (shape self).u }
    {
        self.chip.page_address(Geometry::DELETION_SKA_PAGE)
    }
}

// ---- the geometry that sizes make

fn blocks_allowed(b: u32) -> bool
    ensures { result ≡ layout.blocks_allowed b }
{
    1 <= b && b <= 4096
}

fn hashes_allowed(k: u32) -> bool
    ensures { result ≡ layout.hashes_allowed k }
{
    1 <= k && k <= 8
}

// Are the areas' blocks and the hash functions allowed?
fn rest_allowed(sizes: Sizes) -> bool
    ensures { result ≡ rest_allowed (sizes_is sizes) }
{
    blocks_allowed(sizes.ra_blocks)
        && blocks_allowed(sizes.da_blocks)
        && hashes_allowed(sizes.hash_count)
}

// The geometry of these sizes, where they are allowed.
pub fn geometry_for(sizes: Sizes) -> Option<Geometry>
    ensures { result ≡ shaped_of (sizes_is sizes) }
{
    let row = table::row_with(sizes.sector_size)?;
    if !rest_allowed(sizes) {
        return None;
    }
    let chip = Chip::with_sectors(usize::from(row.sector));
    Some(Geometry {
        chip: Chip { unit: chip.unit },
        row,
        ra: sizes.ra_blocks as usize,
        da: sizes.da_blocks as usize,
        hashes: sizes.hash_count as usize,
    })
}
