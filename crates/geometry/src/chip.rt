// A flash chip: sectors, pages and blocks, their sizes and their addresses. Document 01, "The chip and the desk".
ghost use Rattle.std.specs.Prelude.{◌≡◌, ◌*◌, ◌/◌, ◌^◌, ◌<◌, ◌≤◌};
ghost use Rattle.layout.specs.Geometry.{sectors_per_page, sectors_per_block, sector, page, block, entries_per_page, deletions_per_page};
ghost use Rattle.layout.specs.Geometry.{deletions_per_filter, filter_bits, fourth_size, side_blocks, index_blocks};

// A chip by its unit, a sixteenth of the sector size: up to 32. That of a volume is a power of two besides, which its geometry says.
#[derive(Clone, Copy)]
pub struct Chip {
    pub unit: usize,
    pub ghost small: { unit ≤ 32 },
}

// A chip by its unit, which is any number.
#[derive(Clone, Copy)]
pub struct AnyChip {
    pub unit: usize,
}

impl Chip {
    pub const SECTORS_PER_PAGE: usize = 4;

    pub const PAGES_PER_BLOCK: usize = 16;

    pub const SECTORS_PER_BLOCK: usize = Chip::PAGES_PER_BLOCK * Chip::SECTORS_PER_PAGE;

    // The chip with sectors of so many bytes, whatever their number: its unit, which may be one that no chip of the table has.
    pub fn with_sectors(size: usize) -> AnyChip
        ensures { result.unit ≡ size / 16 }
    {
        AnyChip { unit: size / 16 }
    }

    // ---- sizes in bytes

    pub fn sector_size(self) -> usize
        ensures { result ≡ sector self.unit }
    {
        16 * self.unit
    }

    pub fn page_size(self) -> usize
        ensures { result ≡ page self.unit }
    {
        Chip::SECTORS_PER_PAGE * self.sector_size()
    }

    pub fn block_size(self) -> usize
        ensures { result ≡ block self.unit }
    {
        Chip::PAGES_PER_BLOCK * self.page_size()
    }

    // ---- what a sector's size decides besides

    // Entries a page: S/2.
    pub fn entries_per_page(self) -> usize
        ensures { result ≡ entries_per_page self.unit }
    {
        self.sector_size() / 2
    }

    // Deletions a page: S.
    pub fn deletions_per_page(self) -> usize
        ensures { result ≡ deletions_per_page self.unit }
    {
        self.sector_size()
    }

    // Deletions of a filter, half a page of them: S/2.
    pub fn deletions_per_filter(self) -> usize
        ensures { result ≡ deletions_per_filter self.unit }
    {
        self.sector_size() / 2
    }

    // Bits of a filter: 4S.
    pub fn filter_bits(self) -> usize
        ensures { result ≡ filter_bits self.unit }
    {
        4 * self.sector_size()
    }

    // Bytes of a fourth of a filter: S/8.
    pub fn fourth_size(self) -> usize
        ensures { result ≡ fourth_size self.unit }
    {
        self.sector_size() / 8
    }

    // Blocks of a side, and of a full partition set: S/4.
    pub fn side_blocks(self) -> usize
        ensures { result ≡ side_blocks self.unit }
    {
        self.sector_size() / 4
    }

    // Blocks of an index with so many places for full sets: L1, both sides, the places.
    pub fn index_blocks(self, places: usize) -> usize
        requires { places * side_blocks self.unit ≤ 1024 }
        ensures { result ≡ index_blocks self.unit places }
    {
        let side = self.side_blocks();
        1 + 2 * side + places * side
    }

    // ---- addresses: the first byte of a sector, of a page and of a block

    pub fn sector_address(self, s: usize) -> usize
        requires { s * sector self.unit < 2 ^ 64 }
        ensures { result ≡ s * sector self.unit }
    {
        s * self.sector_size()
    }

    pub fn page_address(self, p: usize) -> usize
        requires { p * page self.unit < 2 ^ 64 }
        ensures { result ≡ p * page self.unit }
    {
        p * self.page_size()
    }

    pub fn block_address(self, b: usize) -> usize
        requires { b * block self.unit < 2 ^ 64 }
        ensures { result ≡ b * block self.unit }
    {
        b * self.block_size()
    }

    // ---- sectors

    // Sectors of so many pages.
    pub fn page_sectors(pages: usize) -> usize
        requires { pages * sectors_per_page < 2 ^ 64 }
        ensures { result ≡ pages * sectors_per_page }
    {
        pages * Chip::SECTORS_PER_PAGE
    }

    // The first sector of a block.
    pub fn first_sector(b: usize) -> usize
        requires { b * sectors_per_block < 2 ^ 64 }
        ensures { result ≡ b * sectors_per_block }
    {
        b * Chip::SECTORS_PER_BLOCK
    }
}
