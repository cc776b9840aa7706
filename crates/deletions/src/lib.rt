// The test of a record number: is it among the deletions. The numbers past the last full page come first, then full pages, newest first, a
// page being opened only if one of its two filters has all bits of the number's positions. Document 02, §5.
#![tactic(auto)]

ghost use Rattle.std.specs.Prelude.{◌≡◌, ◌/◌, ◌≤◌, ◌<◌, take};
ghost use Rattle.layout.specs.Geometry.{deletions_per_page};
ghost use Rattle.layout.specs.Hash.{fnv_family};
ghost use Rattle.layout.specs.Search.{search_pages};
ghost use Rattle.layout.specs.Calls.{test_deletion};
ghost use Rattle.laws.specs.Units.{UnitSound};
ghost use Rattle.laws.specs.Walks.{onward, Low};
ghost use Rattle.geometry.specs.Shape.{shape};
ghost use Rattle.deletions.specs.Test.{tested_of, held, DeletionsFit};
ghost use Rattle.deletions.specs.Walk.{test_stop, try_word, past_pages, test_below, either_bit, WordPagesIn, deletion_filters_of};

use filter::Filters;
use geometry::{Chip, Geometry, areas, sets};
use kernels::ones::Ones;

// Of the d deletions of a volume the first d0. Where they lie goes by d. Without the two lent slices, which go on by themselves to `items`
// and `filter`: each function would take a struct of all three apart.
#[derive(Clone, Copy)]
pub struct Deletions {
    pub g: Geometry,
    pub d: usize,
    pub d0: usize,
}

// Whether the number was met, and the pages opened.
#[derive(Clone, Copy)]
pub struct Tested {
    pub met: bool,
    pub opened: u32,
}

// ---- numbers past the last full page

// Those of the page that d0 deletions do not fill: in RAM, unless it has been filled since. Not generic with the one of `search`: there the
// items are entries with a key, each of which is tested, and here words, and no line but the choice of the slice is the same.
fn in_open(t: Deletions, j: u32, main: &[u8], ram: &[u8]) -> bool
    requires { DeletionsFit t main.now ram.now }
    ensures { test_stop j result ≡ past_pages t main.now ram.now j }
{
    let per_page = t.g.deletions_per_page();
    let count = areas::slot(per_page, t.d0);
    let full = t.d0 - count;
    if full < areas::in_full_pages(per_page, t.d) {
        let start = t.g.chip.block_address(t.g.da_block());
        return items::has_word(start + full * areas::DELETION_SIZE, count, j, main);
    }
    items::has_word(t.g.da_ram(), count, j, ram)
}

// ---- full pages

// The filters of the volume's deletions, two to a page. What it shares with the one of `search` is the struct `Filters`.
fn filters(t: Deletions) -> Filters
    ensures { result ≡ deletion_filters_of t }
{
    Filters {
        chip: t.g.chip,
        index: sets::deletion_index(t.g),
        count: sets::deletion_filters(t.g, t.d),
    }
}

// The pages of a word of filters, newest first; their bytes are from `start` on. It is a function because its loop calls nothing that stays
// a call in small pages, and so keeps its values in registers.
fn in_word(chip: Chip, start: usize, bits: u64, j: u32, main: &[u8]) -> Tested
    requires { UnitSound chip.unit × WordPagesIn chip.unit start bits main.now }
    ensures { tested_of j result
        ≡ search_pages (either_bit bits) (try_word main.now start j) (deletions_per_page chip.unit) 32 }
{
    let mut opened: u32 = 0;
    let left = kernels::pairs(bits);
    for f in (Ones { left }) {
        opened += 1;
        if items::page_has(chip, start + chip.page_address(f / 2), j, main) {
            return Tested { met: true, opened };
        }
    }
    Tested { met: false, opened }
}

// The full pages below page `below` whose filters are of one block, newest first, and the block's first page. A word of the block has the
// filters of 32 pages; words past the last filter are not looked at.
fn in_block(
    t: Deletions,
    j: u32,
    ps: [u32; 8],
    count: usize,
    below: usize,
    main: &[u8],
    ram: &[u8],
) -> (Tested, usize)
    requires deletions_fit { DeletionsFit t main.now ram.now × Low t.g.chip.unit count ps }
    requires below_nonzero { (0 < below) × (below ≤ t.d0 / deletions_per_page t.g.chip.unit) }
    ensures start { result.1 < below }
    ensures found { test_below t main.now ram.now j (take count ps) below
        ≡ onward (test_stop j result.0.met) result.0.opened (test_below t main.now ram.now j (take count ps) result.1) }
{
    let b = filter::block_below(filters(t), 2 * below, ps, count, main, ram);
    let first = b.start / 2;
    let start = t.g.chip.block_address(t.g.da_block());
    let mut opened: u32 = 0;
    for w in (0..(below - first).div_ceil(32)).rev() {
        let at = start + t.g.chip.page_address(first + w * 32);
        let r = in_word(t.g.chip, at, b.words[w], j, main);
        opened += r.opened;
        if r.met {
            return (Tested { met: true, opened }, first);
        }
    }
    (Tested { met: false, opened }, first)
}

// Full pages, a block of filters after another, the newest first, for any `count` positions, 1 to 8, by value as document 01 has them.
fn in_pages(t: Deletions, j: u32, ps: [u32; 8], count: usize, main: &[u8], ram: &[u8]) -> Tested
    requires { DeletionsFit t main.now ram.now × Low t.g.chip.unit count ps }
    ensures { tested_of j result
        ≡ test_below t main.now ram.now j (take count ps) (t.d0 / deletions_per_page t.g.chip.unit) }
{
    let mut opened: u32 = 0;
    let mut below = t.d0 / t.g.deletions_per_page();
    // a `while`, for its step is not one page but a block of filters, whose first page the block tells
    while below > 0 {
        let (r, first) = in_block(t, j, ps, count, below, main, ram);
        opened += r.opened;
        if r.met {
            return Tested { met: true, opened };
        }
        below = first;
    }
    Tested { met: false, opened }
}

// ---- all of it

// Is record number j among the first d0 deletions.
pub fn test(t: Deletions, j: u32, main: &[u8], ram: &[u8]) -> Tested
    requires { DeletionsFit t main.now ram.now }
    ensures { tested_of j result ≡ test_deletion fnv_family (shape t.g) (held t main.now ram.now) t.d0 j }
{
    if in_open(t, j, main, ram) {
        return Tested {
            met: true,
            opened: 0,
        };
    }
    if t.d0 < t.g.deletions_per_page() {
        return Tested {
            met: false,
            opened: 0,
        }; // without a full page there is no filter, and the number is not hashed
    }
    let count = t.g.hashes;
    let ps = fnv::positions(t.g.chip, count, fnv::of_number(j));
    in_pages(t, j, ps, count, main, ram)
}
