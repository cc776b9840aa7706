// The search for a key: the entries past the last full page, newest first, then full pages, newest first, a page
// being opened only if its filter has all bits of the key's positions. Document 01, "Calls"; document 02, §5.
#![tactic(auto)]

ghost use Rattle.std.specs.Prelude.{◌≡◌, ◌+◌, ◌*◌, ◌/◌, ◌%◌, ◌≤◌, ◌<◌, length, take};
ghost use Rattle.memory.specs.Words.{word};
ghost use Rattle.layout.specs.Keys.{word_size, number_in};
ghost use Rattle.layout.specs.Geometry.{entries_per_page};
ghost use Rattle.layout.specs.Items.{entry_size};
ghost use Rattle.layout.specs.Hash.{fnv_family};
ghost use Rattle.layout.specs.Calls.{search_at, da_pages_at};
ghost use Rattle.layout.specs.Search.{scan, scan_cost, unless_ended};
ghost use Rattle.laws.specs.Walks.{onward, Low};
ghost use Rattle.geometry.specs.Shape.{shape};
ghost use Rattle.keys.specs.Key.{key_is};
ghost use Rattle.search.specs.Find.{stop_of, found_of, whole, viewed, ViewFits, try_of, cost_of, try_in, cost_in};
ghost use Rattle.search.specs.Find.{pages_below, cost_below, filters_of, deletions_of};
ghost use Rattle.search.specs.Tries.{page_start, PagesIn, OpenedAt, TriedAt};

use deletions::Deletions;
use filter::Filters;
use geometry::{Geometry, areas, sets};
use kernels::ones::Ones;
use keys::Key;

// What is searched: of the n records and d deletions of a volume the first n0 and the first d0. Where they lie goes by n and d. Without the
// two lent slices, which go on by themselves to `items`, `filter` and `deletions`: each function would take a struct of all three apart.
#[derive(Clone, Copy)]
pub struct View {
    pub g: Geometry,
    pub n: usize,
    pub d: usize,
    pub n0: usize,
    pub d0: usize,
}

// All of them.
pub fn all(g: Geometry, n: usize, d: usize) -> View
    ensures { result ≡ whole g n d }
{
    View {
        g,
        n,
        d,
        n0: n,
        d0: d,
    }
}

// Where a search ends: nowhere, at a live entry, with its record number, or at a number that is no record's.
// No Result, since the pages opened are told of each of the three: no `?` could hand one on, and `Nothing` says more than `Ok(None)`.
#[derive(Clone, Copy, Debug, PartialEq, Eq)]
pub enum End {
    Nothing,
    Live(u32),
    Corrupt,
}

// Where it ended, the pages of entries opened, and the pages of deletions opened.
#[derive(Clone, Copy)]
pub struct Found {
    pub end: End,
    pub opened: u32,
    pub da_pages: u64,
}

// ---- an entry

// The record number of entry k of those from byte `at` on.
fn number_at(at: usize, k: usize, s: &[u8]) -> u32
    requires { at + k * entry_size + entry_size ≤ length s.now }
    ensures { result ≡ number_in (word s.now (at + k * entry_size + word_size)) }
{
    keys::number_in(words::get32(s, at + k * areas::ENTRY_SIZE + areas::NUMBER_AT))
}

// The deletions that a record number is tested against. They are made for each test: a view handed on would be copied for each block.
fn deletions_of(v: View) -> Deletions
    ensures { result ≡ deletions_of v }
{
    Deletions {
        g: v.g,
        d: v.d,
        d0: v.d0,
    }
}

// ---- entries past the last full page

// The newest live one of `count` entries, which lie in `page` from byte `start` on. It opens no page.
fn in_page(
    v: View,
    key: Key,
    start: usize,
    count: usize,
    page: &[u8],
    main: &[u8],
    ram: &[u8],
) -> Found
    requires { ViewFits v main.now ram.now × (start + count * entry_size ≤ length page.now) × (count ≤ v.n0) }
    ensures end_value { stop_of result.end ≡ scan (try_in v main.now ram.now (key_is key) page.now start) 0 count }
    ensures opened { result.opened ≡ 0 }
    ensures pages { result.da_pages ≡ scan_cost (try_in v main.now ram.now (key_is key) page.now start)
        (cost_in v main.now ram.now (key_is key) page.now start) 0 count }
{
    let mut da_pages: u64 = 0;
    let mut e = items::find_entry(start, count, key, page);
    while let Some(k) = e {
        let j = number_at(start, k, page);
        if j as usize >= v.n0 {
            return Found {
                end: End::Corrupt,
                opened: 0,
                da_pages,
            };
        }
        let seen = deletions::test(deletions_of(v), j, main, ram);
        da_pages += seen.opened as u64;
        if !seen.met {
            return Found {
                end: End::Live(j),
                opened: 0,
                da_pages,
            };
        }
        e = items::find_entry(start, k, key, page);
    }
    Found {
        end: End::Nothing,
        opened: 0,
        da_pages,
    }
}

// The first byte of page p of the entries on flash.
fn page_start(g: Geometry, p: usize) -> usize
    requires { p ≤ 262144 }
    ensures { result ≡ page_start g p }
{
    g.chip.block_address(g.ka_block()) + g.chip.page_address(p)
}

// Those of the page that n0 records do not fill: in RAM, unless it has been filled since.
fn in_open(v: View, key: Key, main: &[u8], ram: &[u8]) -> Found
    requires { ViewFits v main.now ram.now }
    ensures end_value { stop_of result.end ≡ scan (try_of v main.now ram.now (key_is key))
        (v.n0 / entries_per_page v.g.chip.unit * entries_per_page v.g.chip.unit) (v.n0 % entries_per_page v.g.chip.unit) }
    ensures opened { result.opened ≡ 0 }
    ensures pages { result.da_pages
        ≡ scan_cost (try_of v main.now ram.now (key_is key)) (cost_of v main.now ram.now (key_is key))
        (v.n0 / entries_per_page v.g.chip.unit * entries_per_page v.g.chip.unit) (v.n0 % entries_per_page v.g.chip.unit) }
{
    let per_page = v.g.entries_per_page();
    let count = v.n0 % per_page;
    if v.n0 < v.n {
        let p = v.n0 / per_page;
        if p < v.n / per_page {
            return in_page(v, key, page_start(v.g, p), count, main, main, ram);
        }
    }
    in_page(v, key, v.g.ka_ram(), count, ram, main, ram)
}

// ---- full pages

// The filters of the volume's entries. What it shares with the one of `deletions` is the struct `Filters`.
fn key_filters(v: View) -> Filters
    ensures { result ≡ filters_of v }
{
    Filters {
        chip: v.g.chip,
        index: sets::key_index(v.g),
        count: v.n / v.g.entries_per_page(),
    }
}

// An entry with the key: its page, by its number or its first byte, and its place among the entries of the page.
#[derive(Clone, Copy)]
struct Hit {
    page: usize,
    entry: usize,
}

// What came of the pages of a word: the bits of those left, the pages opened, and the newest entry with the key of the page that has one.
#[derive(Clone, Copy)]
struct Opened {
    bits: u64,
    opened: u32,
    hit: Option<Hit>,
}

// The newest page with an entry of the key, of those from page `from` on whose bits are set, by its number among them; the pages before it
// are opened in vain. It is a function because its loop calls nothing that stays a call, and so keeps its values in registers.
fn next_page(g: Geometry, key: Key, from: usize, bits: u64, main: &[u8]) -> Opened
    requires { (from ≤ 32768) × PagesIn g from bits main.now }
    ensures { OpenedAt g (key_is key) from bits main.now result }
{
    let mut pages = Ones { left: bits };
    let mut opened: u32 = 0;
    // no `for`, which would hold the iterator whose bits are handed back
    while let Some(f) = pages.next() {
        opened += 1;
        if let Some(entry) = items::find_in_page(g.chip, page_start(g, from + f), key, main) {
            return Opened {
                bits: pages.left,
                opened,
                hit: Some(Hit { page: f, entry }),
            };
        }
    }
    Opened {
        bits: 0,
        opened,
        hit: None,
    }
}

// The same by its first byte: that is made again here, since the loop would have to keep it for each page.
fn next_with_key(g: Geometry, key: Key, from: usize, bits: u64, main: &[u8]) -> Opened
    requires { (from ≤ 32768) × PagesIn g from bits main.now }
    ensures { TriedAt g (key_is key) from bits main.now result }
{
    let p = next_page(g, key, from, bits, main);
    let Some(hit) = p.hit else {
        return p;
    };
    let page = page_start(g, from + hit.page);
    Opened {
        hit: Some(Hit { page, ..hit }),
        ..p
    }
}

// The full pages below page `below` whose filters are of one block, newest first, the entries of each that is opened, newest first, and the
// block's first page. A word of the block has 64 filters; words past the last filter are not looked at.
fn in_block(
    v: View,
    key: Key,
    ps: [u32; 8],
    count: usize,
    below: usize,
    main: &[u8],
    ram: &[u8],
) -> (Found, usize)
    requires view_fits { ViewFits v main.now ram.now × Low v.g.chip.unit count ps }
    requires below_nonzero { (0 < below) × (below ≤ v.n0 / entries_per_page v.g.chip.unit) }
    ensures start { result.1 < below }
    ensures found { pages_below v main.now ram.now (key_is key) (take count ps) below
        ≡ onward (stop_of result.0.end) result.0.opened (pages_below v main.now ram.now (key_is key) (take count ps) result.1) }
    ensures pages { cost_below v main.now ram.now (key_is key) (take count ps) below
        ≡ result.0.da_pages + unless_ended (stop_of result.0.end) (cost_below v main.now ram.now (key_is key) (take count ps) result.1) }
{
    let b = filter::block_below(key_filters(v), below, ps, count, main, ram);
    let mut end = End::Nothing;
    let mut opened: u32 = 0;
    let mut da_pages: u64 = 0;
    'filters: for w in (0..(below - b.start).div_ceil(64)).rev() {
        let from = b.start + w * 64;
        let mut bits = b.words[w];
        // a `while`: each call hands back the bits that are left
        'bits: while bits != 0 {
            let t = next_with_key(v.g, key, from, bits, main);
            bits = t.bits;
            opened += t.opened;
            let Some(hit) = t.hit else {
                continue;
            };
            let mut e = Some(hit.entry);
            'entries: while let Some(k) = e {
                let j = number_at(hit.page, k, main);
                if j as usize >= v.n0 {
                    end = End::Corrupt;
                    break 'filters;
                }
                let seen = deletions::test(deletions_of(v), j, main, ram);
                da_pages += seen.opened as u64;
                if !seen.met {
                    end = End::Live(j);
                    break 'filters;
                }
                e = items::find_entry(hit.page, k, key, main);
            }
        }
    }
    let found = Found {
        end,
        opened,
        da_pages,
    };
    (found, b.start)
}

// Full pages, a block of filters after another, the newest first, for any `count` positions, 1 to 8, by value as document 01 has them.
fn in_pages(v: View, key: Key, ps: [u32; 8], count: usize, main: &[u8], ram: &[u8]) -> Found
    requires { ViewFits v main.now ram.now × Low v.g.chip.unit count ps }
    ensures result_value { found_of result
        ≡ pages_below v main.now ram.now (key_is key) (take count ps) (v.n0 / entries_per_page v.g.chip.unit) }
    ensures pages { result.da_pages
        ≡ cost_below v main.now ram.now (key_is key) (take count ps) (v.n0 / entries_per_page v.g.chip.unit) }
{
    let mut opened: u32 = 0;
    let mut da_pages: u64 = 0;
    let mut below = v.n0 / v.g.entries_per_page();
    // a `while`, for its step is not one page but a block of filters, whose first page the block tells
    while below > 0 {
        let (f, first) = in_block(v, key, ps, count, below, main, ram);
        opened += f.opened;
        da_pages += f.da_pages;
        if f.end != End::Nothing {
            return Found {
                end: f.end,
                opened,
                da_pages,
            };
        }
        below = first;
    }
    Found {
        end: End::Nothing,
        opened,
        da_pages,
    }
}

// ---- all of it

pub fn search(v: View, key: Key, main: &[u8], ram: &[u8]) -> Found
    requires { ViewFits v main.now ram.now }
    ensures found { found_of result
        ≡ search_at fnv_family (shape v.g) (viewed v main.now ram.now) v.n0 v.d0 (key_is key) }
    ensures pages { result.da_pages
        ≡ da_pages_at fnv_family (shape v.g) (viewed v main.now ram.now) v.n0 v.d0 (key_is key) }
{
    let o = in_open(v, key, main, ram);
    if o.end != End::Nothing {
        return o;
    }
    if v.n0 < v.g.entries_per_page() {
        return o; // without a full page there is no filter, and the key is not hashed
    }
    let count = v.g.hashes;
    let ps = fnv::positions(v.g.chip, count, fnv::of_key(key));
    let f = in_pages(v, key, ps, count, main, ram);
    Found {
        da_pages: o.da_pages + f.da_pages,
        ..f
    }
}
