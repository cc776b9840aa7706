// The RAM after a change: written once, after the chip. Nothing here touches the flash.
#![tactic(auto)]

ghost use Rattle.std.specs.Prelude.{◌≡◌, ◌+◌, ◌*◌, ◌%◌, ◌≤◌, length};
ghost use Rattle.layout.specs.Geometry.{sector, page, fourth_size, ram_size, work_ram};
ghost use Rattle.layout.specs.Items.{put, item_ram, zero_page};
ghost use Rattle.layout.specs.Index.{filters_per_flush, in_ska};
ghost use Rattle.geometry.specs.Shape.{shape, area};
ghost use Rattle.geometry.specs.Indexes.{index_of};
ghost use Rattle.filter.specs.Fourths.{with_fourths};
ghost use Rattle.kept.specs.Kept.{filters_kept, deletion_kept, record_kept, kept};
ghost use Rattle.kept.specs.Appended.{deletion_appended, record_appended, appended};

use geometry::sets::Index;
use geometry::{Area, Chip, Geometry, areas, sets};
use plan::{NewBytes, NewFilters};
use planning::Slots;

// dst becomes src, a word at a time: by `words::copy` alone it is slower, since the compiler doesn't see that the two lie apart.
fn copy_words(dst: &mut [u8], src: &[u8])
    requires { (length dst.old ≡ length src.now) × (length src.now % 4 ≡ 0) }
    ensures { dst.new ≡ src.now }
{
    for k in 0..src.len() / 4 {
        let i = 4 * k;
        let word = [src[i], src[i + 1], src[i + 2], src[i + 3]];
        words::copy(&mut dst[i..i + 4], &word);
    }
}

// Item n to its place.
fn append_item(a: Area, n: usize, item: &[u8], ram: &mut [u8])
    requires { (length item.now ≡ a.size) × (a.size % 4 ≡ 0) × (a.ram + a.per_page * a.size ≤ length ram.old) }
    ensures { ram.new ≡ put (area a) n item.now ram.old }
{
    let at = a.ram + areas::slot(a.per_page, n) * a.size;
    let end = at + item.len();
    copy_words(&mut ram[at..end], item);
}

// Item n to its place, or, where it fills its page, the page zeroed.
fn keep_item(chip: Chip, a: Area, n: usize, item: &[u8], ram: &mut [u8])
    requires page_size { a.per_page * a.size ≡ page chip.unit }
    requires item_len { (length item.now ≡ a.size) × (a.size % 4 ≡ 0) × (a.ram + page chip.unit ≤ length ram.old) }
    ensures { ram.new ≡ item_ram chip.unit (area a) n item.now ram.old }
{
    append_item(a, n, item, ram);
    if a.fills(n) {
        words::fill_at(ram, a.ram, chip.page_size(), 0);
    }
}

// The fourths of new filters, `piece` bytes in each sector of a page, from byte `at` of its first sector on.
fn put_fourths(chip: Chip, at: usize, piece: usize, fourths: &[u8], ram: &mut [u8])
    requires fourths_len { (4 * piece ≤ length fourths.now) × (piece ≤ sector chip.unit) }
    requires piece_in_bounds { at + 3 * sector chip.unit + piece ≤ length ram.old }
    ensures { ram.new ≡ with_fourths chip.unit piece at fourths.now ram.old }
{
    for i in 0..Chip::SECTORS_PER_PAGE {
        let lo = i * piece;
        let hi = lo + piece;
        words::copy_at(ram, at + chip.sector_address(i), &fourths[lo..hi]);
    }
}

// n new filters, the first of them number `first`: to their places in the SKA page, or, where they fill that page, the page zeroed.
fn keep_filters(chip: Chip, ix: Index, first: usize, n: usize, fourths: &[u8], ram: &mut [u8])
    requires filters_bound { (1 ≤ n) × (n ≤ 2) × (in_ska first + n ≤ filters_per_flush) }
    requires in_bounds { (4 * (n * fourth_size chip.unit) ≤ length fourths.now) × (ix.ska + page chip.unit ≤ length ram.old) }
    ensures { ram.new ≡ filters_kept chip.unit (index_of ix) first n fourths.now ram.old }
{
    let slot = first % sets::FILTERS_PER_FLUSH;
    let fourth = chip.fourth_size();
    put_fourths(chip, ix.ska + slot * fourth, n * fourth, fourths, ram);
    if sets::fills_ska(first + (n - 1)) {
        words::fill_at(ram, ix.ska, chip.page_size(), 0);
    }
}

// ---- the items of a change, out of its new bytes, and its new filters

// Deletion d, and both filters of the page that it fills.
fn keep_deletion(g: Geometry, d: usize, new: &NewBytes, filters: &NewFilters, ram: &mut [u8])
    requires { ram_size (shape g) ≤ length ram.old }
    ensures { ram.new ≡ deletion_kept (shape g) d new.now filters.now ram.old }
{
    let deletions = geometry::deletion_area(g);
    keep_item(g.chip, deletions, d, &new[0..plan::RECORD_AT], ram);
    if deletions.fills(d) {
        keep_filters(
            g.chip,
            sets::deletion_index(g),
            sets::deletion_filters(g, d),
            2,
            &filters[0..plan::ENTRY_FILTER_AT],
            ram,
        );
    }
}

// Record n and its entry, and the filter of the page that the entry fills.
fn keep_record(g: Geometry, n: usize, new: &NewBytes, filters: &NewFilters, ram: &mut [u8])
    requires { ram_size (shape g) ≤ length ram.old }
    ensures { ram.new ≡ record_kept (shape g) n new.now filters.now ram.old }
{
    let entries = geometry::entry_area(g);
    keep_item(
        g.chip,
        geometry::record_area(g),
        n,
        &new[plan::RECORD_AT..plan::ENTRY_AT],
        ram,
    );
    keep_item(
        g.chip,
        entries,
        n,
        &new[plan::ENTRY_AT..plan::NEW_SIZE],
        ram,
    );
    if entries.fills(n) {
        keep_filters(
            g.chip,
            sets::key_index(g),
            n / entries.per_page,
            1,
            &filters[plan::ENTRY_FILTER_AT..plan::FILTERS_SIZE],
            ram,
        );
    }
}

// ---- a change that fills no page

// Deletion d.
fn append_deletion(g: Geometry, d: usize, new: &NewBytes, ram: &mut [u8])
    requires { ram_size (shape g) ≤ length ram.old }
    ensures { ram.new ≡ deletion_appended (shape g) d new.now ram.old }
{
    append_item(geometry::deletion_area(g), d, &new[0..plan::RECORD_AT], ram);
}

// Record n, then its entry.
fn append_record(g: Geometry, n: usize, new: &NewBytes, ram: &mut [u8])
    requires { ram_size (shape g) ≤ length ram.old }
    ensures { ram.new ≡ record_appended (shape g) n new.now ram.old }
{
    let records = geometry::record_area(g);
    let entries = geometry::entry_area(g);
    append_item(records, n, &new[plan::RECORD_AT..plan::ENTRY_AT], ram);
    append_item(entries, n, &new[plan::ENTRY_AT..plan::NEW_SIZE], ram);
}

// ---- the RAM after a change

// The work page is zeroed.
fn clear_work(g: Geometry, ram: &mut [u8])
    requires { ram_size (shape g) ≤ length ram.old }
    ensures { ram.new ≡ zero_page g.chip.unit (work_ram g.chip.unit) ram.old }
{
    words::fill_at(ram, g.work_ram(), g.chip.page_size(), 0);
}

// The RAM after a change, once the chip has all of it.
pub fn finish(g: Geometry, e: Slots, new: &NewBytes, filters: &NewFilters, ram: &mut [u8])
    requires { ram_size (shape g) ≤ length ram.old }
    ensures { ram.new
        ≡ zero_page g.chip.unit (work_ram g.chip.unit) (kept (shape g) new.now filters.now ram.old e) }
{
    match e {
        Slots::Delete(d) => keep_deletion(g, d, new, filters, ram),
        Slots::Insert(n) => keep_record(g, n, new, filters, ram),
        Slots::Update(d, n) => {
            keep_deletion(g, d, new, filters, ram);
            keep_record(g, n, new, filters, ram);
        }
    }
    clear_work(g, ram);
}

// The RAM after a change that fills no page: the arms of `finish` with other calls in them, which closures would make no plainer.
pub fn append(g: Geometry, e: Slots, new: &NewBytes, ram: &mut [u8])
    requires { ram_size (shape g) ≤ length ram.old }
    ensures { ram.new
        ≡ zero_page g.chip.unit (work_ram g.chip.unit) (appended (shape g) new.now ram.old e) }
{
    match e {
        Slots::Delete(d) => append_deletion(g, d, new, ram),
        Slots::Insert(n) => append_record(g, n, new, ram),
        Slots::Update(d, n) => {
            append_deletion(g, d, new, ram);
            append_record(g, n, new, ram);
        }
    }
    clear_work(g, ram);
}
