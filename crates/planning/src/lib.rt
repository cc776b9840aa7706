// The plan of a change, from the counts alone.
#![tactic(auto)]

ghost use Rattle.std.specs.Prelude.{◌≡◌, ◌<◌, ◌≤◌};
ghost use Rattle.layout.specs.Geometry.{record_capacity, deletion_capacity};
ghost use Rattle.layout.specs.Items as layout;
ghost use Rattle.layout.specs.Items.{Ra, KA, DA};
ghost use Rattle.layout.specs.Index.{in_l1, in_full};
ghost use Rattle.laws.specs.Units.{UnitSound};
ghost use Rattle.geometry.specs.Shape.{shape, area};
ghost use Rattle.planning.specs.Numbers.{none, page_of, no_summary, flush_segment, flush_summary, set_summary, summary_at};
ghost use Rattle.planning.specs.Numbers.{no_deletions, no_entries, deletion_summary, entry_summary};
ghost use Rattle.planning.specs.Numbers.{deletion_numbers, insertion_numbers, update_numbers};
ghost use Rattle.planning.specs.Edits.{Room, numbers_of, programs_in};

use geometry::sets::{Index, Set};
use geometry::{Area, Chip, Geometry, areas, sets};
use plan::{Plan, Segment, Summary};

// ---- segments

// No sectors, no blocks.
const NOTHING: Segment = Segment { first: 0, count: 0 };

// The page of item n; its sectors count where the item fills it.
fn page(a: Area, n: usize) -> Segment
    requires { n < 4294967296 }
    ensures { result ≡ page_of (area a) n }
{
    Segment {
        first: Chip::first_sector(a.first) + Chip::page_sectors(n / a.per_page),
        count: if a.fills(n) {
            Chip::SECTORS_PER_PAGE
        } else {
            0
        },
    }
}

// ---- what new filters add to an index of which `piece` bytes of each flushed sector are new

// Nothing.
fn no_summary(index: Index, piece: usize) -> Summary
    ensures { result ≡ no_summary 0 piece index }
{
    Summary {
        piece,
        flush: NOTHING,
        set: NOTHING,
        l1: NOTHING,
        old: NOTHING,
        next: Set {
            index,
            full_sets: 0,
            rounds: 0,
        },
    }
}

// The flush of a round that filter number `filters` makes.
fn flush_number(filters: usize) -> usize
    ensures { result ≡ in_l1 filters }
{
    filters / sets::FILTERS_PER_FLUSH % sets::FLUSHES_PER_ROUND
}

// Its sectors.
fn flush_segment(index: Index, filters: usize) -> Segment
    ensures { result ≡ flush_segment 0 0 index filters }
{
    Segment {
        first: Chip::first_sector(index.first) + flush_number(filters),
        count: Chip::SECTORS_PER_PAGE,
    }
}

// That flush alone.
fn flush_summary(index: Index, piece: usize, filters: usize) -> Summary
    ensures { result ≡ flush_summary 0 piece index filters }
{
    Summary {
        flush: flush_segment(index, filters),
        ..no_summary(index, piece)
    }
}

// With the set that it completes, and the erases.
fn set_summary(chip: Chip, index: Index, piece: usize, filters: usize) -> Summary
    requires { UnitSound chip.unit × (in_full chip.unit filters ≤ 1024) }
    ensures { result ≡ set_summary chip.unit piece index filters }
{
    let rounds = filters / sets::FILTERS_PER_FLUSH / sets::FLUSHES_PER_ROUND;
    let side = chip.side_blocks();
    let c = areas::slot(side, rounds);
    let next = Set {
        index,
        full_sets: rounds / side,
        rounds: c,
    };
    Summary {
        piece,
        flush: flush_segment(index, filters),
        set: Segment {
            first: Chip::first_sector(sets::set_block(chip, next)),
            count: Chip::page_sectors(sets::set_pages(c + 1)),
        },
        l1: Segment {
            first: index.first,
            count: 1,
        },
        old: Segment {
            first: sets::side_block(chip, index, c),
            count: sets::set_blocks(c),
        },
        next,
    }
}

// What filter number `filters`, the last new one, adds: the flush where it is an eighth, and the set where that ends a round.
#[tactic(auto, unfolding(crate::specs::LayoutNumbers::summary_at))]
fn summary(chip: Chip, index: Index, piece: usize, filters: usize) -> Summary
    requires { UnitSound chip.unit × (in_full chip.unit filters ≤ 1024) }
    ensures { result ≡ summary_at chip.unit piece index filters }
{
    if !sets::fills_ska(filters) {
        return no_summary(index, piece);
    }
    if flush_number(filters) + 1 != sets::FLUSHES_PER_ROUND {
        return flush_summary(index, piece, filters);
    }
    set_summary(chip, index, piece, filters)
}

// ---- both indexes: a page of deletions adds two filters, one of entries adds one; they differ in each argument, so they stay two

fn no_deletions(g: Geometry) -> Summary
    ensures { result ≡ no_deletions g }
{
    no_summary(sets::deletion_index(g), 2 * g.chip.fourth_size())
}

fn no_entries(g: Geometry) -> Summary
    ensures { result ≡ no_entries g }
{
    no_summary(sets::key_index(g), g.chip.fourth_size())
}

// What deletion d adds; the second of its page's filters is the last.
fn deletion_summary(g: Geometry, d: usize) -> Summary
    requires { d < deletion_capacity (shape g) }
    ensures { result ≡ deletion_summary g d }
{
    if !geometry::deletion_area(g).fills(d) {
        return no_deletions(g);
    }
    summary(
        g.chip,
        sets::deletion_index(g),
        2 * g.chip.fourth_size(),
        sets::deletion_filters(g, d) + 1,
    )
}

// What entry n adds.
fn entry_summary(g: Geometry, n: usize) -> Summary
    requires { n < record_capacity (shape g) }
    ensures { result ≡ entry_summary g n }
{
    if !geometry::entry_area(g).fills(n) {
        return no_entries(g);
    }
    summary(
        g.chip,
        sets::key_index(g),
        g.chip.fourth_size(),
        n / g.entries_per_page(),
    )
}

// ---- plans

// Deletion d.
fn deletion(g: Geometry, d: usize) -> Plan
    requires { d < deletion_capacity (shape g) }
    ensures { result ≡ deletion_numbers g d }
{
    Plan {
        chip: g.chip,
        da: page(geometry::deletion_area(g), d),
        da_index: deletion_summary(g, d),
        ra: NOTHING,
        ka: NOTHING,
        ka_index: no_entries(g),
    }
}

// Record n and its entry.
fn insertion(g: Geometry, n: usize) -> Plan
    requires { n < record_capacity (shape g) }
    ensures { result ≡ insertion_numbers g n }
{
    Plan {
        chip: g.chip,
        da: NOTHING,
        da_index: no_deletions(g),
        ra: page(geometry::record_area(g), n),
        ka: page(geometry::entry_area(g), n),
        ka_index: entry_summary(g, n),
    }
}

// Deletion d, then record n and its entry.
fn update(g: Geometry, d: usize, n: usize) -> Plan
    requires { (d < deletion_capacity (shape g)) × (n < record_capacity (shape g)) }
    ensures { result ≡ update_numbers g d n }
{
    Plan {
        da: page(geometry::deletion_area(g), d),
        da_index: deletion_summary(g, d),
        ..insertion(g, n)
    }
}

// ---- the three changes

// A change by the counts that it finds: deletion d; record n; deletion d, then record n.
#[derive(Clone, Copy)]
pub enum Slots {
    Delete(usize),
    Insert(usize),
    Update(usize, usize),
}

// The plan of a change by the places that it takes.
pub fn of(g: Geometry, e: Slots) -> Plan
    requires { Room (shape g) e }
    ensures { result ≡ numbers_of g e }
{
    match e {
        Slots::Delete(d) => deletion(g, d),
        Slots::Insert(n) => insertion(g, n),
        Slots::Update(d, n) => update(g, d, n),
    }
}

// Does a change program anything: an entry fills no page where its record fills none.
pub fn programs(g: Geometry, e: Slots) -> bool
    ensures { result ≡ programs_in (shape g) e }
{
    match e {
        Slots::Delete(d) => geometry::deletion_area(g).fills(d),
        Slots::Insert(n) => geometry::record_area(g).fills(n),
        Slots::Update(d, n) => geometry::deletion_area(g).fills(d)
            || geometry::record_area(g).fills(n),
    }
}
