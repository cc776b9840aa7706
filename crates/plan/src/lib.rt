// The chip operations of a change as numbers, a run of them, whether their sectors are fresh, and how many count as done. The RAM is only
// read.
#![tactic(auto)]

ghost use Rattle.std.specs.Prelude.{◌≡◌, List, ℕ, ◌+◌, ◌*◌, ◌/◌, ◌^◌, ◌<◌, ◌≤◌, length};
ghost use Rattle.layout.specs.Geometry.{sectors_per_page, sector};
ghost use Rattle.layout.specs.Index.{set_width};
ghost use Rattle.layout.specs.Flash.{Flash, Planned, plan_ops, all_fresh, flash_of};
ghost use Rattle.geometry.specs.Indexes.{index_of};
ghost use Rattle.partition.specs.Sources.{page_source};
ghost use Rattle.partition.specs.Shared.{together, Shares};
ghost use Rattle.plan.specs.Runs.{done_one, done};
ghost use Rattle.plan.specs.Spans.{span, among, behind, run_of};
ghost use Rattle.plan.specs.Segments.{filled_page, flushed, next_set, wiped};
ghost use Rattle.plan.specs.Groups.{buffer_size, at_once, Steps, up_to, OfPage, Beside};
ghost use Rattle.plan.specs.Fits.{PageFits, FlushFits, NextFits, WipeFits};
ghost use Rattle.plan.specs.Plans.{build_of, summary_of, summary_count, deletion_of, deletion_count, record_of};
ghost use Rattle.plan.specs.Plans.{planned, planned_count, whole_of, BuildFits, SummaryFits, PlanFits, IndexSpareFits, SpareFits};
ghost use Rattle.laws.specs.Units.{UnitSound};
ghost use Rattle.laws.specs.Done.{done_count};
ghost use Rattle.plan.specs.Fresh.{index_fresh, plan_fresh};
ghost use Rattle.plan.specs.Done.{index_done, deletion_done, record_done};

use geometry::sets::Set;
use geometry::{Chip, Geometry, areas, sets};

// ---- a plan

// Sectors or blocks in a row: the first of them, and how many there are.
#[derive(Clone, Copy)]
pub struct Segment {
    pub first: usize,
    pub count: usize,
}

// How filters leave the SKA page of an index: the flush, of whose sectors `piece` bytes are new, the next set, the erases of L1 and of the
// set before. What is not done has a count of 0.
#[derive(Clone, Copy)]
pub struct Summary {
    pub piece: usize,
    pub flush: Segment,
    pub set: Segment,
    pub l1: Segment,
    pub old: Segment,
    pub next: Set,
}

// The operations of a change, in order: the page that its deletion fills and the index over the deletions, the pages that its record and
// its entry fill and the index over the entries.
#[derive(Clone, Copy)]
pub struct Plan {
    pub chip: Chip,
    pub da: Segment,
    pub da_index: Summary,
    pub ra: Segment,
    pub ka: Segment,
    pub ka_index: Summary,
}

// The new bytes of a change: a deletion, then the record and then its entry.
pub const RECORD_AT: usize = areas::DELETION_SIZE;

pub const ENTRY_AT: usize = RECORD_AT + areas::RECORD_SIZE;

pub const NEW_SIZE: usize = ENTRY_AT + areas::ENTRY_SIZE;

// Its new filters, by the fourths of their bits: two of the page of deletions, then that of the page of entries.
pub const ENTRY_FILTER_AT: usize = 512;

pub const FILTERS_SIZE: usize = 768;

// The new bytes of a change, and its new filters.
pub type NewBytes = [u8; NEW_SIZE];

pub type NewFilters = [u8; FILTERS_SIZE];

// Operations `from` to `to` - 1 of a list.
#[derive(Clone, Copy)]
pub struct Span {
    pub from: usize,
    pub to: usize,
}

impl Span {
    // Those among the first n.
    fn among(self, n: usize) -> Span
        ensures { result ≡ among self n }
    {
        Span {
            from: self.from,
            to: self.to.min(n),
        }
    }

    // Those behind the first n, counted from there.
    fn behind(self, n: usize) -> Span
        ensures { result ≡ behind self n }
    {
        Span {
            from: self.from.saturating_sub(n),
            to: self.to.saturating_sub(n),
        }
    }
}

// ---- segments

// Bytes of a set that are made at once, at least a sector.
const BUFFER_SIZE: usize = 512;

// Where four sectors begin, and the RAM page whose bytes they get.
#[derive(Clone, Copy)]
pub struct Page {
    pub sector: usize,
    pub at: usize,
}

// Where the sectors of a flush begin, the SKA page whose bytes they get, and how many bytes at the end of each are new.
#[derive(Clone, Copy)]
pub struct Flush {
    pub sector: usize,
    pub at: usize,
    pub piece: usize,
}

// Sectors that are programmed one after another, out of bytes that are lent.
trait Sectors {
    ghost unit: { Self → ℕ };

    ghost planned: { Self → ℕ → Planned };

    ghost Fits: { Self → ℕ → ℕ → Type 0 };

    // Sector j of them.
    fn program(&self, j: usize, main: &mut [u8], spare: &mut [u8])
        requires { Fits self.now (length main.old) (length spare.old) × (j < sectors_per_page) }
        ensures { flash_of main.new spare.new ≡ done_one (unit self.now) (planned self.now j) (flash_of main.old spare.old) };
}

// A page that an item fills: the bytes are those of the RAM page, those of the last sector end with the item.
#[derive(Clone, Copy)]
struct FilledPage<'a> {
    chip: Chip,
    page: Page,
    item: &'a [u8],
    ram: &'a [u8],
}

impl<'a> Sectors for FilledPage<'a> {
    ghost unit = { λ s. s.chip.unit };

    ghost planned = { λ s. filled_page s.chip.unit s.page s.item.now s.ram.now };

    ghost Fits = { λ s m n. PageFits s.chip.unit s.page m n (length s.ram.now) × (length s.item.now ≤ sector s.chip.unit) };

    fn program(&self, j: usize, main: &mut [u8], spare: &mut [u8]) {
        let chip = self.chip;
        let size = chip.sector_size();
        let s = self.page.sector + j;
        let from = self.page.at + chip.sector_address(j);
        if j + 1 < Chip::SECTORS_PER_PAGE {
            flash::program_sector(chip, s, &self.ram[from..from + size], main, spare);
            return;
        }
        let to = from + (size - self.item.len());
        flash::program_joined(chip, s, &self.ram[from..to], self.item, main, spare);
    }
}

// A flush: the bytes are those of the SKA page, and at the end of each sector those of the new fourths.
#[derive(Clone, Copy)]
struct FlushedPage<'a> {
    chip: Chip,
    flush: Flush,
    fourths: &'a [u8],
    ram: &'a [u8],
}

impl<'a> Sectors for FlushedPage<'a> {
    ghost unit = { λ s. s.chip.unit };

    ghost planned = { λ s. flushed s.chip.unit s.flush s.fourths.now s.ram.now };

    ghost Fits = { λ s m n. FlushFits s.chip.unit s.flush (length s.fourths.now) m n (length s.ram.now) };

    fn program(&self, j: usize, main: &mut [u8], spare: &mut [u8]) {
        let chip = self.chip;
        let piece = self.flush.piece;
        let from = self.flush.at + chip.sector_address(j);
        let to = from + (chip.sector_size() - piece);
        let lo = j * piece;
        let hi = lo + piece;
        flash::program_joined(
            chip,
            self.flush.sector + j * sets::FLUSHES_PER_ROUND,
            &self.ram[from..to],
            &self.fourths[lo..hi],
            main,
            spare,
        );
    }
}

// A span of such sectors.
fn program_span<S: Sectors>(sectors: &S, part: Span, main: &mut [u8], spare: &mut [u8])
    requires { S.Fits sectors.now (length main.old) (length spare.old) × (part.to ≤ sectors_per_page) }
    ensures { flash_of main.new spare.new
        ≡ run_of (S.unit sectors.now) (S.planned sectors.now) part (flash_of main.old spare.old) }
{
    for j in part.from..part.to {
        sectors.program(j, main, spare);
    }
}

// How many sectors of a page are made at once: those that the buffer holds.
fn at_once(chip: Chip) -> usize
    requires { UnitSound chip.unit }
    ensures { (result ≡ at_once chip.unit) × Steps result × (result * sector chip.unit ≤ buffer_size) }
{
    Chip::SECTORS_PER_PAGE.min(BUFFER_SIZE / chip.sector_size())
}

// Of sectors j to `end` - 1 those that come before the next multiple of n.
fn up_to(j: usize, n: usize, end: usize) -> Span
    requires { (0 < n) × (n ≤ 32) × (end < 2 ^ 32) × (j < end) }
    ensures { result ≡ up_to j n end }
{
    let rest = Span {
        from: j,
        to: j / n * n + n,
    };
    rest.among(end)
}

// A set that is built from a sector on.
#[derive(Clone, Copy)]
struct NextSet {
    chip: Chip,
    set: Set,
    sector: usize,
}

impl NextSet {
    // Sectors of one page of it, all made out of the flash before the first of them is programmed.
    fn page_part(self, part: Span, shared: &[u8], main: &mut [u8], spare: &mut [u8])
        requires next_fits { NextFits self.chip.unit self.set self.sector part.to (length main.old) (length spare.old)
            × (part.from < part.to) }
        requires of_page { OfPage self.chip.unit part }
        requires shares { Shares main.old (page_source self.chip.unit (index_of self.set.index) self.set.rounds
            (part.from / sectors_per_page)) shared.now }
        ensures { flash_of main.new spare.new
            ≡ run_of self.chip.unit (next_set self.chip.unit self.set self.sector) part (flash_of main.old spare.old) }
    {
        let mut buf = [0u8; BUFFER_SIZE];
        let k = part.to - part.from;
        let n = self.chip.sector_address(k);
        partition::set_sectors(self.chip, self.set, part.from, main, shared, &mut buf[0..n]);
        flash::program_sectors(
            self.chip,
            self.sector + part.from,
            k,
            &buf[0..n],
            main,
            spare,
        );
    }

    // Sectors whose pages share their bytes of L1.
    fn group_run(self, part: Span, main: &mut [u8], spare: &mut [u8])
        requires next_fits { NextFits self.chip.unit self.set self.sector part.to (length main.old) (length spare.old)
            × (part.from < part.to) }
        requires beside { Beside (together (set_width self.chip.unit (self.set.rounds + 1))) part }
        ensures { flash_of main.new spare.new
            ≡ run_of self.chip.unit (next_set self.chip.unit self.set self.sector) part (flash_of main.old spare.old) }
    {
        let mut shared = [0u8; sets::FILTERS_PER_ROUND];
        let n = at_once(self.chip);
        partition::shared_bytes(
            self.chip,
            self.set,
            part.from / Chip::SECTORS_PER_PAGE,
            main,
            &mut shared,
        );
        let mut j = part.from;
        // no `step_by`: the first part ends at a multiple of n, wherever it begins
        while j < part.to {
            let some = up_to(j, n, part.to);
            self.page_part(some, &shared, main, spare);
            j = some.to;
        }
    }

    // A span of its sectors.
    fn set_run(self, part: Span, main: &mut [u8], spare: &mut [u8])
        requires { NextFits self.chip.unit self.set self.sector part.to (length main.old) (length spare.old) }
        ensures { flash_of main.new spare.new
            ≡ run_of self.chip.unit (next_set self.chip.unit self.set self.sector) part (flash_of main.old spare.old) }
    {
        let n = partition::pages_together(self.chip, self.set) * Chip::SECTORS_PER_PAGE;
        let mut j = part.from;
        // no `step_by`: as above
        while j < part.to {
            let some = up_to(j, n, part.to);
            self.group_run(some, main, spare);
            j = some.to;
        }
    }
}

// A span of the blocks of a segment is erased.
fn wipe_run(chip: Chip, blocks: Segment, part: Span, main: &mut [u8], spare: &mut [u8])
    requires { WipeFits chip.unit blocks (length main.old) (length spare.old) × (part.to ≤ blocks.count) }
    ensures { flash_of main.new spare.new ≡ run_of chip.unit (wiped blocks.first) part (flash_of main.old spare.old) }
{
    if part.to <= part.from {
        return;
    }
    flash::erase_blocks(
        chip,
        blocks.first + part.from,
        part.to - part.from,
        main,
        spare,
    );
}

// ---- an index of a plan

// Operations of the next set and of the erases.
fn build(chip: Chip, s: Summary, part: Span, main: &mut [u8], spare: &mut [u8])
    requires { BuildFits chip.unit s (length main.old) (length spare.old) }
    ensures { flash_of main.new spare.new ≡ done chip.unit (span (build_of chip.unit s) part) (flash_of main.old spare.old) }
{
    let second = part.behind(s.set.count);
    let third = second.behind(s.l1.count);
    let next = NextSet {
        chip,
        set: s.next,
        sector: s.set.first,
    };
    next.set_run(part.among(s.set.count), main, spare);
    wipe_run(chip, s.l1, second.among(s.l1.count), main, spare);
    wipe_run(chip, s.old, third.among(s.old.count), main, spare);
}

// How many operations there are.
fn summary_count(s: Summary) -> usize
    requires { summary_count s < 2 ^ 64 }
    ensures { result ≡ summary_count s }
{
    s.flush.count + (s.set.count + s.l1.count + s.old.count)
}

// Operations of an index: its flush, with the new fourths, and what is built.
fn index_run(
    chip: Chip,
    s: Summary,
    part: Span,
    fourths: &[u8],
    main: &mut [u8],
    spare: &mut [u8],
    ram: &[u8],
)
    requires { SummaryFits chip.unit s (length fourths.now) (length main.old) (length spare.old) (length ram.now) }
    ensures { flash_of main.new spare.new
        ≡ done chip.unit (span (summary_of chip.unit s fourths.now ram.now) part) (flash_of main.old spare.old) }
{
    if part.to == 0 {
        return;
    }
    let later = part.behind(s.flush.count);
    let page = FlushedPage {
        chip,
        flush: Flush {
            sector: s.flush.first,
            at: s.next.index.ska,
            piece: s.piece,
        },
        fourths,
        ram,
    };
    program_span(&page, part.among(s.flush.count), main, spare);
    if later.to == 0 {
        return; // nothing is built where the run ends before
    }
    build(chip, s, later, main, spare);
}

// ---- plans: one page and an index for a deletion, two pages and an index for a record; one function for both would be no plainer

// Operations of the deletion: its page and the index over the deletions.
fn deletion_run(
    p: Plan,
    part: Span,
    new: &NewBytes,
    filters: &NewFilters,
    main: &mut [u8],
    spare: &mut [u8],
    ram: &[u8],
)
    requires { PlanFits p (length main.old) (length spare.old) (length ram.now) }
    ensures { flash_of main.new spare.new
        ≡ done p.chip.unit (span (deletion_of p new.now filters.now ram.now) part) (flash_of main.old spare.old) }
{
    if part.to == 0 {
        return;
    }
    let chip = p.chip;
    let da = FilledPage {
        chip,
        page: Page {
            sector: p.da.first,
            at: chip.page_address(Geometry::DA_PAGE),
        },
        item: &new[0..RECORD_AT],
        ram,
    };
    let second = part.behind(p.da.count);
    program_span(&da, part.among(p.da.count), main, spare);
    index_run(
        chip,
        p.da_index,
        second,
        &filters[0..ENTRY_FILTER_AT],
        main,
        spare,
        ram,
    );
}

// Operations of the record: its page, its entry's and the index over the entries.
fn record_run(
    p: Plan,
    part: Span,
    new: &NewBytes,
    filters: &NewFilters,
    main: &mut [u8],
    spare: &mut [u8],
    ram: &[u8],
)
    requires { PlanFits p (length main.old) (length spare.old) (length ram.now) }
    ensures { flash_of main.new spare.new
        ≡ done p.chip.unit (span (record_of p new.now filters.now ram.now) part) (flash_of main.old spare.old) }
{
    let chip = p.chip;
    let ra = FilledPage {
        chip,
        page: Page {
            sector: p.ra.first,
            at: chip.page_address(Geometry::RA_PAGE),
        },
        item: &new[RECORD_AT..ENTRY_AT],
        ram,
    };
    let ka = FilledPage {
        chip,
        page: Page {
            sector: p.ka.first,
            at: chip.page_address(Geometry::KA_PAGE),
        },
        item: &new[ENTRY_AT..NEW_SIZE],
        ram,
    };
    let second = part.behind(p.ra.count);
    let third = second.behind(p.ka.count);
    program_span(&ra, part.among(p.ra.count), main, spare);
    program_span(&ka, second.among(p.ka.count), main, spare);
    index_run(
        chip,
        p.ka_index,
        third,
        &filters[ENTRY_FILTER_AT..FILTERS_SIZE],
        main,
        spare,
        ram,
    );
}

// Operations of the deletion: how many there are.
fn deletion_count(p: Plan) -> usize
    requires { deletion_count p < 2 ^ 64 }
    ensures { result ≡ deletion_count p }
{
    p.da.count + summary_count(p.da_index)
}

// All operations of a plan.
pub fn whole(p: Plan) -> Span
    requires { planned_count p < 2 ^ 64 }
    ensures { result ≡ whole_of p }
{
    let records = p.ra.count + p.ka.count + summary_count(p.ka_index);
    Span {
        from: 0,
        to: deletion_count(p) + records,
    }
}

// Operations of a plan, out of the RAM as handed in, with the new item over the end of a page that it fills and the fourths of the new
// filters over the ends of the sectors of a flush.
pub fn run(
    p: Plan,
    part: Span,
    new: &NewBytes,
    filters: &NewFilters,
    main: &mut [u8],
    spare: &mut [u8],
    ram: &[u8],
)
    requires { PlanFits p (length main.old) (length spare.old) (length ram.now) }
    ensures { flash_of main.new spare.new
        ≡ done p.chip.unit (span (planned p new.now filters.now ram.now) part)
        (flash_of main.old spare.old) }
{
    let n = deletion_count(p);
    let second = part.behind(n);
    deletion_run(p, part.among(n), new, filters, main, spare, ram);
    record_run(p, second, new, filters, main, spare, ram);
}

// Are the sectors fresh that an index programs.
fn index_fresh(s: Summary, spare: &[u8]) -> bool
    requires { IndexSpareFits s (length spare.now) }
    ensures { result ≡ index_fresh s spare.now }
{
    flash::all_fresh(s.flush.first, sets::FLUSHES_PER_ROUND, s.flush.count, spare)
        && flash::all_fresh(s.set.first, 1, s.set.count, spare)
}

// Are those of a plan.
#[tactic(auto, unfolding(crate::specs::Fresh::plan_fresh))]
fn plan_fresh(p: Plan, spare: &[u8]) -> bool
    requires { SpareFits p (length spare.now) }
    ensures { result ≡ plan_fresh spare.now p }
{
    flash::all_fresh(p.da.first, 1, p.da.count, spare)
        && index_fresh(p.da_index, spare)
        && flash::all_fresh(p.ra.first, 1, p.ra.count, spare)
        && flash::all_fresh(p.ka.first, 1, p.ka.count, spare)
        && index_fresh(p.ka_index, spare)
}

// Are all sectors fresh that the plan programs, whatever the bytes.
pub fn fresh(p: Plan, spare: &[u8]) -> bool
    requires { SpareFits p (length spare.now) }
    ensures { (new filters ram : List ℕ) (flash : Flash)
        → result ≡ all_fresh spare.now (plan_ops p.chip.unit (planned p new filters ram) flash) }
{
    plan_fresh(p, spare)
}

// ---- what counts as done: an earlier part is looked at only where nothing of a later one counts, so each part stays an `if`

// How many operations of an index count as done: the erases behind the last programmed sector do not.
fn index_done(s: Summary, spare: &[u8]) -> usize
    requires { IndexSpareFits s (length spare.now) × (summary_count s < 2 ^ 64) }
    ensures { result ≡ index_done s spare.now }
{
    let in_set = flash::last_programmed(s.set.first, 1, s.set.count, spare);
    if 0 < in_set {
        return s.flush.count + in_set;
    }
    flash::last_programmed(s.flush.first, sets::FLUSHES_PER_ROUND, s.flush.count, spare)
}

// Those of the deletion.
fn deletion_done(p: Plan, spare: &[u8]) -> usize
    requires { SpareFits p (length spare.now) × (planned_count p < 2 ^ 64) }
    ensures { result ≡ deletion_done spare.now p }
{
    let in_index = index_done(p.da_index, spare);
    if 0 < in_index {
        return p.da.count + in_index;
    }
    flash::last_programmed(p.da.first, 1, p.da.count, spare)
}

// Those of the record and its entry.
fn record_done(p: Plan, spare: &[u8]) -> usize
    requires { SpareFits p (length spare.now) × (planned_count p < 2 ^ 64) }
    ensures { result ≡ record_done spare.now p }
{
    let in_index = index_done(p.ka_index, spare);
    if 0 < in_index {
        return p.ra.count + (p.ka.count + in_index);
    }
    let in_ka = flash::last_programmed(p.ka.first, 1, p.ka.count, spare);
    if 0 < in_ka {
        return p.ra.count + in_ka;
    }
    flash::last_programmed(p.ra.first, 1, p.ra.count, spare)
}

// How many operations of a plan count as done: all up to the last programmed sector.
pub fn done(p: Plan, spare: &[u8]) -> usize
    requires { SpareFits p (length spare.now) × (planned_count p < 2 ^ 64) }
    ensures { (new filters ram : List ℕ) → result ≡ done_count spare.now (planned p new filters ram) }
{
    let of_record = record_done(p, spare);
    if 0 < of_record {
        return deletion_count(p) + of_record;
    }
    deletion_done(p, spare)
}
