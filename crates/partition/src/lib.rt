// Partition sets: the sectors of the next set out of L1 and the set before it. Document 01, "Filters".
#![tactic(auto)]

ghost use Rattle.std.specs.Prelude.{◌≡◌, ℕ, ◌+◌, ◌-◌, ◌*◌, ◌/◌, ◌<◌, ◌≤◌, min, length};
ghost use Rattle.memory.specs.Lists.{tabulate};
ghost use Rattle.layout.specs.Geometry.{sectors_per_page, sector, block, side_blocks};
ghost use Rattle.layout.specs.Index.{set_pages, set_width, full_block};
ghost use Rattle.laws.specs.Units.{UnitSound};
ghost use Rattle.geometry.specs.Indexes.{index_of};
ghost use Rattle.fields.specs.Sources.{field_byte, Whole};
ghost use Rattle.partition.specs.Sources.{page_byte, round_bytes, source_of, page_source};
ghost use Rattle.partition.specs.Shared.{together, shared_bytes, Shares, set_bytes, InPage};
ghost use Rattle.partition.specs.Reach.{SourceFits};

use fields::Source;
use geometry::sets::Set;
use geometry::{Chip, sets};

// Bytes that the filters of a round have in a page, for each bit of a filter there.
const ROUND_BYTES: usize = sets::FILTERS_PER_ROUND / 8;

// What a page of the next set is made of: w bits of each filter, below byte `split` of the old set, from there to `end` of L1.
#[derive(Clone, Copy)]
pub struct PageSource {
    pub w: usize,
    pub split: usize,
    pub end: usize,
    pub old: Source,
    pub l1: Source,
}

// Where page p takes its w bits of a field from: fields of v bits, in rows `gap` bytes apart from `base` on.
fn source_of(base: usize, gap: usize, v: usize, w: usize, p: usize) -> Source
    requires { (base ≤ 1000000000) × (gap ≤ 8192) × (0 < w) × (w ≤ v) × (v ≤ 512) × (p < 2048) }
    ensures { result ≡ source_of base gap v w p }
{
    let m = v / w;
    let at = base + p / m * gap;
    let low = p % m * w;
    Source { at, step: v, low }
}

// Where page p of the next set takes its bits from.
fn page_source(chip: Chip, set: Set, p: usize) -> PageSource
    requires { UnitSound chip.unit × (set.rounds < side_blocks chip.unit) × (p < 2048) }
    ensures { result ≡ page_source chip.unit (index_of set.index) set.rounds p }
{
    let c = set.rounds;
    let w = sets::set_width(chip, c + 1);
    let v = sets::set_width(chip, c);
    let side = chip.block_address(sets::side_block(chip, set.index, c));
    let first = chip.block_address(set.index.first);
    let page = chip.page_size();
    let split = ROUND_BYTES * c * w;
    let end = ROUND_BYTES * (c + 1) * w;
    let old = source_of(side, page, v, w, p);
    let l1 = source_of(
        first,
        chip.page_address(sets::PAGES_PER_FOURTH),
        chip.sector_size(),
        w,
        p,
    );
    PageSource {
        w,
        split,
        end,
        old,
        l1,
    }
}

// How many of n bytes from byte y on lie below byte e.
fn below(e: usize, y: usize, n: usize) -> usize
    ensures { result ≡ min n (e - y) }
{
    n.min(e.saturating_sub(y))
}

// ---- L1's bytes for pages that take less than a byte of each filter: made once for all that share that byte

// How many pages share a byte of each filter.
pub fn pages_together(chip: Chip, set: Set) -> usize
    requires { UnitSound chip.unit × (set.rounds < side_blocks chip.unit) }
    ensures { (result ≡ together (set_width chip.unit (set.rounds + 1))) × (0 < result) × (result ≤ 8) }
{
    let w = sets::set_width(chip, set.rounds + 1);
    (8 / w).max(1)
}

// The bytes that page p and those beside it share; where it shares none, `out` stays.
pub fn shared_bytes(chip: Chip, set: Set, p: usize, main: &[u8], out: &mut [u8])
    requires unit_sound { UnitSound chip.unit × (set.rounds < side_blocks chip.unit) }
    requires p_bound { p < set_pages (set.rounds + 1) }
    requires in_main { full_block chip.unit (index_of set.index) 0 * block chip.unit ≤ length main.now }
    requires out_len { length out.old ≡ 128 }
    ensures { out.new
        ≡ shared_bytes main.now (page_source chip.unit (index_of set.index) set.rounds p) out.old }
{
    let r = page_source(chip, set, p);
    let w = r.w;
    let s = r.l1;
    if w < 8 {
        fields::columns(main, s.at + s.low / 8, s.step / 8, w, out);
    }
}

// Bytes of L1's part of a page from its byte y on.
fn l1_bytes(r: PageSource, y: usize, main: &[u8], shared: &[u8], out: &mut [u8])
    requires source_fits { SourceFits (length main.now) r × Shares main.now r shared.now }
    requires whole { Whole r.w y × Whole r.w (length out.old) }
    requires filled { (i : ℕ) → i < length out.old → y + i < round_bytes * r.w }
    ensures { out.new ≡ tabulate (length out.old) (λ (i : ℕ). field_byte main.now r.l1 r.w (y + i)) }
{
    let w = r.w;
    let s = r.l1;
    if w < 8 {
        let lane = Source {
            at: 0,
            step: 64,
            low: s.low % 8 * 8,
        };
        fields::field_run(shared, lane, 8 * w, y, out);
    } else {
        fields::field_run(main, s, w, y, out);
    }
}

// ---- pages of the next set

// Bytes of a page of the next set from byte y on: the old set's, then L1's, then zeros behind the filters.
fn page_bytes(r: PageSource, y: usize, main: &[u8], shared: &[u8], out: &mut [u8])
    requires source_fits { SourceFits (length main.now) r × Shares main.now r shared.now }
    requires whole { Whole r.w y × Whole r.w (length out.old) }
    ensures { out.new ≡ tabulate (length out.old) (λ (i : ℕ). page_byte main.now r (y + i)) }
{
    let n = out.len();
    let a = below(r.split, y, n);
    let b = below(r.end, y, n);
    let from = y.saturating_sub(r.split);
    fields::field_run(main, r.old, r.w, y, &mut out[0..a]);
    l1_bytes(r, from, main, shared, &mut out[a..b]);
    out[b..n].fill(0);
}

// Sectors of a page of the next set from sector j on, so many as `out` holds.
pub fn set_sectors(chip: Chip, set: Set, j: usize, main: &[u8], shared: &[u8], out: &mut [u8])
    requires unit_sound { UnitSound chip.unit × (set.rounds < side_blocks chip.unit) }
    requires j_bound { j < set_pages (set.rounds + 1) * sectors_per_page }
    requires in_main { full_block chip.unit (index_of set.index) 0 * block chip.unit ≤ length main.now }
    requires shares { Shares main.now (page_source chip.unit (index_of set.index) set.rounds (j / sectors_per_page)) shared.now }
    requires in_page { InPage (sector chip.unit) j (length out.old) }
    ensures { out.new ≡ tabulate (length out.old)
        (set_bytes chip.unit (index_of set.index) main.now set.full_sets set.rounds j) }
{
    let r = page_source(chip, set, j / Chip::SECTORS_PER_PAGE);
    let y = chip.sector_address(j % Chip::SECTORS_PER_PAGE);
    page_bytes(r, y, main, shared, out);
}
