// Groups of filters whose bits lie in the same rows, wherever they are: in the SKA page, in L1, in the current set or in a full one.
// Document 01, "Filters". A `Stage` says how many filters each of these has, a `Level` where one of them lies, a `Block` which of up to 512
// of its filters have all bits of some positions.
ghost use Rattle.std.specs.Prelude.{◌≡◌, Bool, true, ◌⊎◌, ℕ, ◌+◌, ◌-◌, ◌*◌, ◌/◌, ◌%◌, ◌^◌, ◌<◌, ◌≤◌, min, length, get_or};
ghost use Rattle.std.specs.Prelude.{take, MatchOption};
ghost use Rattle.memory.specs.Bits.{bit, bit_in};
ghost use Rattle.memory.specs.Power.{log2up};
ghost use Rattle.layout.specs.Geometry.{filter_bits, side_blocks};
ghost use Rattle.layout.specs.Index.{filters_per_round, in_full};
ghost use Rattle.laws.specs.Units.{UnitIs};
ghost use Rattle.geometry.specs.Indexes.{index_of};
ghost use Rattle.kernels.specs.Blocks.{Shows, Upto};
ghost use Rattle.kernels.specs.Masks.{Shut};
ghost use Rattle.filter.specs.Filter.{IndexFits};
ghost use Rattle.filter.specs.Groups.{stage_of, ska_level, l1_level, set_level, full_level, level_in_sets, row_at, level_has};
ghost use Rattle.filter.specs.Blocks.{EightsIn, EightsOf, BlocksIn, BlockOf, BlockAt};
ghost use Rattle.filter.specs.Recent.{MaskOf, OneRow, recent_has, RecentIn, RecentOf};

use geometry::sets::Index;
use geometry::{Chip, sets};
use kernels::Row;

// The filters of an index on a chip: so many.
#[derive(Clone, Copy)]
pub struct Filters {
    pub chip: Chip,
    pub index: Index,
    pub count: usize,
}

// Up to 512 filters of an index: the first of them, and which of them have all bits of some positions, 64 to a word.
#[derive(Clone, Copy)]
pub struct Block {
    pub start: usize,
    pub words: [u64; 8],
}

// Where a group lies: its first filter, the first byte of its first row, of the RAM for the SKA page and else of the flash; a filter has
// 2 ^ exponent bits in a row, and the next ones in the row `stride` bytes further on.
#[derive(Clone, Copy)]
struct Level {
    start: usize,
    base: usize,
    exponent: usize,
    stride: usize,
}

// The filters since the last round up to `below` - 1: L1's and, behind them, those of the SKA page.
#[derive(Clone, Copy)]
struct Recent {
    l1: Level,
    ska: Level,
    below: usize,
}

// A query of these filters: the positions, and the bytes of the flash and of the RAM, in which their rows of L1 and of the SKA page lie.
#[derive(Clone, Copy)]
struct Query<'a> {
    rs: Recent,
    ps: &'a [u32],
    main: &'a [u8],
    ram: &'a [u8],
    ghost some: { 1 ≤ length ps.now },
    ghost within: { RecentIn rs ps.now (length main.now) (length ram.now) },
}

// How filters are shared out over sets: the rounds in the current one, and the filters in full ones.
#[derive(Clone, Copy)]
struct Stage {
    rounds: usize,
    full: usize,
}

// ---- numbers

// The exponent of the least power of two not below x; a function of its own since both of its callers need its bound too.
fn exponent(x: usize) -> usize
    requires { (0 < x) × (x ≤ 128) }
    ensures { (result ≡ log2up x) × (result ≤ 7) }
{
    sets::partition_exponent(x as u32) as usize
}

// The bits that a filter has in a row; a function of its own, so that the shift is once proved to be a power of two.
fn power(e: usize) -> usize
    requires { e < 10 }
    ensures { (result ≡ 2 ^ e) × (0 < result) }
{
    1usize << e
}

// ---- the levels of an index, by the unit, which is 2 ^ e

fn ska_level(chip: Chip, e: usize, ix: Index, flash: usize) -> Level
    requires { e < 6 }
    ensures { result ≡ ska_level chip.unit e (index_of ix) flash }
{
    Level {
        start: flash,
        base: ix.ska,
        exponent: e + 4,
        stride: chip.sector_size(),
    }
}

// Sixteen flushes lie side by side, so that L1 is one group.
fn l1_level(chip: Chip, e: usize, ix: Index, partitioned: usize) -> Level
    requires { e < 6 }
    ensures { result ≡ l1_level chip.unit e (index_of ix) partitioned }
{
    Level {
        start: partitioned,
        base: chip.block_address(ix.first),
        exponent: e + 4,
        stride: sets::PAGES_PER_FOURTH * chip.page_size(),
    }
}

// The current set after c rounds.
fn set_level(chip: Chip, e: usize, ix: Index, c: usize, full: usize) -> Level
    requires { (e < 6) × (0 < c) × (c ≤ 128) × (log2up c ≤ e + 2) }
    ensures { result ≡ set_level chip.unit e (index_of ix) c full }
{
    Level {
        start: full,
        base: chip.block_address(sets::side_block(chip, ix, c)),
        exponent: e + 2 - exponent(c),
        stride: chip.page_size(),
    }
}

// Full set k.
fn full_level(chip: Chip, ix: Index, k: usize) -> Level
    requires { k ≤ 2048 }
    ensures { result ≡ full_level chip.unit (index_of ix) k }
{
    Level {
        start: k * (sets::FILTERS_PER_ROUND * chip.side_blocks()),
        base: chip.block_address(sets::full_block(chip, ix, k)),
        exponent: 0,
        stride: chip.page_size(),
    }
}

// ---- which of them has a filter

fn stage_of(chip: Chip, e: usize, filters: usize) -> Stage
    requires { UnitIs chip.unit e × (filters ≤ 2 ^ 20) }
    ensures { result ≡ stage_of chip.unit filters }
{
    let side = chip.side_blocks();
    let flushes = filters / sets::FILTERS_PER_FLUSH;
    let all = flushes / sets::FLUSHES_PER_ROUND;
    let full_sets = all >> (e + 2);
    let rounds = all - full_sets * side;
    let full = full_sets * (sets::FILTERS_PER_ROUND * side);
    Stage { rounds, full }
}

// The set that has filter `below` - 1.
fn level_in_sets(chip: Chip, e: usize, ix: Index, st: Stage, below: usize) -> Level
    requires unit_is { UnitIs chip.unit e × (st.rounds < side_blocks chip.unit) }
    requires below_bound { (below ≤ st.full + filters_per_round * st.rounds) × (0 < below) × (below ≤ 2 ^ 20) }
    ensures { result ≡ level_in_sets chip.unit e (index_of ix) st below }
{
    if below > st.full {
        return set_level(chip, e, ix, st.rounds, st.full);
    }
    full_level(chip, ix, (below - 1) >> (e + 9))
}

// ---- rows

// The first byte of the row of a position.
fn row_of(l: Level, p: u32) -> usize
    requires { (l.exponent < 10) × (row_at l p < 2 ^ 64) }
    ensures { result ≡ row_at l p }
{
    l.base + (p as usize >> l.exponent) * l.stride
}

// ---- filters of whole bytes: a few

// Which of the first n filters of a level have position p.
fn few_bits(l: Level, p: u32, n: usize, bytes: &[u8]) -> u64
    requires { (n ≤ 8) × EightsIn l p n (length bytes.now) }
    ensures { (result < 2 ^ n)
        × ((i : ℕ) → i < n → bit result i ≡ bit_in bytes.now (row_at l p) (i * 2 ^ l.exponent + p % 2 ^ l.exponent)) }
{
    let w = power(l.exponent);
    let low = p as usize % w;
    kernels::byte_bits(row_of(l, p) + low / 8, low, w / 8, n, bytes)
}

// The level's filters below `below`, eight at the most: one word.
fn block_of_few(l: Level, below: usize, ps: &[u32], bytes: &[u8]) -> Block
    requires le_count { (l.start < below) × (below ≤ l.start + 8) }
    requires by_index { EightsOf l ps.now (below - l.start) (length bytes.now) }
    ensures { BlockOf l bytes.now below ps.now result }
{
    let n = below - l.start;
    let mut r = u64::MAX;
    for p in ps {
        r &= few_bits(l, *p, n, bytes);
    }
    Block {
        start: l.start,
        words: [kernels::lowest(r, n), 0, 0, 0, 0, 0, 0, 0],
    }
}

// ---- filters of whole bytes: eight of them at a time

// Which filters of a level have position p: those from `first` on, n times eight.
fn position_bits(l: Level, p: u32, first: usize, n: usize, bytes: &[u8]) -> u64
    requires { (n ≤ 8) × EightsIn l p (first + n * 8) (length bytes.now) }
    ensures { (i : ℕ) → i < n * 8
        → bit result i ≡ bit_in bytes.now (row_at l p) ((first + i) * 2 ^ l.exponent + p % 2 ^ l.exponent) }
{
    let w = power(l.exponent);
    let step = w / 8;
    let low = p as usize % w;
    kernels::row_bits(
        0,
        row_of(l, p) + first * step + low / 8,
        low,
        step,
        n,
        bytes,
    )
}

// Which of them have all of the positions.
fn eights(l: Level, ps: &[u32], first: usize, n: usize, bytes: &[u8]) -> u64
    requires { (n ≤ 8) × EightsOf l ps.now (first + n * 8) (length bytes.now) }
    ensures { Shows (level_has l bytes.now ps.now) first (n * 8) result }
{
    let mut r = u64::MAX;
    for p in ps {
        r &= position_bits(l, *p, first, n, bytes);
    }
    r
}

// The newest 64 of the level's filters below `below`, or as many as there are: one word.
fn block_by_eights(l: Level, below: usize, ps: &[u32], bytes: &[u8]) -> Block
    requires le_count { l.start < below }
    requires by_index { EightsOf l ps.now (below - l.start) (length bytes.now) }
    ensures { BlockOf l bytes.now below ps.now result }
{
    let all = below - l.start;
    let first = (all - 1) / 64 * 64;
    let n = all - first;
    let shown = eights(l, ps, first, n.div_ceil(8), bytes);
    Block {
        start: l.start + first,
        words: [kernels::lowest(shown, n), 0, 0, 0, 0, 0, 0, 0],
    }
}

// ---- filters of a few bits, side by side in words

// The newest 512 of the level's filters below `below`, or as many as there are from a multiple of 512 on.
fn block_by_words(l: Level, below: usize, ps: [u32; 8], count: usize, bytes: &[u8]) -> Block
    requires le_count { (1 ≤ count) × (count ≤ 8) × (l.exponent < 7) × (l.start < below) }
    requires by_index { (i : ℕ) → i < count → BlocksIn l (get_or ps i 0) (below - l.start) (length bytes.now) }
    ensures { BlockOf l bytes.now below (take count ps) result }
{
    let w = power(l.exponent);
    let mut rows = [Row { at: 0, low: 0 }; 8];
    for i in 0..count {
        rows[i] = Row {
            at: row_of(l, ps[i]),
            low: ps[i] as usize % w,
        };
    }
    let n = below - l.start;
    let first = (n - 1) / 512 * 512;
    Block {
        start: l.start + first,
        words: kernels::block(w, first, n - first, &rows[..count], bytes),
    }
}

// ---- filters since the last round

// The positions as bits among the 2 ^ e that a filter has in a row, if they lie in one row, as a key's do: then they differ from the first
// in no bit from e on.
fn mask_of(e: usize, ps: &[u32]) -> Option<u64>
    requires { (e ≤ 6) × (1 ≤ length ps.now) }
    ensures { MatchOption result (Unit {0}) (λ m. OneRow ps.now (length ps.now) e × MaskOf ps.now (length ps.now) (2 ^ e) m
        × (m < 2 ^ 2 ^ e)) }
{
    let w = power(e);
    let first = ps[0];
    let mut bits: u64 = 0;
    let mut differ: u32 = 0;
    for p in ps {
        bits |= kernels::single(*p as usize % w);
        differ |= *p ^ first;
    }
    if differ >> e == 0 { Some(bits) } else { None }
}

// A block of filters of two bytes, 128 at the most, by the words of those that are shut.
fn block_of_shut(start: usize, n: usize, a: u64, b: u64) -> Block
    requires { (0 < n) × (n ≤ 128) }
    ensures { (result.start ≡ start)
        × ((gate : ℕ → Bool) → Shut gate ((min n 64 + 3) / 4) a → Shut (λ g. gate (64 + g)) ((n - 64 + 3) / 4) b
        → Upto (λ j i. gate (j * 64 + i)) n result.words) }
{
    if n > 64 {
        return Block {
            start,
            words: [
                kernels::having(a, 64),
                kernels::having(b, n - 64),
                0,
                0,
                0,
                0,
                0,
                0,
            ],
        };
    }
    Block {
        start,
        words: [kernels::having(a, n), 0, 0, 0, 0, 0, 0, 0],
    }
}

impl<'a> Query<'a> {
    // Filters of eight bytes: a word for each.
    fn by_words(self, mask: u64) -> Block
        requires exponent_value { self.rs.l1.exponent ≡ 6 }
        requires one_row { OneRow self.ps.now (length self.ps.now) 6 × MaskOf self.ps.now (length self.ps.now) 64 mask }
        ensures { let q = self.entry in RecentOf q.rs q.main.now q.ram.now q.ps.now result }
    {
        let top = self.rs.below.min(self.rs.ska.start);
        let start = self.rs.l1.start;
        let all = top - start;
        let few = all.min(64);
        let row = row_of(self.rs.l1, self.ps[0]);
        let a = kernels::words_with(mask, row, few, self.main);
        let b = kernels::words_with(mask, row + 512, all - few, self.main);
        let at = row_of(self.rs.ska, self.ps[0]);
        let c = kernels::words_with(mask, at, self.rs.below - top, self.ram);
        if all < 64 {
            return Block {
                start,
                words: [a | c << all, 0, 0, 0, 0, 0, 0, 0],
            };
        }
        Block {
            start,
            words: [a, b | c << (all - 64), 0, 0, 0, 0, 0, 0],
        }
    }

    // Filters of two bytes: four to a word. No twin of `by_words`: the SKA page's words join L1's before, not after, filters are told.
    fn by_fours(self, mask: u64) -> Block
        requires exponent_value { self.rs.l1.exponent ≡ 4 }
        requires one_row { OneRow self.ps.now (length self.ps.now) 4 × MaskOf self.ps.now (length self.ps.now) 16 mask × (mask < 65536) }
        ensures { let q = self.entry in RecentOf q.rs q.main.now q.ram.now q.ps.now result }
    {
        let top = self.rs.below.min(self.rs.ska.start);
        let start = self.rs.l1.start;
        let words = (top - start).div_ceil(4);
        let few = words.min(16);
        let row = row_of(self.rs.l1, self.ps[0]);
        let a = kernels::lacking(0, mask, row, few, self.main);
        let b = kernels::lacking(0, mask, row + 128, words - few, self.main);
        let more = (self.rs.below - top).div_ceil(4);
        let at = row_of(self.rs.ska, self.ps[0]);
        if words < 16 {
            let c = kernels::lacking(a, mask, at, more, self.ram);
            return block_of_shut(start, self.rs.below - start, c, b);
        }
        let c = kernels::lacking(b, mask, at, more, self.ram);
        block_of_shut(start, self.rs.below - start, a, c)
    }

    // Filters of whole bytes: which of the 64 from `first` on, L1's and those behind them, have all of the positions.
    fn word(self, first: usize) -> u64
        requires { ((first ≡ 0) ⊎ (first ≡ 64)) × (self.rs.l1.start + first < self.rs.below) }
        ensures { let q = self.entry in Shows (λ g. recent_has q.rs q.main.now q.ram.now q.ps.now (q.rs.l1.start + g))
            first (min (q.rs.below - q.rs.l1.start - first) 64) result }
    {
        let w = power(self.rs.l1.exponent);
        let step = w / 8;
        let top = self.rs.below.min(self.rs.ska.start);
        let n = ((top - self.rs.l1.start).div_ceil(8) - first / 8).min(8);
        let mut r = u64::MAX;
        for p in self.ps {
            let row = row_of(self.rs.l1, *p);
            let other = row_of(self.rs.ska, *p);
            let low = *p as usize % w;
            let o = low / 8;
            let s = kernels::byte_bits(other + o, low, step, self.rs.below - top, self.ram);
            r &= kernels::row_bits(s, row + first * step + o, low, step, n, self.main);
        }
        r
    }

    // The same as a block, in one word or two.
    fn by_bytes(self) -> Block
        ensures { let q = self.entry in RecentOf q.rs q.main.now q.ram.now q.ps.now result }
    {
        let start = self.rs.l1.start;
        let n = self.rs.below - start;
        let a = self.word(0);
        if n > 64 {
            let b = self.word(64);
            return Block {
                start,
                words: [a, kernels::lowest(b, n - 64), 0, 0, 0, 0, 0, 0],
            };
        }
        Block {
            start,
            words: [kernels::lowest(a, n), 0, 0, 0, 0, 0, 0, 0],
        }
    }

    // The filters since the last round. At S = 16 and 64 a filter's part of a row is a number, so that they are tested by a mask, if the
    // positions lie in one row; else it is read by bytes, and where L1 has no filter yet those of the SKA page alone.
    fn block(self) -> Block
        ensures { let q = self.entry in RecentOf q.rs q.main.now q.ram.now q.ps.now result }
    {
        if self.rs.l1.exponent == 4 {
            if let Some(mask) = mask_of(4, self.ps) {
                return self.by_fours(mask);
            }
        } else if self.rs.l1.exponent == 6 {
            if let Some(mask) = mask_of(6, self.ps) {
                return self.by_words(mask);
            }
        } else if self.rs.ska.start == self.rs.l1.start {
            return block_of_few(self.rs.ska, self.rs.below, self.ps, self.ram);
        }
        self.by_bytes()
    }
}

// ---- blocks

// The newest filters below `below`, for the first `count` positions: which of them have all of these.
pub fn block_below(
    fs: Filters,
    below: usize,
    ps: [u32; 8],
    count: usize,
    main: &[u8],
    ram: &[u8],
) -> Block
    requires by_index { ((Z : ℕ) × (in_full fs.chip.unit fs.count ≤ Z)
        × IndexFits fs.chip.unit (index_of fs.index) Z main.now ram.now)
        × (fs.count ≤ 2 ^ 20) × (0 < below) × (below ≤ fs.count) }
    requires le_count { (1 ≤ count) × (count ≤ 8) × ((i : ℕ) → i < count → get_or ps i 0 < filter_bits fs.chip.unit) }
    ensures { BlockAt fs.chip.unit (index_of fs.index) main.now ram.now fs.count below (take count ps) result }
{
    let chip = fs.chip;
    let e = exponent(chip.unit);
    let start = fs.count / sets::FILTERS_PER_ROUND * sets::FILTERS_PER_ROUND;
    if below > start {
        let l1 = l1_level(chip, e, fs.index, start);
        let ska = ska_level(
            chip,
            e,
            fs.index,
            fs.count / sets::FILTERS_PER_FLUSH * sets::FILTERS_PER_FLUSH,
        );
        let rs = Recent { l1, ska, below };
        let query = Query {
            rs,
            ps: &ps[..count],
            main,
            ram,
        };
        return query.block();
    }
    let l = level_in_sets(chip, e, fs.index, stage_of(chip, e, fs.count), below);
    if l.exponent > 5 {
        return block_by_eights(l, below, &ps[..count], main);
    }
    block_by_words(l, below, ps, count, main)
}
