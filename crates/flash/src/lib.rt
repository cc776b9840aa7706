// Operations of the flash chip on two slices, the main area and the spare area with one byte a sector: programming sectors, erasing
// blocks and looking whether sectors are fresh. Document 01, "The chip and the desk".
// The areas stay two parameters: the C interface lends them so, and the calls' contracts name both.
#![tactic(auto)]

ghost use Rattle.std.specs.Prelude.{◌≡◌, ◌++◌, ◌+◌, ◌*◌, ◌≤◌, ◌<◌, length};
ghost use Rattle.layout.specs.Geometry.{sectors_per_block, sector, block};
ghost use Rattle.layout.specs.Flash.{program, erase, fresh, apply, apply_all, erases, flash_of};
ghost use Rattle.flash.specs.Fresh.{fresh_run, last_programmed};
ghost use Rattle.flash.specs.Sectors.{programmed_row};

use geometry::Chip;

// What erasing writes, to the main area and to the spare area.
const ERASED: u8 = 255;

// What programming a sector writes to its spare byte.
const PROGRAMMED: u8 = 0;

// A spare byte with at least so many ones is fresh: up to three of its bits may be wrong.
const FRESH_ONES: u32 = 5;

// Is the spare byte fresh.
fn is_fresh(byte: u8) -> bool
    ensures { result ≡ fresh byte }
{
    byte.count_ones() >= FRESH_ONES
}

// One sector operation: sector s gets the bytes of src.
pub fn program_sector(chip: Chip, s: usize, src: &[u8], main: &mut [u8], spare: &mut [u8])
    requires src_len { length src.now ≡ sector chip.unit }
    requires in_bounds { (s * sector chip.unit + sector chip.unit ≤ length main.old) × (s < length spare.old) }
    ensures { flash_of main.new spare.new ≡ apply chip.unit (program s src.now) (flash_of main.old spare.old) }
{
    words::copy_at(main, chip.sector_address(s), src);
    spare[s] = PROGRAMMED;
}

// k sectors in a row from sector s on get the bytes of src.
pub fn program_sectors(
    chip: Chip,
    s: usize,
    k: usize,
    src: &[u8],
    main: &mut [u8],
    spare: &mut [u8],
)
    requires src_len { length src.now ≡ k * sector chip.unit }
    requires in_bounds { ((s + k) * sector chip.unit ≤ length main.old) × (s + k ≤ length spare.old) }
    ensures { flash_of main.new spare.new ≡ programmed_row chip.unit s k src.now (flash_of main.old spare.old) }
{
    words::copy_at(main, chip.sector_address(s), src);
    words::fill_at(spare, s, k, PROGRAMMED);
}

// One sector out of two parts: sector s gets the bytes of a, then those of b.
pub fn program_joined(chip: Chip, s: usize, a: &[u8], b: &[u8], main: &mut [u8], spare: &mut [u8])
    requires parts_len { length a.now + length b.now ≡ sector chip.unit }
    requires in_bounds { (s * sector chip.unit + sector chip.unit ≤ length main.old) × (s < length spare.old) }
    ensures { flash_of main.new spare.new
        ≡ apply chip.unit (program s (a.now ++ b.now)) (flash_of main.old spare.old) }
{
    let at = chip.sector_address(s);
    words::copy_at(main, at, a);
    words::copy_at(main, at + a.len(), b);
    spare[s] = PROGRAMMED;
}

// One block operation.
fn erase_block(chip: Chip, b: usize, main: &mut [u8], spare: &mut [u8])
    requires in_main { b * block chip.unit + block chip.unit ≤ length main.old }
    requires in_spare { b * sectors_per_block + sectors_per_block ≤ length spare.old }
    ensures { flash_of main.new spare.new ≡ apply chip.unit (erase b) (flash_of main.old spare.old) }
{
    let at = chip.block_address(b);
    words::fill_at(main, at, chip.block_size(), ERASED);
    let first = Chip::first_sector(b);
    words::fill_at(spare, first, Chip::SECTORS_PER_BLOCK, ERASED);
}

// k blocks in a row.
pub fn erase_blocks(chip: Chip, b: usize, k: usize, main: &mut [u8], spare: &mut [u8])
    requires in_main { (b + k) * block chip.unit ≤ length main.old }
    requires in_spare { (b + k) * sectors_per_block ≤ length spare.old }
    ensures { flash_of main.new spare.new ≡ apply_all chip.unit (erases b k) (flash_of main.old spare.old) }
{
    for i in 0..k {
        erase_block(chip, b + i, main, spare);
    }
}

// Are sectors s, s + stride, .. fresh, k of them. Each spare byte is tested by itself, and all are, so that many are counted at once.
pub fn all_fresh(s: usize, stride: usize, k: usize, spare: &[u8]) -> bool
    requires { s + k * stride < length spare.now + stride }
    ensures { result ≡ fresh_run spare.now stride s k }
{
    let mut all = true;
    for i in 0..k {
        all &= is_fresh(spare[s + i * stride]);
    }
    all
}

// One more than the place, among `count` sectors from sector `first` on in steps of `step`, of the last that is not fresh; 0 if all are
// fresh.
pub fn last_programmed(first: usize, step: usize, count: usize, spare: &[u8]) -> usize
    requires { first + count * step < length spare.now + step }
    ensures { result ≡ last_programmed spare.now step first count }
{
    for k in (0..count).rev() {
        if !is_fresh(spare[first + k * step]) {
            return k + 1;
        }
    }
    0
}
