// The shape of a volume: its chip, its row of the table, and how many blocks its areas have.
ghost use Rattle.std.specs.Prelude.{◌≡◌, ◌≤◌};
ghost use Rattle.memory.specs.Power.{log2up};
ghost use Rattle.laws.specs.Units.{UnitIs};
ghost use Rattle.layout.specs.Geometry.{records_per_page, entries_per_page, filter_bits};

use crate::{Chip, SizeRow};

// A volume's chip, its row of the table, the blocks of records and of deletions, and the positions of a key in a filter.
#[derive(Clone, Copy)]
pub struct Geometry {
    pub chip: Chip,
    pub row: SizeRow,
    pub ra: usize,
    pub da: usize,
    pub hashes: usize,
    pub ghost power: { UnitIs chip.unit (log2up chip.unit) },
    pub ghost records: { row.records ≡ records_per_page chip.unit },
    pub ghost entries: { row.entries ≡ entries_per_page chip.unit },
    pub ghost bits: { row.bits ≡ filter_bits chip.unit },
    pub ghost ra_allowed: { (1 ≤ ra) × (ra ≤ 4096) },
    pub ghost da_allowed: { (1 ≤ da) × (da ≤ 4096) },
    pub ghost hashes_allowed: { (1 ≤ hashes) × (hashes ≤ 8) },
}
