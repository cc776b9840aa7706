// An area that grows at its end. Document 01, "Records, entries, deletions".
ghost use Rattle.std.specs.Prelude.{◌≡◌, ◌^◌, ◌<◌, ◌≤◌};
ghost use Rattle.memory.specs.Power.{log2up};

// Items of `size` bytes, `per_page` to a page, from block `first` on; the page that is not full is in RAM from byte `ram` on.
#[derive(Clone, Copy)]
pub struct Area {
    pub size: usize,
    pub per_page: usize,
    pub first: usize,
    pub ram: usize,
    pub ghost small: { size ≤ 16 },
    pub ghost power: { per_page ≡ 2 ^ log2up per_page },
    pub ghost page: { (0 < per_page) × (per_page ≤ 512) },
    pub ghost near: { (first ≤ 8192) × (ram ≤ 8192) },
}
