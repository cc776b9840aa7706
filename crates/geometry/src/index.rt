// An index over the pages of an area. Document 01, "Filters".
ghost use Rattle.std.specs.Prelude.{◌≤◌};

// An index: its first block and its SKA page in RAM.
#[derive(Clone, Copy)]
pub struct Index {
    pub first: usize,
    pub ska: usize,
    pub ghost near: { first ≤ 20000 },
}
