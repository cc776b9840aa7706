// The key of a level, its comparison, and where an entry's two words have it. Document 01, "Records, entries, deletions".
#![tactic(auto)]

ghost use Rattle.std.specs.Prelude.{◌≡◌};
ghost use Rattle.layout.specs.Keys.{key_in, number_in};
ghost use Rattle.keys.specs.Key.{key_is};

// A level's key: equal keys name the same level.
#[derive(Clone, Copy, PartialEq, Eq)]
pub struct Key {
    pub level: u32,
}

// The key in an entry's two words.
pub fn key_in(first: u32, second: u32) -> Key
    ensures { key_is result ≡ key_in first second }
{
    Key { level: first }
}

// The record number in the second of them.
pub fn number_in(second: u32) -> u32
    ensures { result ≡ number_in second }
{
    second
}
