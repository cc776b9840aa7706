// Lookup: where a level's record lies. Document 01, "Calls"; document 02, request 8: 10.
#![tactic(auto)]

ghost use Rattle.std.specs.Prelude.{◌≡◌, ◌+◌, ◌≤◌, length};
ghost use Rattle.layout.specs.Hash.{fnv_family};
ghost use Rattle.layout.specs.Calls.{lookup, answer};
ghost use Rattle.layout.specs.Budgets.{call_whole};
ghost use Rattle.layout.specs.Items.{bytes_at, source};
ghost use Rattle.geometry.specs.Shape.{shape, place};
ghost use Rattle.keys.specs.Key.{key_is};
ghost use Rattle.state.specs.Contract.{volume};
ghost use Rattle.state.specs.Judge.{VolumeFits};
ghost use Rattle.lookup.specs.Results.{lookup_of, find_numbers, answer_numbers, looked_numbers, looked_part, place_in, placed_part};

use geometry::{Geometry, Place, areas};
use keys::Key;
use search::End;
use state::{Refusal, State};

// Where a level's record lies: its 16 bytes start at `place`, none for a miss. And the pages of entries and of deletions opened.
#[derive(Clone, Copy)]
pub struct Found {
    pub place: Option<Place>,
    pub pages: u32,
    pub deletion_pages: u64,
}

// In a volume that is not refused by 1, 2 or 10.
fn find_in(
    g: Geometry,
    s: State,
    key: Key,
    main: &[u8],
    spare: &[u8],
    ram: &[u8],
) -> Result<Found, Refusal>
    requires { VolumeFits (volume s main.now spare.now ram.now) g }
    ensures { find_numbers result ≡ lookup_of (answer fnv_family (shape g) (volume s main.now spare.now ram.now) (lookup (key_is key))) }
{
    let n = s.records as usize;
    let f = search::search(search::all(g, n, s.deletions as usize), key, main, ram);
    let place = match f.end {
        End::Corrupt => {
            return Err(Refusal::CorruptEntry);
        }
        End::Nothing => None,
        End::Live(j) => Some(geometry::item_place(g, geometry::record_area(g), n, j as usize)),
    };
    Ok(Found {
        place,
        pages: f.opened,
        deletion_pages: f.da_pages,
    })
}

// Where a level's newest record lies.
pub fn find(s: State, key: Key, main: &[u8], spare: &[u8], ram: &[u8]) -> Result<Found, Refusal>
    ensures { find_numbers result ≡ lookup_of (call_whole fnv_family (volume s main.now spare.now ram.now) (lookup (key_is key))) }
{
    let g = header::judge(s, main, spare, ram)?;
    let n = state::pages_end(ram);
    find_in(g, s, key, main, spare, &ram[..n])
}

// The record at a place inside the main area or the RAM.
fn record_at<'a>(p: Place, main: &'a [u8], ram: &'a [u8]) -> &'a [u8]
    requires { (place p).at + 16 ≤ length (source main.now ram.now (place p)) }
    ensures { (result.now ≡ bytes_at main.now ram.now (place p) 16)
        × (result.ref_ptr ≡ place_in main.entry.ref_ptr ram.entry.ref_ptr (place p)) }
{
    match p {
        Place::Ram(at) => &ram[at..at + areas::RECORD_SIZE],
        Place::Flash(at) => &main[at..at + areas::RECORD_SIZE],
    }
}

// What a lookup hands out: the 16 bytes of a level's newest record where they lie, none for a miss. And the pages of entries and of
// deletions opened.
#[derive(Clone, Copy)]
pub struct Looked<'a> {
    pub record: Option<&'a [u8]>,
    pub pages: u32,
    pub deletion_pages: u64,
}

// A level's newest record: a part of the main area or of the RAM.
pub fn lookup<'a>(
    s: State,
    key: Key,
    main: &'a [u8],
    spare: &[u8],
    ram: &'a [u8],
) -> Result<Looked<'a>, Refusal>
    ensures part { looked_part result
        ≡ placed_part main.entry.ref_ptr ram.entry.ref_ptr
        (call_whole fnv_family (volume s main.now spare.now ram.now) (lookup (key_is key))).outcome }
    ensures numbers { looked_numbers result
        ≡ answer_numbers (lookup_of (call_whole fnv_family (volume s main.now spare.now ram.now) (lookup (key_is key)))) }
{
    let f = find(s, key, main, spare, ram)?;
    // Not by `map`: its closure would have to require again what `record_at` does.
    let record = match f.place {
        Some(p) => Some(record_at(p, main, ram)),
        None => None,
    };
    Ok(Looked {
        record,
        pages: f.pages,
        deletion_pages: f.deletion_pages,
    })
}
