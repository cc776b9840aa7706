// The level store as a C library: what include/level_store.h and the Rust tests call. Each function is the store's call; any state and any
// bytes may be handed in. Those with a budget of steps are for tests of power cuts.
// A caller passes pointers and numbers of 32 and 64 bits, and nothing is returned: every processor passes these alike, but not structs,
// `bool` and narrow results. Which number is which, specs/Numbers.antt says. A number of 64 bits has a reference of its own, so that no
// halves are put together.
#![tactic(auto)]

ghost use Rattle.std.specs.Prelude.{◌≡◌, ◌<◌};
ghost use Rattle.layout.specs.Geometry.{sizes_of};
ghost use Rattle.layout.specs.Hash.{fnv_family};
ghost use Rattle.layout.specs.Items.{record_of};
ghost use Rattle.layout.specs.Calls.{insert, update, delete, lookup};
ghost use Rattle.layout.specs.Budgets.{format_cut, format_whole, call_cut, call_whole, restart_cut, restart_whole};
ghost use Rattle.state.specs.Contract as state;
ghost use Rattle.state.specs.Contract.{record_is, effect_of, volume, cut_of};
ghost use Rattle.load.specs.Load.{load_whole};
ghost use Rattle.load.specs.Contract as load;
ghost use Rattle.lookup.specs.Results.{find_numbers, lookup_of};
ghost use Rattle.capi.specs.Numbers as numbers;

use geometry::{Place, Sizes};
use keys::Key;
use load::Loaded;
use lookup::Found;
use state::{Cut, Progress, Record, Refusal, Request, State};

// ---- numbers

// The state that six numbers make.
fn state_of(words: &[u32; 6]) -> State
    ensures { result ≡ numbers.state_of words.now }
{
    let [
        sector_size,
        ra_blocks,
        da_blocks,
        hash_count,
        records,
        deletions,
    ] = *words;
    State {
        sizes: Sizes {
            sector_size,
            ra_blocks,
            da_blocks,
            hash_count,
        },
        records,
        deletions,
    }
}

// The six numbers of a state.
fn words_of(s: State) -> [u32; 6]
    ensures { numbers.state_of result ≡ s }
{
    let z = s.sizes;
    [
        z.sector_size,
        z.ra_blocks,
        z.da_blocks,
        z.hash_count,
        s.records,
        s.deletions,
    ]
}

// The record that four numbers make.
fn record_of(key: u32, moves: u32, goal: u32, word: u32) -> Record
    ensures { record_is result ≡ record_of key moves goal word }
{
    Record {
        key: Key { level: key },
        moves,
        goal,
        free: word,
    }
}

// A refusal's number, 0 for none.
fn number_of(refusal: Option<Refusal>) -> u32
    ensures { result ≡ numbers.number_or refusal }
{
    refusal.map_or(0, u32::from)
}

// A changing call's answer: the refusal, then the state, which is the one handed in where the call is refused.
fn change_words(handed: State, answer: Result<State, Refusal>) -> [u32; 7]
    ensures { numbers.change_of result ≡ numbers.change_is handed answer }
{
    let refusal = number_of(answer.err());
    let [a, b, c, d, e, f] = words_of(answer.unwrap_or(handed));
    [refusal, a, b, c, d, e, f]
}

// The answer of a call with a budget: the refusal, whether it did all of its steps, then the state; and how many steps it did. A refused
// call does none.
fn cut_words(handed: State, answer: Result<Cut, Refusal>) -> ([u32; 8], u64)
    ensures { numbers.cut_of result.0 result.1 ≡ numbers.cut_is handed answer }
{
    let refusal = number_of(answer.err());
    let none = Progress {
        steps: 0,
        finished: false,
    };
    let cut = answer.unwrap_or(Cut {
        progress: none,
        state: handed,
    });
    let finished = u32::from(cut.progress.finished);
    let [a, b, c, d, e, f] = words_of(cut.state);
    (
        [refusal, finished, a, b, c, d, e, f],
        cut.progress.steps as u64,
    )
}

// A load's answer: the refusal, the rows, then the state.
fn loaded_words(loaded: Loaded) -> [u32; 8]
    ensures { numbers.loaded_of result ≡ numbers.loaded_is loaded }
{
    let refusal = number_of(loaded.ended.err());
    let [a, b, c, d, e, f] = words_of(loaded.state);
    [refusal, loaded.rows, a, b, c, d, e, f]
}

// A lookup's answer: the refusal, whether there is a record, the pages of keys opened, whether it lies in the RAM, its offset; and the
// pages of deletions opened.
fn lookup_words(answer: Result<Found, Refusal>) -> ([u32; 5], u64)
    requires { (find_numbers answer).offset < 4294967296 }
    ensures { numbers.lookup_result_of result.0 result.1 ≡ find_numbers answer }
{
    let refusal = number_of(answer.err());
    let found = answer.unwrap_or(Found {
        place: None,
        pages: 0,
        deletion_pages: 0,
    });
    let (is_found, in_ram, offset) = match found.place {
        Some(Place::Ram(at)) => (1, 1, at),
        Some(Place::Flash(at)) => (1, 0, at),
        None => (0, 0, 0),
    };
    (
        [refusal, is_found, found.pages, in_ram, offset as u32],
        found.deletion_pages,
    )
}

// ---- the calls

#[unsafe(no_mangle)]
pub extern "C" fn level_store_format_numbers(
    answer: &mut [u32; 7],
    old: &[u32; 6],
    sector_size: u32,
    ra_blocks: u32,
    da_blocks: u32,
    hash_count: u32,
    data: &mut [u8],
    spare: &mut [u8],
    ram: &mut [u8],
)
    ensures { numbers.change_effect (numbers.change_of answer.new) «data».new spare.new ram.new
        ≡ effect_of (format_whole (volume (numbers.state_of old.now) «data».old spare.old ram.old)
        (sizes_of sector_size ra_blocks da_blocks hash_count)) }
{
    let handed = state_of(old);
    let new = Sizes {
        sector_size,
        ra_blocks,
        da_blocks,
        hash_count,
    };
    let formatted = format::format(handed, new, data, spare, ram);
    *answer = change_words(handed, formatted);
}

#[unsafe(no_mangle)]
pub extern "C" fn level_store_insert_numbers(
    answer: &mut [u32; 7],
    state: &[u32; 6],
    key: u32,
    moves: u32,
    goal: u32,
    word: u32,
    data: &mut [u8],
    spare: &mut [u8],
    ram: &mut [u8],
)
    ensures { numbers.change_effect (numbers.change_of answer.new) «data».new spare.new ram.new
        ≡ effect_of (call_whole fnv_family (volume (numbers.state_of state.now) «data».old spare.old ram.old)
        (insert (record_of key moves goal word))) }
{
    let handed = state_of(state);
    let record = record_of(key, moves, goal, word);
    let inserted = calls::insert(handed, record, data, spare, ram);
    *answer = change_words(handed, inserted);
}

#[unsafe(no_mangle)]
pub extern "C" fn level_store_update_numbers(
    answer: &mut [u32; 7],
    state: &[u32; 6],
    key: u32,
    moves: u32,
    goal: u32,
    word: u32,
    data: &mut [u8],
    spare: &mut [u8],
    ram: &mut [u8],
)
    ensures { numbers.change_effect (numbers.change_of answer.new) «data».new spare.new ram.new
        ≡ effect_of (call_whole fnv_family (volume (numbers.state_of state.now) «data».old spare.old ram.old)
        (update (record_of key moves goal word))) }
{
    let handed = state_of(state);
    let record = record_of(key, moves, goal, word);
    let updated = calls::update(handed, record, data, spare, ram);
    *answer = change_words(handed, updated);
}

#[unsafe(no_mangle)]
pub extern "C" fn level_store_delete_numbers(
    answer: &mut [u32; 7],
    state: &[u32; 6],
    key: u32,
    data: &mut [u8],
    spare: &mut [u8],
    ram: &mut [u8],
)
    ensures { numbers.change_effect (numbers.change_of answer.new) «data».new spare.new ram.new
        ≡ effect_of (call_whole fnv_family (volume (numbers.state_of state.now) «data».old spare.old ram.old) (delete key)) }
{
    let handed = state_of(state);
    let deleted = calls::delete(handed, Key { level: key }, data, spare, ram);
    *answer = change_words(handed, deleted);
}

#[unsafe(no_mangle)]
pub extern "C" fn level_store_lookup_numbers(
    answer: &mut [u32; 5],
    deletion_count: &mut u64,
    state: &[u32; 6],
    key: u32,
    data: &[u8],
    spare: &[u8],
    ram: &[u8],
)
    ensures { numbers.lookup_result_of answer.new deletion_count.new
        ≡ lookup_of (call_whole fnv_family (volume (numbers.state_of state.now) «data».now spare.now ram.now) (lookup key)) }
{
    let found = lookup::find(state_of(state), Key { level: key }, data, spare, ram);
    (*answer, *deletion_count) = lookup_words(found);
}

#[unsafe(no_mangle)]
pub extern "C" fn level_store_load_numbers(
    answer: &mut [u32; 8],
    state: &[u32; 6],
    tab: &[u8],
    data: &mut [u8],
    spare: &mut [u8],
    ram: &mut [u8],
)
    ensures { numbers.loaded_by (numbers.loaded_of answer.new) «data».new spare.new ram.new
        ≡ load_whole fnv_family (volume (numbers.state_of state.now) «data».old spare.old ram.old) tab.now }
{
    let loaded = load::load(state_of(state), tab, data, spare, ram);
    *answer = loaded_words(loaded);
}

// Finishes a pending call.
#[unsafe(no_mangle)]
pub extern "C" fn level_store_restart_numbers(
    answer: &mut [u32; 7],
    state: &[u32; 6],
    data: &mut [u8],
    spare: &mut [u8],
    ram: &mut [u8],
)
    ensures { numbers.change_effect (numbers.change_of answer.new) «data».new spare.new ram.new
        ≡ effect_of (restart_whole fnv_family (volume (numbers.state_of state.now) «data».old spare.old ram.old)) }
{
    let handed = state_of(state);
    let restarted = restart::restart(handed, data, spare, ram);
    *answer = change_words(handed, restarted);
}

// ---- the same with a budget of steps

#[unsafe(no_mangle)]
pub extern "C" fn level_store_format_cut_numbers(
    answer: &mut [u32; 8],
    steps: &mut u64,
    budget: u64,
    old: &[u32; 6],
    sector_size: u32,
    ra_blocks: u32,
    da_blocks: u32,
    hash_count: u32,
    data: &mut [u8],
    spare: &mut [u8],
    ram: &mut [u8],
)
    ensures { numbers.cut_by (numbers.cut_of answer.new steps.new) «data».new spare.new ram.new
        ≡ cut_of (format_cut budget (volume (numbers.state_of old.now) «data».old spare.old ram.old)
        (sizes_of sector_size ra_blocks da_blocks hash_count)) }
{
    let handed = state_of(old);
    let new = Sizes {
        sector_size,
        ra_blocks,
        da_blocks,
        hash_count,
    };
    let formatted = format::format_for(budget as usize, handed, new, data, spare, ram);
    (*answer, *steps) = cut_words(handed, formatted);
}

#[unsafe(no_mangle)]
pub extern "C" fn level_store_insert_cut_numbers(
    answer: &mut [u32; 8],
    steps: &mut u64,
    budget: u64,
    state: &[u32; 6],
    key: u32,
    moves: u32,
    goal: u32,
    word: u32,
    data: &mut [u8],
    spare: &mut [u8],
    ram: &mut [u8],
)
    ensures { numbers.cut_by (numbers.cut_of answer.new steps.new) «data».new spare.new ram.new
        ≡ cut_of (call_cut fnv_family budget (volume (numbers.state_of state.now) «data».old spare.old ram.old)
        (insert (record_of key moves goal word))) }
{
    let handed = state_of(state);
    let request = Request::Insert(record_of(key, moves, goal, word));
    let inserted = calls::perform_for(budget as usize, handed, request, data, spare, ram);
    (*answer, *steps) = cut_words(handed, inserted);
}

#[unsafe(no_mangle)]
pub extern "C" fn level_store_update_cut_numbers(
    answer: &mut [u32; 8],
    steps: &mut u64,
    budget: u64,
    state: &[u32; 6],
    key: u32,
    moves: u32,
    goal: u32,
    word: u32,
    data: &mut [u8],
    spare: &mut [u8],
    ram: &mut [u8],
)
    ensures { numbers.cut_by (numbers.cut_of answer.new steps.new) «data».new spare.new ram.new
        ≡ cut_of (call_cut fnv_family budget (volume (numbers.state_of state.now) «data».old spare.old ram.old)
        (update (record_of key moves goal word))) }
{
    let handed = state_of(state);
    let request = Request::Update(record_of(key, moves, goal, word));
    let updated = calls::perform_for(budget as usize, handed, request, data, spare, ram);
    (*answer, *steps) = cut_words(handed, updated);
}

#[unsafe(no_mangle)]
pub extern "C" fn level_store_delete_cut_numbers(
    answer: &mut [u32; 8],
    steps: &mut u64,
    budget: u64,
    state: &[u32; 6],
    key: u32,
    data: &mut [u8],
    spare: &mut [u8],
    ram: &mut [u8],
)
    ensures { numbers.cut_by (numbers.cut_of answer.new steps.new) «data».new spare.new ram.new
        ≡ cut_of (call_cut fnv_family budget (volume (numbers.state_of state.now) «data».old spare.old ram.old) (delete key)) }
{
    let handed = state_of(state);
    let request = Request::Delete(Key { level: key });
    let deleted = calls::perform_for(budget as usize, handed, request, data, spare, ram);
    (*answer, *steps) = cut_words(handed, deleted);
}

#[unsafe(no_mangle)]
pub extern "C" fn level_store_restart_cut_numbers(
    answer: &mut [u32; 8],
    steps: &mut u64,
    budget: u64,
    state: &[u32; 6],
    data: &mut [u8],
    spare: &mut [u8],
    ram: &mut [u8],
)
    ensures { numbers.cut_by (numbers.cut_of answer.new steps.new) «data».new spare.new ram.new
        ≡ cut_of (restart_cut fnv_family budget (volume (numbers.state_of state.now) «data».old spare.old ram.old)) }
{
    let handed = state_of(state);
    let restarted = restart::restart_for(budget as usize, handed, data, spare, ram);
    (*answer, *steps) = cut_words(handed, restarted);
}
