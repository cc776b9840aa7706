// Loading a tab: its rows in turn, up to the first that is malformed or refused. Document 02, requests 1, 6 and 8.
#![tactic(auto)]

ghost use Rattle.std.specs.Prelude.{◌≡◌, drop};
ghost use Rattle.layout.specs.Hash.{fnv_family};
ghost use Rattle.layout.specs.Header.{on_pages};
ghost use Rattle.layout.specs.Several.{put_call};
ghost use Rattle.layout.specs.Budgets.{call_cut};
ghost use Rattle.state.specs.Contract.{record_is, volume, cut_of, cut_by};
ghost use Rattle.tab.specs.Reader.{rows_of};
ghost use Rattle.load.specs.Load.{load_read_by, row_whole, load_whole};
ghost use Rattle.load.specs.Contract.{row_request, not_loaded, loaded_by, Judged};

use geometry::Geometry;
use keys::Key;
use state::{Cut, Record, Refusal, Request, State};
use tab::reader;

// The answer of a load: the rows that were loaded, the state after them, and how it ended.
#[derive(Clone, Copy)]
pub struct Loaded {
    pub rows: u32,
    pub state: State,
    pub ended: Result<(), Refusal>,
}

// A load that ends before its rows.
fn not_loaded(state: State, ended: Result<(), Refusal>) -> Loaded
    ensures { result ≡ not_loaded state ended }
{
    Loaded {
        rows: 0,
        state,
        ended,
    }
}

// What a row asks for, by its level's live record: an update if there is one, else an insert.
fn row_request(record: Record, live: Option<u32>) -> Request
    ensures { result ≡ row_request «record» live }
{
    match live {
        None => Request::Insert(record),
        Some(_) => Request::Update(record),
    }
}

// A row's call, with a budget of steps; its level is searched once, and the volume is judged good already.
fn load_row(
    budget: usize,
    g: Geometry,
    s: State,
    record: Record,
    main: &mut [u8],
    spare: &mut [u8],
    ram: &mut [u8],
) -> Result<Cut, Refusal>
    requires { Judged g (volume s main.old spare.old ram.old) }
    ensures { cut_by s result main.new spare.new ram.new ≡ cut_of (call_cut fnv_family budget (volume s main.old spare.old ram.old)
        (put_call fnv_family (on_pages (volume s main.old spare.old ram.old)) (record_is «record»))) }
{
    let r = calls::resolve_judged(Ok(g), s, record.key, main, spare, ram)?;
    let q = row_request(record, r.live);
    calls::perform_resolved(budget, s, q, Ok(r), main, spare, ram)
}

// The rows from a place of the tab on. A row that is loaded is one more record, so they can be counted; it leaves a volume that is judged
// good again, so that the judge is asked once for all rows. The loop goes from row to row, each of which tells where the next begins.
fn load_rows(
    g: Geometry,
    s: State,
    tab: &[u8],
    at: usize,
    main: &mut [u8],
    spare: &mut [u8],
    ram: &mut [u8],
) -> Loaded
    requires { Judged g (volume s main.old spare.old ram.old) }
    ensures { loaded_by result main.new spare.new ram.new
        ≡ load_read_by (row_whole fnv_family) (volume s main.old spare.old ram.old) (rows_of (drop at tab.now)) }
{
    let mut state = s;
    let mut place = at;
    let mut rows: u32 = 0;
    while place < tab.len() {
        let Some(row) = reader::row_at(tab, place) else {
            return Loaded {
                rows,
                state,
                ended: Err(Refusal::Malformed),
            };
        };
        let record = Record {
            key: Key { level: row.level },
            moves: row.moves,
            goal: row.goal,
            free: 0,
        };
        match load_row(state::ENOUGH, g, state, record, main, spare, ram) {
            Ok(c) => {
                state = c.state;
            }
            Err(i) => {
                return Loaded {
                    rows,
                    state,
                    ended: Err(i),
                };
            }
        }
        rows += 1;
        place = row.next;
    }
    Loaded {
        rows,
        state,
        ended: Ok(()),
    }
}

// Loads a tab: refusals 1, 2 and 10, then its header, then its rows; a tab of no bytes has neither.
pub fn load(s: State, tab: &[u8], main: &mut [u8], spare: &mut [u8], ram: &mut [u8]) -> Loaded
    ensures { loaded_by result main.new spare.new ram.new ≡ load_whole fnv_family (volume s main.old spare.old ram.old) tab.now }
{
    let g = match header::judge(s, main, spare, ram) {
        Ok(g) => g,
        Err(i) => return not_loaded(s, Err(i)),
    };
    if tab.is_empty() {
        return not_loaded(s, Ok(()));
    }
    match reader::header_at(tab) {
        None => not_loaded(s, Err(Refusal::Malformed)),
        Some(next) => load_rows(g, s, tab, next, main, spare, ram),
    }
}
