// The header of the RAM: the state and the pending call. Document 02, request 8.
#![tactic(auto)]

ghost use Rattle.std.specs.Prelude.{◌≡◌, ◌++◌, ◌-◌, ◌≤◌, ◌<◌, length, take};
ghost use Rattle.memory.specs.Words.{words_bytes};
ghost use Rattle.layout.specs.Header.{header_size, state_size, pages, header, on_pages, header_word, state_in, pending_in};
ghost use Rattle.layout.specs.Header.{state_words, header_bytes, intent_words, format_words, no_intent};
ghost use Rattle.geometry.specs.Shape.{sizes_is};
ghost use Rattle.state.specs.Contract.{state_is, call_of, volume};
ghost use Rattle.state.specs.Judge.{GoodFits};
ghost use Rattle.header.specs.Header.{idle_judgement, pending_is, call_words, kind_with, kind_number};

use geometry::{Geometry, Sizes, areas};
use keys::Key;
use state::{Record, Refusal, Request, State};

// Its words: the state's are S, R, D, k, n, d.
const KIND: usize = 6;

const ARGUMENTS: usize = 7;

// Bytes of the state's words, and of those behind them.
const STATE_SIZE: usize = 24;

const INTENT_SIZE: usize = 40;

// ---- the kinds of a pending call

// A kind, by its number in the header.
#[derive(Clone, Copy, PartialEq, Eq)]
enum Kind {
    Nothing = 0,
    Insert = 1,
    Update = 2,
    Delete = 3,
    Format = 4,
}

// A number that no kind has.
#[derive(Clone, Copy)]
struct UnknownKind;

impl From<Kind> for u32 {
    ghost from_gives = { λ k n. n ≡ kind_number k };

    fn from(k: Kind) -> u32 {
        k as u32
    }
}

impl TryFrom<u32> for Kind {
    type Error = UnknownKind;

    ghost try_from_gives = { λ n r. r ≡ kind_with n };

    fn try_from(n: u32) -> Result<Kind, UnknownKind> {
        match n {
            0 => Ok(Kind::Nothing),
            1 => Ok(Kind::Insert),
            2 => Ok(Kind::Update),
            3 => Ok(Kind::Delete),
            4 => Ok(Kind::Format),
            _ => Err(UnknownKind),
        }
    }
}

// ---- what is read

// What the header says of a pending call.
#[derive(Clone, Copy)]
pub enum Pending {
    Nothing,
    Change(Request),
    Format(Sizes),
    Unknown,
}

// Word i of the header.
fn word(ram: &[u8], i: usize) -> u32
    requires { (header_size ≤ length ram.now) × (i < 16) }
    ensures { result ≡ header_word ram.now i }
{
    words::get32(ram, state::pages_end(ram) + i * areas::WORD_SIZE)
}

// The state.
pub fn state_in(ram: &[u8]) -> State
    requires { header_size ≤ length ram.now }
    ensures { state_is result ≡ state_in ram.now }
{
    let sizes = Sizes {
        sector_size: word(ram, 0),
        ra_blocks: word(ram, 1),
        da_blocks: word(ram, 2),
        hash_count: word(ram, 3),
    };
    State {
        sizes,
        records: word(ram, 4),
        deletions: word(ram, 5),
    }
}

// The pending call; words behind its arguments are not looked at.
pub fn pending_in(ram: &[u8]) -> Pending
    requires { header_size ≤ length ram.now }
    ensures { pending_is result ≡ pending_in ram.now }
{
    let a = word(ram, ARGUMENTS);
    let b = word(ram, ARGUMENTS + 1);
    let c = word(ram, ARGUMENTS + 2);
    let d = word(ram, ARGUMENTS + 3);
    let key = Key { level: a };
    let record = Record {
        key,
        moves: b,
        goal: c,
        free: d,
    };
    match Kind::try_from(word(ram, KIND)) {
        Ok(Kind::Nothing) => Pending::Nothing,
        Ok(Kind::Insert) => Pending::Change(Request::Insert(record)),
        Ok(Kind::Update) => Pending::Change(Request::Update(record)),
        Ok(Kind::Delete) => Pending::Change(Request::Delete(key)),
        Ok(Kind::Format) => Pending::Format(Sizes {
            sector_size: a,
            ra_blocks: b,
            da_blocks: c,
            hash_count: d,
        }),
        Err(UnknownKind) => Pending::Unknown,
    }
}

// Judges a state that is handed in: refusals 1 and 2, then 10 where a call is pending.
pub fn judge(s: State, main: &[u8], spare: &[u8], ram: &[u8]) -> Result<Geometry, Refusal>
    ensures equal { result ≡ idle_judgement (volume s main.now spare.now ram.now) }
    ensures fits { GoodFits (on_pages (volume s main.now spare.now ram.now)) result }
{
    let g = state::judge(s, main, spare, ram)?;
    if word(ram, KIND) != u32::from(Kind::Nothing) {
        return Err(Refusal::Pending);
    }
    Ok(g)
}

// ---- what is stored

// The bytes of the state's words.
fn state_bytes(s: State) -> [u8; STATE_SIZE]
    ensures { result ≡ words_bytes (state_words (state_is s)) }
{
    let mut b = [0u8; STATE_SIZE];
    let ws = [
        s.sizes.sector_size,
        s.sizes.ra_blocks,
        s.sizes.da_blocks,
        s.sizes.hash_count,
        s.records,
        s.deletions,
    ];
    words::put_words(&mut b, 0, &ws);
    b
}

// The bytes of a kind and four arguments, zeros after.
fn intent_bytes(kind: Kind, a: u32, b: u32, c: u32, d: u32) -> [u8; INTENT_SIZE]
    ensures { result ≡ words_bytes (call_words (kind_number kind) a b c d) }
{
    let mut r = [0u8; INTENT_SIZE];
    let ws = [u32::from(kind), a, b, c, d];
    words::put_words(&mut r, 0, &ws);
    r
}

// Those of a changing call.
fn request_bytes(q: Request) -> [u8; INTENT_SIZE]
    ensures { result ≡ words_bytes (intent_words (call_of q)) }
{
    match q {
        Request::Insert(r) => intent_bytes(Kind::Insert, r.key.level, r.moves, r.goal, r.free),
        Request::Update(r) => intent_bytes(Kind::Update, r.key.level, r.moves, r.goal, r.free),
        Request::Delete(key) => intent_bytes(Kind::Delete, key.level, 0, 0, 0),
    }
}

// The words of the state and those of the intent.
fn put_header(s: State, intent: &[u8], ram: &mut [u8])
    requires { (header_size ≤ length ram.old) × (length intent.now ≡ 40) }
    ensures { ram.new ≡ pages ram.old ++ (words_bytes (state_words (state_is s)) ++ intent.now) }
{
    let at = state::pages_end(ram);
    let b = state_bytes(s);
    words::copy_at(ram, at, &b);
    words::copy_at(ram, at + STATE_SIZE, intent);
}

// The intent of a changing call, and the state handed over.
pub fn intend(s: State, q: Request, ram: &mut [u8])
    requires { header_size ≤ length ram.old }
    ensures { ram.new ≡ pages ram.old ++ header_bytes (state_is s) (intent_words (call_of q)) }
{
    let intent = request_bytes(q);
    put_header(s, &intent, ram);
}

// The intent of a format; the state's words stay.
pub fn intend_format(sizes: Sizes, ram: &mut [u8])
    requires { header_size ≤ length ram.old }
    ensures { ram.new
        ≡ pages ram.old ++ (take state_size (header ram.old) ++ words_bytes (format_words (sizes_is sizes))) }
{
    let intent = intent_bytes(
        Kind::Format,
        sizes.sector_size,
        sizes.ra_blocks,
        sizes.da_blocks,
        sizes.hash_count,
    );
    let at = state::pages_end(ram) + STATE_SIZE;
    words::copy_at(ram, at, &intent);
}

// The new state, and no intent.
pub fn clear(s: State, ram: &mut [u8])
    requires { header_size ≤ length ram.old }
    ensures { ram.new ≡ pages ram.old ++ header_bytes (state_is s) no_intent }
{
    let intent = [0u8; INTENT_SIZE];
    put_header(s, &intent, ram);
}
