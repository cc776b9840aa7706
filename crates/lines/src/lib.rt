// What a line of a script does to a volume: its command is performed and answered, and the volume is passed on to the next line.
// Document 01, "Replay program".
#![tactic(auto)]

ghost use Rattle.std.specs.Prelude.{◌≡◌, ◌≤◌, length};
ghost use Rattle.layout.specs.Items.{record_of};
ghost use Rattle.layout.specs.Calls.{lookup};
ghost use Rattle.keys.specs.Key.{key_is};
ghost use Rattle.state.specs.Contract.{record_is, volume, state_after};
ghost use Rattle.script.specs.Lines.{line_key, call};
ghost use Rattle.script.specs.Values.{command_of, answer_of};
ghost use Rattle.script.specs.Script.{perform};
ghost use Rattle.lines.specs.Contract.{performed_of, change_answer, after_line, answer_line};

use geometry::{Sizes, areas};
use keys::Key;
use script::Command;
use script::answers::Answer;
use state::{Record, Refusal, State};

// ---- commands

// The state after a command, and its answer.
#[derive(Clone, Copy)]
pub struct Performed {
    pub state: State,
    pub answer: Answer,
}

// A change is answered by n and d, or by the number of its refusal, which leaves the state handed in.
fn after_change(handed: State, answer: Result<State, Refusal>) -> Performed
    ensures { result ≡ record { state = state_after handed answer; answer = change_answer answer } }
{
    match answer {
        Ok(state) => Performed {
            state,
            answer: Answer::Ok(state.records, state.deletions),
        },
        Err(refusal) => Performed {
            state: handed,
            answer: Answer::No(refusal.into()),
        },
    }
}

// The answer to a lookup; a hit's moves are its record's second word.
fn lookup<'a>(s: State, key: Key, main: &'a [u8], spare: &[u8], ram: &'a [u8]) -> Answer
    ensures { answer_of result ≡ (perform (volume s main.now spare.now ram.now) (call (lookup (key_is key)))).answer }
{
    match lookup::lookup(s, key, main, spare, ram) {
        Err(refusal) => Answer::No(refusal.into()),
        Ok(found) => match found.record {
            None => Answer::Miss(found.pages),
            Some(bytes) => Answer::Hit(words::get32(bytes, areas::MOVES_AT), found.pages),
        },
    }
}

// The record of a line: its goal and free word are 0.
fn level(number: u32, moves: u32) -> Record
    ensures { record_is result ≡ record_of (line_key number) moves 0 0 }
{
    let key = Key { level: number };
    Record {
        key,
        moves,
        goal: 0,
        free: 0,
    }
}

// A command on a volume; a bad line, which asks for none, changes nothing.
pub fn perform(
    s: State,
    q: Option<Command>,
    main: &mut [u8],
    spare: &mut [u8],
    ram: &mut [u8],
) -> Performed
    ensures { performed_of result main.new spare.new ram.new ≡ perform (volume s main.old spare.old ram.old) (command_of q) }
{
    let Some(command) = q else {
        return Performed {
            state: s,
            answer: Answer::Bad,
        };
    };
    match command {
        Command::Format(sector_size, ra_blocks, da_blocks) => {
            let sizes = Sizes {
                sector_size,
                ra_blocks,
                da_blocks,
                hash_count: geometry::DEFAULT_HASH_COUNT,
            };
            after_change(s, format::format(s, sizes, main, spare, ram))
        }
        Command::Insert(number, moves) => {
            after_change(s, calls::insert(s, level(number, moves), main, spare, ram))
        }
        Command::Update(number, moves) => {
            after_change(s, calls::update(s, level(number, moves), main, spare, ram))
        }
        Command::Delete(number) => {
            after_change(s, calls::delete(s, Key { level: number }, main, spare, ram))
        }
        Command::Lookup(number) => Performed {
            state: s,
            answer: lookup(s, Key { level: number }, main, spare, ram),
        },
    }
}

// ---- lines

// The state after a line, and the length of its answer.
#[derive(Clone, Copy)]
pub struct LineReply {
    pub state: State,
    pub length: usize,
}

// A line on a volume: the command is performed and its answer written at the start of `out`.
pub fn answer_line(
    s: State,
    line: &[u8],
    main: &mut [u8],
    spare: &mut [u8],
    ram: &mut [u8],
    out: &mut [u8],
) -> LineReply
    requires { 32 ≤ length out.old }
    ensures { after_line result main.new spare.new ram.new out.new
        ≡ answer_line (volume s main.old spare.old ram.old) line.now out.old }
{
    let p = perform(s, script::parse_line(line), main, spare, ram);
    let length = script::answers::put_answer(p.answer, out);
    LineReply {
        state: p.state,
        length,
    }
}

// ---- the volume between lines

// A volume between two lines: its state. The bytes are lent beside it. (Document 01 names this form, and the two functions below.)
#[derive(Clone, Copy)]
pub struct Held {
    pub state: State,
}

// A line on the volume, which is passed on from one line to the next.
pub fn answer_on(
    v: &mut Held,
    line: &[u8],
    main: &mut [u8],
    spare: &mut [u8],
    ram: &mut [u8],
    out: &mut [u8],
) -> usize
    requires { 32 ≤ length out.old }
    ensures { record { length = result; volume = volume v.new.state main.new spare.new ram.new; out = out.new }
        ≡ answer_line (volume v.old.state main.old spare.old ram.old) line.now out.old }
{
    let c = answer_line(v.state, line, main, spare, ram, out);
    v.state = c.state;
    c.length
}

// The same by value.
pub fn answer_next(
    s: State,
    line: &[u8],
    main: &mut [u8],
    spare: &mut [u8],
    ram: &mut [u8],
    out: &mut [u8],
) -> LineReply
    requires { 32 ≤ length out.old }
    ensures { after_line result main.new spare.new ram.new out.new
        ≡ answer_line (volume s main.old spare.old ram.old) line.now out.old }
{
    let mut v = Held { state: s };
    let n = answer_on(&mut v, line, main, spare, ram, out);
    LineReply {
        state: v.state,
        length: n,
    }
}
