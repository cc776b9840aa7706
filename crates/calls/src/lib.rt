// The changing calls insert, update and delete, by one way: 1, 2, 10, 8, then 3 or 4 by whether the key is live, then 5, 6, 7 or the change
// in steps; and the same of a pending call by a restart. Document 01, "Calls"; document 02, request 8.
#![tactic(auto)]

ghost use Rattle.std.specs.Prelude.{◌≡◌, false, ◌≤◌, length, Result, Ok};
ghost use Rattle.layout.specs.Hash.{fnv_family};
ghost use Rattle.layout.specs.Calls as layout;
ghost use Rattle.layout.specs.Calls.{key_of};
ghost use Rattle.layout.specs.Header.{header_size, pages, on_pages, changing, pending_in};
ghost use Rattle.layout.specs.Budgets.{last_steps, call_cut, call_whole, restart_cut};
ghost use Rattle.geometry.specs.Shape.{shape};
ghost use Rattle.keys.specs.Key.{key_is};
ghost use Rattle.state.specs.Contract.{record_is, call_of, volume, effect_of, change_effect, cut_of, cut_by, memory_of, Ran};
ghost use Rattle.state.specs.Judge.{VolumeFits, GoodFits};
ghost use Rattle.planning.specs.Edits.{programs_in};
ghost use Rattle.changes.specs.Tasks.{HasRoom, Prepared, task_on, task_slots, task_plan, task_result};
ghost use Rattle.calls.specs.Resolve.{resolved_by, resolved_of, ResolvedFits};
ghost use Rattle.calls.specs.Request.{decision_of, Decided, cut_at};

use changes::{Edit, Task};
use geometry::Geometry;
use keys::Key;
use plan::Plan;
use search::End;
use state::{Cut, Progress, Record, Refusal, Request, State};

// ---- a key

// The volume's geometry and, of a live key, its record's number.
#[derive(Clone, Copy)]
pub struct Resolved {
    pub g: Geometry,
    pub live: Option<u32>,
}

// The judge's refusal, or 8, or whether the key is live.
pub fn resolve_judged(
    j: Result<Geometry, Refusal>,
    s: State,
    key: Key,
    main: &[u8],
    spare: &[u8],
    ram: &[u8],
) -> Result<Resolved, Refusal>
    requires { GoodFits (on_pages (volume s main.now spare.now ram.now)) j }
    ensures equal { result ≡ resolved_by j (on_pages (volume s main.now spare.now ram.now)) (key_is key) }
    ensures fits { ResolvedFits (on_pages (volume s main.now spare.now ram.now)) result }
{
    let g = j?;
    let n = state::pages_end(ram);
    let v = search::all(g, s.records as usize, s.deletions as usize);
    let f = search::search(v, key, main, &ram[0..n]);
    match f.end {
        End::Corrupt => Err(Refusal::CorruptEntry),
        End::Nothing => Ok(Resolved { g, live: None }),
        End::Live(j) => Ok(Resolved { g, live: Some(j) }),
    }
}

// Refusals 1, 2, 10 and 8, then whether the key is live.
pub fn resolve(
    s: State,
    key: Key,
    main: &[u8],
    spare: &[u8],
    ram: &[u8],
) -> Result<Resolved, Refusal>
    ensures equal { result ≡ resolved_of (volume s main.now spare.now ram.now) (key_is key) }
    ensures fits { ResolvedFits (on_pages (volume s main.now spare.now ram.now)) result }
{
    let j = header::judge(s, main, spare, ram);
    resolve_judged(j, s, key, main, spare, ram)
}

// ---- what a call does

// The key that a call names.
fn key_of(q: Request) -> Key
    ensures { key_is result ≡ key_of (call_of q) }
{
    match q {
        Request::Insert(record) | Request::Update(record) => record.key,
        Request::Delete(key) => key,
    }
}

// What a call changes by whether its key is live, or refusal 3 or 4: an update of a key that is not live inserts it.
fn decide(q: Request, live: Option<u32>) -> Result<Edit, Refusal>
    ensures { result ≡ decision_of q live }
{
    match (q, live) {
        (Request::Insert(record) | Request::Update(record), None) => Ok(Edit::Insert(record)),
        (Request::Insert(_), Some(_)) => Err(Refusal::Present),
        (Request::Update(record), Some(old)) => Ok(Edit::Replace(old, record)),
        (Request::Delete(_), None) => Err(Refusal::Absent),
        (Request::Delete(_), Some(old)) => Ok(Edit::Delete(old)),
    }
}

// ---- in steps

// The steps of a change behind its intent, from operation `from` of its plan on: the operations, then the RAM, whose header gets the new
// state.
fn finish(
    t: Task,
    p: Plan,
    from: usize,
    budget: usize,
    main: &mut [u8],
    spare: &mut [u8],
    ram: &mut [u8],
) -> Progress
    requires header_size_in_bounds { (header_size ≤ length ram.old) × VolumeFits (task_on t main.old spare.old (pages ram.old)) t.g }
    requires prepared { Prepared t p × (from ≤ length (task_plan t main.old spare.old (pages ram.old))) }
    ensures { Ran t.g.chip.unit (last_steps (task_result t main.old spare.old (pages ram.old) from)) budget
        (memory_of main.old spare.old ram.old) (memory_of main.new spare.new ram.new) result }
{
    let n = state::pages_end(ram);
    let r = changes::carry_on(t, p, from, budget, main, spare, &mut ram[0..n]);
    if !r.finished {
        return r;
    }
    header::clear(changes::counted_state(t.state, t.edit), ram);
    Progress {
        steps: r.steps + 1,
        finished: true,
    }
}

// A call that is cut after so many steps leaves the state that it was handed.
fn cut_at(steps: usize, handed: State) -> Cut
    ensures { result ≡ cut_at steps handed }
{
    Cut {
        progress: Progress {
            steps,
            finished: false,
        },
        state: handed,
    }
}

// A change that there is room for, by its plan and a budget of steps: 7, else its intent and the steps behind it.
fn perform_planned(
    budget: usize,
    t: Task,
    q: Request,
    main: &mut [u8],
    spare: &mut [u8],
    ram: &mut [u8],
) -> Result<Cut, Refusal>
    requires { Decided t q (task_on t main.old spare.old ram.old) × HasRoom t }
    ensures { cut_by t.state result main.new spare.new ram.new
        ≡ cut_of (call_cut fnv_family budget (volume t.state main.old spare.old ram.old) (call_of q)) }
{
    let p = changes::plan_of(t);
    changes::fresh_refusal(t, p, spare)?;
    if budget == 0 {
        return Ok(cut_at(0, t.state));
    }
    header::intend(t.state, q, ram);
    let r = finish(t, p, 0, budget - 1, main, spare, ram);
    let after = Progress {
        steps: r.steps + 1,
        finished: r.finished,
    };
    Ok(state::cut_after(after, t.state, changes::counted_state(t.state, t.edit)))
}

// The same of a change that fills no page, the common one: its steps are its intent and its RAM, and the chip is only named.
fn append_change(
    budget: usize,
    t: Task,
    q: Request,
    main: &[u8],
    spare: &[u8],
    ram: &mut [u8],
) -> Cut
    requires { Decided t q (task_on t main.now spare.now ram.old) × HasRoom t × (programs_in (shape t.g) (task_slots t) ≡ false) }
    ensures { cut_by t.state (Ok result) main.now spare.now ram.new
        ≡ cut_of (call_cut fnv_family budget (volume t.state main.now spare.now ram.old) (call_of q)) }
{
    let s = t.state;
    if budget == 0 {
        return cut_at(0, s);
    }
    header::intend(s, q, ram);
    if budget == 1 {
        return cut_at(1, s);
    }
    let n = state::pages_end(ram);
    changes::append(t, &mut ram[0..n]);
    let next = changes::counted_state(s, t.edit);
    header::clear(next, ram);
    Cut {
        progress: Progress {
            steps: 2,
            finished: true,
        },
        state: next,
    }
}

// A changing call whose key is resolved, with a budget of steps: 3 to 7, else its intent and the steps behind it.
pub fn perform_resolved(
    budget: usize,
    s: State,
    q: Request,
    r: Result<Resolved, Refusal>,
    main: &mut [u8],
    spare: &mut [u8],
    ram: &mut [u8],
) -> Result<Cut, Refusal>
    requires { (r ≡ resolved_of (volume s main.old spare.old ram.old) (key_of (call_of q)))
        × ResolvedFits (on_pages (volume s main.old spare.old ram.old)) r }
    ensures { cut_by s result main.new spare.new ram.new
        ≡ cut_of (call_cut fnv_family budget (volume s main.old spare.old ram.old) (call_of q)) }
{
    let r = r?;
    let edit = decide(q, r.live)?;
    changes::room_refusal(r.g, s, edit)?;
    let t = Task {
        g: r.g,
        state: s,
        edit,
    };
    if changes::programs(t) {
        return perform_planned(budget, t, q, main, spare, ram);
    }
    Ok(append_change(budget, t, q, main, spare, ram))
}

// A changing call with a budget of steps.
pub fn perform_for(
    budget: usize,
    s: State,
    q: Request,
    main: &mut [u8],
    spare: &mut [u8],
    ram: &mut [u8],
) -> Result<Cut, Refusal>
    ensures { cut_by s result main.new spare.new ram.new
        ≡ cut_of (call_cut fnv_family budget (volume s main.old spare.old ram.old) (call_of q)) }
{
    let r = resolve(s, key_of(q), main, spare, ram);
    perform_resolved(budget, s, q, r, main, spare, ram)
}

// A pending change by a restart, with a budget of steps: by the header's state, refused as the call would be but for 7 and 10, else what is
// left of its steps.
pub fn restart_change(
    budget: usize,
    s: State,
    q: Request,
    main: &mut [u8],
    spare: &mut [u8],
    ram: &mut [u8],
) -> Result<Cut, Refusal>
    requires { (header_size ≤ length ram.old) × (pending_in ram.old ≡ changing (call_of q)) }
    ensures { cut_by s result main.new spare.new ram.new
        ≡ cut_of (restart_cut fnv_family budget (volume s main.old spare.old ram.old)) }
{
    let old = header::state_in(ram);
    let j = state::judge(old, main, spare, ram);
    let r = resolve_judged(j, old, key_of(q), main, spare, ram)?;
    let edit = decide(q, r.live)?;
    changes::room_refusal(r.g, old, edit)?;
    let t = Task {
        g: r.g,
        state: old,
        edit,
    };
    let p = changes::plan_of(t);
    let from = changes::done(t, p, spare);
    let progress = finish(t, p, from, budget, main, spare, ram);
    Ok(state::cut_after(progress, s, changes::counted_state(old, edit)))
}

// ---- the calls, which have enough

// A new level.
pub fn insert(
    s: State,
    record: Record,
    main: &mut [u8],
    spare: &mut [u8],
    ram: &mut [u8],
) -> Result<State, Refusal>
    ensures { change_effect s result main.new spare.new ram.new
        ≡ effect_of (call_whole fnv_family (volume s main.old spare.old ram.old) (layout.insert (record_is «record»))) }
{
    let c = perform_for(state::ENOUGH, s, Request::Insert(record), main, spare, ram)?;
    Ok(c.state)
}

// A level's values, whether it is there or not: its record, if there is one, is deleted, and another inserted.
pub fn update(
    s: State,
    record: Record,
    main: &mut [u8],
    spare: &mut [u8],
    ram: &mut [u8],
) -> Result<State, Refusal>
    ensures { change_effect s result main.new spare.new ram.new
        ≡ effect_of (call_whole fnv_family (volume s main.old spare.old ram.old) (layout.update (record_is «record»))) }
{
    let c = perform_for(state::ENOUGH, s, Request::Update(record), main, spare, ram)?;
    Ok(c.state)
}

// Takes a level out.
pub fn delete(
    s: State,
    key: Key,
    main: &mut [u8],
    spare: &mut [u8],
    ram: &mut [u8],
) -> Result<State, Refusal>
    ensures { change_effect s result main.new spare.new ram.new
        ≡ effect_of (call_whole fnv_family (volume s main.old spare.old ram.old) (layout.delete (key_is key))) }
{
    let c = perform_for(state::ENOUGH, s, Request::Delete(key), main, spare, ram)?;
    Ok(c.state)
}
