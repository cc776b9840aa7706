// Restart: a pending call is finished, by the header. Document 02, request 8.
#![tactic(auto)]

ghost use Rattle.std.specs.Prelude.{◌≡◌};
ghost use Rattle.layout.specs.Hash.{fnv_family};
ghost use Rattle.layout.specs.Budgets.{restart_cut, restart_whole};
ghost use Rattle.state.specs.Contract.{volume, effect_of, change_effect, cut_of, cut_by};

use header::Pending;
use state::{Cut, Progress, Refusal, State};

// With a budget of steps: a RAM shorter than the header by 2, an unknown kind by 1; no call pending: by 1 and 2 of the header's state,
// else that state.
pub fn restart_for(
    budget: usize,
    s: State,
    main: &mut [u8],
    spare: &mut [u8],
    ram: &mut [u8],
) -> Result<Cut, Refusal>
    ensures { cut_by s result main.new spare.new ram.new
        ≡ cut_of (restart_cut fnv_family budget (volume s main.old spare.old ram.old)) }
{
    if ram.len() < state::HEADER_SIZE {
        return Err(Refusal::TooShort);
    }
    match header::pending_in(ram) {
        Pending::Nothing => {
            let found = header::state_in(ram);
            state::judge(found, main, spare, ram)?;
            let all = Progress {
                steps: 0,
                finished: true,
            };
            Ok(state::cut_after(all, s, found))
        }
        Pending::Change(q) => calls::restart_change(budget, s, q, main, spare, ram),
        Pending::Format(sizes) => format::restart_format(budget, s, sizes, main, spare, ram),
        Pending::Unknown => Err(Refusal::BadState),
    }
}

// With enough.
pub fn restart(
    s: State,
    main: &mut [u8],
    spare: &mut [u8],
    ram: &mut [u8],
) -> Result<State, Refusal>
    ensures { change_effect s result main.new spare.new ram.new
        ≡ effect_of (restart_whole fnv_family (volume s main.old spare.old ram.old)) }
{
    let cut = restart_for(state::ENOUGH, s, main, spare, ram)?;
    Ok(cut.state)
}
