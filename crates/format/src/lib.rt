// Format: a new volume, in steps. Document 01, "Calls"; document 02, request 8.
#![tactic(auto)]

ghost use Rattle.std.specs.Prelude.{◌≡◌, ◌≤◌, length};
ghost use Rattle.layout.specs.Hash.{fnv_family};
ghost use Rattle.layout.specs.Flash.{flash_of};
ghost use Rattle.layout.specs.Calls.{formatted};
ghost use Rattle.layout.specs.Header.{header_size, pages, on_pages, formatting, pending_in};
ghost use Rattle.layout.specs.Budgets.{last_steps, format_cut, format_whole, restart_cut};
ghost use Rattle.geometry.specs.Shape.{sizes_is};
ghost use Rattle.state.specs.Contract.{effect_of, change_effect, volume, cut_of, cut_by, memory_of, Ran};
ghost use Rattle.state.specs.Judge.{FormatFits};

use geometry::{Geometry, Sizes};
use state::{Cut, Progress, Refusal, State};

// The state of a new volume.
fn fresh_state(sizes: Sizes) -> State
    ensures { result ≡ record { sizes = sizes; records = 0; deletions = 0 } }
{
    State {
        sizes,
        records: 0,
        deletions: 0,
    }
}

// The steps of a format behind its intent: all blocks erased, rising, then the RAM zeroed, with its header.
fn finish(
    g: Geometry,
    sizes: Sizes,
    budget: usize,
    main: &mut [u8],
    spare: &mut [u8],
    ram: &mut [u8],
) -> Progress
    requires { (header_size ≤ length ram.old)
        × FormatFits (sizes_is sizes) (flash_of main.old spare.old) (pages ram.old) g }
    ensures { (s : State) → Ran g.chip.unit (last_steps (formatted (on_pages (volume s main.old spare.old ram.old)) (sizes_is sizes)))
        budget (memory_of main.old spare.old ram.old) (memory_of main.new spare.new ram.new) result }
{
    let blocks = g.blocks();
    if budget <= blocks {
        flash::erase_blocks(g.chip, 0, budget, main, spare);
        return Progress {
            steps: budget,
            finished: false,
        };
    }
    flash::erase_blocks(g.chip, 0, blocks, main, spare);
    words::fill_at(ram, 0, g.ram_size(), 0);
    header::clear(fresh_state(sizes), ram);
    Progress {
        steps: blocks + 1,
        finished: true,
    }
}

// A new volume of the given sizes, with a budget of steps; the old state is not judged.
pub fn format_for(
    budget: usize,
    old: State,
    sizes: Sizes,
    main: &mut [u8],
    spare: &mut [u8],
    ram: &mut [u8],
) -> Result<Cut, Refusal>
    ensures { cut_by old result main.new spare.new ram.new
        ≡ cut_of (format_cut budget (volume old main.old spare.old ram.old) (sizes_is sizes)) }
{
    let g = state::judge_new(sizes, main, spare, ram)?;
    if budget == 0 {
        let none = Progress {
            steps: 0,
            finished: false,
        };
        return Ok(state::cut_after(none, old, old));
    }
    header::intend_format(sizes, ram);
    let p = finish(g, sizes, budget - 1, main, spare, ram);
    let after = Progress {
        steps: p.steps + 1,
        ..p
    };
    Ok(state::cut_after(after, old, fresh_state(sizes)))
}

// A pending format by a restart, with a budget of steps: it programs no sector, so that all of its erases are done again.
pub fn restart_format(
    budget: usize,
    s: State,
    sizes: Sizes,
    main: &mut [u8],
    spare: &mut [u8],
    ram: &mut [u8],
) -> Result<Cut, Refusal>
    requires { (header_size ≤ length ram.old) × (pending_in ram.old ≡ formatting (sizes_is sizes)) }
    ensures { cut_by s result main.new spare.new ram.new
        ≡ cut_of (restart_cut fnv_family budget (volume s main.old spare.old ram.old)) }
{
    let g = state::judge_new(sizes, main, spare, ram)?;
    let p = finish(g, sizes, budget, main, spare, ram);
    Ok(state::cut_after(p, s, fresh_state(sizes)))
}

// A new volume of the given sizes.
pub fn format(
    old: State,
    sizes: Sizes,
    main: &mut [u8],
    spare: &mut [u8],
    ram: &mut [u8],
) -> Result<State, Refusal>
    ensures { change_effect old result main.new spare.new ram.new
        ≡ effect_of (format_whole (volume old main.old spare.old ram.old) (sizes_is sizes)) }
{
    let cut = format_for(state::ENOUGH, old, sizes, main, spare, ram)?;
    Ok(cut.state)
}
