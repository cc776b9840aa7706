// The replay program over more bytes, for a test of what `replay` cannot reach: sets 4 and 5, a full set and a
// second cycle at S = 16, sets over deletions, and a set at S = 64. Its script and answers are made by the Rust model.
#![tactic(auto)]

ghost use Rattle.std.specs.Prelude.{◌≡◌, length};

// As many zeros, told by their number: the check would write out those of an array that stands in a function that uses it.
fn zeros<const N: usize>() -> [u8; N]
    ensures { length result ≡ N }
{
    [0; N]
}

fn main(rt: HostRuntime) {
    let mut input = zeros::<16384>();
    // The answers to a part of the input: at most 32 bytes for each of its bytes.
    let mut output = zeros::<524288>();
    let mut line = [0u8; 64];
    let mut main_area = [0u8; 487424];
    let mut spare = [0u8; 12224];
    let mut ram = [0u8; 1600];
    console::run(
        &rt,
        &mut input,
        &mut line,
        &mut main_area,
        &mut spare,
        &mut ram,
        &mut output,
    );
}
