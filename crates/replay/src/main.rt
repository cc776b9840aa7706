// The replay program: answers the lines of a script. Document 01, "Replay program".
#![tactic(auto)]

ghost use Rattle.std.specs.Prelude.{◌≡◌, length};

// As many zeros, told by their number: the check would write out those of an array that stands in a function that uses it.
fn zeros<const N: usize>() -> [u8; N]
    ensures { length result ≡ N }
{
    [0; N]
}

// It lends 59,392 cells, 3,712 marks and a desk of 640 bytes, which serve S = 16 alone.
fn main(rt: HostRuntime) {
    let mut input = zeros::<16384>();
    // The answers to a part of the input: at most 32 bytes for each of its bytes.
    let mut output = zeros::<524288>();
    let mut line = [0u8; 64];
    let mut main_area = [0u8; 59392];
    let mut spare = [0u8; 3712];
    let mut ram = [0u8; 640];
    console::run(
        &rt,
        &mut input,
        &mut line,
        &mut main_area,
        &mut spare,
        &mut ram,
        &mut output,
    );
}
