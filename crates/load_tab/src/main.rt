// Loads a tab from standard input into a freshly formatted volume, and tells the rows that were loaded and the refusal. Document 02,
// requests 1 and 6.
#![tactic(auto)]

ghost use Rattle.std.specs.Prelude.{◌≡◌, ◌≤◌, length};

use geometry::Sizes;
use script::answers;
use state::{Refusal, State};
use std::io::{Eprint, Read};

// The longest tab that it takes.
const MOST: usize = 262144;

// As many zeros, told by their number: the check would write out those of an array that stands in a function that uses it.
fn zeros<const N: usize>() -> [u8; N]
    ensures { length result ≡ N }
{
    [0; N]
}

fn complain(rt: &impl Eprint, reason: &str) {
    let _ = rt.eprint(reason);
}

// A number, and the byte that ends it.
fn print_number(rt: &(impl Print + Eprint), n: u32, terminator: u8) {
    let mut text = [0u8; 16];
    let end = answers::put_number(n, terminator, 0, &mut text);
    if rt.write_all(&text[0..end]).is_err() {
        complain(rt, "load_tab: cannot write the answer\n");
    }
}

// `rows N ok`, or `rows N no NUMBER`.
fn print_answer(rt: &(impl Print + Eprint), rows: u32, ended: Result<(), Refusal>) {
    let _ = rt.print("rows ");
    print_number(rt, rows, b' ');
    match ended {
        Ok(()) => {
            let _ = rt.print("ok\n");
        }
        Err(refusal) => {
            let _ = rt.print("no ");
            print_number(rt, refusal.into(), b'\n');
        }
    }
}

// A formatted volume, and the tab loaded into it. S = 64, R = 32 and D = 32 have 146 blocks and room for 8,192 records.
fn load_new(rt: &(impl Print + Eprint), tab: &[u8]) {
    let mut main_area = zeros::<598016>();
    let mut spare = zeros::<9344>();
    let mut ram = [0u8; 1600];
    let sizes = Sizes {
        sector_size: 64,
        ra_blocks: 32,
        da_blocks: 32,
        hash_count: geometry::DEFAULT_HASH_COUNT,
    };
    let none = State {
        sizes,
        records: 0,
        deletions: 0,
    };
    let formatted = format::format(none, sizes, &mut main_area, &mut spare, &mut ram);
    let s = formatted.unwrap_or(none);
    let r = load::load(s, tab, &mut main_area, &mut spare, &mut ram);
    print_answer(rt, r.rows, r.ended);
}

// Reads until the tab's buffer is full, the input ends or a read fails; how many bytes there are. (By `while`: a `for` would have to count
// the reads, of which nothing else is asked.)
fn read_full(input: &mut impl Read, tab: &mut [u8]) -> usize
    ensures { result ≤ length tab.new }
{
    let mut done = 0;
    while done < tab.len() {
        let Ok(n) = input.read(&mut tab[done..]) else {
            break;
        };
        if n == 0 {
            break;
        }
        done += n;
    }
    done
}

fn main(rt: HostRuntime) {
    // A byte more than the longest, so that a longer tab is noticed.
    let mut tab = zeros::<262145>();
    let mut input = rt.reader();
    let n = read_full(&mut input, &mut tab);
    if n > MOST {
        complain(
            &rt,
            "load_tab: the tab has more than 262144 bytes; nothing was loaded\n",
        );
        return;
    }
    let mut rest = [0u8; 1];
    let Ok(0) = input.read(&mut rest) else {
        complain(&rt, "load_tab: cannot read the tab; nothing was loaded\n");
        return;
    };
    load_new(&rt, &tab[0..n]);
}
