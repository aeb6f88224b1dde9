// Serves every small request list as one batch from a new state and prints its answer numbers on a line, a space between two.
// The second program has the lists from code of its own and made the stored output.
#![tactic(auto)]

ghost use Rattle.std.specs.Prelude.{◌≡◌, ◌<◌, ◌≤◌, length, take};
ghost use Rattle.std.proofs.Math.Option.{some, map};
ghost use Rattle.std.proofs.Math.ListN.{get_elem?};
ghost use Rattle.every_list.specs.SmallLists.{small_lists};
ghost use Rattle.small_lists.specs.Numbers.{first_words, numbers_of, served_new};

use every_list::{LISTS, small_list};
use lines::output::print_lines;
use std::io;

// Serves at most three requests as one batch from a new state, and gives the first word of each answer.
fn serve_new(requests: &[u64]) -> [u64; 3]
    requires { length requests.now ≤ 12 }
    ensures { result ≡ first_words (served_new requests.now).answers }
{
    let mut state = [0u64; 556];
    let mut answers = [0u64; 24];
    // Neither is refused: `ServedLaws` has it of the batch.
    let _ = making::make(1, 2, 2, &[], &mut state);
    let n = 2 * requests.len();
    let _ = batch::serve::serve(&mut state, requests, &mut answers[..n]);
    [answers[0], answers[8], answers[16]]
}

// The answer numbers of the list with this number, kept in the given space.
#[tactic(auto, using(crate::proofs::NumberLaws::list_numbers))]
fn answer_numbers(number: u64, space: &mut [u64; 3]) -> &[u64]
    requires { number < 4369 }
    ensures count_bound { length result.now ≤ 3 }
    ensures numbers_value { some result.now ≡ map numbers_of (get_elem? small_lists number) }
{
    let mut requests = [0u64; 12];
    let count = small_list(number, &mut requests).unwrap();
    *space = serve_new(&requests[..4 * count]);
    &space[..count]
}

// Prints the numbers, at most three, on a line. An error says that not all was written.
fn print_line(rt: &impl Print, numbers: &[u64]) -> io::Result<()>
    requires { length numbers.now ≤ 3 }
{
    if numbers.is_empty() {
        return println!(rt);
    }
    print_lines(rt, numbers, numbers.len())
}

fn print_all(rt: &impl Print) -> io::Result<()> {
    for number in 0..LISTS {
        let mut space = [0u64; 3];
        print_line(rt, answer_numbers(number, &mut space))?;
    }
    Ok(())
}

fn main(rt: HostRuntime) {
    if let Err(error) = print_all(&rt) {
        let _ = eprintln!(rt; "small_lists: standard output: {error}");
    }
}
