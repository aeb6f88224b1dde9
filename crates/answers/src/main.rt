// Serves the request lines of standard input as one batch on a new state and prints the answers, eight words a line.
// The state has T = 2, D = 2, P = 16, or the sizes that three arguments T D P give, and no holes.
//
// The state and the requests fill most of the stack, so that the answers of 65,536 requests have no room beside them. All lines
// are read and checked first; then 4,096 at a time are served and their answers printed. These are the answers of one batch:
// histories/proofs/Pieces, `in_pieces`.
#![tactic(auto)]

mod failure;
mod sizes;

ghost use Rattle.std.specs.Prelude.{◌≡◌, ◌*◌, ◌≤◌, length};
ghost use Rattle.layout.specs.Places.{Allowed, word_count};

use failure::Failure;
use layout::Sizes;
use lines::input::read_requests;
use lines::output::print_lines;
use sizes::sizes_asked;
use std::env::Env;

// Serves the requests and prints their answers.
fn serve_piece(
    rt: &impl Print,
    state: &mut [u64],
    requests: &[u64],
    answers: &mut [u64],
) -> Result<(), Failure>
    requires { 2 * length requests.now ≤ length answers.old }
{
    let n = 2 * requests.len();
    batch::serve::serve(state, requests, &mut answers[..n])?;
    print_lines(rt, &answers[..n], 8).map_err(Failure::Output)
}

fn serve_all(
    rt: &impl Print,
    state: &mut [u64],
    requests: &[u64],
    answers: &mut [u64],
) -> Result<(), Failure>
    requires { 32768 ≡ length answers.old }
{
    for piece in requests.chunks(16384) {
        serve_piece(rt, state, piece, answers)?;
    }
    Ok(())
}

// Makes the state in the space and serves standard input on it.
fn serve_in(
    rt: &(impl Input + Print),
    space: &mut [u64],
    requests: &mut [u64],
    answers: &mut [u64],
    sizes: Sizes,
) -> Result<(), Failure>
    requires allowed { Allowed sizes × (word_count sizes ≤ length space.old) }
    requires value { 32768 ≡ length answers.old }
{
    let n = sizes.word_count();
    let state = &mut space[..n];
    // Such sizes and as many words are not refused.
    let _ = making::make(sizes.treelings, sizes.domains, sizes.frames, &[], state);
    let count = read_requests(rt, requests)?;
    serve_all(rt, state, &requests[..4 * count], answers)
}

fn run(rt: &(impl Env + Input + Print)) -> Result<(), Failure> {
    let sizes = sizes_asked(rt)?;
    // Fixed memory, as the library has it.
    let mut space = [0u64; 524288];
    let mut requests = [0u64; 262144];
    let mut answers = [0u64; 32768];
    serve_in(rt, &mut space, &mut requests, &mut answers, sizes)
}

// A message that cannot be written is lost.
fn main(rt: HostRuntime) {
    if let Err(failure) = run(&rt) {
        let _ = eprintln!(rt; "answers: {failure}");
    }
}
