// Document 01's "Run only" examples: requests with their answers, and the words that it names.
#![tactic(auto)]

ghost use Rattle.std.specs.Prelude.{◌≡◌, ◌<◌, ◌≤◌, length};

use blocks::{read_block, tag_of};
use layout::Sizes;
use lines::output::print_lines;
use std::io;

// The sizes of `one_treeling`.
const ONE_TREELING: Sizes = Sizes {
    treelings: 1,
    domains: 1,
    frames: 4097,
};

// Serves one request and prints it with its answer.
fn show(rt: &impl Print, state: &mut [u64], request: [u64; 4]) -> io::Result<()> {
    let mut answer = [0u64; 8];
    // No batch is refused here: the states are made, and what follows a batch passes the audit.
    let _ = batch::serve::serve(state, &request, &mut answer);
    rt.print("request ")?;
    print_lines(rt, &request, 4)?;
    rt.print("answer ")?;
    print_lines(rt, &answer, 8)
}

// Shows one request after the other.
fn show_all(rt: &impl Print, state: &mut [u64], requests: &[[u64; 4]]) -> io::Result<()> {
    for request in requests {
        show(rt, state, *request)?;
    }
    Ok(())
}

// The ten lines, then two runs.
const GUESTS: [[u64; 4]; 12] = [
    [1, 0, 0, 0],
    [1, 0, 0, 0],
    [3, 0, 5, 0],
    [1, 1, 0, 0],
    [3, 1, 6, 0],
    [3, 1, 5, 0],
    [4, 1, 5, 0],
    [3, 0, 7, 0],
    [4, 0, 5, 0],
    [3, 0, 8, 0],
    [6, 0, 14, 3],
    [6, 0, 14, 2],
];

// T = 2, D = 2, P = 16.
fn two_guests(rt: &impl Print) -> io::Result<()> {
    let mut state = [0u64; 1087];
    // Not refused, as in `one_treeling`: such sizes and as many words.
    let _ = making::make(2, 2, 16, &[], &mut state);
    show_all(rt, &mut state, &GUESTS)
}

// Unmaps frames 0, 8, 16 up to 4,088 in one batch.
fn unmap_each_eighth(rt: &impl Print, state: &mut [u64]) -> io::Result<()> {
    let mut requests = [[0u64; 4]; 512];
    let mut answers = [0u64; 4096];
    fill_unmaps(&mut requests);
    // Not refused, as in `show`.
    let _ = batch::serve::serve(state, requests.as_flattened(), &mut answers);
    rt.print("unmapped frames 0, 8 .. 4088: ")?;
    print_lines(rt, &[done(&answers) as u64], 1)
}

// Request k unmaps frame 8k of domain 0.
fn fill_unmaps(requests: &mut [[u64; 4]])
    requires { length requests.old ≤ 512 }
{
    for (k, request) in requests.iter_mut().enumerate() {
        *request = [4, 0, 8 * k as u64, 0];
    }
}

// How many of the answers are done.
fn done(answers: &[u64; 4096]) -> usize
    ensures { result ≤ 512 }
{
    answers
        .chunks_exact(8)
        .filter(|answer| answer[0] == 0)
        .count()
}

fn print_word(rt: &impl Print, text: &str, state: &[u64], at: usize) -> io::Result<()>
    requires { at < length state.now }
{
    rt.print(text)?;
    print_lines(rt, &[state[at]], 1)
}

// T = 1, D = 1, P = 4,097: full, then a page of each leaf node unmapped, then one more.
fn one_treeling(rt: &impl Print) -> io::Result<()> {
    let mut state = [0u64; 4645];
    let _ = making::make(1, 1, 4097, &[], &mut state);
    show_all(
        rt,
        &mut state,
        &[
            [1, 0, 0, 0],
            [6, 0, 0, 4097],
            [6, 0, 0, 2048],
            [6, 0, 2048, 2048],
            [3, 0, 4096, 0],
        ],
    )?;
    unmap_each_eighth(rt, &mut state)?;
    print_head(rt, &state)?;
    show(rt, &mut state, [4, 0, 1, 0])?;
    print_ends(rt, &state)?;
    show(rt, &mut state, [3, 0, 4096, 0])
}

// The head block's number and the tags of block 0.
fn print_head(rt: &impl Print, state: &[u64; 4645]) -> io::Result<()> {
    print_word(rt, "head block ", state, ONE_TREELING.domain(0, 4))?;
    rt.print("tags ")?;
    let tags = read_block(ONE_TREELING, state, 0, 0).map(tag_of);
    print_lines(rt, &tags, 8)
}

fn print_ends(rt: &impl Print, state: &[u64; 4645]) -> io::Result<()> {
    print_word(rt, "entry 0 ", state, ONE_TREELING.entry(0, 0))?;
    print_word(rt, "entry 511 ", state, ONE_TREELING.entry(0, 511))
}

fn main(rt: HostRuntime) -> io::Result<()> {
    two_guests(&rt)?;
    one_treeling(&rt)
}
