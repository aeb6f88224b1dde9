// Serves five long lists of drawn requests, each in ten batches from a new state, and prints every answer and, after each
// batch, a digest of every word of the state. second/README.md describes the lists; the second program has them from code of its
// own and made the stored output.
#![tactic(auto)]

mod drawn_requests;
mod draws;

ghost use Rattle.std.specs.Prelude.{◌≡◌};
ghost use Rattle.random_lists.specs.Bounds.{Small};

use drawn_requests::fill;
use draws::{Draws, digest};
use layout::Sizes;
use lines::output::print_lines;
use std::io;

// Serves a batch, and prints the answers and the digest of the state.
fn serve_printed(
    rt: &impl Print,
    state: &mut [u64],
    requests: &[u64],
    answers: &mut [u64],
) -> io::Result<()> {
    // No such batch is refused.
    let _ = batch::serve::serve(state, requests, answers);
    print_lines(rt, answers, 8)?;
    print_lines(rt, &[digest(state)], 1)
}

// Serves batch number `batch` of a list.
fn serve_batch(
    rt: &impl Print,
    state: &mut [u64],
    batch: u64,
    draws: &mut Draws,
) -> io::Result<()> {
    let mut requests = [[0u64; 4]; 450];
    let mut answers = [0u64; 3600];
    let count = fill(&mut requests, batch, draws);
    serve_printed(
        rt,
        state,
        requests[..count].as_flattened(),
        &mut answers[..8 * count],
    )
}

fn serve_list(rt: &impl Print, seed: u64, sizes: Sizes, holes: &[u64]) -> io::Result<()>
    requires { Small sizes }
{
    let mut space = [0u64; 10600];
    let n = sizes.word_count();
    let state = &mut space[..n];
    // Such sizes and holes and as many words are not refused.
    let _ = making::make(sizes.treelings, sizes.domains, sizes.frames, holes, state);
    let mut draws = Draws::new(seed, sizes);
    for batch in 0..10 {
        serve_batch(rt, state, batch, &mut draws)?;
    }
    Ok(())
}

// A literal would have a line for each of the three, five times.
fn sizes(treelings: u64, domains: u64, frames: u64) -> Sizes
    ensures { (result.treelings ≡ treelings) × (result.domains ≡ domains) × (result.frames ≡ frames) }
{
    Sizes {
        treelings,
        domains,
        frames,
    }
}

fn main(rt: HostRuntime) -> io::Result<()> {
    serve_list(&rt, 1, sizes(1, 1, 4200), &[])?;
    serve_list(&rt, 2, sizes(2, 1, 8300), &[])?;
    serve_list(
        &rt,
        3,
        sizes(3, 4, 9000),
        &[0, 45, 100, 1, 3000, 60, 8970, 30],
    )?;
    serve_list(&rt, 4, sizes(2, 2, 5000), &[2047, 1, 4900, 100])?;
    serve_list(
        &rt,
        5,
        sizes(1, 2, 600),
        &[
            0, 1, 1, 1, 60, 60, 120, 60, 299, 2, 301, 59, 540, 30, 599, 1,
        ],
    )
}
