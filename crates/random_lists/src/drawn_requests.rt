// The requests of a batch.
ghost use Rattle.std.specs.Prelude.{◌≡◌, ◌≤◌};

use crate::draws::Draws;
use calls::{Call, Uses};

// Batch 0: opens each domain, then maps the frames in runs of 60.
fn fill_first(requests: &mut [[u64; 4]; 450], draws: &mut Draws) -> usize
    ensures count_bound { result ≤ 450 }
    ensures board { draws.new.sizes ≡ draws.old.sizes }
{
    let opens = draws.sizes.domains as usize;
    let count = opens + (draws.sizes.frames / 60) as usize;
    for (domain, request) in requests[..opens].iter_mut().enumerate() {
        *request = [Call::Open as u64, domain as u64, 0, 0];
    }
    for (run, request) in requests[opens..count].iter_mut().enumerate() {
        *request = [Call::MapRun as u64, draws.domain(), 60 * run as u64, 60];
    }
    count
}

// The call that a draw below 1024 stands for.
fn mapping_call(draw: u64) -> Call {
    match draw {
        0..=15 => Call::Open,
        16..=19 => Call::Close,
        20..=579 => Call::Map,
        580..=639 => Call::Unmap,
        640..=649 => Call::Path,
        650..=659 => Call::Trim,
        660..=679 => Call::Fill,
        680..=929 => Call::MapRun,
        _ => Call::UnmapRun,
    }
}

// Batches 1 to 4 unmap more than they map, and close nothing.
fn call_in(batch: u64, call: Call) -> Call {
    if batch > 4 {
        return call;
    }
    match call {
        Call::Close => Call::Path,
        Call::Map => Call::Unmap,
        Call::Unmap => Call::Map,
        Call::MapRun => Call::UnmapRun,
        Call::UnmapRun => Call::MapRun,
        _ => call,
    }
}

// The words of a request that its call uses; the others are 0.
fn used(call: Call, domain: u64, frame: u64, count: u64) -> [u64; 4] {
    match call.uses() {
        Uses::DomainOnly => [call as u64, domain, 0, 0],
        Uses::OneFrame => [call as u64, domain, frame, 0],
        Uses::FrameAndCount => [call as u64, domain, frame / 60 * 60, count],
    }
}

// Where `word` is below 4, that word of the request becomes 2^64 - 1.
fn spoilt(mut request: [u64; 4], word: u64) -> [u64; 4] {
    if word < 4 {
        request[word as usize] = u64::MAX;
    }
    request
}

// A request of batches 1 to 8.
fn draw_mixed(batch: u64, draws: &mut Draws) -> [u64; 4]
    ensures { draws.new.sizes ≡ draws.old.sizes }
{
    let call = call_in(batch, mapping_call(draws.below(1024)));
    let domain = draws.domain();
    let frame = draws.frame();
    let limit = 1 << draws.below(9);
    let count = 1 + draws.below(limit);
    spoilt(used(call, domain, frame, count), draws.below(64))
}

// The call of batch 9 that a draw below 16 stands for.
fn long_call(draw: u64) -> Call {
    match draw {
        0..=6 => Call::MapRun,
        7 => Call::Trim,
        8..=13 => Call::UnmapRun,
        14 => Call::Map,
        _ => Call::Unmap,
    }
}

// A run of 2,047 to 2,049 frames, a single call of one of the frames that such runs have, or a trim.
fn draw_long(draws: &mut Draws) -> [u64; 4]
    ensures { draws.new.sizes ≡ draws.old.sizes }
{
    let call = long_call(draws.below(16));
    let domain = draws.domain();
    let firsts = draws.sizes.frames / 2049 + 1;
    let first = 2049 * draws.below(firsts);
    let count = 2047 + draws.below(3);
    let within = draws.below(2049);
    match call.uses() {
        Uses::DomainOnly => [call as u64, domain, 0, 0],
        Uses::OneFrame => [call as u64, domain, first + within, 0],
        Uses::FrameAndCount => [call as u64, domain, first, count],
    }
}

// Batches 1 to 8: 250 requests and a draw below 200 more.
fn fill_mixed(requests: &mut [[u64; 4]; 450], batch: u64, draws: &mut Draws) -> usize
    ensures count_bound { result ≤ 450 }
    ensures board { draws.new.sizes ≡ draws.old.sizes }
{
    let count = 250 + draws.below(200) as usize;
    for request in &mut requests[..count] {
        *request = draw_mixed(batch, draws);
    }
    count
}

// Batch 9: closes and opens again each domain, then 200 requests, most of them runs at the limit.
fn fill_last(requests: &mut [[u64; 4]; 450], draws: &mut Draws) -> usize
    ensures count_bound { result ≤ 450 }
    ensures board { draws.new.sizes ≡ draws.old.sizes }
{
    let reopens = 2 * draws.sizes.domains as usize;
    let count = reopens + 200;
    for (domain, pair) in requests[..reopens].chunks_exact_mut(2).enumerate() {
        pair[0] = [Call::Close as u64, domain as u64, 0, 0];
        pair[1] = [Call::Open as u64, domain as u64, 0, 0];
    }
    for request in &mut requests[reopens..count] {
        *request = draw_long(draws);
    }
    count
}

// Fills in the requests of the batch with this number, from the front. The answer is how many they are: the caller takes room for as many answers.
pub fn fill(requests: &mut [[u64; 4]; 450], batch: u64, draws: &mut Draws) -> usize
    ensures count_bound { result ≤ 450 }
    ensures board { draws.new.sizes ≡ draws.old.sizes }
{
    match batch {
        0 => fill_first(requests, draws),
        9 => fill_last(requests, draws),
        _ => fill_mixed(requests, batch, draws),
    }
}
