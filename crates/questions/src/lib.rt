// The questions of a request about its words, its domain and its frames: each by itself, then all in sequence.
#![tactic(auto)]

ghost use Rattle.std.specs.Prelude.{◌≡◌, true, ◌+◌, ◌<◌, ◌≤◌, IfOk, eqb};
ghost use Rattle.board.specs.Holes.{outside};
ghost use Rattle.sound.specs.Sentences.{is_live};
ghost use Rattle.sound.specs.Sound.{Sound};
ghost use Rattle.calls.specs.Table.{call_of};
ghost use Rattle.calls.specs.Numbers.{call_number, uses_of};
ghost use Rattle.questions.specs.Numbers.{number_of};
ghost use Rattle.questions.specs.Questions.{domain_fits, frame_fits, frames_fit, frames_outside, liveness_refusal, refusal_of, run_fits, run_outside, well_formed};

use board::all_outside;
use calls::{Call, Uses};
use layout::Sizes;
use pages::Refusal;

// The words of a request.
#[derive(Clone, Copy)]
pub struct Request {
    pub call: u64,
    pub domain: u64,
    pub frame: u64,
    pub count: u64,
}

// The most frames of a run.
pub const LONGEST_RUN: u64 = 2048;

// Question 7, of the words that a call doesn't use.
fn well_formed(u: Uses, q: Request) -> bool
    ensures { result ≡ well_formed (uses_of u) q.frame q.count }
{
    match u {
        Uses::DomainOnly => q.frame == 0 && q.count == 0,
        Uses::OneFrame => q.count == 0,
        Uses::FrameAndCount => true,
    }
}

// Question 8.
pub fn domain_fits(sizes: Sizes, d: u64) -> bool
    ensures { result ≡ domain_fits sizes d }
{
    d < sizes.domains
}

// Question 9, of a frame.
pub fn frame_fits(sizes: Sizes, f: u64) -> bool
    ensures { result ≡ frame_fits sizes f }
{
    f < sizes.frames
}

// Question 9, of frame and count: two words of the request, as it has them.
pub fn run_fits(sizes: Sizes, f: u64, n: u64) -> bool
    ensures { result ≡ run_fits sizes f n }
{
    f < sizes.frames && 1 <= n && n <= sizes.frames - f && n <= LONGEST_RUN
}

// Question 9, of the frames that a call uses.
fn frames_fit(sizes: Sizes, u: Uses, q: Request) -> bool
    ensures { result ≡ frames_fit sizes (uses_of u) q.frame q.count }
{
    match u {
        Uses::DomainOnly => true,
        Uses::OneFrame => frame_fits(sizes, q.frame),
        Uses::FrameAndCount => run_fits(sizes, q.frame, q.count),
    }
}

// Question 16, of a frame.
pub fn frame_outside(sizes: Sizes, state: &[u64], f: u64) -> bool
    requires sound { Sound sizes state.now }
    requires f_lt_frames { f < sizes.frames }
    ensures { result ≡ outside state.now f }
{
    all_outside(sizes.frames, state, f, 1)
}

// Question 16, of frame and count.
pub fn run_outside(sizes: Sizes, state: &[u64], f: u64, n: u64) -> bool
    requires sound { Sound sizes state.now }
    requires le_n { (1 ≤ n) × (f + n ≤ sizes.frames) }
    ensures { result ≡ run_outside state.now f n }
{
    all_outside(sizes.frames, state, f, n)
}

// Question 16, of the frames that a call uses.
fn frames_outside(sizes: Sizes, state: &[u64], u: Uses, q: Request) -> bool
    requires sound { Sound sizes state.now }
    requires count_value { frames_fit sizes (uses_of u) q.frame q.count ≡ true }
    ensures { result ≡ frames_outside state.now (uses_of u) q.frame q.count }
{
    match u {
        Uses::DomainOnly => true,
        Uses::OneFrame => frame_outside(sizes, state, q.frame),
        Uses::FrameAndCount => run_outside(sizes, state, q.frame, q.count),
    }
}

// What questions 10 and 11 ask of a domain.
pub fn is_live(sizes: Sizes, state: &[u64], d: u64) -> bool
    requires sound { Sound sizes state.now }
    requires d_lt_domains { d < sizes.domains }
    ensures { result ≡ is_live sizes state.now d }
{
    state[sizes.domain(d, 0)] == 1
}

// Is question 10, of a call that opens a domain, or 11, of another, passed?
fn liveness_fits(opening: bool, alive: bool) -> bool
    ensures { result ≡ eqb (liveness_refusal opening alive) 0 }
{
    opening != alive
}

// Questions 10, of a call that opens a domain, and 11, of another.
pub fn liveness_refusal(opening: bool, alive: bool) -> Result<(), Refusal>
    ensures { number_of result ≡ liveness_refusal opening alive }
{
    if liveness_fits(opening, alive) {
        return Ok(());
    }
    if opening {
        return Err(Refusal::AlreadyLive);
    }
    Err(Refusal::NotLive)
}

// The call, where every question is passed, or the first that is not.
pub fn passed(sizes: Sizes, state: &[u64], q: Request) -> Result<Call, Refusal>
    requires { Sound sizes state.now }
    ensures number { number_of result ≡ refusal_of sizes state.now (call_of q.call) q.domain q.frame q.count }
    ensures call { IfOk result (λ call. call_number call ≡ q.call) }
{
    let call = Call::try_from(q.call)?;
    let u = call.uses();
    if !well_formed(u, q) {
        return Err(Refusal::Malformed);
    }
    if !domain_fits(sizes, q.domain) {
        return Err(Refusal::DomainOutOfRange);
    }
    if !frames_fit(sizes, u, q) {
        return Err(Refusal::FramesOutOfRange);
    }
    if !frames_outside(sizes, state, u, q) {
        return Err(Refusal::InHole);
    }
    liveness_refusal(call.opens(), is_live(sizes, state, q.domain))?;
    Ok(call)
}
