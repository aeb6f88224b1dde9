// Question 3: at least 25 words, contents as laid out and within their ranges, length exact.
ghost use Rattle.std.specs.Prelude.{◌≡◌, ◌≤◌, length};
ghost use Rattle.layout.specs.Places.{Allowed};
ghost use Rattle.sound.specs.Contents.{as_laid_out, starts_as_laid_out};

use board::holes_laid_out;
use layout::Sizes;

// The starts of the four bodies.
fn starts_laid_out(sizes: Sizes, state: &[u64]) -> bool
    requires allowed { Allowed sizes }
    requires in_bounds { 8 ≤ length state.now }
    ensures { result ≡ starts_as_laid_out sizes state.now }
{
    state[4] == sizes.domain(0, 0) as u64
        && state[5] == sizes.treeling(0, 0) as u64
        && state[6] == sizes.entry(0, 0) as u64
        && state[7] == sizes.leaf(0) as u64
}

// The contents of the state, and its length.
#[tactic(auto, using(layout::proofs::PlaceLaws::allowed_facts), unfolding(sound::specs::Contents::as_laid_out))]
pub fn laid_out(state: &[u64]) -> bool
    ensures { result ≡ as_laid_out state.now }
{
    if state.len() < 25 {
        return false;
    }
    let sizes = Sizes::read(state);
    sizes.allowed()
        && state[3] < state[0]
        && starts_laid_out(sizes, state)
        && holes_laid_out(sizes.frames, state)
        && state.len() == sizes.word_count()
}
