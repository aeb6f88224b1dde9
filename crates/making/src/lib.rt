// Making a state.
#![tactic(auto)]

ghost use Rattle.std.specs.Prelude.{◌≡◌, ◌+◌, ◌≤◌, length, true};
ghost use Rattle.std.proofs.Math.Seq.{paste};
ghost use Rattle.layout.specs.Outcomes.{outcome};
ghost use Rattle.layout.specs.Places.{Allowed, Laid, sizes_of};
ghost use Rattle.board.specs.NewState.{board_allowed, making, new_state};
ghost use Rattle.making.specs.Numbers.{number_of, refusal_number};

use board::holes_allowed;
use layout::Sizes;

// Why no state is made: sizes or holes that are not allowed, or a wrong length; with its number in document 01.
#[derive(Clone, Copy, Debug, PartialEq, Eq)]
pub enum Refusal {
    Board = 1,
    Length = 2,
}

impl From<Refusal> for u64 {
    ghost from_gives = { λ refusal number. number ≡ refusal_number refusal };

    fn from(refusal: Refusal) -> u64 {
        refusal as u64
    }
}

// The words of the holes behind the first nine, one by one: `copy_from_slice` of a length that is not known is a call of memmove, and a host has memset alone.
fn write_holes(state: &mut [u64], holes: &[u64])
    requires { 9 + length holes.now ≤ length state.old }
    ensures { state.new ≡ paste state.old 9 holes.now (length holes.now) }
{
    for (k, word) in holes.iter().enumerate() {
        state[9 + k] = *word;
    }
}

fn write_new(sizes: Sizes, holes: &[u64], state: &mut [u64])
    requires laid { Laid sizes state.old }
    requires holes_len_bound { length holes.now ≤ 16 }
    ensures { state.new ≡ new_state sizes holes.now }
{
    state.fill(0);
    state[..9].copy_from_slice(&[
        sizes.treelings,
        sizes.domains,
        sizes.frames,
        0,
        sizes.domain(0, 0) as u64,
        sizes.treeling(0, 0) as u64,
        sizes.entry(0, 0) as u64,
        sizes.leaf(0) as u64,
        holes.len() as u64 / 2,
    ]);
    write_holes(state, holes);
}

fn board_allowed(sizes: Sizes, holes: &[u64]) -> bool
    ensures value { result ≡ board_allowed sizes holes.now }
    ensures facts { result ≡ true → Allowed sizes × (length holes.now ≤ 16) }
{
    sizes.allowed() && holes_allowed(sizes, holes)
}

// Sizes and holes are asked before the length. A refusal writes nothing.
pub fn make(
    treelings: u64,
    domains: u64,
    frames: u64,
    holes: &[u64],
    state: &mut [u64],
) -> Result<(), Refusal>
    ensures { outcome (number_of result) state.new ≡ making (sizes_of treelings domains frames) holes.now state.old }
{
    let sizes = Sizes {
        treelings,
        domains,
        frames,
    };
    if !board_allowed(sizes, holes) {
        return Err(Refusal::Board);
    }
    if state.len() != sizes.word_count() {
        return Err(Refusal::Length);
    }
    write_new(sizes, holes, state);
    Ok(())
}
