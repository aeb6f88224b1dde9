// The leaf map is 0 in every hole.
ghost use Rattle.std.specs.Prelude.{◌≡◌, ◌<◌};
ghost use Rattle.board.specs.Holes.{hole_count};
ghost use Rattle.sound.specs.Contents.{LaidOut};
ghost use Rattle.sound.specs.Sentences.{holes_unmapped, hole_is_unmapped};

use board::{hole_count, hole_first, hole_length};
use layout::Sizes;
use leaf_map::{Frame, all_unmapped};

// The leaf map is 0 in hole i.
fn hole_unmapped(sizes: Sizes, state: &[u64], i: u64) -> bool
    requires laid_out { LaidOut sizes state.now }
    requires i_bound { i < hole_count state.now }
    ensures { result ≡ hole_is_unmapped sizes state.now i }
{
    let from = Frame::numbered(hole_first(state, i));
    all_unmapped(sizes, state, from, hole_length(state, i) as usize)
}

// The same of every hole.
pub fn holes_unmapped(sizes: Sizes, state: &[u64]) -> bool
    requires { LaidOut sizes state.now }
    ensures { result ≡ holes_unmapped sizes state.now }
{
    let n = hole_count(state);
    (0..n).all(|i| hole_unmapped(sizes, state, i))
}
