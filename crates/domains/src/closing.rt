// 2 close: the domain's records, NFL words and leaf IDs become 0. Its TreeLings keep it as their last owner.
ghost use Rattle.std.specs.Prelude.{◌≡◌, ◌<◌};
ghost use Rattle.layout.specs.Outcomes.{outcome};
ghost use Rattle.sound.specs.Sound.{Sound};
ghost use Rattle.pages.specs.Answers.{answer_of_done};
ghost use Rattle.domains.specs.Closing.{close_call, leaves_cleared};

use clearing::clear::clear_treelings;
use layout::Sizes;
use layout::words::clear_words;
use leaf_map::{Frame, LeafId, read_leaf, write_leaf};
use pages::{Done, is_own};
use taking::number_owned;

// The leaf IDs of the domain's pages.
fn clear_leaves(sizes: Sizes, state: &mut [u64], d: u64)
    requires sound { Sound sizes state.old }
    requires d_lt_domains { d < sizes.domains }
    ensures { state.new ≡ leaves_cleared sizes state.old d sizes.frames }
{
    for f in 0..sizes.frames {
        let frame = Frame::numbered(f);
        let id = read_leaf(sizes, state, frame);
        if is_own(sizes, state, d, id) {
            write_leaf(sizes, state, frame, LeafId::none());
        }
    }
}

// All its TreeLings are cleared, and its record.
pub fn close_domain(sizes: Sizes, state: &mut [u64], d: u64) -> Done
    requires sound { Sound sizes state.old }
    requires d_lt_domains { d < sizes.domains }
    ensures state_after { outcome (answer_of_done result) state.new ≡ close_call sizes state.old d }
    ensures sound_2 { Sound sizes state.new }
{
    let record = sizes.domain(d, 0);
    let pages = state[record + 5];
    let treelings = number_owned(sizes, state, d);
    clear_leaves(sizes, state, d);
    clear_treelings(sizes, state, d, treelings, |_| true);
    clear_words(state, record, 6);
    Done::Finished(pages)
}
