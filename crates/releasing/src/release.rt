// Releasing one page: what is to be done is decided first, then written.
ghost use Rattle.std.specs.Prelude.{cond, true, None, Some, ◌≡◌, suc, ◌+◌, ◌-◌, ◌/◌, ◌%◌, ◌^◌, ◌<◌, eqb, get_or};
ghost use Rattle.geometry.specs.Entries.{availability_of, tag_of};
ghost use Rattle.layout.specs.Places.{Laid, entry, get, leaf, owner, pages_mapped, put};
ghost use Rattle.sound.specs.Sound.{Ordinary, Sound};
ghost use Rattle.sound.specs.Sentences.{block_in_order, of_rank, is_mapped_by};
ghost use Rattle.world.specs.World.{owned, world};
ghost use Rattle.world.specs.Find.{find_from};
ghost use Rattle.std.specs.Option.{option_or};
ghost use Rattle.placing.specs.Placing.{spot_at};
ghost use Rattle.releasing.specs.Releasing.{release_step, releasing};
ghost use Rattle.releasing.specs.CodePlan.{plan_of};

use crate::Plan;
use blocks::{entry_word, read_block};
use gathering::regather;
use layout::Sizes;
use leaf_map::{Frame, LeafId, read_leaf, write_leaf};
use placing::Spot;
use placing::place::mark;

// The first entry of a block with this tag, if there is one.
fn first_tagged(words: [u64; 8], node: u64) -> Option<usize>
    ensures { result ≡ find_from (λ k. eqb (tag_of (get_or words k 0)) node) 0 8 }
{
    words.iter().position(|w| *w / 256 == node)
}

// The first entry of a block without a free position, if there is one.
fn first_spent(words: [u64; 8]) -> Option<usize>
    ensures { result ≡ find_from (λ k. eqb (availability_of (get_or words k 0)) 0) 0 8 }
{
    words.iter().position(|w| *w % 256 == 0)
}

// Steps 1 and 2: the entry of a block that gets the bit, if there is one.
fn taker(words: [u64; 8], node: u64) -> Option<usize>
    ensures { result ≡ option_or (find_from (λ k. eqb (tag_of (get_or words k 0)) node) 0 8) (find_from (λ k. eqb (availability_of (get_or words k 0)) 0) 0 8) }
{
    first_tagged(words, node).or_else(|| first_spent(words))
}

// Entry k of TreeLing t gets the bit of the position. One without a free position then has this bit only.
fn marking(sizes: Sizes, state: &[u64], t: u64, k: u64, position: u64) -> Plan
    requires laid { Laid sizes state.now }
    requires t_lt_treelings { (t < sizes.treelings) × (k < 512) × (position < 8) }
    ensures { result ≡ Plan.Mark (spot_at t k) (availability_of (get sizes state.now (entry t k)) + 2 ^ position) }
{
    let word = state[sizes.entry(t, k)];
    Plan::Mark(Spot::at(t, k), word % 256 + (1 << position))
}

// The block before block b of TreeLing t, one of domain d's: of the previous TreeLing if need be.
fn block_before(sizes: Sizes, state: &[u64], d: u64, t: u64, b: u64) -> Option<(u64, u64)>
    requires sound { Sound sizes state.now }
    requires d_lt_domains { (d < sizes.domains) × (t < sizes.treelings) × (b < 64) }
    requires t_value { get sizes state.now (owner t) ≡ suc d }
    ensures { result ≡ cond (eqb (block_in_order sizes state.now t b) 0) None (Some (of_rank sizes state.now d ((block_in_order sizes state.now t b - 1) / 64), (block_in_order sizes state.now t b - 1) % 64)) }
{
    if let Some(before) = b.checked_sub(1) {
        return Some((t, before));
    }
    let previous = state[sizes.treeling(t, 1)].checked_sub(1)?;
    Some((previous, 63))
}

// What releasing a page of node and position does, with at least one TreeLing. A block entered by moving back has an entry for it.
// Node and position are two numbers and no LeafId: the definitions and `regather` take the two.
fn plan(sizes: Sizes, state: &[u64], d: u64, node: u64, position: u64) -> Plan
    requires sound { Sound sizes state.now }
    requires d_lt_domains { (d < sizes.domains) × (position < 8) × (0 < owned sizes state.now d) × Ordinary sizes state.now d }
    ensures { result ≡ plan_of sizes state.now d (release_step (world sizes state.now d) node position) }
{
    let t = state[sizes.domain(d, 3)] - 1;
    let b = state[sizes.domain(d, 4)];
    if let Some(k) = taker(read_block(sizes, state, t, b), node) {
        return marking(sizes, state, t, 8 * b + k as u64, position);
    }
    let Some((t, b)) = block_before(sizes, state, d, t, b) else {
        return Plan::Regather;
    };
    let k = taker(read_block(sizes, state, t, b), node).unwrap();
    marking(sizes, state, t, 8 * b + k as u64, position)
}

// The frame's leaf ID becomes 0, and this many pages are left to the domain.
fn unmap(sizes: Sizes, state: &mut [u64], d: u64, frame: Frame, left: u64)
    requires laid { Laid sizes state.old }
    requires d_lt_domains { (d < sizes.domains) × (frame.0 < sizes.frames) }
    ensures { state.new ≡ put sizes (put sizes state.old (leaf frame.0) 0) (pages_mapped d) left }
{
    write_leaf(sizes, state, frame, LeafId::none());
    let pages = sizes.domain(d, 5);
    state[pages] = left;
}

// Releases the page of a frame that the domain has mapped.
pub fn release(sizes: Sizes, state: &mut [u64], d: u64, frame: Frame)
    requires sound { Sound sizes state.old }
    requires d_lt_domains { (d < sizes.domains) × (frame.0 < sizes.frames) × Ordinary sizes state.old d }
    requires frame_value { is_mapped_by sizes state.old d frame.0 ≡ true }
    ensures state_after { state.new ≡ releasing sizes state.old d frame.0 }
    ensures sound_2 { Sound sizes state.new }
{
    let id = read_leaf(sizes, state, frame);
    let node = id.node();
    let position = id.position();
    let left = state[sizes.domain(d, 5)] - 1;
    match plan(sizes, state, d, node, position) {
        Plan::Mark(spot, availability) => {
            let word = entry_word(node, availability);
            mark(sizes, state, d, spot, word);
        }
        Plan::Regather => regather(sizes, state, d, node, position),
    }
    unmap(sizes, state, d, frame, left);
}
