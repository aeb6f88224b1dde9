// The leaf map: the one place where a word is taken for a frame number or a leaf ID, and back. No other module can make or open one.
#![tactic(auto)]

ghost use Rattle.std.specs.Prelude.{◌≡◌, ◌+◌, ◌<◌, ◌≤◌, eqb, get_or, length};
ghost use Rattle.layout.specs.Bounded.{all};
ghost use Rattle.layout.specs.CodeWords.{Gathered};
ghost use Rattle.leaf_map.specs.GatheredIds.{words_of};
ghost use Rattle.leaf_map.specs.LeafIds.{leaf_at, leaf_fits, node_of_leaf, position_of_leaf, slot_of, treeling_of};
ghost use Rattle.layout.specs.Places.{Laid, address, get, put, Place};

use layout::Sizes;
use layout::words::all_zero;

// A frame number and a leaf ID are both 64 bits wide and neither may stand for the other.
#[derive(Clone, Copy)]
pub struct Frame(u64);

#[derive(Clone, Copy)]
pub struct LeafId(u64);

impl Frame {
    pub fn numbered(n: u64) -> Frame
        ensures { result.0 ≡ n }
    {
        Frame(n)
    }

    // The frame i after this one.
    pub fn after(self, i: u64) -> Frame
        requires { self.0 + i ≤ 8388608 }
        ensures { result.0 ≡ self.0 + i }
    {
        Frame(self.0 + i)
    }
}

impl LeafId {
    // 0 means unmapped, as document 01 has the words of the leaf map: no Option, since the definitions count 0 among the words, and methods that open one ask for 1 or more.
    pub fn none() -> LeafId
        ensures { result.0 ≡ 0 }
    {
        LeafId(0)
    }

    // Is it 0, the leaf map's own word for unmapped? LeafIds `leaf_fits` takes it.
    pub fn is_none(self) -> bool
        ensures { result ≡ eqb self.0 0 }
    {
        self.0 == 0
    }

    // The leaf ID of a position of a leaf node.
    #[tactic(auto, unfolding(crate::specs::LeafIds::leaf_at))]
    pub fn at(node: u64, position: u64) -> LeafId
        requires { (node < 2097152) × (position < 8) }
        ensures { result.0 ≡ leaf_at node position }
    {
        LeafId(8 * node + position + 1)
    }

    // Is it none, or does it name a slot of a TreeLing of a state of these sizes?
    #[tactic(auto, unfolding(crate::specs::LeafIds::leaf_fits))]
    pub fn in_range(self, sizes: Sizes) -> bool
        requires { sizes.treelings ≤ 4096 }
        ensures { result ≡ leaf_fits sizes.treelings self.0 }
    {
        self.0 <= 4096 * sizes.treelings
    }

    #[tactic(auto, unfolding(crate::specs::LeafIds::treeling_of))]
    pub fn treeling(self) -> u64
        requires { 1 ≤ self.0 }
        ensures { result ≡ treeling_of self.0 }
    {
        (self.0 - 1) / 4096
    }

    #[tactic(auto, unfolding(crate::specs::LeafIds::slot_of))]
    pub fn slot(self) -> u64
        requires { 1 ≤ self.0 }
        ensures { result ≡ slot_of self.0 }
    {
        (self.0 - 1) % 4096
    }

    #[tactic(auto, unfolding(crate::specs::LeafIds::node_of_leaf))]
    pub fn node(self) -> u64
        requires { 1 ≤ self.0 }
        ensures { result ≡ node_of_leaf self.0 }
    {
        (self.0 - 1) / 8
    }

    #[tactic(auto, unfolding(crate::specs::LeafIds::position_of_leaf))]
    pub fn position(self) -> u64
        requires { 1 ≤ self.0 }
        ensures { result ≡ position_of_leaf self.0 }
    {
        (self.0 - 1) % 8
    }
}

pub fn read_leaf(sizes: Sizes, state: &[u64], frame: Frame) -> LeafId
    requires laid { Laid sizes state.now }
    requires frame_lt_frames { frame.0 < sizes.frames }
    ensures { result.0 ≡ get sizes state.now (Place.leaf frame.0) }
{
    let at = sizes.leaf(frame.0);
    LeafId(state[at])
}

pub fn write_leaf(sizes: Sizes, state: &mut [u64], frame: Frame, id: LeafId)
    requires laid { Laid sizes state.old }
    requires frame_lt_frames { frame.0 < sizes.frames }
    ensures { state.new ≡ put sizes state.old (Place.leaf frame.0) id.0 }
{
    let at = sizes.leaf(frame.0);
    state[at] = id.0;
}

// Are the n frames from one on all unmapped?
pub fn all_unmapped(sizes: Sizes, state: &[u64], from: Frame, n: usize) -> bool
    requires laid { Laid sizes state.now }
    requires n_bound { from.0 + n ≤ sizes.frames }
    ensures { result ≡ all n (λ k. eqb (get_or state.now (address sizes (Place.leaf from.0) + k) 0) 0) }
{
    all_zero(state, sizes.leaf(from.0), n)
}

// Only this crate makes leaf IDs of words, so the row isn't gathered by layout's `gather_nonzero`.
// The leaf IDs of those of the n frames from one on that are mapped, gathered at the front of a buffer. No branch on a word: 0 comes in no order.
pub fn mapped_ids<'a>(
    sizes: Sizes,
    state: &[u64],
    from: Frame,
    n: usize,
    ids: &'a mut [LeafId],
) -> &'a [LeafId]
    requires laid { Laid sizes state.now }
    requires n_bound { (from.0 + n ≤ sizes.frames) × (n ≤ length ids.old) }
    ensures { Gathered state.now (address sizes (Place.leaf from.0)) n (words_of result.now) (length result.now) }
{
    let at = sizes.leaf(from.0);
    let mut m = 0;
    for word in &state[at..at + n] {
        ids[m] = LeafId(*word);
        m += usize::from(*word != 0);
    }
    &ids[..m]
}
