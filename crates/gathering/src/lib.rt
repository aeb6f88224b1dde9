// Regathering a domain's NFL in place: a word has room above tag and availability for a leaf node's whole availability.
#![tactic(auto)]

ghost use Rattle.std.specs.Prelude.{◌≡◌, ℕ, suc, ◌+◌, ◌-◌, ◌*◌, ◌/◌, ◌%◌, ◌<◌, ◌≤◌};
ghost use Rattle.layout.specs.Places.{Laid, address, entry, first, get, head_block, head_treeling, last, next, owner, put};
ghost use Rattle.layout.specs.Bounded.{count};
ghost use Rattle.sound.specs.Sound.{Ordinary, Sound};
ghost use Rattle.world.specs.World.{owned, world};
ghost use Rattle.gathering.specs.Regathering.{regathered, select, whole_with};
ghost use Rattle.sound.specs.Sentences.{link_of, of_rank};
ghost use Rattle.gathering.specs.CodeGathering.{Chain, Filled, Ready, Stepped, above_at, above_in, chosen_in, entry_at, gathering_word, head_of, home_of, lowered, room, spread_word, word_of};

use layout::Sizes;
use taking::number_owned;

// A walk through a domain's entries in rank order: at this entry, in the TreeLing that the link names. What makes it ready relates it to sizes and state, and is
// a clause.
#[derive(Clone, Copy)]
pub struct Walk {
    pub link: u64,
    pub at: u64,
}

const ROOM: u64 = 4294967296;

// The link to the first TreeLing of domain d.
pub fn first_link(sizes: Sizes, state: &[u64], d: u64) -> u64
    requires laid { Laid sizes state.now }
    requires d_lt_domains { d < sizes.domains }
    ensures { result ≡ get sizes state.now (first d) }
{
    state[sizes.domain(d, 1)]
}

// The link from TreeLing t to the next one.
pub fn next_link(sizes: Sizes, state: &[u64], t: u64) -> u64
    requires laid { Laid sizes state.now }
    requires t_lt_treelings { t < sizes.treelings }
    ensures { result ≡ get sizes state.now (next t) }
{
    state[sizes.treeling(t, 2)]
}

impl Walk {
    // At the first entry of domain d.
    fn begin(sizes: Sizes, state: &[u64], d: u64) -> Walk
        requires laid { Laid sizes state.now }
        requires d_lt_domains { d < sizes.domains }
        ensures { (result.link ≡ get sizes state.now (first d)) × (result.at ≡ 0) }
    {
        let link = first_link(sizes, state, d);
        Walk { link, at: 0 }
    }

    // On to the next entry.
    fn step(self, sizes: Sizes, state: &[u64]) -> Walk
        requires { Ready sizes state.now self }
        ensures { Stepped sizes state.now self result }
    {
        let mut link = self.link;
        if self.at % 512 == 511 {
            link = next_link(sizes, state, link - 1);
        }
        Walk {
            link,
            at: self.at + 1,
        }
    }

    // The number of the leaf node whose own entry this is.
    fn node(self) -> u64
        requires { (0 < self.link) × (self.link ≤ 4096) }
        ensures { result ≡ 512 * (self.link - 1) + self.at % 512 }
    {
        512 * (self.link - 1) + self.at % 512
    }

    // The word of this entry.
    fn read(self, sizes: Sizes, state: &[u64]) -> u64
        requires { Ready sizes state.now self }
        ensures { result ≡ get sizes state.now (entry_at self) }
    {
        state[sizes.entry(self.link - 1, self.at % 512)]
    }

    // This entry's word becomes the given one.
    fn write(self, sizes: Sizes, state: &mut [u64], word: u64)
        requires { Ready sizes state.old self }
        ensures { state.new ≡ put sizes state.old (entry_at self) word }
    {
        state[sizes.entry(self.link - 1, self.at % 512)] = word;
    }

    // Writes a word, and what stands above stays; on to the next entry.
    fn put_below(self, sizes: Sizes, state: &mut [u64], word: u64) -> Walk
        requires ready { Ready sizes state.old self }
        requires word_lt_room { word < room }
        ensures state_after { state.new ≡ put sizes state.old (entry_at self) (room * (get sizes state.old (entry_at self) / room) + word) }
        ensures stepped { Stepped sizes state.old self result }
    {
        let after = self.step(sizes, state);
        let above = self.read(sizes, state) / ROOM;
        self.write(sizes, state, ROOM * above + word);
        after
    }
}

// Adds free positions above the word of a leaf node's own entry.
fn add_above(sizes: Sizes, state: &mut [u64], node: u64, bits: u64)
    requires laid { Laid sizes state.old }
    requires node_bound { (node < 512 * sizes.treelings) × (bits < 256) × (get sizes state.old (home_of node) < 9223372036854775808) }
    ensures { state.new ≡ put sizes state.old (home_of node) (get sizes state.old (home_of node) + room * bits) }
{
    let at = sizes.entry(0, 0) + node as usize;
    state[at] += ROOM * bits;
}

// Every entry's availability is added above its leaf node's own entry.
pub fn gather(sizes: Sizes, state: &mut [u64], d: u64, treelings: u64)
    requires sound { Sound sizes state.old }
    requires d_lt_domains { (d < sizes.domains) × (treelings ≡ owned sizes state.old d) × Ordinary sizes state.old d }
    ensures { Filled sizes state.old d state.new (owned sizes state.old d) (gathering_word sizes state.old d (512 * owned sizes state.old d)) }
{
    let mut walk = Walk::begin(sizes, state, d);
    for _ in 0..512 * treelings {
        let word = walk.read(sizes, state) % ROOM;
        add_above(sizes, state, word / 256, word % 256);
        walk = walk.step(sizes, state);
    }
}

// The spent leaf nodes, or the others, in rank order, one to an entry. Which, a flag says: a closure would say no more than its one comparison.
fn spread(sizes: Sizes, state: &mut [u64], d: u64, treelings: u64, start: Walk, spent: bool) -> Walk
    requires chain { Chain sizes state.old d treelings }
    requires link_value { start.link ≡ link_of sizes state.old d (start.at / 512) }
    requires spent_bound { start.at + count (512 * treelings) (chosen_in sizes state.old d spent) ≤ 512 * treelings }
    requires by_index { (q : ℕ) → q < 512 * treelings → above_in sizes state.old d q < 1073741824 }
    ensures { (result.at ≡ start.at + count (512 * treelings) (chosen_in sizes state.old d spent)) × (result.link ≡ link_of sizes state.old d (result.at / 512)) × Filled sizes state.old d state.new treelings (spread_word sizes state.old d start.at (select (chosen_in sizes state.old d spent) (512 * treelings))) }
{
    let mut walk = Walk::begin(sizes, state, d);
    let mut to = start;
    for _ in 0..512 * treelings {
        let whole = walk.read(sizes, state) / ROOM;
        let node = walk.node();
        walk = walk.step(sizes, state);
        if (whole == 0) == spent {
            to = to.put_below(sizes, state, 256 * node + whole);
        }
    }
    to
}

// What stands above the entries of TreeLing t goes. The loop runs on vectors.
fn lower(sizes: Sizes, state: &mut [u64], t: u64)
    requires laid { Laid sizes state.old }
    requires t_lt_treelings { t < sizes.treelings }
    ensures { state.new ≡ lowered state.old (address sizes (entry t 0)) 512 }
{
    let at = sizes.entry(t, 0);
    for word in &mut state[at..at + 512] {
        *word %= ROOM;
    }
}

// What stands above goes. A walk of its own, as those that sum up and list: a function for the walk would take a closure that writes the state, and each caller
// would have to say what it writes.
fn clear_above(sizes: Sizes, state: &mut [u64], d: u64, treelings: u64)
    requires { Chain sizes state.old d treelings }
    ensures { Filled sizes state.old d state.new treelings (λ p. word_of sizes state.old d p % room) }
{
    let mut link = first_link(sizes, state, d);
    for _ in 0..treelings {
        let t = link - 1;
        link = next_link(sizes, state, t);
        lower(sizes, state, t);
    }
}

// The block of a walk becomes the head.
fn set_head(sizes: Sizes, state: &mut [u64], d: u64, head: Walk)
    requires laid { Laid sizes state.old }
    requires d_lt_domains { d < sizes.domains }
    ensures { state.new ≡ put sizes (put sizes state.old (head_treeling d) head.link) (head_block d) (head.at % 512 / 8) }
{
    let at = sizes.domain(d, 3);
    state[at] = head.link;
    state[at + 1] = head.at % 512 / 8;
}

// The block of a walk, and the last block of the domain where the walk is past its last entry.
fn head_of(sizes: Sizes, state: &[u64], d: u64, treelings: u64, walk: Walk) -> Walk
    requires laid { Laid sizes state.now }
    requires d_lt_domains { (d < sizes.domains) × (0 < treelings) × (treelings ≤ 4096) }
    ensures { result ≡ head_of sizes state.now d treelings walk }
{
    if walk.at < 512 * treelings {
        return walk;
    }
    Walk {
        link: state[sizes.domain(d, 2)],
        at: walk.at - 1,
    }
}

// With their whole availability above their own entries: every leaf node of the domain once, the spent ones first, and the head.
pub fn settle(sizes: Sizes, state: &mut [u64], d: u64, treelings: u64)
    requires chain { Chain sizes state.old d treelings }
    requires treelings_nonzero { (0 < treelings) × (get sizes state.old (last d) ≡ suc (of_rank sizes state.old d (treelings - 1))) }
    requires by_index { (q : ℕ) → q < 512 * treelings → above_in sizes state.old d q < 1073741824 }
    ensures { state.new ≡ regathered sizes state.old d treelings (above_at sizes state.old) }
{
    let start = Walk::begin(sizes, state, d);
    let end = spread(sizes, state, d, treelings, start, true);
    spread(sizes, state, d, treelings, end, false);
    clear_above(sizes, state, d, treelings);
    let head = head_of(sizes, state, d, treelings, end);
    set_head(sizes, state, d, head);
}

// Every leaf node of the domain once, with its whole availability; one position of a node is free again.
pub fn regather(sizes: Sizes, state: &mut [u64], d: u64, node: u64, position: u64)
    requires sound { Sound sizes state.old }
    requires d_lt_domains { (d < sizes.domains) × (node < 512 * sizes.treelings) × (position < 8) × Ordinary sizes state.old d }
    requires node_value { get sizes state.old (owner (node / 512)) ≡ suc d }
    ensures { state.new ≡ regathered sizes state.old d (owned sizes state.old d) (whole_with (world sizes state.old d) node position) }
{
    let treelings = number_owned(sizes, state, d);
    gather(sizes, state, d, treelings);
    add_above(sizes, state, node, 1u64 << position);
    settle(sizes, state, d, treelings);
}
