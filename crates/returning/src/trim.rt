// Trimming a domain: what is to be returned is found first, then written.
ghost use Rattle.std.specs.Prelude.{true, ◌≡◌, ℕ, ◌+◌, ◌*◌, ◌<◌, ◌≤◌, get_or, length};
ghost use Rattle.layout.specs.Places.{address, entry};
ghost use Rattle.sound.specs.Sentences.{is_ordinary};
ghost use Rattle.sound.specs.Sound.{Ordinary, Sound};
ghost use Rattle.world.specs.World.{owned};
ghost use Rattle.gathering.specs.CodeGathering.{Chain};
ghost use Rattle.clearing.specs.Clearing.{treelings_cleared};
ghost use Rattle.returning.specs.Returning.{number_returned, trimmed, trimming};
ghost use Rattle.clearing.specs.CodeKept.{Added, Listed, Room, Summed, all_name, free_of_four, full_in};

use clearing::clear::clear_treelings;
use clearing::links::{chain, renumber};
use gathering::{first_link, gather, next_link, settle};
use layout::Sizes;
use taking::number_owned;

// The availabilities of the leaf nodes of a TreeLing without a page, added up: 512 times 255.
const ALL_FREE: u32 = 130560;

// The four entries from an address on name TreeLing t; and their availabilities, added up.
fn all_name(state: &[u64], at: usize, t: u64) -> bool
    requires { at + 4 ≤ length state.now }
    ensures { result ≡ all_name state.now at t }
{
    (state[at] / 131072 == t)
        & (state[at + 1] / 131072 == t)
        & (state[at + 2] / 131072 == t)
        & (state[at + 3] / 131072 == t)
}

fn free_of_four(state: &[u64], at: usize) -> u64
    requires { at + 4 ≤ length state.now }
    ensures { result ≡ free_of_four state.now at }
{
    state[at] % 256 + state[at + 1] % 256 + state[at + 2] % 256 + state[at + 3] % 256
}

// Adds the availabilities in four entries to those of the TreeLings that their tags name, one by one.
fn add_each(state: &[u64], at: usize, sums: &mut [u32])
    requires at_in_bounds { at + 4 ≤ length state.now }
    requires by_index { (i : ℕ) → i < 4 → Room sums.old (get_or state.now (at + i) 0) }
    ensures { Added state.now at 4 sums.old sums.new }
{
    for word in &state[at..at + 4] {
        sums[(*word / 131072) as usize] += (*word % 256) as u32;
    }
}

// The same at once where they name one TreeLing, as entries that stand together mostly do: an addition to a sum waits for the one before it, and so there is one to wait for and not four.
fn add_four(state: &[u64], at: usize, sums: &mut [u32])
    requires at_in_bounds { at + 4 ≤ length state.now }
    requires by_index { (i : ℕ) → i < 4 → Room sums.old (get_or state.now (at + i) 0) }
    ensures { Added state.now at 4 sums.old sums.new }
{
    let t = state[at] / 131072;
    if all_name(state, at, t) {
        sums[t as usize] += free_of_four(state, at) as u32;
        return;
    }
    add_each(state, at, sums);
}

// The same over the entries of TreeLing t, an ordinary domain's.
fn add_entries(sizes: Sizes, state: &[u64], t: u64, sums: &mut [u32])
    requires sound { Sound sizes state.now }
    requires t_lt_treelings { (t < sizes.treelings) × (sizes.treelings ≤ length sums.old) × (is_ordinary sizes state.now t ≡ true) }
    requires by_index { (u : ℕ) → u < sizes.treelings → get_or sums.old u 0 ≤ 2147483648 }
    ensures { Added state.now (address sizes (entry t 0)) 512 sums.old sums.new }
{
    let at = sizes.entry(t, 0);
    for k in 0..128 {
        add_four(state, at + 4 * k, sums);
    }
}

// The same over all entries of the domain.
fn add_up(sizes: Sizes, state: &[u64], d: u64, treelings: u64, sums: &mut [u32])
    requires sound { Sound sizes state.now }
    requires d_lt_domains { (d < sizes.domains) × (treelings ≡ owned sizes state.now d) × Ordinary sizes state.now d }
    requires summed { Summed sizes state.now d 0 sums.old }
    ensures { Summed sizes state.now d (512 * treelings) sums.new }
{
    let mut link = first_link(sizes, state, d);
    for _ in 0..treelings {
        let t = link - 1;
        add_entries(sizes, state, t, sums);
        link = next_link(sizes, state, t);
    }
}

// The links of the TreeLings that stay, in order, written to the front of a lent row, and their number: memory is fixed here, and so there is no Vec to push to.
fn list_kept(
    sizes: Sizes,
    state: &[u64],
    d: u64,
    treelings: u64,
    sums: &[u32],
    kept: &mut [u16],
) -> u64
    requires chain { Chain sizes state.now d treelings }
    requires treelings_in_bounds { sizes.treelings ≤ length sums.now }
    requires listed { Listed sizes state.now d sums.now 0 0 kept.old }
    ensures { Listed sizes state.now d sums.now treelings result kept.new }
{
    let mut link = first_link(sizes, state, d);
    let mut n = 0;
    for _ in 0..treelings {
        let t = link - 1;
        if sums[t as usize] != ALL_FREE {
            kept[n as usize] = link as u16;
            n += 1;
        }
        link = next_link(sizes, state, t);
    }
    n
}

// The TreeLings that go are cleared.
fn clear_full(sizes: Sizes, state: &mut [u64], d: u64, treelings: u64, sums: &[u32])
    requires chain { Chain sizes state.old d treelings }
    requires treelings_in_bounds { sizes.treelings ≤ length sums.now }
    ensures { state.new ≡ treelings_cleared sizes state.old d (full_in sizes state.old d sums.now) state.old treelings }
{
    clear_treelings(sizes, state, d, treelings, |t| sums[t as usize] == ALL_FREE);
}

// The TreeLings that go are returned, and the rest, if there is any, is regathered.
fn give_back(
    sizes: Sizes,
    state: &mut [u64],
    d: u64,
    treelings: u64,
    sums: &[u32],
    kept: &[u16],
    left: u64,
)
    requires sound { Sound sizes state.old }
    requires d_lt_domains { (d < sizes.domains) × (treelings ≡ owned sizes state.old d) × (left < treelings) × Ordinary sizes state.old d }
    requires summed { Summed sizes state.old d (512 * treelings) sums.now × Listed sizes state.old d sums.now treelings left kept.now }
    ensures { state.new ≡ trimmed sizes state.old d }
{
    if left == 0 {
        clear_full(sizes, state, d, treelings, sums);
        chain(sizes, state, d, 0, 0);
        return;
    }
    gather(sizes, state, d, treelings);
    clear_full(sizes, state, d, treelings, sums);
    let end = renumber(sizes, state, kept, left);
    chain(sizes, state, d, u64::from(kept[0]), end);
    settle(sizes, state, d, left);
}

// Returns the domain's TreeLings without a page, and says how many. Nothing is written where there is none. The sums and the links are those of a board of at most so many TreeLings, with a link more for the 0 behind the last: the fewer, the fewer words to clear.
fn trim_sized<const SUMS: usize, const KEPT: usize>(sizes: Sizes, state: &mut [u64], d: u64) -> u64
    requires sound { Sound sizes state.old }
    requires d_lt_domains { (d < sizes.domains) × Ordinary sizes state.old d }
    requires room { ((sizes.treelings ≤ SUMS) × (SUMS ≤ 4096)) × ((sizes.treelings < KEPT) × (KEPT ≤ 4097)) }
    ensures value { (result ≡ number_returned sizes state.old d) × (state.new ≡ trimming sizes state.old d) }
    ensures sound_2 { Sound sizes state.new }
{
    let mut sums = [0u32; SUMS];
    let mut kept = [0u16; KEPT];
    let treelings = number_owned(sizes, state, d);
    add_up(sizes, state, d, treelings, &mut sums);
    let left = list_kept(sizes, state, d, treelings, &sums, &mut kept);
    if left == treelings {
        return 0;
    }
    give_back(sizes, state, d, treelings, &sums, &kept, left);
    treelings - left
}

// The same, with room for as many TreeLings as the board may have.
pub fn trim(sizes: Sizes, state: &mut [u64], d: u64) -> u64
    requires sound { Sound sizes state.old }
    requires d_lt_domains { (d < sizes.domains) × Ordinary sizes state.old d }
    ensures value { (result ≡ number_returned sizes state.old d) × (state.new ≡ trimming sizes state.old d) }
    ensures sound_2 { Sound sizes state.new }
{
    if sizes.treelings <= 16 {
        return trim_sized::<16, 17>(sizes, state, d);
    }
    trim_sized::<4096, 4097>(sizes, state, d)
}
