// NFL words, and one block of eight read and written by value.
#![tactic(auto)]

ghost use Rattle.std.specs.Prelude.{◌≡◌, ◌+◌, ◌<◌, ◌≤◌, length, set};
ghost use Rattle.std.proofs.lemmas.List.Edits.{sets};
ghost use Rattle.geometry.specs.Entries.{entry_word, tag_of};
ghost use Rattle.layout.specs.Places.{Laid};
ghost use Rattle.blocks.specs.Blocks.{block, put_block};

use layout::Sizes;
use std::array;

pub fn entry_word(tag: u64, availability: u64) -> u64
    requires { (tag < 2097152) × (availability < 256) }
    ensures { result ≡ entry_word tag availability }
{
    256 * tag + availability
}

pub fn tag_of(word: u64) -> u64
    ensures { result ≡ tag_of word }
{
    word / 256
}

// Block b of TreeLing t: two numbers, as the definitions have them.
pub fn read_block(sizes: Sizes, state: &[u64], t: u64, b: u64) -> [u64; 8]
    requires laid { Laid sizes state.now }
    requires t_lt_treelings { (t < sizes.treelings) × (b < 64) }
    ensures { result ≡ block sizes state.now t b }
{
    let at = sizes.entry(t, 8 * b);
    array::from_fn(|i| state[at + i])
}

// Eight words from an address on, one by one: after `copy_from_slice` or `zip` the compiler keeps the words on the stack.
pub fn write_eight(to: &mut [u64], at: usize, words: [u64; 8])
    requires { at + 8 ≤ length to.old }
    ensures { to.new ≡ sets to.old at words }
{
    for i in 0..8 {
        to[at + i] = words[i];
    }
}

// The block handed back.
pub fn write_block(sizes: Sizes, state: &mut [u64], t: u64, b: u64, words: [u64; 8])
    requires laid { Laid sizes state.old }
    requires t_lt_treelings { (t < sizes.treelings) × (b < 64) }
    ensures { state.new ≡ put_block sizes state.old t b words }
{
    let at = sizes.entry(t, 8 * b);
    write_eight(state, at, words);
}

// Block b of TreeLing t is read, gets word x at entry K and is handed back.
fn change_entry<const K: usize>(z: Sizes, s: &mut [u64], t: u64, b: u64, x: u64)
    requires { Laid z s.old × (t < z.treelings) × (b < 64) × (K < 8) }
    ensures { s.new ≡ put_block z s.old t b (set (block z s.old t b) K x) }
{
    let mut w = read_block(z, s, t, b);
    w[K] = x;
    write_block(z, s, t, b, w);
}

// Block b of TreeLing t with word x at entry k. An arm for each entry: the compiler then sees which words stay as they were read,
// and writes the changed one alone.
pub fn change_block(z: Sizes, s: &mut [u64], t: u64, b: u64, k: u64, x: u64)
    requires { Laid z s.old × (t < z.treelings) × (b < 64) × (k < 8) }
    ensures { s.new ≡ put_block z s.old t b (set (block z s.old t b) k x) }
{
    match k {
        0 => change_entry::<0>(z, s, t, b, x),
        1 => change_entry::<1>(z, s, t, b, x),
        2 => change_entry::<2>(z, s, t, b, x),
        3 => change_entry::<3>(z, s, t, b, x),
        4 => change_entry::<4>(z, s, t, b, x),
        5 => change_entry::<5>(z, s, t, b, x),
        6 => change_entry::<6>(z, s, t, b, x),
        _ => change_entry::<7>(z, s, t, b, x),
    }
}
