// Words in a row, told by an address in the lent slice, as every body of the state is: cleared, copied, asked whether they are zero, and gathered where they are not.
ghost use Rattle.std.specs.Prelude.{◌≡◌, ◌+◌, ◌≤◌, eqb, get_or, length};
ghost use Rattle.std.proofs.Math.Seq.{paste};
ghost use Rattle.layout.specs.Bounded.{all};
ghost use Rattle.layout.specs.CodeWords.{Gathered};
ghost use Rattle.layout.specs.Places.{zeros};

// Zeros for the n words from an address on.
pub fn clear_words(state: &mut [u64], at: usize, n: usize)
    requires { at + n ≤ length state.old }
    ensures { state.new ≡ zeros state.old at n }
{
    state[at..at + n].fill(0);
}

// The given words for as many from an address on.
pub fn copy_words(state: &mut [u64], at: usize, words: &[u64])
    requires { at + length words.now ≤ length state.old }
    ensures { state.new ≡ paste state.old at words.now (length words.now) }
{
    state[at..at + words.len()].copy_from_slice(words);
}

// The n words from an address on are zero. No early return: the loop then runs on vectors.
pub fn all_zero(state: &[u64], at: usize, n: usize) -> bool
    requires { at + n ≤ length state.now }
    ensures { result ≡ all n (λ j. eqb (get_or state.now (at + j) 0) 0) }
{
    state[at..at + n]
        .iter()
        .fold(true, |none, word| none & (*word == 0))
}

// Those of the n words from an address on that are not 0, gathered in a row; how many they are. No branch on a word: 0 comes in no order.
pub fn gather_nonzero(state: &[u64], at: usize, n: usize, words: &mut [u64]) -> usize
    requires { (at + n ≤ length state.now) × (n ≤ length words.old) }
    ensures { Gathered state.now at n words.new result }
{
    let mut m = 0;
    for x in &state[at..at + n] {
        words[m] = *x;
        m += usize::from(*x != 0);
    }
    m
}
