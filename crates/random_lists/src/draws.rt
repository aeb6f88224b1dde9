// The generator and the digest.
ghost use Rattle.std.specs.Prelude.{◌≡◌, ◌<◌};
ghost use Rattle.random_lists.specs.Bounds.{Small};

use layout::Sizes;

// The draws of a list on a board of small sizes: x goes to (1103515245 x + 12345) mod 2^31 with each.
#[derive(Drop)]
pub struct Draws {
    x: u64,
    pub sizes: Sizes,
    ghost small: { Small sizes },
}

impl Draws {
    pub fn new(seed: u64, sizes: Sizes) -> Draws
        requires { Small sizes }
        ensures { result.sizes ≡ sizes }
    {
        Draws { x: seed, sizes }
    }

    // The next draw, below n. The board stays, as with every draw.
    pub fn below(&mut self, n: u64) -> u64
        requires { 0 < n }
        ensures bound { result < n }
        ensures board { self.new.sizes ≡ self.old.sizes }
    {
        self.x = (1103515245 * (self.x % 2147483648) + 12345) % 2147483648;
        self.x / 65536 % n
    }

    // A domain of the board.
    pub fn domain(&mut self) -> u64
        ensures bound { result < self.old.sizes.domains }
        ensures board { self.new.sizes ≡ self.old.sizes }
    {
        let domains = self.sizes.domains;
        self.below(domains)
    }

    // A frame of the board.
    pub fn frame(&mut self) -> u64
        ensures bound { result < self.old.sizes.frames }
        ensures board { self.new.sizes ≡ self.old.sizes }
    {
        let frames = self.sizes.frames;
        self.below(frames)
    }
}

// The word's two halves, added.
fn halves(word: u64) -> u64
    ensures { result < 8589934592 }
{
    word / 4294967296 + word % 4294967296
}

// h -> (48271 h + the word's two halves) mod (2^31 - 1), word by word from 0.
pub fn digest(words: &[u64]) -> u64 {
    words.iter().fold(
        0,
        |h: u64, word: &u64| -> u64
            requires { h < 2147483647 }
            ensures { result < 2147483647 }
        { (48271 * h + halves(*word)) % 2147483647 },
    )
}
