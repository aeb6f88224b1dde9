// The limits of T, D and P, and the address of every kind of word.
ghost use Rattle.std.specs.Prelude.{◌≡◌, ◌<◌, ◌≤◌, get_or, length};
ghost use Rattle.layout.specs.Places.{Allowed, address, allowed, one_to, sizes_of, word_count, Place};

use crate::Sizes;

fn one_to(x: u64, most: u64) -> bool
    ensures { result ≡ one_to x most }
{
    (1..=most).contains(&x)
}

// `Allowed` is a clause and no invariant: making and the audit hold sizes that may not be.
impl Sizes {
    // The sizes that a state's first words tell.
    pub fn read(state: &[u64]) -> Sizes
        requires { 3 ≤ length state.now }
        ensures { result ≡ sizes_of (get_or state.now 0 0) (get_or state.now 1 0) (get_or state.now 2 0) }
    {
        Sizes {
            treelings: state[0],
            domains: state[1],
            frames: state[2],
        }
    }

    #[tactic(auto, unfolding(crate::specs::Places::allowed))]
    pub fn allowed(self) -> bool
        ensures { result ≡ allowed self }
    {
        one_to(self.treelings, 4096) && one_to(self.domains, 4096) && one_to(self.frames, 8388608)
    }

    pub fn word_count(self) -> usize
        requires { Allowed self }
        ensures { result ≡ word_count self }
    {
        (25 + 6 * self.domains + 517 * self.treelings + self.frames) as usize
    }

    // Word j of domain d.
    pub fn domain(self, d: u64, j: u64) -> usize
        requires allowed { Allowed self }
        requires d_le_domains { (d ≤ self.domains) × (j < 6) }
        ensures { result ≡ address self (Place.domain d j) }
    {
        (25 + 6 * d + j) as usize
    }

    // Word j of TreeLing t.
    pub fn treeling(self, t: u64, j: u64) -> usize
        requires allowed { Allowed self }
        requires t_le_treelings { (t ≤ self.treelings) × (j < 5) }
        ensures { result ≡ address self (Place.treeling t j) }
    {
        (25 + 6 * self.domains + 5 * t + j) as usize
    }

    // NFL entry k of TreeLing t.
    pub fn entry(self, t: u64, k: u64) -> usize
        requires allowed { Allowed self }
        requires t_le_treelings { (t ≤ self.treelings) × (k < 512) }
        ensures { result ≡ address self (Place.entry t k) }
    {
        (25 + 6 * self.domains + 5 * self.treelings + 512 * t + k) as usize
    }

    // The leaf map word of frame f.
    pub fn leaf(self, f: u64) -> usize
        requires allowed { Allowed self }
        requires f_le_frames { f ≤ self.frames }
        ensures { result ≡ address self (Place.leaf f) }
    {
        (25 + 6 * self.domains + 517 * self.treelings + f) as usize
    }
}
