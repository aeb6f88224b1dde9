// The TreeLings that a domain keeps, linked anew.
ghost use Rattle.std.specs.Prelude.{◌≡◌, ◌<◌};
ghost use Rattle.layout.specs.Places.{Laid, first, head_block, head_treeling, last, put};
ghost use Rattle.clearing.specs.CodeKept.{Links, last_link, linked_by};

use layout::Sizes;

// The TreeLings of n links get the ranks 0, 1, 2 and are linked one to another; the last link.
// kept and n stay two, no slice of n links: the word behind the n-th link is the last TreeLing's next.
pub fn renumber(sizes: Sizes, state: &mut [u64], kept: &[u16], n: u64) -> u64
    requires laid { Laid sizes state.old }
    requires links { Links sizes n kept.now }
    ensures { (result ≡ last_link kept.now n) × (state.new ≡ linked_by sizes kept.now state.old n) }
{
    let mut before = 0;
    for q in 0..n {
        let link = u64::from(kept[q as usize]);
        let at = sizes.treeling(link - 1, 0);
        state[at + 1] = before;
        state[at + 2] = u64::from(kept[q as usize + 1]);
        state[at + 3] = q;
        before = link;
    }
    before
}

// The domain's record: first and last, and no head.
pub fn chain(sizes: Sizes, state: &mut [u64], d: u64, start: u64, end: u64)
    requires laid { Laid sizes state.old }
    requires d_lt_domains { d < sizes.domains }
    ensures { state.new ≡ put sizes (put sizes (put sizes (put sizes state.old (first d) start) (last d) end) (head_treeling d) 0) (head_block d) 0 }
{
    let at = sizes.domain(d, 1);
    state[at] = start;
    state[at + 1] = end;
    state[at + 2] = 0;
    state[at + 3] = 0;
}
