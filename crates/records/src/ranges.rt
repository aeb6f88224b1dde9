// Every word of a domain's and of a TreeLing's record lies in its range.
ghost use Rattle.std.specs.Prelude.{◌≡◌, ◌<◌};
ghost use Rattle.layout.specs.Places.{Laid};
ghost use Rattle.layout.specs.Bounded.{all};
ghost use Rattle.sound.specs.Sentences.{domain_in_range, treeling_in_range};

use layout::Sizes;

// The words of domain d's record.
fn domain_in_range(sizes: Sizes, state: &[u64], d: u64) -> bool
    requires laid { Laid sizes state.now }
    requires d_lt_domains { d < sizes.domains }
    ensures { result ≡ domain_in_range sizes state.now d }
{
    let at = sizes.domain(d, 0);
    let t = sizes.treelings;
    state[at] <= 1
        && state[at + 1] <= t
        && state[at + 2] <= t
        && state[at + 3] <= t
        && state[at + 4] <= 63
}

// The words of every domain's record.
pub fn domains_in_range(sizes: Sizes, state: &[u64]) -> bool
    requires { Laid sizes state.now }
    ensures { result ≡ all sizes.domains (domain_in_range sizes state.now) }
{
    (0..sizes.domains).all(|d| domain_in_range(sizes, state, d))
}

// The words of TreeLing t's record.
fn treeling_in_range(sizes: Sizes, state: &[u64], t: u64) -> bool
    requires laid { Laid sizes state.now }
    requires t_lt_treelings { t < sizes.treelings }
    ensures { result ≡ treeling_in_range sizes state.now t }
{
    let at = sizes.treeling(t, 0);
    state[at] <= sizes.domains
        && state[at + 1] <= sizes.treelings
        && state[at + 2] <= sizes.treelings
        && state[at + 4] <= sizes.domains
}

// The words of every TreeLing's record.
pub fn treelings_in_range(sizes: Sizes, state: &[u64]) -> bool
    requires { Laid sizes state.now }
    ensures { result ≡ all sizes.treelings (treeling_in_range sizes state.now) }
{
    (0..sizes.treelings).all(|t| treeling_in_range(sizes, state, t))
}
