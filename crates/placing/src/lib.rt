// Placing one page.
#![tactic(auto)]

ghost use Rattle.std.specs.Prelude.{◌≡◌};
ghost use Rattle.placing.specs.Placing.{spot_at};

pub mod place;

// An entry of a TreeLing's NFL, 0 to 511.
#[derive(Clone, Copy)]
pub struct Spot {
    pub treeling: u64,
    pub entry: u64,
}

impl Spot {
    // Entry k of TreeLing t.
    pub fn at(t: u64, k: u64) -> Spot
        ensures { result ≡ spot_at t k }
    {
        Spot {
            treeling: t,
            entry: k,
        }
    }
}

// Where a page will go: to an entry of the domain's own blocks, to a TreeLing that it takes, or nowhere. Three cases, each written by a case of `writing`.
#[derive(Clone, Copy)]
pub enum Decision {
    Own(Spot),
    Take(u64),
    Nowhere,
}
