// Calls on one page: map, unmap, path; and what a call answers, done or refused.
#![tactic(auto)]

pub mod mapping;
pub mod paths;
pub mod unmapping;

ghost use Rattle.std.specs.Prelude.{◌≡◌, ◌&&◌, suc, ◌<◌, ◌≤◌, eqb, ltb};
ghost use Rattle.leaf_map.specs.LeafIds.{LeafFits, treeling_of};
ghost use Rattle.layout.specs.Places.{Laid, get, owner};
ghost use Rattle.sound.specs.Sentences.{is_mapped_by};
ghost use Rattle.sound.specs.Sound.{Sound};
ghost use Rattle.pages.specs.Answers.{answer_of_done, page_at, refusal_number};

use layout::Sizes;
use leaf_map::{Frame, LeafId, read_leaf};

// What a single call that is done answers.
#[derive(Clone, Copy)]
pub enum Done {
    // The pages mapped or released, or the TreeLings returned.
    Finished(u64),
    // A page's leaf ID, the rank of its TreeLing and the pages mapped.
    Page {
        id: LeafId,
        rank: u64,
        pages: u64,
    },
    // The quotient, the remainder and the slots of a domain's fill.
    Fill {
        quotient: u64,
        remainder: u64,
        slots: u64,
    },
}

// The question by which a single call is refused, with its number in document 01.
#[derive(Clone, Copy, Debug, PartialEq, Eq)]
pub enum Refusal {
    // No call has the number, or a word that it doesn't use isn't 0.
    Malformed = 7,
    // The domain isn't below D.
    DomainOutOfRange = 8,
    // A frame isn't below P, or a run isn't of 1 to 2,048 frames.
    FramesOutOfRange = 9,
    // Open: the domain is live already.
    AlreadyLive = 10,
    // Another call: the domain isn't live.
    NotLive = 11,
    // Map: the frame is mapped by someone.
    FrameMapped = 12,
    // Map: the domain has no place left.
    NoPlace = 13,
    // Unmap and path: the frame isn't mapped by the domain.
    NotMappedByDomain = 14,
    // A frame lies in a hole.
    InHole = 16,
}

impl From<Refusal> for u64 {
    ghost from_gives = { λ refusal number. number ≡ refusal_number refusal };

    fn from(refusal: Refusal) -> u64 {
        refusal as u64
    }
}

// Does a leaf ID name a TreeLing of the domain?
#[tactic(auto, using(leaf_map::proofs::LeafIdLaws::treeling_below))]
pub fn is_own(sizes: Sizes, state: &[u64], d: u64, id: LeafId) -> bool
    requires laid { Laid sizes state.now }
    requires d_lt_domains { (d < sizes.domains) × LeafFits sizes.treelings id.0 }
    ensures { result ≡ (ltb 0 id.0 && eqb (get sizes state.now (owner (treeling_of id.0))) (suc d)) }
{
    !id.is_none() && state[sizes.treeling(id.treeling(), 0)] == d + 1
}

// Is a frame mapped by the domain?
pub fn is_mapped_by(sizes: Sizes, state: &[u64], d: u64, frame: Frame) -> bool
    requires sound { Sound sizes state.now }
    requires d_lt_domains { (d < sizes.domains) × (frame.0 < sizes.frames) }
    ensures { result ≡ is_mapped_by sizes state.now d frame.0 }
{
    let id = read_leaf(sizes, state, frame);
    is_own(sizes, state, d, id)
}

// The page at a leaf ID.
#[tactic(auto, using(leaf_map::proofs::LeafIdLaws::treeling_fits), unfolding(crate::specs::Answers::page_at))]
pub fn page_at(sizes: Sizes, state: &[u64], id: LeafId, pages: u64) -> Done
    requires sound { Sound sizes state.now }
    requires le_id { (1 ≤ id.0) × LeafFits sizes.treelings id.0 }
    ensures { answer_of_done result ≡ page_at sizes state.now id.0 pages }
{
    let rank = state[sizes.treeling(id.treeling(), 3)];
    Done::Page { id, rank, pages }
}
