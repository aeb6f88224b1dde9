// The face for hosts: making a state, the audit, the batch and the small request lists, under the names that C calls (crate ivleague_c).
// The answers are numbers: the C interface has no Option or Result.
#![tactic(auto)]

ghost use Rattle.std.specs.Prelude.{◌≡◌};
ghost use Rattle.std.proofs.Math.ListN.{get_elem?};
ghost use Rattle.board.specs.NewState.{making};
ghost use Rattle.layout.specs.Outcomes.{outcome};
ghost use Rattle.layout.specs.Places.{sizes_of};
ghost use Rattle.sound.specs.Audit.{audit_number};
ghost use Rattle.batch.specs.Batch.{served, serving};
ghost use Rattle.every_list.specs.SmallLists.{small_lists};
ghost use Rattle.every_list.specs.Listing.{count_of, listed};

// making::make: 0, 1 or 2.
pub fn ivleague_make(
    treelings: u64,
    domains: u64,
    frames: u64,
    holes: &[u64],
    state: &mut [u64],
) -> u64
    ensures { outcome result state.new ≡ making (sizes_of treelings domains frames) holes.now state.old }
{
    making::make(treelings, domains, frames, holes, state).map_or_else(u64::from, |()| 0)
}

// audit::audit: 0, 3 or 4. Writes nothing.
pub fn ivleague_audit(state: &[u64]) -> u64
    ensures { result ≡ audit_number state.now }
{
    audit::audit(state).map_or_else(u64::from, |()| 0)
}

// batch::serve::serve: 0, or 3 to 6. A refused batch writes nothing.
pub fn ivleague_serve(state: &mut [u64], requests: &[u64], answers: &mut [u64]) -> u64
    ensures { served result state.new answers.new ≡ serving state.old requests.now answers.old }
{
    batch::serve::serve(state, requests, answers).map_or_else(u64::from, |()| 0)
}

// every_list::small_list: 0 to 3, the requests of the list. 4, and nothing is written: no list, or no room for it.
pub fn ivleague_small_list(number: u64, requests: &mut [u64]) -> u64
    ensures value { result ≡ count_of (listed (get_elem? small_lists number) requests.old).answer }
    ensures requests_after { requests.new ≡ (listed (get_elem? small_lists number) requests.old).words }
{
    match every_list::small_list(number, requests) {
        Some(count) => count as u64,
        None => 4,
    }
}
