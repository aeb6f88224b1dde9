// The static library: the functions of crate ivleague, exported for C under the same names with the same clauses. A crate is a library or a static library, hence two.
#![tactic(auto)]

ghost use Rattle.std.specs.Prelude.{◌≡◌};
ghost use Rattle.std.proofs.Math.ListN.{get_elem?};
ghost use Rattle.board.specs.NewState.{making};
ghost use Rattle.layout.specs.Outcomes.{outcome};
ghost use Rattle.layout.specs.Places.{sizes_of};
ghost use Rattle.sound.specs.Audit.{audit_number};
ghost use Rattle.batch.specs.Batch.{served, serving};
ghost use Rattle.every_list.specs.SmallLists.{small_lists};
ghost use Rattle.every_list.specs.Listing.{count_of, listed};

// Making a state: 0, 1 or 2.
#[unsafe(no_mangle)]
pub extern "C" fn ivleague_make(
    treelings: u64,
    domains: u64,
    frames: u64,
    holes: &[u64],
    state: &mut [u64],
) -> u64
    ensures { outcome result state.new ≡ making (sizes_of treelings domains frames) holes.now state.old }
{
    ivleague::ivleague_make(treelings, domains, frames, holes, state)
}

// The audit: 0, 3 or 4. Writes nothing.
#[unsafe(no_mangle)]
pub extern "C" fn ivleague_audit(state: &[u64]) -> u64
    ensures { result ≡ audit_number state.now }
{
    ivleague::ivleague_audit(state)
}

// A batch: 0, or 3 to 6. A refused batch writes nothing.
#[unsafe(no_mangle)]
pub extern "C" fn ivleague_serve(state: &mut [u64], requests: &[u64], answers: &mut [u64]) -> u64
    ensures { served result state.new answers.new ≡ serving state.old requests.now answers.old }
{
    ivleague::ivleague_serve(state, requests, answers)
}

// A small request list: 0 to 3, the requests of the list. 4, and nothing is written: no list, or no room for it.
#[unsafe(no_mangle)]
pub extern "C" fn ivleague_small_list(number: u64, requests: &mut [u64]) -> u64
    ensures value { result ≡ count_of (listed (get_elem? small_lists number) requests.old).answer }
    ensures requests_after { requests.new ≡ (listed (get_elem? small_lists number) requests.old).words }
{
    ivleague::ivleague_small_list(number, requests)
}
