// Every small request list by its number: at most three of the 16 requests of calls 1 to 5 for T = 1, D = 2, P = 2 without holes.
#![tactic(auto)]

ghost use Rattle.std.specs.Prelude.{◌≡◌, ◌+◌, ◌*◌, ◌^◌, ◌<◌, ◌≤◌, length};
ghost use mathlib.Core.List.{flatten};
ghost use Rattle.std.proofs.Math.ListN.{get_elem?};
ghost use Rattle.std.proofs.lemmas.List.Edits.{sets};
ghost use Rattle.layout.specs.Outcomes.{outcome};
ghost use Rattle.every_list.specs.SmallLists.{small_lists};
ghost use Rattle.every_list.specs.Listing.{listed};
ghost use Rattle.every_list.specs.CodeLists.{ranked, request_at, shorter};

// Lists are numbered from 0, shorter ones first.
pub const LISTS: u64 = 4369;

// A list by its length: its rank among those that are as long. A struct and no pair, so that clauses name the two numbers.
#[derive(Clone, Copy)]
struct Ranked {
    requests: usize,
    rank: u64,
}

// Request number i of the 16.
#[tactic(auto, using(crate::proofs::RequestLaws::request_low, crate::proofs::RequestLaws::request_high))]
fn request(i: u64) -> [u64; 4]
    requires { i < 16 }
    ensures { result ≡ request_at i }
{
    if i < 4 {
        return [1 + i / 2, i % 2, 0, 0];
    }
    [2 + i / 4, i / 2 % 2, i % 2, 0]
}

// 1, 16, 256 and 4,096 lists have 0, 1, 2 and 3 requests.
#[tactic(auto, unfolding(crate::specs::CodeLists::shorter))]
fn rank(number: u64) -> Ranked
    requires { number < 4369 }
    ensures { (result.requests ≤ 3) × (result.rank < 16 ^ result.requests) × (number ≡ shorter result.requests + result.rank) }
{
    let (requests, rank) = match number {
        0 => (0, 0),
        1..=16 => (1, number - 1),
        17..=272 => (2, number - 17),
        _ => (3, number - 273),
    };
    Ranked { requests, rank }
}

// The words of a request, one by one: with `copy_from_slice` the compiler writes them to the stack first.
fn write_request(words: &mut [u64], at: usize, request: [u64; 4])
    requires { at + 4 ≤ length words.old }
    ensures { words.new ≡ sets words.old at request }
{
    for i in 0..4 {
        words[at + i] = request[i];
    }
}

// The last request is the lowest digit of the rank.
fn write_list(words: &mut [u64], requests: usize, rank: u64)
    requires { 4 * requests ≤ length words.old }
    ensures { words.new ≡ sets words.old 0 (flatten (ranked requests rank)) }
{
    let mut left = rank;
    for k in (0..requests).rev() {
        write_request(words, 4 * k, request(left % 16));
        left /= 16;
    }
}

// Writes the list with this number to the front of the words, and answers how many requests it has. Where there is no such
// list, or no room for it, nothing is written.
#[tactic(auto, using(crate::proofs::CodeLaws::no_list))]
pub fn small_list(number: u64, words: &mut [u64]) -> Option<usize>
    ensures { outcome result words.new ≡ listed (get_elem? small_lists number) words.old }
{
    if LISTS <= number {
        return None;
    }
    let list = rank(number);
    if words.len() < 4 * list.requests {
        return None;
    }
    write_list(words, list.requests, list.rank);
    Some(list.requests)
}
