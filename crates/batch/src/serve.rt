// Serving a batch.
ghost use Rattle.std.specs.Prelude.{◌≡◌, ◌+◌, ◌*◌, ◌/◌, ◌%◌, ◌≤◌, length};
ghost use Rattle.sound.specs.Sound.{Sound};
ghost use Rattle.pages.specs.Answers.{answer_of, answer_of_done, answer_words};
ghost use Rattle.calls.specs.CodeFits.{PageFits};
ghost use Rattle.batch.specs.Numbers.{number_of};
ghost use Rattle.batch.specs.Batch.{answers_after, request_word, requests_fit, served, serving, state_after};

use crate::Refusal;
use audit::audit;
use blocks::write_eight;
use geometry::path;
use geometry::tables::LowestTable;
use layout::Sizes;
use pages::Done;
use questions::Request;
use requests::answer;

// The eight words of what is done.
fn done_words(done: Done) -> [u64; 8]
    requires { PageFits (answer_of_done done) }
    ensures { result ≡ answer_words (answer_of_done done) }
{
    match done {
        Done::Finished(pages) => [0, 0, 0, 0, 0, 0, 0, pages],
        Done::Page { id, rank, pages } => {
            let nodes = path(id.treeling(), id.slot());
            [
                0,
                rank,
                nodes[0],
                nodes[1],
                nodes[2],
                nodes[3],
                id.position(),
                pages,
            ]
        }
        Done::Fill {
            quotient,
            remainder,
            slots,
        } => [0, quotient, remainder, slots, 0, 0, 0, 0],
    }
}

// The eight words of an answer.
fn words_of(answer: Result<Done, pages::Refusal>) -> [u64; 8]
    requires { PageFits (answer_of answer) }
    ensures { result ≡ answer_words (answer_of answer) }
{
    match answer {
        Ok(done) => done_words(done),
        Err(refusal) => [u64::from(refusal), 0, 0, 0, 0, 0, 0, 0],
    }
}

// Request k. By index: what a zip over chunks that writes leaves is not known to a proof.
fn request_at(requests: &[u64], k: usize) -> Request
    requires { 4 * k + 4 ≤ length requests.now }
    ensures call_value { (result.call ≡ request_word requests.now k 0) × (result.domain ≡ request_word requests.now k 1) }
    ensures frame_value { (result.frame ≡ request_word requests.now k 2) × (result.count ≡ request_word requests.now k 3) }
{
    let at = 4 * k;
    Request {
        call: requests[at],
        domain: requests[at + 1],
        frame: requests[at + 2],
        count: requests[at + 3],
    }
}

// Each request's answer, from a sound state and with room for it.
fn serve_all(sizes: Sizes, state: &mut [u64], requests: &[u64], answers: &mut [u64])
    requires sound { Sound sizes state.old }
    requires answers_len { length answers.old ≡ 2 * length requests.now }
    ensures state_after { state.new ≡ state_after sizes state.old requests.now (length requests.now / 4) }
    ensures answers_after { answers.new ≡ answers_after sizes state.old requests.now answers.old (length requests.now / 4) }
{
    let low = LowestTable::new();
    for k in 0..requests.len() / 4 {
        let q = request_at(requests, k);
        let a = answer(sizes, state, &low, q);
        write_eight(answers, 8 * k, words_of(a));
    }
}

// Question 5.
fn requests_fit(requests: &[u64]) -> bool
    ensures { result ≡ requests_fit requests.now }
{
    requests.len() % 4 == 0 && requests.len() <= 262144
}

// Every request is answered, unless the batch is refused.
pub fn serve(state: &mut [u64], requests: &[u64], answers: &mut [u64]) -> Result<(), Refusal>
    ensures { served (number_of result) state.new answers.new ≡ serving state.old requests.now answers.old }
{
    audit(state)?;
    if !requests_fit(requests) {
        return Err(Refusal::Requests);
    }
    if answers.len() != 2 * requests.len() {
        return Err(Refusal::Answers);
    }
    let sizes = Sizes::read(state);
    serve_all(sizes, state, requests, answers);
    Ok(())
}
