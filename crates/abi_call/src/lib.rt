// Input, commit and settle for C: the call on lent memory, and its numbers as they are returned. `abi` exports them; the definitions
// here are of all seven calls.
#![tactic(auto)]

ghost use Rattle.std.specs.Prelude.{◌≡◌, [], ◌∷◌};
ghost use Rattle.calls.specs.Answers.{memory_at, numbers_of};
ghost use Rattle.calls.specs.Requests.{requested, outcome_to};
ghost use Rattle.refusals.specs.Declined.{number_of};
ghost use Rattle.abi_call.specs.Returned.{numbers_at, returned_of, returned};

use calls::{Request, Response};
use deck::Deck;
use refusals::Declined;

// The place, then the answer numbers.
pub fn write(answer: &mut [u32; 5], place: u32, first: u32, second: u32, third: u32, fourth: u32)
    ensures { answer.new ≡ place ∷ first ∷ second ∷ third ∷ fourth ∷ [] }
{
    *answer = [place, first, second, third, fourth];
}

// A call that declines: its place and no answer numbers, and the refusal's number to be returned.
pub fn decline(answer: &mut [u32; 5], why: Declined) -> u32
    ensures { (result ≡ number_of why.refusal) × (answer.new ≡ why.place ∷ 0 ∷ 0 ∷ 0 ∷ 0 ∷ []) }
{
    write(answer, why.place, 0, 0, 0, 0);
    why.refusal.number()
}

// What input, commit and settle return: the refusal's number and place, and the first two answer numbers.
#[derive(Clone, Copy, Debug, PartialEq, Eq)]
pub struct Numbers {
    pub number: u32,
    pub place: u32,
    pub first: u32,
    pub second: u32,
}

// The numbers of a call that is accepted.
fn accepted(first: u32, second: u32) -> Numbers
    ensures { numbers_at result.number result.place result.first result.second ≡ numbers_at 0 0 first second }
{
    Numbers {
        number: 0,
        place: 0,
        first,
        second,
    }
}

fn numbers_of(told: Result<Response, Declined>) -> Numbers
    ensures { numbers_at result.number result.place result.first result.second ≡ numbers_of (outcome_to told) }
{
    match told {
        Ok(Response::Added(charge)) => accepted(charge, 0),
        Ok(Response::Applied(charge)) => accepted(1, charge),
        Ok(Response::Discarded(charge)) => accepted(0, charge),
        Ok(Response::Settled(commits)) => accepted(commits, 1),
        Ok(Response::Spent(commits)) => accepted(commits, 0),
        Err(why) => Numbers {
            number: why.refusal.number(),
            place: why.place,
            first: 0,
            second: 0,
        },
    }
}

// Input, commit and settle.
pub fn call(
    deck: &[u8],
    pool: &mut [i32],
    values: &mut [i32; Deck::VALUES],
    pending: &mut u32,
    request: Request,
    pairs: &[i32],
    answer: &mut [u32; 5],
) -> u32
    ensures { returned_of result answer.new (memory_at values.new pending.new pool.new)
        ≡ returned (requested deck.now (memory_at values.old pending.old pool.old)
        request pairs.now) }
{
    let told = calls_lent::call_lent(deck, pool, values, pending, request, pairs);
    let n = numbers_of(told);
    write(answer, n.place, n.first, n.second, 0, 0);
    n.number
}
