// Input, commit and settle on memory that is lent: the tables that a call works on, the tests, and what is asked for.
#![tactic(auto)]

ghost use Rattle.std.specs.Prelude.{◌≡◌, ◌≤◌, length, replicate};
ghost use Rattle.calls.specs.Answers.{memory_at, reply_at};
ghost use Rattle.calls.specs.Requests.{requested, outcome_to, reply_after};
ghost use Rattle.calls_tests.specs.Tested.{Usable, TestsPassed};
ghost use Rattle.passing.specs.Judged.{ZeroRules, ZeroMemo};

use calls::{AfterCall, Request, Response};
use calls_tests::Pending;
use deck::{Deck, Rig};
use refusals::Declined;

// What is asked for, on what was tested. A `match`, and no type with a trait for each call: so the tests and the firing are compiled once.
fn call_tested(
    rig: &Rig,
    pending: Pending,
    memo: &mut [u32],
    index: &mut [u16],
    pool: &mut [i32],
    values: &mut [i32; Deck::VALUES],
    request: Request,
    pairs: &[i32],
) -> Result<AfterCall, Declined>
    requires { TestsPassed rig.now.deck.now rig.now.rules.now rig.now.parts.now memo.old index.old
        (memory_at values.old pending.count pool.old) rig.now.counts pending.charge }
    ensures { reply_after result values.new pending.count pool.new
        ≡ requested rig.now.deck.now (memory_at values.old pending.count pool.old) request
        pairs.now }
{
    match request {
        Request::Input(part) => {
            calls_input::input_tested(rig, pending, memo, index, pool, values, part, pairs)
        }
        Request::Commit(place) => {
            calls_commit::commit_tested(rig, pending, memo, index, pool, values, place)
        }
        Request::Settle(budget) => {
            calls_settle::settle_tested(rig, pending, memo, index, pool, values, budget)
        }
    }
}

// The call with an index, a table of rules and a memo that are long enough for the pool and the deck.
fn call_on(
    deck: &[u8],
    pool: &mut [i32],
    values: &mut [i32; Deck::VALUES],
    pending: &mut u32,
    request: Request,
    pairs: &[i32],
    index: &mut [u16],
    rules: &mut [u64],
    memo: &mut [u32],
) -> Result<Response, Declined>
    requires { Usable (length pool.old) index.old × ZeroRules deck.now rules.old × ZeroMemo deck.now memo.old }
    ensures { reply_at (outcome_to result) values.new pending.new pool.new
        ≡ requested deck.now (memory_at values.old pending.old pool.old) request
        pairs.now }
{
    let mut parts = [0u64; passing::PART_TABLE];
    let found = calls_tests::test_lent(
        deck, rules, &mut parts, memo, index, pool, values, *pending,
    )?;
    let rig = Rig {
        deck,
        counts: found.counts,
        rules,
        parts: &parts,
    };
    let after = call_tested(
        &rig,
        found.pending,
        memo,
        index,
        pool,
        values,
        request,
        pairs,
    )?;
    *pending = after.pending;
    Ok(after.response)
}

// The call with an index of as many numbers, for a pool that it is long enough for. It is not put into its caller, so that a call on a
// short pool does not take the stack of a long one: to take it costs more than the rest of a small call.
#[inline(never)]
fn call_indexed<const INDEX: usize>(
    deck: &[u8],
    pool: &mut [i32],
    values: &mut [i32; Deck::VALUES],
    pending: &mut u32,
    request: Request,
    pairs: &[i32],
    rules: &mut [u64],
    memo: &mut [u32],
) -> Result<Response, Declined>
    requires { Usable (length pool.old) (replicate INDEX 0) × ZeroRules deck.now rules.old × ZeroMemo deck.now memo.old
        × (INDEX ≤ 196610) }
    ensures { reply_at (outcome_to result) values.new pending.new pool.new
        ≡ requested deck.now (memory_at values.old pending.old pool.old) request
        pairs.now }
{
    let mut index = [0u16; INDEX];
    call_on(
        deck, pool, values, pending, request, pairs, &mut index, rules, memo,
    )
}

// The call on a pool of any length, with the index that it needs.
fn call_pooled(
    deck: &[u8],
    pool: &mut [i32],
    values: &mut [i32; Deck::VALUES],
    pending: &mut u32,
    request: Request,
    pairs: &[i32],
    rules: &mut [u64],
    memo: &mut [u32],
) -> Result<Response, Declined>
    requires { ZeroRules deck.now rules.old × ZeroMemo deck.now memo.old }
    ensures { reply_at (outcome_to result) values.new pending.new pool.new
        ≡ requested deck.now (memory_at values.old pending.old pool.old) request
        pairs.now }
{
    let n = pool.len();
    if n <= calls_tests::TINY_POOL {
        call_indexed::<{ calls_tests::TINY_INDEX }>(
            deck, pool, values, pending, request, pairs, rules, memo,
        )
    } else if n <= calls_tests::SMALL_POOL {
        call_indexed::<{ calls_tests::SMALL_INDEX }>(
            deck, pool, values, pending, request, pairs, rules, memo,
        )
    } else if n <= calls_tests::SHORT_POOL {
        call_indexed::<{ calls_tests::SHORT_INDEX }>(
            deck, pool, values, pending, request, pairs, rules, memo,
        )
    } else if n <= calls_tests::MEDIUM_POOL {
        call_indexed::<{ calls_tests::MEDIUM_INDEX }>(
            deck, pool, values, pending, request, pairs, rules, memo,
        )
    } else if n <= calls_tests::LONG_POOL {
        call_indexed::<{ calls_tests::LONG_INDEX }>(
            deck, pool, values, pending, request, pairs, rules, memo,
        )
    } else if n <= calls_tests::LONGER_POOL {
        call_indexed::<{ calls_tests::LONGER_INDEX }>(
            deck, pool, values, pending, request, pairs, rules, memo,
        )
    } else {
        call_indexed::<{ calls_tests::INDEX }>(
            deck, pool, values, pending, request, pairs, rules, memo,
        )
    }
}

// The call with a table of rules and a memo of lengths that are enough for the deck.
fn call_tabled<const RULES: usize, const MEMO: usize>(
    deck: &[u8],
    pool: &mut [i32],
    values: &mut [i32; Deck::VALUES],
    pending: &mut u32,
    request: Request,
    pairs: &[i32],
) -> Result<Response, Declined>
    requires { ZeroRules deck.now (replicate RULES 0) × ZeroMemo deck.now (replicate MEMO 0) × (RULES ≤ 512) × (MEMO ≤ 1024) }
    ensures { reply_at (outcome_to result) values.new pending.new pool.new
        ≡ requested deck.now (memory_at values.old pending.old pool.old) request
        pairs.now }
{
    let mut rules = [0u64; RULES];
    let mut memo = [0u32; MEMO];
    call_pooled(
        deck, pool, values, pending, request, pairs, &mut rules, &mut memo,
    )
}

// The call on memory that is lent: values and pending number change only when it is accepted. The tables are as long as the deck
// needs them.
pub fn call_lent(
    deck: &[u8],
    pool: &mut [i32],
    values: &mut [i32; Deck::VALUES],
    pending: &mut u32,
    request: Request,
    pairs: &[i32],
) -> Result<Response, Declined>
    ensures { reply_at (outcome_to result) values.new pending.new pool.new
        ≡ requested deck.now (memory_at values.old pending.old pool.old) request
        pairs.now }
{
    if deck_reading::few_rules(deck) {
        call_tabled::<{ passing::SHORT_RULE_TABLE }, { passing::SHORT_MEMO }>(
            deck, pool, values, pending, request, pairs,
        )
    } else {
        call_tabled::<{ passing::RULE_TABLE }, { passing::MEMO }>(
            deck, pool, values, pending, request, pairs,
        )
    }
}
