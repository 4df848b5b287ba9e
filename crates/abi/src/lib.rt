// The seven calls for C, and so for C++ and Rust: `include/reaction.h` describes them. Each returns the refusal's number, 0 when the
// call is accepted, and writes the place and the answer numbers into a lent array of five.
#![tactic(auto)]

ghost use Rattle.std.specs.Prelude.{◌≡◌};
ghost use Rattle.deck.specs.Stretch.{LiesAt};
ghost use Rattle.calls.specs.Calls as Calls;
ghost use Rattle.calls.specs.Answers.{memory_at};
ghost use Rattle.conversion.specs.Conversion as Conversion;
ghost use Rattle.abi_call.specs.Returned.{answered_of, answered, returned_of, returned, returned_section_of, returned_section};
ghost use Rattle.abi_call.specs.Returned.{returned_conversion_of, returned_conversion};

use calls::Request;
use deck::Deck;
use pool::State;

// A state, where the host holds it.
fn store(values: &mut [i32; Deck::VALUES], pending: &mut u32, state: State)
    ensures { (values.new ≡ state.values) × (pending.new ≡ state.pending) }
{
    let v = state.values;
    *values = v;
    *pending = state.pending;
}

#[unsafe(no_mangle)]
pub extern "C" fn reaction_check(deck: &[u8], answer: &mut [u32; 5]) -> u32
    ensures { answered_of result answer.new ≡ answered (Calls.check deck.now) }
{
    match engine::check(deck) {
        Ok(made) => {
            abi_call::write(
                answer,
                0,
                made.channels,
                made.rules,
                made.parts,
                made.charge,
            );
            0
        }
        Err(why) => abi_call::decline(answer, why),
    }
}

// An exported function returns no reference: the stretch goes out through a lent one.
#[unsafe(no_mangle)]
pub extern "C" fn reaction_section<'a>(
    deck: &'a [u8],
    number: u32,
    stretch: &mut &'a [u8],
    answer: &mut [u32; 5],
) -> u32
    ensures { (returned_section_of stretch.new.now result answer.new
        ≡ returned_section (Calls.section deck.now number))
        × LiesAt deck.entry.ref_ptr stretch.new.ref_ptr (Calls.section_from deck.now number) }
{
    let mut refusal: u32 = 0;
    let mut place: u32 = 0;
    let part = engine::section(deck, number, &mut refusal, &mut place);
    *stretch = part;
    abi_call::write(answer, place, 0, 0, 0, 0);
    refusal
}

// The state is always written: zeros where the call is refused.
#[unsafe(no_mangle)]
pub extern "C" fn reaction_start(
    deck: &[u8],
    pool: &mut [i32],
    values: &mut [i32; Deck::VALUES],
    pending: &mut u32,
    answer: &mut [u32; 5],
) -> u32
    ensures { returned_of result answer.new (memory_at values.new pending.new pool.new)
        ≡ returned (Calls.start deck.now pool.old) }
{
    let made = engine::start(deck, pool);
    store(values, pending, made.state);
    match made.answer {
        Ok(()) => {
            abi_call::write(answer, 0, 0, 0, 0, 0);
            0
        }
        Err(why) => abi_call::decline(answer, why),
    }
}

#[unsafe(no_mangle)]
pub extern "C" fn reaction_input(
    deck: &[u8],
    pool: &mut [i32],
    values: &mut [i32; Deck::VALUES],
    pending: &mut u32,
    part: u32,
    pairs: &[i32],
    answer: &mut [u32; 5],
) -> u32
    ensures { returned_of result answer.new (memory_at values.new pending.new pool.new)
        ≡ returned (Calls.input deck.now (memory_at values.old pending.old pool.old)
        part pairs.now) }
{
    abi_call::call(
        deck,
        pool,
        values,
        pending,
        Request::Input(part),
        pairs,
        answer,
    )
}

#[unsafe(no_mangle)]
pub extern "C" fn reaction_commit(
    deck: &[u8],
    pool: &mut [i32],
    values: &mut [i32; Deck::VALUES],
    pending: &mut u32,
    place: u32,
    answer: &mut [u32; 5],
) -> u32
    ensures { returned_of result answer.new (memory_at values.new pending.new pool.new)
        ≡ returned (Calls.commit deck.now (memory_at values.old pending.old pool.old) place) }
{
    abi_call::call(
        deck,
        pool,
        values,
        pending,
        Request::Commit(place),
        &[],
        answer,
    )
}

#[unsafe(no_mangle)]
pub extern "C" fn reaction_settle(
    deck: &[u8],
    pool: &mut [i32],
    values: &mut [i32; Deck::VALUES],
    pending: &mut u32,
    budget: u32,
    answer: &mut [u32; 5],
) -> u32
    ensures { returned_of result answer.new (memory_at values.new pending.new pool.new)
        ≡ returned (Calls.settle deck.now (memory_at values.old pending.old pool.old) budget) }
{
    abi_call::call(
        deck,
        pool,
        values,
        pending,
        Request::Settle(budget),
        &[],
        answer,
    )
}

// The new deck goes to the front of the buffer, and its length is the first answer number.
#[unsafe(no_mangle)]
pub extern "C" fn reaction_convert(deck: &[u8], buffer: &mut [u8], answer: &mut [u32; 5]) -> u32
    ensures { returned_conversion_of result answer.new buffer.new
        ≡ returned_conversion (Conversion.convert deck.now buffer.old) }
{
    match engine::convert(deck, buffer) {
        Ok(length) => {
            abi_call::write(answer, 0, length, 0, 0, 0);
            0
        }
        Err(why) => abi_call::decline(answer, why),
    }
}
