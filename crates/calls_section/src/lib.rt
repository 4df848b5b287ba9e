// What is behind section, with tables that are long enough for the deck. `calls` has the definitions.
#![tactic(auto)]

ghost use Rattle.std.specs.Prelude.{◌≡◌, ◌≤◌, replicate};
ghost use Rattle.deck.specs.Stretch.{LiesAt};
ghost use Rattle.calls.specs.Calls as Calls;
ghost use Rattle.calls.specs.Answers.{section_of};
ghost use Rattle.passing.specs.Judged.{ZeroRules, ZeroMemo};

use deck::Form;
use refusals::Refusal;

// The section with a table of rules and a memo that are long enough for the deck. Refused it hands back the empty stretch at the
// deck's beginning, and number and place in two lent numbers, as document 01 has it: that is why no `Result` is answered.
pub fn section_with<'a>(
    deck: &'a [u8],
    number: u32,
    refusal: &mut u32,
    place: &mut u32,
    rules: &mut [u64],
    memo: &mut [u32],
) -> &'a [u8]
    requires { ZeroRules deck.now rules.old × ZeroMemo deck.now memo.old }
    ensures { (section_of result.now refusal.new place.new ≡ Calls.section deck.now number)
        × LiesAt deck.entry.ref_ptr result.ref_ptr (Calls.section_from deck.now number) }
{
    let mut parts = [0u64; passing::PART_TABLE];
    match passing_tests::judge(deck, rules, &mut parts, memo, Form::New) {
        Err(why) => {
            *refusal = why.refusal.number();
            *place = why.place;
            &deck[0..0]
        }
        Ok(passing) => {
            *place = 0;
            if number > 2 {
                *refusal = Refusal::UnknownSection.number();
                return &deck[0..0];
            }
            *refusal = 0;
            deck_reading::stretch(deck, passing.counts, number as usize)
        }
    }
}

// The section with a table of rules and a memo of lengths that are enough for the deck.
pub fn section_tabled<'a, const RULES: usize, const MEMO: usize>(
    deck: &'a [u8],
    number: u32,
    refusal: &mut u32,
    place: &mut u32,
) -> &'a [u8]
    requires { ZeroRules deck.now (replicate RULES 0) × ZeroMemo deck.now (replicate MEMO 0) × (RULES ≤ 512) × (MEMO ≤ 1024) }
    ensures { (section_of result.now refusal.new place.new ≡ Calls.section deck.now number)
        × LiesAt deck.entry.ref_ptr result.ref_ptr (Calls.section_from deck.now number) }
{
    let mut rules = [0u64; RULES];
    let mut memo = [0u32; MEMO];
    section_with(deck, number, refusal, place, &mut rules, &mut memo)
}
