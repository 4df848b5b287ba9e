// What is behind check, with tables that are long enough for the deck. `calls` has the definitions.
#![tactic(auto)]

ghost use Rattle.std.specs.Prelude.{◌≡◌, ◌≤◌, replicate};
ghost use Rattle.calls.specs.Calls as Calls;
ghost use Rattle.calls.specs.Answers.{check_outcome};
ghost use Rattle.passing.specs.Judged.{ZeroRules, ZeroMemo};

use calls::CheckAnswer;
use deck::Form;
use refusals::Declined;

// The check with a table of rules and a memo that are long enough for the deck.
pub fn check_with(deck: &[u8], rules: &mut [u64], memo: &mut [u32]) -> Result<CheckAnswer, Declined>
    requires { ZeroRules deck.now rules.old × ZeroMemo deck.now memo.old }
    ensures { check_outcome result ≡ Calls.check deck.now }
{
    let mut parts = [0u64; passing::PART_TABLE];
    let passing = passing_tests::judge(deck, rules, &mut parts, memo, Form::New)?;
    let counts = passing.counts;
    Ok(CheckAnswer {
        channels: counts.channels as u32,
        rules: counts.rules as u32,
        parts: counts.parts as u32,
        charge: passing.charge,
    })
}

// The check with a table of rules and a memo of lengths that are enough for the deck.
pub fn check_tabled<const RULES: usize, const MEMO: usize>(
    deck: &[u8],
) -> Result<CheckAnswer, Declined>
    requires { ZeroRules deck.now (replicate RULES 0) × ZeroMemo deck.now (replicate MEMO 0) × (RULES ≤ 512) × (MEMO ≤ 1024) }
    ensures { check_outcome result ≡ Calls.check deck.now }
{
    let mut rules = [0u64; RULES];
    let mut memo = [0u32; MEMO];
    check_with(deck, &mut rules, &mut memo)
}
