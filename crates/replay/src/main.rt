// `replay DECKFILE`: goes through a text of calls on standard input, prints a line of answer for each, and at the end what is
// left in memory.
#![tactic(auto)]

use std::io::Write;

fn main(rt: HostRuntime) {
    let mut err = rt.stderr();
    let mut name = [0u8; 4096];
    let named = descriptors::argument(&rt, 1, &mut name).unwrap_or(0);
    if named == 0 || descriptors::argument(&rt, 2, &mut []).is_some() {
        let _ = err.write_all(b"usage: replay DECKFILE\n");
        return;
    }
    if let Some(mut deck) = descriptors::open_named(&rt, &name[..named], &mut err) {
        replay_calls::replay(&mut deck, &mut rt.stdin(), rt.stdout(), err);
    }
}
