// Each two arguments name a deck and a text of calls: prints the name of the text, and then what `replay` prints for the two.
#![tactic(auto)]

use std::io::Write;
use std::rt::{Env, Files};

// The deck and the text that two arguments name, from the first on.
fn replay_pair<R: Env + Files, W: Write + Drop, E: Write + Drop>(
    rt: &R,
    first: usize,
    second: usize,
    mut out: W,
    mut err: E,
) {
    let mut name = [0u8; 4096];
    let n = descriptors::argument(rt, first, &mut name).unwrap_or(0);
    let Some(mut deck) = descriptors::open_named(rt, &name[..n], &mut err) else {
        return;
    };
    let n = descriptors::argument(rt, second, &mut name).unwrap_or(0);
    let Some(mut calls) = descriptors::open_named(rt, &name[..n], &mut err) else {
        return;
    };
    let _ = out.write_all(&name[..n]);
    let _ = out.write_all(b"\n");
    replay_calls::replay(&mut deck, &mut calls, out, err);
}

fn main(rt: HostRuntime) {
    for i in (1..usize::MAX).step_by(2) {
        if descriptors::argument(&rt, i, &mut []).is_none() {
            return;
        }
        replay_pair(&rt, i, i + 1, rt.stdout(), rt.stderr());
    }
}
