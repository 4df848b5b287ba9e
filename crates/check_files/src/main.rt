// For each file that an argument names: prints its name, a space, and the line that `check_deck` prints for it.
#![tactic(auto)]

use std::io::Write;
use std::rt::Files;

fn check_file<R: Files, W: Write, E: Write>(rt: &R, name: &[u8], out: &mut W, err: &mut E) {
    if let Some(mut file) = descriptors::open_named(rt, name, err) {
        let _ = out.write_all(name);
        let _ = out.write_all(b" ");
        check_line::report(&mut file, out, err);
    }
}

fn main(rt: HostRuntime) {
    let mut name = [0u8; 4096];
    for i in 1..usize::MAX {
        let Some(n) = descriptors::argument(&rt, i, &mut name) else {
            return;
        };
        check_file(&rt, &name[..n], &mut rt.stdout(), &mut rt.stderr());
    }
}
