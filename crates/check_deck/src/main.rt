// Reads a deck from standard input and prints one line: `passed R M N CHARGE` or `refused NUMBER PLACE`.
#![tactic(auto)]

fn main(rt: HostRuntime) {
    check_line::report(&mut rt.stdin(), &mut rt.stdout(), &mut rt.stderr());
}
