// The lines of some answers, as they are printed.
use crate::CheckLine;
use calls::CheckAnswer;
use refusals::{Declined, Refusal};
use std::fmt::InlineText;

#[test]
fn prints_a_deck_that_passes(rt: HostRuntime) {
    let line = CheckLine {
        answer: Ok(CheckAnswer {
            channels: 4,
            rules: 3,
            parts: 2,
            charge: 65_535,
        }),
    };
    assert_eq!(rt; InlineText::<64>::of(line).as_str(), "passed 4 3 2 65535\n");
}

#[test]
fn prints_a_refusal(rt: HostRuntime) {
    let line = CheckLine {
        answer: Err(Declined {
            refusal: Refusal::CyclicGraph,
            place: 10,
        }),
    };
    assert_eq!(rt; InlineText::<64>::of(line).as_str(), "refused 7 10\n");
}
