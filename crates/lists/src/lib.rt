// Helpers on lists, sets and numbers that several layers use. The definitions are in specs/.
#![tactic(auto)]

ghost use Rattle.std.specs.Prelude.{◌≡◌, ◌-◌};
ghost use Rattle.std.specs.Iterator.{at_most};
ghost use Rattle.lists.specs.Bits.{NextIn, RestOf};
ghost use Rattle.lists.specs.Iterating.{MemberGiven, lowest_of};

// The lowest number of a set, or 64 where there is none.
pub fn lowest(set: u64) -> usize
    ensures { NextIn set 0 result }
{
    set.trailing_zeros() as usize
}

// A set without its lowest number.
pub fn rest(set: u64) -> u64
    ensures { RestOf set result }
{
    if set == 0 {
        return 0;
    }
    set & (set - 1)
}

// The numbers of a set that are below an end, lowest first: those that are left.
#[derive(Clone, Copy)]
pub struct Members {
    left: u64,
    end: usize,
}

impl Iterator for Members {
    type Item = usize;

    ghost next_gives = { λ it r later. MemberGiven it.end it.left r later.left × (later.end ≡ it.end) };

    ghost remaining = { λ it. at_most (64 - lowest_of it.left) };

    fn next(&mut self) -> Option<usize> {
        let c = lowest(self.left);
        if self.end.min(64) <= c {
            return None;
        }
        self.left = rest(self.left);
        Some(c)
    }
}

// What a loop over a set goes through. specs/Laws/Iterating.antt has the invariant of such a loop and its laws.
pub fn members_below(set: u64, end: usize) -> Members
    ensures from { result.left ≡ set }
    ensures to { result.end ≡ end }
{
    Members { left: set, end }
}
