// A pool in which updates were taken out: ten zeros stand where one was, until the others are moved together. The definitions are in
// specs/.
#![tactic(auto)]

ghost use Rattle.std.specs.Prelude.{◌≡◌, ◌+◌, ◌*◌, ◌≤◌, length};
ghost use Rattle.pool.specs.Places.{zeros};
ghost use Rattle.pool.specs.Moves.{written};
ghost use Rattle.pool_holes.specs.Slots.{Scattered, Gathers, GathersPlace};

use deck::Deck;

// Place k is taken out: ten zeros stand there.
pub fn empty(pool: &mut [i32], k: usize)
    requires { 10 * k + 10 ≤ length pool.old }
    ensures { pool.new ≡ written pool.old (10 * k) (zeros 10) }
{
    let none = [0i32; Deck::PLACE];
    pool::push(pool, k, &none);
}

// The place at `from` moved to `to`, unless it is a hole; the next free place.
fn gather_place(pool: &mut [i32], from: usize, to: usize) -> usize
    requires { (10 * from + 10 ≤ length pool.old) × (to ≤ from) }
    ensures { GathersPlace pool.old from to pool.new result }
{
    let count = pool[Deck::PLACE * from + 1];
    if count == 0 {
        return to;
    }
    pool::move_down(
        pool,
        Deck::PLACE * to,
        Deck::PLACE * (from - to),
        Deck::PLACE,
    );
    to + 1
}

// The used places moved together in one pass, zeros behind them; the pending number. Holes stand only from the first place to before the
// last: the places behind are moved as one block.
pub fn gather(pool: &mut [i32], first: usize, last: usize, used: usize) -> usize
    requires { Scattered pool.old first last used }
    ensures { Gathers pool.old first last used pool.new result }
{
    let mut to = first;
    for from in first..last {
        to = gather_place(pool, from, to);
    }
    pool::move_down(
        pool,
        Deck::PLACE * to,
        Deck::PLACE * (last - to),
        Deck::PLACE * (used - last),
    );
    let left = to + (used - last);
    let start = Deck::PLACE * left;
    let end = Deck::PLACE * used;
    pool::clear(&mut pool[start..end]);
    left
}
