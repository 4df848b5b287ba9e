// The state that a host holds, and the places of the pool that it lends. The definitions are in specs/.
#![tactic(auto)]

ghost use Rattle.std.specs.Prelude.{◌≡◌, ◌&&◌, ◌++◌, ◌+◌, ◌*◌, ◌≤◌, ◌<◌, length, take, drop};
ghost use Rattle.lists.specs.Lists.{all_of, eq_z, eq_list};
ghost use Rattle.pool.specs.Places.{zeros, is_zero};
ghost use Rattle.pool.specs.States.{good_length};
ghost use Rattle.pool.specs.Moves.{written, moved};

use deck::Deck;

// A value table, channel c of part p at 32 p + c, and the pending number.
#[derive(Clone, Copy)]
pub struct State {
    pub values: [i32; Deck::VALUES],
    pub pending: u32,
}

// 9: the pool's length is a multiple of 10 from 10 to 655,350.
pub fn good_length(n: usize) -> bool
    ensures { result ≡ good_length n }
{
    if n < Deck::PLACE {
        return false;
    }
    if n > Deck::CHARGE * Deck::PLACE {
        return false;
    }
    n % Deck::PLACE == 0
}

// One update, written at the front of the pool's tail.
pub fn write_update(tail: &mut [i32], update: &[i32])
    requires { length update.now ≤ length tail.old }
    ensures { tail.new ≡ update.now ++ drop (length update.now) tail.old }
{
    let n = update.len();
    tail[..n].copy_from_slice(update);
}

// The update behind the last pending one: the tail from the first free place is lent on.
pub fn push(pool: &mut [i32], pending: usize, update: &[i32])
    requires { (length update.now ≡ 10) × (10 * pending + 10 ≤ length pool.old) }
    ensures { pool.new ≡ written pool.old (10 * pending) update.now }
{
    let at = Deck::PLACE * pending;
    write_update(&mut pool[at..], update);
}

// Whether the place at an index holds these numbers.
pub fn same_at(pool: &[i32], at: usize, update: &[i32]) -> bool
    requires { (length update.now ≡ 10) × (at + 10 ≤ length pool.now) }
    ensures { result ≡ eq_list eq_z (take 10 (drop at pool.now)) update.now }
{
    for i in 0..Deck::PLACE {
        if pool[at + i] != update[i] {
            return false;
        }
    }
    true
}

// `count` numbers moved down to an index.
pub fn move_down(pool: &mut [i32], at: usize, distance: usize, count: usize)
    requires { at + distance + count ≤ length pool.old }
    ensures { pool.new ≡ moved pool.old at distance count }
{
    let from = at + distance;
    pool.copy_within(from..from + count, at);
}

// The pool's tail becomes zeros.
pub fn clear(tail: &mut [i32])
    ensures { tail.new ≡ zeros (length tail.old) }
{
    tail.fill(0);
}

// Whether two lists of one length are zeros. The loop has no exit and no test, so that it is compiled to few vector instructions, and with
// two lists to enough of them in each turn.
fn both_zero(a: &[i32], b: &[i32]) -> bool
    requires { length a.now ≡ length b.now }
    ensures { result ≡ (all_of is_zero a.now && all_of is_zero b.now) }
{
    let mut first: i32 = 0;
    let mut second: i32 = 0;
    for i in 0..a.len() {
        first |= a[i];
        second |= b[i];
    }
    first | second == 0
}

// Whether the number at an index is 0, or the list ends there.
fn last_zero(tail: &[i32], end: usize) -> bool
    requires { length tail.now ≤ end + 1 }
    ensures { result ≡ all_of is_zero (drop end tail.now) }
{
    if end < tail.len() {
        return tail[end] == 0;
    }
    true
}

// Whether the pool's tail is zeros: its two halves, and the number that they may leave.
pub fn all_zero(tail: &[i32]) -> bool
    ensures { result ≡ all_of is_zero tail.now }
{
    let half = tail.len() / 2;
    let end = 2 * half;
    if !last_zero(tail, end) {
        return false;
    }
    both_zero(&tail[..half], &tail[half..end])
}
