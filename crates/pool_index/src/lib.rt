// An index of the pending updates, so that an equal one is found without going through all of them: buckets by a hash, and a tree
// in each. The definitions are in specs/.
#![tactic(auto)]

ghost use Rattle.std.specs.Prelude.{◌≡◌, ◌+◌, ◌*◌, ◌≤◌, ◌<◌, length, get_or, set, pos};
ghost use Rattle.pool_index.specs.Hash.{raised, factored, hash_of, bucket_of, side_of};
ghost use Rattle.pool_index.specs.Index.{Seeking, Finds};

use deck::Deck;

// The number at an index, as one from 0 on.
fn raise(place: &[i32], i: usize) -> u64
    requires { i < length place.now }
    ensures { (result ≡ raised (get_or place.now i (pos 0))) × (result < 4294967296) }
{
    let x = i64::from(place[i]) + 2147483648;
    x as u64
}

// Two numbers of a place with their factors.
fn factors(place: &[i32], i: usize, j: u64, k: u64) -> u64
    requires { (i + 1 < length place.now) × (j < 2147483648) × (k < 2147483648) }
    ensures { (result ≡ factored place.now i j k) × (result ≤ 4294967295 * (j + k)) }
{
    let x = raise(place, i);
    let y = raise(place, i + 1);
    x * j + y * k
}

// The hash of a place: of its first four numbers where it has one pair.
fn hash(place: &[i32]) -> u64
    requires { length place.now ≡ 10 }
    ensures { result ≡ hash_of place.now }
{
    let first = factors(place, 0, 748982257, 374761393);
    let four = first + factors(place, 2, 668265263, 1640531527);
    let count = place[1];
    if count == 1 {
        return four;
    }
    let third = factors(place, 4, 122949823, 141650939);
    let fourth = factors(place, 6, 160481183, 179424673);
    let fifth = factors(place, 8, 104395301, 86028121);
    four + (third + fourth + fifth)
}

// The bucket of a place.
fn bucket(place: &[i32], heads: usize) -> usize
    requires { (length place.now ≡ 10) × (0 < heads) × (heads ≤ 65536) }
    ensures { (result ≡ bucket_of heads place.now) × (result < heads) }
{
    let h = hash(place) % 4294967296;
    (h * (heads as u64) / 4294967296) as usize
}

// The side of a branch at a depth: a bit of a place's numbers. Mostly it is one of the first value.
fn side(row: &[i32], d: usize) -> usize
    requires { length row.now ≡ 10 }
    ensures { (result ≡ side_of row.now d) × (result < 2) }
{
    if d < 32 {
        let x = raise(row, 3);
        return ((x >> d) % 2) as usize;
    }
    let y = raise(row, (d / 32 + 3) % Deck::PLACE);
    ((y >> (d % 32)) % 2) as usize
}

// Where a place with these numbers is to be entered: the free slot at the end of their way down the tree of their bucket; none where one
// of the used places has them. A place that was taken out has zeros, and is only passed. It is put into its callers, which call it for
// each place.
#[inline(always)]
pub fn find(index: &[u16], pool: &[i32], used: usize, row: &[i32]) -> Option<usize>
    requires { Seeking used pool.now row.now index.now }
    ensures { Finds used pool.now row.now index.now result }
{
    let heads = index.len() / 3;
    let mut s = bucket(row, heads);
    let mut i = usize::from(index[s]);
    let mut d: usize = 0;
    // A `while`: the way down the tree ends at a free slot, and how long it is nobody knows before.
    while i > 0 {
        if pool::same_at(pool, Deck::PLACE * (i - 1), row) {
            return None;
        }
        let b = side(row, d);
        s = heads + 2 * (i - 1) + b;
        i = usize::from(index[s]);
        d += 1;
    }
    Some(s)
}

// One more place is entered at a free slot.
pub fn note(index: &mut [u16], used: usize, slot: usize)
    requires { (used < 65535) × (slot < length index.old) }
    ensures { index.new ≡ set index.old slot (used + 1) }
{
    index[slot] = (used + 1) as u16;
}
