// The bound on the charges of the carried rules of a deck without cycles: the largest charge, or the lowest place of one above
// 65,535. The definitions are in `charge`.
#![tactic(auto)]

ghost use Rattle.std.specs.Prelude.{◌≡◌, ◌+◌, ◌*◌, ◌<◌, ◌≤◌, length};
ghost use Rattle.deck.specs.Shape.{shape};
ghost use Rattle.charge.specs.Memo.{Memo, Ready, RowKnown, RowLargest};
ghost use Rattle.charge.specs.Answer.{bound_of, LargestBelow, PartBound, LargestOfRules};

use deck::{Deck, Rig};

// The search at one part, behind the largest charge so far: the largest now, or the place of the first above the bound.
fn part_above(rig: &Rig, memo: &mut [u32], p: usize, best: u32) -> Result<u32, usize>
    requires { Ready rig.now.rules.now rig.now.parts.now rig.now.counts memo.old × (p < rig.now.counts.parts)
        × LargestBelow (shape rig.now.rules.now rig.now.parts.now rig.now.counts) (64 * p) best }
    ensures { PartBound (shape rig.now.rules.now rig.now.parts.now rig.now.counts) p result
        × Memo (shape rig.now.rules.now rig.now.parts.now rig.now.counts) memo.new }
{
    let mut most = best;
    for r in lists::members_below(rig.parts[Deck::PART_ROW * p], rig.counts.rules) {
        charge_tables::known_charges(rig, memo, r);
        let c = memo[Deck::PARTS * r + p] - 1;
        if c == charge_tables::CAP {
            return Err(Deck::RULES * p + r);
        }
        most = most.max(c);
    }
    Ok(most)
}

// The bound on the charges of the carried rules, lowest place first.
fn search_above(rig: &Rig, memo: &mut [u32]) -> Result<u32, usize>
    requires { Ready rig.now.rules.now rig.now.parts.now rig.now.counts memo.old }
    ensures { (result ≡ bound_of (shape rig.now.rules.now rig.now.parts.now rig.now.counts))
        × Memo (shape rig.now.rules.now rig.now.parts.now rig.now.counts) memo.new }
{
    let mut best: u32 = 0;
    for p in 0..rig.counts.parts {
        best = part_above(rig, memo, p, best)?;
    }
    Ok(best)
}

// The largest of a number and the charges of rule r at the parts that carry it.
fn row_largest(parts: &[u64], memo: &[u32], parts_count: usize, r: usize, best: u32) -> u32
    requires { (64 ≤ length parts.now) × (16 * r + 16 ≤ length memo.now) × (parts_count ≤ 16) × (r < 64)
        × RowKnown parts_count r memo.now }
    ensures { RowLargest parts.now memo.now parts_count r best result }
{
    let mut most = best;
    for q in 0..parts_count {
        if charge_listeners::carries(parts, q, r) {
            most = most.max(memo[Deck::PARTS * r + q] - 1);
        }
    }
    most
}

// The largest charge of the carried rules, up to 65,536. The memo has then the charges of all of them.
fn largest(rig: &Rig, memo: &mut [u32]) -> u32
    requires { Ready rig.now.rules.now rig.now.parts.now rig.now.counts memo.old }
    ensures { LargestOfRules (shape rig.now.rules.now rig.now.parts.now rig.now.counts) rig.now.counts.rules result
        × Memo (shape rig.now.rules.now rig.now.parts.now rig.now.counts) memo.new }
{
    let carried = graph::carried_by_some(rig.parts, rig.counts.parts);
    let mut most: u32 = 0;
    for r in lists::members_below(carried, rig.counts.rules) {
        charge_tables::known_charges(rig, memo, r);
        most = row_largest(rig.parts, memo, rig.counts.parts, r, most);
    }
    most
}

// The bound on the charges of the carried rules. Mostly none is above it, and then the order of the places plays no role.
// The memo is lent, and has then what was computed.
pub fn first_above(rig: &Rig, memo: &mut [u32]) -> Result<u32, usize>
    requires { Ready rig.now.rules.now rig.now.parts.now rig.now.counts memo.old }
    ensures { (result ≡ bound_of (shape rig.now.rules.now rig.now.parts.now rig.now.counts))
        × Memo (shape rig.now.rules.now rig.now.parts.now rig.now.counts) memo.new }
{
    let most = largest(rig, memo);
    if most < charge_tables::CAP {
        return Ok(most);
    }
    search_above(rig, memo)
}
