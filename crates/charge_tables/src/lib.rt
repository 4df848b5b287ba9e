// The charges of updates and rules, computed with a memo from the tables of a deck without cycles. The definitions are in
// `charge`.
#![tactic(auto)]

ghost use Rattle.std.specs.Prelude.{◌≡◌, true, cond, ◌+◌, ◌*◌, ◌-◌, ◌<◌, ◌≤◌, eqb, length, get_or, replicate};
ghost use Rattle.lists.specs.Lists.{sum_of, below};
ghost use Rattle.graph.specs.Masks.{carried_at};
ghost use Rattle.charge.specs.Memo.{Ready, UpdateGives, RulesGive, Begun, UpdatesGive, RowSmall, RowKnown, RowAdded, RowPut, capped};

use deck::{Deck, Rig};

// Where a charge stops: above the largest that a deck may have.
pub const CAP: u32 = Deck::CHARGE as u32 + 1;

// All channels as a set: the other bits of a mask play no role.
const ALL_CHANNELS: u64 = 4294967295;

// A sum that stops at the cap, so that it fits however large the charge is.
pub fn capped_sum(a: u32, b: u32) -> u32
    requires { (a < 1073741824) × (b < 1073741824) }
    ensures { result ≡ capped (a + b) }
{
    (a + b).min(CAP)
}

// Row r of the memo added to the charges of an update, at the parts that carry rule r.
fn add_row(sums: &mut [u32], parts: &[u64], memo: &[u32], parts_count: usize, r: usize)
    requires { (64 ≤ length parts.now) × (16 * r + 16 ≤ length memo.now) × (parts_count ≤ 16) × (r < 64) × RowSmall r sums.old
        × RowKnown parts_count r memo.now }
    ensures { RowAdded parts.now memo.now parts_count r sums.old sums.new }
{
    for q in 0..parts_count {
        if charge_listeners::carries(parts, q, r) {
            sums[q] += memo[Deck::PARTS * r + q] - 1;
        }
    }
}

// The charges of an update at all parts before any rule is counted: 1, or 0 where it has no channel.
fn begin(mask: u64) -> [u32; Deck::PARTS]
    ensures { Begun mask result }
{
    if mask & ALL_CHANNELS == 0 {
        return [0u32; Deck::PARTS];
    }
    [1u32; Deck::PARTS]
}

// The charges at all parts of an update of the channels in the mask, on a row that has 1 for each.
#[cycle(rule_charges_update_charges)]
fn update_charges(rig: &Rig, memo: &mut [u32], mask: u64, sums: &mut [u32])
    requires { Ready rig.now.rules.now rig.now.parts.now rig.now.counts memo.old × (sums.old ≡ replicate 16 1) }
    ensures { UpdatesGive rig.now.rules.now rig.now.parts.now rig.now.counts mask memo.old memo.new sums.new }
{
    let set = charge_listeners::listeners(rig.rules, mask);
    for r in lists::members_below(set, rig.counts.rules) {
        rule_charges(rig, memo, r);
        add_row(sums, rig.parts, memo, rig.counts.parts, r);
    }
}

// The charges of a row, added up.
fn row_sum(row: &[u32], parts_count: usize) -> u32
    requires { RowSmall 64 row.now × (parts_count ≤ 16) }
    ensures { result ≡ sum_of (λ q. get_or row.now q 0) (below parts_count) }
{
    let mut total: u32 = 0;
    for q in 0..parts_count {
        total += row[q];
    }
    total
}

// The same where the kind of a rule needs it, else 0.
fn total_for(kind: u64, row: &[u32], parts_count: usize) -> u32
    requires { RowSmall 64 row.now × (parts_count ≤ 16) }
    ensures { result ≡ cond (eqb kind 1) (sum_of (λ q. get_or row.now q 0) (below parts_count)) 0 }
{
    if kind == 1 {
        row_sum(row, parts_count)
    } else {
        0
    }
}

// What the action adds to the charge of a rule of this kind at a part: its charge there, or at all other parts.
fn share(kind: u64, total: u32, own: u32) -> u32
    requires { kind ≡ 1 → own ≤ total }
    ensures { result ≡ cond (eqb kind 1) (total - own) own }
{
    if kind == 1 { total - own } else { own }
}

// Row r of the memo: at each part the charge of the default action, and what the action adds.
fn put_row(memo: &mut [u32], parts_count: usize, r: usize, kind: u64, first: &[u32], second: &[u32])
    requires { (16 * r + 16 ≤ length memo.old) × (parts_count ≤ 16) × (r < 64) × RowSmall 64 first.now
        × RowSmall 64 second.now }
    ensures { RowPut parts_count r kind first.now second.now memo.old memo.new }
{
    let total = total_for(kind, second, parts_count);
    for p in 0..parts_count {
        let rest = share(kind, total, second[p]);
        let charge = capped_sum(first[p], rest);
        memo[Deck::PARTS * r + p] = charge + 1;
    }
}

// The charges of rule r at all parts. The memo has them where they were computed before.
#[cycle(rule_charges_update_charges)]
fn rule_charges(rig: &Rig, memo: &mut [u32], r: usize)
    requires { Ready rig.now.rules.now rig.now.parts.now rig.now.counts memo.old × (r < rig.now.counts.rules)
        × (carried_at rig.now.parts.now rig.now.counts.parts r ≡ true) }
    ensures { RulesGive rig.now.rules.now rig.now.parts.now rig.now.counts r memo.old memo.new }
{
    if memo[Deck::PARTS * r] != 0 {
        return;
    }
    let rules = rig.rules;
    let default = rules[Deck::RULE_ROW * r + Deck::RULE_DEFAULT_TARGETS];
    let action = rules[Deck::RULE_ROW * r + Deck::RULE_TARGETS];
    let mut first = begin(default);
    let mut second = begin(action);
    if default & ALL_CHANNELS != 0 {
        update_charges(rig, memo, default, &mut first);
    }
    if action & ALL_CHANNELS != 0 {
        update_charges(rig, memo, action, &mut second);
    }
    put_row(
        memo,
        rig.counts.parts,
        r,
        rules[Deck::RULE_ROW * r + Deck::RULE_KIND],
        &first,
        &second,
    );
}

// The charges of rule r at all parts, if they are not in the memo yet. Mostly they are, and this test costs no call.
pub fn known_charges(rig: &Rig, memo: &mut [u32], r: usize)
    requires { Ready rig.now.rules.now rig.now.parts.now rig.now.counts memo.old × (r < rig.now.counts.rules)
        × (carried_at rig.now.parts.now rig.now.counts.parts r ≡ true) }
    ensures { RulesGive rig.now.rules.now rig.now.parts.now rig.now.counts r memo.old memo.new }
{
    if memo[Deck::PARTS * r] != 0 {
        return;
    }
    rule_charges(rig, memo, r);
}

// The charge at part p of an update of the channels in the mask, up to 65,536. Often no rule listens to it.
pub fn update_charge(rig: &Rig, memo: &mut [u32], p: usize, mask: u64) -> u32
    requires { Ready rig.now.rules.now rig.now.parts.now rig.now.counts memo.old × (p < rig.now.counts.parts) }
    ensures { UpdateGives rig.now.rules.now rig.now.parts.now rig.now.counts p mask memo.new result }
{
    let set = charge_listeners::active(rig, p, mask);
    if set == 0 {
        return 1;
    }
    let mut total: u32 = 1;
    for r in lists::members_below(set, rig.counts.rules) {
        known_charges(rig, memo, r);
        total = capped_sum(total, memo[Deck::PARTS * r + p] - 1);
    }
    total
}
