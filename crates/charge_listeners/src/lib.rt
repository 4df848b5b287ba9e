// The rules that listen to a channel, noted in the tables, and the rules that are active. The definitions are in `charge`.
#![tactic(auto)]

ghost use Rattle.std.specs.Prelude.{◌≡◌, ◌*◌, ◌<◌, ◌≤◌, length, get_or};
ghost use Rattle.lists.specs.Bits.{bit};
ghost use Rattle.charge.specs.Memo.{Noted, OthersKept, Cleared, RuleNoted, ListenersAre, AcyclicTables, ActiveIs};

use deck::{Deck, Rig};

// No rule listens to any channel: column 7 of the rules is for that.
fn clear_listeners(rules: &mut [u64])
    requires { 256 ≤ length rules.old }
    ensures { Cleared rules.old rules.new }
{
    for c in 0..Deck::CHANNELS {
        rules[Deck::RULE_ROW * c + Deck::RULE_LISTENERS] = 0;
    }
}

// Rule r listens to every channel of its events.
fn note_rule(rules: &mut [u64], events: u64, r: usize)
    requires { (256 ≤ length rules.old) × (r < 64) }
    ensures { RuleNoted events r rules.old rules.new }
{
    for c in lists::members_below(events, Deck::CHANNELS) {
        rules[Deck::RULE_ROW * c + Deck::RULE_LISTENERS] |= 1 << r;
    }
}

// The carried rules that listen to each channel, in column 7.
pub fn note_listeners(rules: &mut [u64], parts: &[u64], count: usize, parts_count: usize)
    requires { (256 ≤ length rules.old) × (8 * count ≤ length rules.old) × (64 ≤ length parts.now) × (count ≤ 64)
        × (parts_count ≤ 16) }
    ensures { OthersKept rules.old rules.new
        × Noted rules.new parts.now count parts_count }
{
    clear_listeners(rules);
    let carried = graph::carried_by_some(parts, parts_count);
    for r in lists::members_below(carried, count) {
        let events = rules[Deck::RULE_ROW * r];
        note_rule(rules, events, r);
    }
}

// The rules that listen to a channel of the mask, as a set.
pub fn listeners(rules: &[u64], mask: u64) -> u64
    requires { 256 ≤ length rules.now }
    ensures { ListenersAre rules.now mask result }
{
    let mut set: u64 = 0;
    for c in lists::members_below(mask, Deck::CHANNELS) {
        set |= rules[Deck::RULE_ROW * c + Deck::RULE_LISTENERS];
    }
    set
}

// Whether part p carries rule r.
pub fn carries(parts: &[u64], p: usize, r: usize) -> bool
    requires { (64 ≤ length parts.now) × (p < 16) × (r < 64) }
    ensures { result ≡ bit (get_or parts.now (4 * p) 0) r }
{
    let carried = parts[Deck::PART_ROW * p];
    (carried >> r) % 2 == 1
}

// The rules that are active at part p when the channels in the mask change, as a set.
pub fn active(rig: &Rig, p: usize, mask: u64) -> u64
    requires { AcyclicTables rig.now.rules.now rig.now.parts.now rig.now.counts × (p < rig.now.counts.parts) }
    ensures { ActiveIs rig.now.rules.now rig.now.parts.now rig.now.counts.rules p mask result }
{
    listeners(rig.rules, mask) & rig.parts[Deck::PART_ROW * p]
}
