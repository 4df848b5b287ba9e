// The dependency graph of a deck's channels. The definitions are in specs/.
// A set of channels is a number, so that the edges from a channel are one number and a round adds them at once.
// The tables: a rule has eight numbers, first its events and the targets of its two actions; a part has four, first the
// rules that it carries.
#![tactic(auto)]

ghost use Rattle.std.specs.Prelude.{◌≡◌, ◌≤◌, ◌<◌, length};
ghost use Rattle.lists.specs.Lists.{select, below, first_or};
ghost use Rattle.deck.specs.Shape.{shape};
ghost use Rattle.graph.specs.Graph.{reaches_itself};
ghost use Rattle.graph.specs.FirstCycle.{first_cycle, FoundBelow};
ghost use Rattle.graph.specs.Masks.{Sized, edge_at, Added, CarriedIs, Drawn, Spread};

use deck::Deck;

// Adds the targets to the edges from every event.
fn add_edges(edges: &mut [u64], events: u64, targets: u64)
    requires { length edges.old ≡ 32 }
    ensures { Added events targets edges.old edges.new }
{
    for c in lists::members_below(events, Deck::CHANNELS) {
        edges[c] |= targets;
    }
}

// The rules that some part carries, as a set: the numbers of the parts play no role.
pub fn carried_by_some(parts: &[u64], parts_count: usize) -> u64
    requires { (64 ≤ length parts.now) × (parts_count ≤ 16) }
    ensures { CarriedIs parts.now parts_count result }
{
    let mut set: u64 = 0;
    for p in 0..parts_count {
        set |= parts[Deck::PART_ROW * p];
    }
    set
}

// The edges of every carried rule, by both actions, into a table without edges.
fn draw(rules: &[u64], parts: &[u64], count: usize, parts_count: usize, edges: &mut [u64])
    requires { Sized rules.now parts.now count parts_count × Drawn rules.now parts.now parts_count 0 edges.old }
    ensures { Drawn rules.now parts.now parts_count count edges.new }
{
    let carried = carried_by_some(parts, parts_count);
    for r in lists::members_below(carried, count) {
        let targets = rules[Deck::RULE_ROW * r + Deck::RULE_DEFAULT_TARGETS]
            | rules[Deck::RULE_ROW * r + Deck::RULE_TARGETS];
        add_edges(edges, rules[Deck::RULE_ROW * r], targets);
    }
}

// One round: the edges from the channels that the last round saw first are added to those seen.
fn spread(edges: &[u64], channels: usize, fresh: u64, seen: u64) -> u64
    requires { (length edges.now ≡ 32) × (channels ≤ 32) }
    ensures { Spread channels (edge_at edges.now) fresh seen result }
{
    let mut set = seen;
    for b in lists::members_below(fresh, channels) {
        set |= edges[b];
    }
    set
}

// The lowest channel that can reach itself, if one can. No path needs more edges than there are channels, and a round that sees
// nothing new is the last.
fn lowest_cycle(edges: &[u64], channels: usize) -> Option<usize>
    requires { (length edges.now ≡ 32) × (channels ≤ 32) }
    ensures { FoundBelow channels
        (first_or channels (select (reaches_itself channels (edge_at edges.now)) (below channels))) result }
{
    let mut found = None;
    'search: for start in 0..channels {
        let mut seen: u64 = 0;
        let mut fresh: u64 = 1u64 << start;
        for _ in 0..channels {
            let next = spread(edges, channels, fresh, seen);
            if (next >> start) % 2 == 1 {
                found = Some(start);
                break 'search;
            }
            if next == seen {
                break;
            }
            fresh = next ^ seen;
            seen = next;
        }
    }
    found
}

// The lowest channel of the tables that can reach itself, if one can.
pub fn first_cycle(rules: &[u64], parts: &[u64], counts: Deck) -> Option<usize>
    requires { Sized rules.now parts.now counts.rules counts.parts × (counts.channels ≤ 32) }
    ensures { FoundBelow counts.channels (first_cycle (shape rules.now parts.now counts)) result }
{
    let mut edges = [0u64; Deck::CHANNELS];
    draw(rules, parts, counts.rules, counts.parts, &mut edges);
    lowest_cycle(&edges, counts.channels)
}
