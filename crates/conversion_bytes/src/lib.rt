// Writes the conversion of an old deck into a buffer. The definitions are in `conversion`.
#![tactic(auto)]

ghost use Rattle.std.specs.Prelude.{◌≡◌, ◌+◌, ◌-◌, ◌≤◌, ◌<◌, length, get_or};
ghost use mathlib.Core.List.{List, ◌++◌, flat_map};
ghost use Rattle.lists.specs.Lists.{from};
ghost use Rattle.deck.specs.Deck.{Action, Rule, Part, Deck};
ghost use Rattle.deck.specs.Encoding.{encode_action, encode_rule, encode_part, encode};
ghost use Rattle.conversion.specs.Converted.{split, converted};
ghost use Rattle.conversion_bytes.specs.Written.{Written};
ghost use Rattle.conversion_bytes.specs.Stands.{stretch, Stands, Listed};
ghost use Rattle.conversion_bytes.specs.Pieces.{HasAction, HasRule, RuleEnds, HasPart, PartStands, PartEndings};
ghost use Rattle.conversion_bytes.specs.Pieces.{becomes, split_bytes, renewed, Known, part_bytes, PutsPart};
ghost use Rattle.conversion_bytes.specs.Decks.{Encodes, Numbered, Sums, PartsIn};

// The count byte of an empty default action.
const NO_DEFAULT: u8 = 0;

// The kind byte of a here rule.
const HERE: u8 = 0;

// The condition true: its length byte, and its one operator.
const TRUE_LENGTH: u8 = 1;

const TRUE: u8 = 17;

// Writes bytes to a place, and answers the place after them.
fn put(bytes: &[u8], out: &mut [u8], at: usize) -> usize
    requires { at + length bytes.now ≤ length out.old }
    ensures { Written out.old at bytes.now out.new result }
{
    let end = at + bytes.len();
    out[at..end].copy_from_slice(bytes);
    end
}

// Writes a stretch of bytes to a place, and answers the place after it.
pub fn copy(bytes: &[u8], from: usize, end: usize, out: &mut [u8], at: usize) -> usize
    requires { (from ≤ end) × (end ≤ length bytes.now) × (at + (end - from) ≤ length out.old) }
    ensures { Written out.old at (stretch bytes.now from end) out.new result }
{
    put(&bytes[from..end], out, at)
}

// The place after an action.
fn action_end(deck: &[u8], at: usize) -> usize
    requires { HasAction deck.now at }
    ensures { (a : Action) → Stands deck.now at (encode_action a) → result ≡ at + length (encode_action a) }
{
    let count = deck[at];
    let mut place = at + 1;
    for _ in 0..count {
        place += 2 + usize::from(deck[place + 1]);
    }
    place
}

// Where a rule's events, its default action and its task end.
#[derive(Clone, Copy)]
pub struct Ends {
    pub default: usize,
    pub task: usize,
    pub end: usize,
}

fn rule_ends(deck: &[u8], at: usize) -> Ends
    requires { HasRule deck.now at }
    ensures { RuleEnds deck.now at result }
{
    let default = at + 1 + usize::from(deck[at]);
    let task = action_end(deck, default);
    let condition = task + 1;
    let action = condition + 1 + usize::from(deck[condition]);
    let end = action_end(deck, action);
    Ends { default, task, end }
}

// Writes a new rule: the events, what stands between them and the last bytes, and these.
fn put_new_rule(events: &[u8], middle: &[u8], last: &[u8], out: &mut [u8], at: usize) -> usize
    requires { at + length (events.now ++ (middle.now ++ last.now)) ≤ length out.old }
    ensures { Written out.old at (events.now ++ (middle.now ++ last.now))
        out.new result }
{
    let first = put(events, out, at);
    let second = put(middle, out, first);
    put(last, out, second)
}

// Writes what becomes of a rule, given as its events, its default action and its task.
fn put_rule(events: &[u8], default: &[u8], task: &[u8], out: &mut [u8], at: usize) -> usize
    requires { (0 < length default.now)
        × (at + length (split_bytes (get_or default.now 0 0) events.now default.now task.now) ≤ length out.old) }
    ensures { Written out.old at
        (split_bytes (get_or default.now 0 0) events.now default.now task.now)
        out.new result }
{
    let none = [NO_DEFAULT];
    if default[0] == NO_DEFAULT {
        return put_new_rule(events, &none, task, out, at);
    }
    let head = [NO_DEFAULT, HERE, TRUE_LENGTH, TRUE];
    let next = put_new_rule(events, &head, default, out, at);
    put_new_rule(events, &none, task, out, next)
}

// Writes what becomes of `count` rules.
fn put_rules(rules: &[u8], count: usize, out: &mut [u8], at: usize) -> usize
    requires { (rs : List Rule) × Listed encode_rule rules.now 0 count rs
        × (at + length (flat_map encode_rule (flat_map split rs)) ≤ length out.old) }
    ensures { (rs : List Rule) → Listed encode_rule rules.now 0 count rs
        → Written out.old at (flat_map encode_rule (flat_map split rs)) out.new result }
{
    let mut place: usize = 0;
    let mut to = at;
    for _ in 0..count {
        let Ends { default, task, end } = rule_ends(rules, place);
        to = put_rule(
            &rules[place..default],
            &rules[default..task],
            &rules[task..end],
            out,
            to,
        );
        place = end;
    }
    to
}

// How many rules become of one, by the number of its default assignments.
fn rules_of(defaults: u8) -> u8
    ensures { result ≡ becomes defaults }
{
    if defaults == 0 { 1 } else { 2 }
}

// Notes how many rules become of the first r, for each r up to their count.
fn number_rules(rules: &[u8], count: usize, numbers: &mut [u8])
    requires { (length numbers.old ≡ 65) × (count ≤ 64)
        × ((rs : List Rule) × Listed encode_rule rules.now 0 count rs) }
    ensures { (rs : List Rule) → Listed encode_rule rules.now 0 count rs
        → Sums rs count numbers.new }
{
    numbers[0] = 0;
    let mut place: usize = 0;
    for i in 0..count {
        let ends = rule_ends(rules, place);
        numbers[i + 1] = numbers[i] + rules_of(rules[ends.default]);
        place = ends.end;
    }
}

// Writes the numbers from one up to another.
fn put_numbers(first: u8, end: u8, out: &mut [u8], at: usize) -> usize
    requires { at + length (from first (end - first)) ≤ length out.old }
    ensures { Written out.old at (from first (end - first)) out.new result }
{
    let mut to = at;
    for n in first..end {
        out[to] = n;
        to += 1;
    }
    to
}

// Writes the new numbers of carried rules.
fn put_carried(carried: &[u8], numbers: &[u8], out: &mut [u8], at: usize) -> usize
    requires { Known numbers.now carried.now
        × (at + length (flat_map (renewed numbers.now) carried.now) ≤ length out.old) }
    ensures { Written out.old at (flat_map (renewed numbers.now) carried.now)
        out.new result }
{
    let mut to = at;
    for rule in carried {
        let r = usize::from(*rule);
        to = put_numbers(numbers[r], numbers[r + 1], out, to);
    }
    to
}

// Where a part's opening values, its carried rules and its limit end.
#[derive(Clone, Copy)]
pub struct PartEnds {
    pub carried: usize,
    pub limit: usize,
    pub end: usize,
}

fn part_ends(deck: &[u8], at: usize, opening: usize) -> PartEnds
    requires { HasPart deck.now at opening }
    ensures { (p : Part) → PartStands deck.now at opening p → PartEndings at p result }
{
    let carried = at + opening;
    let limit = carried + 1 + usize::from(deck[carried]);
    let end = limit + 1 + usize::from(deck[limit]);
    PartEnds {
        carried,
        limit,
        end,
    }
}

// Writes what becomes of a part, given as its opening values, its carried rules and its limit. The count of the new numbers is known
// once they are written.
fn put_part(
    opening: &[u8],
    carried: &[u8],
    limit: &[u8],
    numbers: &[u8],
    out: &mut [u8],
    at: usize,
) -> usize
    requires { PutsPart opening.now carried.now limit.now numbers.now out.old at }
    ensures { Written out.old at
        (part_bytes numbers.now opening.now carried.now limit.now)
        out.new result }
{
    let count = put(opening, out, at);
    let first = count + 1;
    let end = put_carried(carried, numbers, out, first);
    out[count] = (end - first) as u8;
    put(limit, out, end)
}

// Writes what becomes of `count` parts, each with `opening` bytes of opening values.
fn put_parts(
    parts: &[u8],
    count: usize,
    opening: usize,
    numbers: &[u8],
    out: &mut [u8],
    at: usize,
) -> usize
    requires { (d : Deck) × PartsIn parts.now count opening d × Numbered d numbers.now
        × (at + length (flat_map encode_part (converted d).parts) ≤ length out.old) }
    ensures { (d : Deck) → PartsIn parts.now count opening d → Numbered d numbers.now
        → Written out.old at (flat_map encode_part (converted d).parts) out.new result }
{
    let mut place: usize = 0;
    let mut to = at;
    for _ in 0..count {
        let PartEnds {
            carried,
            limit,
            end,
        } = part_ends(parts, place, opening);
        let first = carried + 1;
        to = put_part(
            &parts[place..carried],
            &parts[first..limit],
            &parts[limit..end],
            numbers,
            out,
            to,
        );
        place = end;
    }
    to
}

// Notes how many rules become of the first r of a deck, for each r.
pub fn number(deck: &[u8], counts: deck::Deck, numbers: &mut [u8])
    requires { (length numbers.old ≡ 65) × ((d : Deck) × Encodes deck.now counts d) }
    ensures { (d : Deck) → Encodes deck.now counts d → Numbered d numbers.new }
{
    let count = counts.rules;
    let first = counts.rules_at + 1;
    number_rules(&deck[first..], count, numbers)
}

// Writes the conversion of a deck, and answers its length.
pub fn write(deck: &[u8], counts: deck::Deck, numbers: &[u8], out: &mut [u8]) -> usize
    requires { (d : Deck) × Encodes deck.now counts d × Numbered d numbers.now
        × (length (encode (converted d)) ≤ length out.old) }
    ensures { (d : Deck) → Encodes deck.now counts d
        → Written out.old 0 (encode (converted d)) out.new result }
{
    let rules = counts.rules;
    let rules_at = counts.rules_at;
    let parts_at = counts.parts_at;
    let first_rule = rules_at + 1;
    let first_part = parts_at + 1;
    let opening = 4 * counts.channels;
    let channels = copy(deck, 0, rules_at, out, 0);
    let counted = copy(numbers, rules, rules + 1, out, channels);
    let ruled = put_rules(&deck[first_rule..], rules, out, counted);
    let to = copy(deck, parts_at, first_part, out, ruled);
    put_parts(&deck[first_part..], counts.parts, opening, numbers, out, to)
}
