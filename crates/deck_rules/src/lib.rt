// The rules of a deck, read at an offset of its bytes, and the table of their rows. The definitions are in `deck`.
#![tactic(auto)]

ghost use Rattle.std.specs.Prelude.{◌≡◌, ◌*◌, ◌≤◌, length, drop};
ghost use mathlib.Core.List.{◌++◌, flat_map};
ghost use Rattle.lists.specs.Bits.{mask_of};
ghost use Rattle.deck.specs.Deck.{targets};
ghost use Rattle.deck.specs.Reader.{repeats};
ghost use Rattle.deck.specs.Layout.{action, default_action};
ghost use Rattle.deck.specs.declared.Form.TheVariants.{New};
ghost use Rattle.deck.specs.Encoding.{kind_byte};
ghost use Rattle.deck.specs.Marks.{Reads, ReadsKept, scope_of, ReadsAssignment, marked_task, marked_rule, rule_row};

use deck::{Deck, Form, Read};
use refusals::{Fault, Refusal};

// One assignment, to a channel that is not among the targets so far.
fn assignment_at(
    s: &[u8],
    at: usize,
    own: usize,
    far: usize,
    targets: u64,
) -> Result<Read<usize>, Fault>
    requires { own ≤ 32 }
    ensures { ReadsAssignment (scope_of own far) s.now at targets result }
{
    let t = deck_fields::number_at(s, at, 0, own)?;
    if (targets >> t.value) % 2 == 1 {
        return Err(Fault {
            refusal: Refusal::RepeatedTarget,
            place: at,
        });
    }
    let next = deck_fields::expression_at(s, t.next, false, own, far)?;
    Ok(Read {
        value: t.value,
        next,
    })
}

// An action, as the set of its targets.
fn action_at(s: &[u8], at: usize, own: usize, far: usize) -> Result<Read<u64>, Fault>
    requires { own ≤ 32 }
    ensures { ReadsKept s.now (action (scope_of own far) (drop at s.now) at)
        (λ kept a. kept ≡ mask_of (targets a)) result }
{
    let count = deck_fields::number_at(s, at, 0, Deck::ASSIGNMENTS + 1)?;
    let mut value: u64 = 0;
    let mut next = count.next;
    for _ in 0..count.value {
        let a = assignment_at(s, next, own, far, value)?;
        value |= 1u64 << a.value;
        next = a.next;
    }
    Ok(Read { value, next })
}

// No default action: a count of 0. A new deck's rule has none.
fn none_at(s: &[u8], at: usize, own: usize) -> Result<Read<u64>, Fault>
    ensures { ReadsKept s.now (default_action New own (drop at s.now) at)
        (λ kept a. kept ≡ mask_of (targets a)) result }
{
    let count = deck_fields::number_at(s, at, 0, Deck::ASSIGNMENTS + 1)?;
    if count.value != 0 {
        return Err(Fault {
            refusal: Refusal::DefaultRetired,
            place: at,
        });
    }
    Ok(Read {
        value: 0,
        next: count.next,
    })
}

// A default action, by the deck's form.
fn default_at(s: &[u8], at: usize, own: usize, form: Form) -> Result<Read<u64>, Fault>
    requires { own ≤ 32 }
    ensures { ReadsKept s.now (default_action form own (drop at s.now) at)
        (λ kept a. kept ≡ mask_of (targets a)) result }
{
    match form {
        Form::Old => action_at(s, at, own, 0),
        Form::New => none_at(s, at, own),
    }
}

// What is kept of a rule's kind, condition and action.
#[derive(Clone, Copy, Debug, PartialEq, Eq)]
pub struct Task {
    pub kind: u64,
    pub condition: usize,
    pub action: usize,
    pub targets: u64,
}

// A rule's kind, condition and action.
fn task_at(s: &[u8], at: usize, own: usize) -> Result<Read<Task>, Fault>
    requires { own ≤ 32 }
    ensures { ReadsKept s.now (marked_task own (drop at s.now) at)
        (λ kept m. (kept.kind ≡ kind_byte m.everywhere) × (kept.condition ≡ m.condition_at) × (kept.action ≡ m.action_at)
        × (kept.targets ≡ mask_of (targets m.action))) result }
{
    let Read {
        value: kind,
        next: condition,
    } = deck_fields::number_at(s, at, 0, 2)?;
    let far = own * kind;
    let action = deck_fields::expression_at(s, condition, true, own, far)?;
    let Read {
        value: targets,
        next,
    } = action_at(s, action, own, far)?;
    let value = Task {
        kind: kind as u64,
        condition,
        action,
        targets,
    };
    Ok(Read { value, next })
}

// A rule's row of the table.
fn rule_at(
    s: &[u8],
    at: usize,
    own: usize,
    form: Form,
) -> Result<Read<[u64; Deck::RULE_ROW]>, Fault>
    requires { own ≤ 32 }
    ensures { ReadsKept s.now (marked_rule form own (drop at s.now) at) (λ kept m. kept ≡ rule_row m) result }
{
    let count = deck_fields::number_at(s, at, 1, Deck::EVENTS + 1)?;
    let events = deck_fields::rising_at(s, count.next, count.value, own)?;
    let default = default_at(s, events.next, own, form)?;
    let Read { value: task, next } = task_at(s, default.next, own)?;
    let value = [
        events.value,
        default.value,
        task.targets,
        task.kind,
        events.next as u64,
        task.condition as u64,
        task.action as u64,
        0,
    ];
    Ok(Read { value, next })
}

// The `count` rules, a row of eight numbers for each.
pub fn rules_at(
    s: &[u8],
    at: usize,
    own: usize,
    count: usize,
    table: &mut [u64],
    form: Form,
) -> Result<usize, Fault>
    requires { (at ≤ length s.now) × (own ≤ 32) × (8 * count ≤ length table.old) }
    ensures { Reads s.now (repeats count (marked_rule form own) (drop at s.now) at)
        (λ ms. table.new ≡ flat_map rule_row ms ++ drop (8 * count) table.old) result }
{
    let mut next = at;
    for i in 0..count {
        let rule = rule_at(s, next, own, form)?;
        deck_fields::write_row(&mut table[Deck::RULE_ROW * i..], &rule.value);
        next = rule.next;
    }
    Ok(next)
}
