// The collector: one call does one step, over three lent slices and a record that goes by value.
#![tactic(auto)]

ghost use Rattle.std.specs.Prelude.{◌≡◌, List, ℕ, ◌+◌, ◌<◌, ◌≤◌, length};
ghost use Rattle.rules.specs.Table.{most_slots, table, state, handed, outcome};
ghost use Rattle.rules.specs.Collector.{shade_step, after_roots, scan_step, read_step, black_step};
ghost use Rattle.rules.specs.Collector.{append_white, append_step, phase_step};
ghost use Rattle.rules.specs.Steps.{step, collecting};
ghost use Rattle.rules.specs.Changes.{differing, changes};
ghost use Rattle.rules.specs.Facts.{many_steps, Checked, InRange};
ghost use Rattle.rules.specs.declared.Phase.TheVariants.{Scan};
ghost use Rattle.rules.specs.Lent.{given, leaves};
ghost use Rattle.rules.specs.declared.Answer.TheVariants.{Looked};

use rules::{Answer, Made, Phase, Record};

// Kept: slices and record go one by one: a struct of `&mut` slices would need a clause in each
// function that it lends the same ones afterwards, as `SameSlices` of session is. That they pass is
// a clause, since a table and a record from C may be anything.

// Shades node n, and goes on to a phase.
fn shade_step(colour: &mut [u8], x: Record, n: u16, then: Phase) -> Made
    requires checked { Checked x.m x.m (length colour.old) x }
    requires n_lt_m { n < x.m }
    ensures by_index { (es : List (List ℕ)) → handed result es colour.new
        ≡ shade_step (table es colour.old x) n then }
    ensures changed_value { result.changed ≡ differing colour.old colour.new }
{
    if colour[usize::from(n)] > table::BLACK {
        return rules::refusal(14, n, x);
    }
    let changed = table::shade_node(colour, n);
    Made {
        answer: Answer::Shaded(n),
        changed,
        rec: x.moved(then),
    }
}

// The phase after Roots i.
fn after_roots(m: u16, r: u16, i: u16) -> Phase
    requires r_le_most_slots { r ≤ most_slots }
    requires i_bound { i ≤ r + 1 }
    ensures { result ≡ after_roots m r i }
{
    if i == r + 1 {
        Phase::Scan(0, m)
    } else {
        Phase::Roots(i + 1)
    }
}

// Node i was looked at, or an edge of it: no colour is changed.
fn looked(i: u16, rec: Record) -> Made
    ensures { result ≡ (record { answer = Looked i; changed = 0; rec = rec }) }
{
    Made {
        answer: Answer::Looked(i),
        changed: 0,
        rec,
    }
}

// Scan i, k: Left i where node i is gray, else on to the next node.
fn scan_step(colour: &[u8], x: Record, i: u16, k: u16) -> Made
    requires checked { Checked x.m x.m (length colour.now) x }
    requires in_range { InRange x.m x.r (Scan i k) }
    ensures by_index { (es : List (List ℕ)) → handed result es colour.now
        ≡ scan_step (table es colour.now x) i k }
    ensures changed_value { result.changed ≡ 0 }
{
    let seen = colour[usize::from(i)];
    if seen > table::BLACK {
        rules::refusal(14, i, x)
    } else if seen == table::GRAY {
        looked(i, x.moved(Phase::Left(i)))
    } else if k == 1 {
        looked(i, x.marked())
    } else {
        looked(i, x.moved(Phase::Scan(x.next(i), k - 1)))
    }
}

// Left i or Right i: e is the edge of node i on that side, and `then` the phase that shades it.
fn read_step(x: Record, i: u16, side: u8, e: u16, then: Phase) -> Made
    requires { x.steps < many_steps }
    ensures by_index { (es : List (List ℕ)) (c : List ℕ) → handed result es c
        ≡ read_step (table es c x) i side e then }
    ensures changed_value { result.changed ≡ 0 }
{
    if table::bad_edge(x.m, e) {
        rules::refusal_with(7, i, side, x)
    } else {
        looked(i, x.moved(then))
    }
}

// Black i: node i is black, and the scan begins again behind it.
fn black_step(colour: &mut [u8], x: Record, i: u16) -> Made
    requires checked { Checked x.m x.m (length colour.old) x }
    requires i_lt_m { i < x.m }
    ensures by_index { (es : List (List ℕ)) → handed result es colour.new
        ≡ black_step (table es colour.old x) i }
    ensures changed_value { result.changed ≡ differing colour.old colour.new }
{
    let changed = table::paint(colour, i, table::BLACK);
    Made {
        answer: Answer::Blackened(i),
        changed,
        rec: x.rescan(i),
    }
}

// A white node i goes to the end of the free list.
fn append_white(left: &mut [u16], right: &mut [u16], x: Record, i: u16) -> Made
    requires checked { Checked (length left.old) (length right.old) x.m x }
    requires i_lt_m { i < x.m }
    ensures by_index { (c : List ℕ) → outcome result left.new right.new c
        ≡ append_white (state left.old right.old c x) i }
    ensures changed_value { result.changed ≡ 0 }
{
    if i <= x.r + 1 {
        return rules::refusal_with(15, i, rules::WHITE_ROOT, x);
    }
    if i == x.last {
        return rules::refusal_with(15, i, rules::WHITE_LAST, x);
    }
    let at = usize::from(i);
    left[at] = 0;
    right[at] = 0;
    left[usize::from(x.last)] = i;
    Made {
        answer: Answer::Appended(i),
        changed: 0,
        rec: x.with_last(i).more_free().after_append(i),
    }
}

// [Append 1] Append i: black is made white, white goes to the free list.
fn append_step(left: &mut [u16], right: &mut [u16], colour: &mut [u8], x: Record, i: u16) -> Made
    requires checked { Checked (length left.old) (length right.old) (length colour.old) x }
    requires i_lt_m { i < x.m }
    ensures colour_value { leaves result left.new right.new colour.new
        ≡ append_step (given left.old right.old colour.old x) i }
    ensures changed_value { result.changed ≡ differing colour.old colour.new }
{
    match colour[usize::from(i)] {
        table::BLACK => Made {
            answer: Answer::Whitened(i),
            changed: table::paint(colour, i, table::WHITE),
            rec: x.after_append(i),
        },
        table::WHITE => append_white(left, right, x, i),
        table::GRAY => rules::refusal_with(15, i, rules::GRAY_NODE, x),
        _ => rules::refusal(14, i, x),
    }
}

// The step of a phase, where neither code 1 nor 2 is given.
// Kept: the phase stands beside the record, since `any_phase` of schedule and of
// jenturik_c hands over one that it made anew.
pub fn phase_step(
    left: &mut [u16],
    right: &mut [u16],
    colour: &mut [u8],
    x: Record,
    phase: Phase,
) -> Made
    requires checked { Checked (length left.old) (length right.old) (length colour.old) x }
    requires in_range { InRange x.m x.r phase }
    ensures colour_value { leaves result left.new right.new colour.new
        ≡ phase_step (given left.old right.old colour.old x) phase }
    ensures changed_value { result.changed ≡ differing colour.old colour.new }
{
    match phase {
        Phase::Roots(i) => shade_step(colour, x, i, after_roots(x.m, x.r, i)),
        Phase::Scan(i, k) => scan_step(colour, x, i, k),
        Phase::Left(i) => {
            let e = left[usize::from(i)];
            read_step(x, i, rules::LEFT, e, Phase::ShadeLeft(i, e))
        }
        Phase::ShadeLeft(i, n) => shade_step(colour, x, n, Phase::Right(i)),
        Phase::Right(i) => {
            let e = right[usize::from(i)];
            read_step(x, i, rules::RIGHT, e, Phase::ShadeRight(i, e))
        }
        Phase::ShadeRight(i, n) => shade_step(colour, x, n, Phase::Black(i)),
        Phase::Black(i) => black_step(colour, x, i),
        Phase::Append(i) => append_step(left, right, colour, x, i),
    }
}

// One step of the collector. Refused: 1 and 2 for the sizes and the record, 7, 14 and 15 where a
// value that the step reads is bad.
pub fn collect(left: &mut [u16], right: &mut [u16], colour: &mut [u8], x: Record) -> Made
    ensures colour_value { leaves result left.new right.new colour.new
        ≡ step collecting (given left.old right.old colour.old x) }
    ensures changed_value { result.changed
        ≡ changes collecting (given left.old right.old colour.old x) }
{
    let code = rules::check(left.len(), right.len(), colour.len(), x);
    if code != 0 {
        return rules::refusal(code, 0, x);
    }
    phase_step(left, right, colour, x, x.phase)
}
