// Take, over three lent slices and a record that goes by value.
#![tactic(auto)]

ghost use Rattle.std.specs.Prelude.{◌≡◌, [], ◌∷◌, ◌+◌, ◌<◌, ◌≤◌, length};
ghost use Rattle.rules.specs.Table.{most_slots, state, edge_of, shade_in};
ghost use Rattle.rules.specs.Check.{check};
ghost use Rattle.rules.specs.Editor.{depart, bad_free, relink, take_next, take_first};
ghost use Rattle.rules.specs.Steps.{step, taking};
ghost use Rattle.rules.specs.Changes.{differing, changes};
ghost use Rattle.rules.specs.Facts.{Checked};
ghost use Rattle.rules.specs.declared.Record.{Record};
ghost use Rattle.rules.specs.Lent.{given, leaves};

use rules::{Answer, Made, Place, Record};

// Kept: slices and record go one by one: a struct of `&mut` slices would need a clause in each
// function that it lends the same ones afterwards, as `SameSlices` of session is. That they pass is
// a clause, since a table and a record from C may be anything.

// Whether an edge of the free chain is bad: to a root other than NIL, or at least M.
#[tactic(auto, unfolding(base::specs::Choice::every, rules::specs::Editor::bad_free))]
fn bad_free(m: u16, r: u16, e: u16) -> bool
    requires { r ≤ most_slots }
    ensures { result ≡ bad_free m r e }
{
    m <= e || 1 <= e && e <= r + 1
}

// The edge points to f, FREE's left edge to g, f's left edge to NIL; f is shaded, and 1 answered
// where that changed its colour.
fn relink(
    left: &mut [u16],
    right: &mut [u16],
    colour: &mut [u8],
    n: u16,
    side: u32,
    f: u16,
    g: u16,
) -> u8
    requires side_bound { side < 2 }
    requires in_bounds { 1 < length left.old }
    requires n_in_bounds { n < length left.old }
    requires n_in_bounds_2 { n < length right.old }
    requires f_in_bounds { f < length left.old }
    requires f_in_bounds_2 { f < length colour.old }
    ensures x_value { (x : Record) → state left.new right.new colour.new x
        ≡ relink (given left.old right.old colour.old x) n side f g }
    ensures colour_value { colour.new ≡ shade_in colour.old f }
    ensures value { result ≡ differing colour.old colour.new }
{
    table::set_edge(left, right, side, n, f);
    left[1] = g;
    left[usize::from(f)] = 0;
    table::shade_node(colour, f)
}

// Take of f, whose successor is g.
fn take_next(
    left: &mut [u16],
    right: &mut [u16],
    colour: &mut [u8],
    x: Record,
    n: u16,
    side: u32,
    f: u16,
    g: u16,
) -> Made
    requires checked { Checked (length left.old) (length right.old) (length colour.old) x }
    requires n_lt_m { n < x.m }
    requires f_lt_m { f < x.m }
    requires side_bound { side < 2 }
    ensures colour_value { leaves result left.new right.new colour.new
        ≡ take_next (given left.old right.old colour.old x) n side f g }
    ensures changed_value { result.changed ≡ differing colour.old colour.new }
{
    if bad_free(x.m, x.r, g) {
        return rules::refusal_with(7, f, rules::LEFT, x);
    }
    if colour[usize::from(f)] > table::BLACK {
        return rules::refusal(14, f, x);
    }
    if g == 0 {
        let changed = relink(left, right, colour, n, side, f, g);
        return Made {
            answer: Answer::Taken(f),
            changed,
            rec: x.less_free().with_last(1),
        };
    }
    if colour[usize::from(g)] > table::BLACK {
        return rules::refusal(14, g, x);
    }
    let taken = relink(left, right, colour, n, side, f, g);
    let after = table::shade_node(colour, g);
    let changed = taken + after;
    Made {
        answer: Answer::Taken(f),
        changed,
        rec: x.less_free(),
    }
}

// Take of f, FREE's left edge, for the source n.
fn take_first(
    left: &mut [u16],
    right: &mut [u16],
    colour: &mut [u8],
    x: Record,
    side: u32,
    f: u16,
    n: u16,
) -> Made
    requires checked { Checked (length left.old) (length right.old) (length colour.old) x }
    requires n_lt_m { n < x.m }
    requires side_bound { side < 2 }
    ensures colour_value { leaves result left.new right.new colour.new
        ≡ take_first (given left.old right.old colour.old x) side f n }
    ensures changed_value { result.changed ≡ differing colour.old colour.new }
{
    if bad_free(x.m, x.r, f) {
        return rules::refusal_with(7, 1, rules::LEFT, x);
    }
    if f == 0 {
        return rules::refusal(9, 0, x);
    }
    let g = left[usize::from(f)];
    take_next(left, right, colour, x, n, side, f, g)
}

// Take, from its source place.
fn take_from(
    left: &mut [u16],
    right: &mut [u16],
    colour: &mut [u8],
    x: Record,
    p: Place,
    side: u32,
) -> Made
    requires checked { Checked (length left.old) (length right.old) (length colour.old) x }
    requires slot_lt_r { p.slot < x.r }
    requires side_bound { side < 2 }
    ensures colour_value { leaves result left.new right.new colour.new
        ≡ depart (given left.old right.old colour.old x) p
        (take_first (given left.old right.old colour.old x) side (edge_of (left.old ∷ right.old ∷
        []) 0 1)) }
    ensures changed_value { result.changed ≡ differing colour.old colour.new }
{
    match places::depart(left, right, x.m, p) {
        Ok(n) => {
            let f = left[1];
            take_first(left, right, colour, x, side, f, n)
        }
        Err(why) => rules::refusal_with(why.code, why.node, why.detail, x),
    }
}

// Take, where neither code 1 nor 2 is given.
pub fn take_passed(
    left: &mut [u16],
    right: &mut [u16],
    colour: &mut [u8],
    x: Record,
    p: Place,
    side: u32,
) -> Made
    requires { 0 ≡ check (state left.old right.old colour.old x) }
    ensures colour_value { leaves result left.new right.new colour.new
        ≡ step (taking p side) (given left.old right.old colour.old x) }
    ensures changed_value { result.changed
        ≡ changes (taking p side) (given left.old right.old colour.old x) }
{
    let code = places::edit_code(x, p, side, 0);
    if code != 0 {
        return rules::refusal(code, 0, x);
    }
    take_from(left, right, colour, x, p, side)
}

// The edge of the source on a side now points to the first free node, which leaves the free list.
pub fn take(
    left: &mut [u16],
    right: &mut [u16],
    colour: &mut [u8],
    x: Record,
    p: Place,
    side: u32,
) -> Made
    ensures colour_value { leaves result left.new right.new colour.new
        ≡ step (taking p side) (given left.old right.old colour.old x) }
    ensures changed_value { result.changed
        ≡ changes (taking p side) (given left.old right.old colour.old x) }
{
    let code = rules::check(left.len(), right.len(), colour.len(), x);
    if code != 0 {
        return rules::refusal(code, 0, x);
    }
    take_passed(left, right, colour, x, p, side)
}
