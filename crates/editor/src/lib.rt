// Look, Link and Shade, over three lent slices and a record that goes by value.
#![tactic(auto)]

ghost use Rattle.std.specs.Prelude.{◌≡◌, List, ℕ, ◌<◌, length};
ghost use Rattle.rules.specs.Table.{table, state, handed, outcome};
ghost use Rattle.rules.specs.Check.{check};
ghost use Rattle.rules.specs.Editor.{look, link_to, depart, pay};
ghost use Rattle.rules.specs.Steps.{step, looking, linking, shading};
ghost use Rattle.rules.specs.Changes.{differing, changes};
ghost use Rattle.rules.specs.Facts.{Checked, Owable};
ghost use Rattle.rules.specs.declared.Record.{Record};
ghost use Rattle.rules.specs.Lent.{given};

use rules::{Answer, Made, Place, Record};

// Kept: the table is three lent slices, each `&mut` only where the call writes it, and the record
// goes beside them by value: `look`, `link` and `shade` lend different ones, so no struct has them.

// Look, where neither code 1 nor 2 is given.
pub fn look_passed(left: &[u16], right: &[u16], colour: &[u8], x: Record, p: Place) -> Made
    requires { 0 ≡ check (state left.now right.now colour.now x) }
    ensures colour_value { outcome result left.now right.now colour.now
        ≡ step (looking p) (given left.now right.now colour.now x) }
    ensures changed_value { result.changed
        ≡ changes (looking p) (given left.now right.now colour.now x) }
{
    let code = places::place_code(x.r, p);
    if code != 0 {
        return rules::refusal(code, 0, x);
    }
    match places::walk(left, right, x.m, p) {
        Ok(n) => Made {
            answer: Answer::Named(n),
            changed: 0,
            rec: x,
        },
        Err(d) => rules::refusal_with(7, d.node, d.side, x),
    }
}

// Names the node at a place.
pub fn look(left: &[u16], right: &[u16], colour: &[u8], x: Record, p: Place) -> Made
    ensures colour_value { outcome result left.now right.now colour.now
        ≡ step (looking p) (given left.now right.now colour.now x) }
    ensures changed_value { result.changed
        ≡ changes (looking p) (given left.now right.now colour.now x) }
{
    let code = rules::check(left.len(), right.len(), colour.len(), x);
    if code != 0 {
        return rules::refusal(code, 0, x);
    }
    look_passed(left, right, colour, x, p)
}

// Link, from its source n: the target is walked, the edge moves, the shade is owed.
fn link_to(left: &mut [u16], right: &mut [u16], x: Record, side: u32, q: Place, n: u16) -> Made
    requires checked { Checked (length left.old) (length right.old) x.m x }
    requires slot_lt_r { q.slot < x.r }
    requires n_lt_m { n < x.m }
    requires side_bound { side < 2 }
    ensures by_index { (c : List ℕ) → outcome result left.new right.new c
        ≡ link_to (state left.old right.old c x) side q n }
    ensures changed_value { result.changed ≡ 0 }
{
    match places::walk(left, right, x.m, q) {
        Ok(t) => {
            table::set_edge(left, right, side, n, t);
            Made {
                answer: Answer::Linked(t),
                changed: 0,
                rec: x.owing(t),
            }
        }
        Err(bad) => rules::refusal_with(7, bad.node, bad.side, x),
    }
}

// Link, from its source place.
fn link_from(left: &mut [u16], right: &mut [u16], x: Record, p: Place, side: u32, q: Place) -> Made
    requires checked { Checked (length left.old) (length right.old) x.m x }
    requires slot_lt_r { p.slot < x.r }
    requires slot_lt_r_2 { q.slot < x.r }
    requires side_bound { side < 2 }
    ensures by_index { (c : List ℕ) → outcome result left.new right.new c
        ≡ depart (state left.old right.old c x) p
        (link_to (state left.old right.old c x) side q) }
    ensures changed_value { result.changed ≡ 0 }
{
    match places::depart(left, right, x.m, p) {
        Ok(n) => link_to(left, right, x, side, q, n),
        Err(why) => rules::refusal_with(why.code, why.node, why.detail, x),
    }
}

// Link, where neither code 1 nor 2 is given.
pub fn link_passed(
    left: &mut [u16],
    right: &mut [u16],
    colour: &[u8],
    x: Record,
    p: Place,
    side: u32,
    q: Place,
) -> Made
    requires { 0 ≡ check (state left.old right.old colour.now x) }
    ensures colour_value { outcome result left.new right.new colour.now
        ≡ step (linking p side q) (given left.old right.old colour.now x) }
    ensures changed_value { result.changed
        ≡ changes (linking p side q) (given left.old right.old colour.now x) }
{
    let target = places::place_code(x.r, q);
    let code = places::edit_code(x, p, side, target);
    if code != 0 {
        return rules::refusal(code, 0, x);
    }
    link_from(left, right, x, p, side, q)
}

// The edge of the source on a side now points to the target, whose shade is owed.
pub fn link(
    left: &mut [u16],
    right: &mut [u16],
    colour: &[u8],
    x: Record,
    p: Place,
    side: u32,
    q: Place,
) -> Made
    ensures colour_value { outcome result left.new right.new colour.now
        ≡ step (linking p side q) (given left.old right.old colour.now x) }
    ensures changed_value { result.changed
        ≡ changes (linking p side q) (given left.old right.old colour.now x) }
{
    let code = rules::check(left.len(), right.len(), colour.len(), x);
    if code != 0 {
        return rules::refusal(code, 0, x);
    }
    link_passed(left, right, colour, x, p, side, q)
}

// Shades the node owed; refused 6 where nothing is.
fn pay(colour: &mut [u8], x: Record) -> Made
    requires { Owable (length colour.old) x.owed }
    ensures by_index { (es : List (List ℕ)) → handed result es colour.new
        ≡ pay (table es colour.old x) x.owed }
    ensures changed_value { result.changed ≡ differing colour.old colour.new }
{
    match x.owed {
        None => rules::refusal(6, 0, x),
        Some(n) => {
            if colour[usize::from(n)] > table::BLACK {
                return rules::refusal(14, n, x);
            }
            let changed = table::shade_node(colour, n);
            Made {
                answer: Answer::Shaded(n),
                changed,
                rec: x.paid(),
            }
        }
    }
}

// Shade, where neither code 1 nor 2 is given.
pub fn shade_passed(left: &[u16], right: &[u16], colour: &mut [u8], x: Record) -> Made
    requires { 0 ≡ check (state left.now right.now colour.old x) }
    ensures colour_value { outcome result left.now right.now colour.new
        ≡ step shading (given left.now right.now colour.old x) }
    ensures changed_value { result.changed
        ≡ changes shading (given left.now right.now colour.old x) }
{
    pay(colour, x)
}

// Shades the node owed, and nothing is owed afterwards.
pub fn shade(left: &[u16], right: &[u16], colour: &mut [u8], x: Record) -> Made
    ensures colour_value { outcome result left.now right.now colour.new
        ≡ step shading (given left.now right.now colour.old x) }
    ensures changed_value { result.changed
        ≡ changes shading (given left.now right.now colour.old x) }
{
    let code = rules::check(left.len(), right.len(), colour.len(), x);
    if code != 0 {
        return rules::refusal(code, 0, x);
    }
    shade_passed(left, right, colour, x)
}
