// A step by value: a kind and seven numbers, done by the call that the kind names.
#![tactic(auto)]

ghost use Rattle.std.specs.Prelude.{◌≡◌};
ghost use Rattle.rules.specs.Steps.{step, source, target};
ghost use Rattle.rules.specs.Table.{state};
ghost use Rattle.rules.specs.Check.{check};
ghost use Rattle.rules.specs.Changes.{changes};
ghost use Rattle.calls.specs.Unreadable.{unreadable};
ghost use Rattle.rules.specs.Lent.{given, leaves};

use rules::{Made, Place, Record, Step};

// [Steps 2] The kinds of steps.
// Kept: a kind is a number, as in a schedule's words for C, and any other number is code 10.
const TAKE: u32 = 0;

const LINK: u32 = 1;

const SHADE: u32 = 2;

pub const COLLECT: u32 = 3;

const LOOK: u32 = 4;

// [Steps 1] The place that a step names first, and the target of a link.
// Kept: two functions and no `From`, since a step holds two places.
fn source(a: Step) -> Place
    ensures { result ≡ source a }
{
    Place {
        slot: a.slot,
        count: a.count,
        word: a.word,
    }
}

fn target(a: Step) -> Place
    ensures { result ≡ target a }
{
    Place {
        slot: a.toslot,
        count: a.tocount,
        word: a.toword,
    }
}

// The code of what is no step: 1, 2, else 10.
// Kept: a number, as `rules::check` answers it, and as the definition `unreadable` is one.
pub fn unreadable(lefts: usize, rights: usize, colours: usize, x: Record) -> u8
    ensures { result ≡ unreadable lefts rights colours x }
{
    let code = rules::check(lefts, rights, colours, x);
    if code == 0 { 10 } else { code }
}

// Kept: slices and record go one by one: a struct of `&mut` slices would need a clause in each
// function that it lends the same ones afterwards, as `SameSlices` of session is. That they pass is
// a clause, since a table and a record from C may be anything.

// One step, by its kind, where neither code 1 nor 2 is given.
pub fn step_passed(
    left: &mut [u16],
    right: &mut [u16],
    colour: &mut [u8],
    x: Record,
    a: Step,
) -> Made
    requires { 0 ≡ check (state left.old right.old colour.old x) }
    ensures colour_value { leaves result left.new right.new colour.new
        ≡ step a (given left.old right.old colour.old x) }
    ensures changed_value { result.changed ≡ changes a (given left.old right.old colour.old x) }
{
    match a.kind {
        TAKE => take::take_passed(left, right, colour, x, source(a), a.side),
        LINK => editor::link_passed(left, right, colour, x, source(a), a.side, target(a)),
        SHADE => editor::shade_passed(left, right, colour, x),
        COLLECT => collector::phase_step(left, right, colour, x, x.phase),
        LOOK => editor::look_passed(left, right, colour, x, source(a)),
        _ => rules::refusal(10, 0, x),
    }
}

// One step.
pub fn step(left: &mut [u16], right: &mut [u16], colour: &mut [u8], x: Record, a: Step) -> Made
    ensures colour_value { leaves result left.new right.new colour.new
        ≡ step a (given left.old right.old colour.old x) }
    ensures changed_value { result.changed ≡ changes a (given left.old right.old colour.old x) }
{
    let code = rules::check(left.len(), right.len(), colour.len(), x);
    if code != 0 {
        return rules::refusal(code, 0, x);
    }
    step_passed(left, right, colour, x, a)
}
