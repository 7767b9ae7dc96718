// Roots and Append on plain numbers, up to the last step of each.
#![tactic(auto)]

ghost use Rattle.std.specs.Prelude.{◌≡◌, ◌+◌, ◌-◌, ◌<◌, ◌≤◌, length, MatchOption};
ghost use Rattle.rules.specs.Table.{most_nodes, state};
ghost use Rattle.rules.specs.Facts.{many_steps};
ghost use Rattle.rules.specs.Phases.{position};
ghost use Rattle.rules.specs.declared.Phase.TheVariants.{Roots, Append};
ghost use Rattle.ahead.specs.Leads.{Passes, Room, Leads};
ghost use Rattle.in_order.specs.Sweeping.{rooted, Shades, swept, CanAppend};
ghost use Rattle.in_order.specs.Sweeping.{AppendLeads, Whitens};
ghost use Rattle.rules.specs.Lent.{given};

use ahead::Ahead;
use rules::{Phase, Record};

// Where the appending stands: Append i, the end of the free list, and how many nodes are free. Each
// step moves i by one, and appends a node or changes a colour, so neither number is kept.
#[derive(Clone, Copy)]
struct AppendAt {
    i: usize,
    last: usize,
    free: usize,
}

// Nodes shaded, and how many colours that changed.
#[derive(Clone, Copy)]
struct Shaded {
    d: usize,
    changed: usize,
}

// Shades the nodes from i on, at most cap of them, up to a bad colour, and counts them.
fn shading(colour: &mut [u8], i: usize, cap: usize) -> Shaded
    requires cap_in_bounds { i + cap ≤ length colour.old }
    requires colour_len_bound { length colour.old ≤ most_nodes }
    ensures { (result.d ≤ cap) × Shades colour.old i cap result.d result.changed colour.new }
{
    let mut changed = 0;
    for d in 0..cap {
        let n = i + d;
        if colour[n] > table::BLACK {
            return Shaded { d, changed };
        }
        let more = table::shade_node(colour, n as u16);
        changed += usize::from(more);
    }
    Shaded { d: cap, changed }
}

// Kept: `as`, also below: a `usize` has no `From` into a narrower type, and each value is proved to
// fit.
fn rooted(mut x: Record, i: usize, d: usize) -> Record
    requires d_bound { i + d < most_nodes }
    requires d_bound_2 { x.steps + d < many_steps }
    ensures { result ≡ rooted x i d }
{
    x.steps += d as u32;
    x.with_phase(Phase::Roots((i + d) as u16))
}

// x is at Append from.
fn swept(mut x: Record, from: usize, s: AppendAt) -> Record
    requires from_value { from ≡ position x.phase }
    requires from_le_i { from ≤ s.i }
    requires i_lt_most_nodes { s.i < most_nodes }
    requires last_lt_most_nodes { s.last < most_nodes }
    requires free_le_most_nodes { s.free ≤ most_nodes }
    requires from_bound { x.steps + (s.i - from) < many_steps }
    ensures { result ≡ swept x s }
{
    x.steps += (s.i - from) as u32;
    x.free = s.free as u16;
    x.last = s.last as u16;
    x.with_phase(Phase::Append(s.i as u16))
}

// Roots i: at most cap steps, none of them that of the last root.
// Kept: i stands beside the record, also in `appends`: `stride` of batch has just matched the
// phase.
pub fn roots(left: &[u16], right: &[u16], colour: &mut [u8], x: Record, i: u16, cap: usize) -> Ahead
    requires passes { Passes (state left.now right.now colour.old x) }
    requires room { Room x cap }
    requires phase_value { x.phase ≡ Roots i }
    ensures { (result.d ≤ cap) × Leads (given left.now right.now colour.old x) result.d
        result.changed
        (state left.now right.now colour.new result.rec) }
{
    let from = usize::from(i);
    let near = cap.min(usize::from(x.r) + 1 - from);
    let shaded = shading(colour, from, near);
    Ahead {
        d: shaded.d,
        changed: shaded.changed,
        rec: rooted(x, from, shaded.d),
    }
}

// Black nodes become white, up to end or to a node that is not black.
// Kept: a loop: `position` and then `fill` of that part would go over the same nodes twice.
fn whitening(colour: &mut [u8], end: usize, from: AppendAt) -> AppendAt
    requires i_le_end { from.i ≤ end }
    requires end_in_bounds { end ≤ length colour.old }
    ensures { (result.i ≤ end) × Whitens colour.old end from colour.new result }
{
    for i in from.i..end {
        if colour[i] != table::BLACK {
            return AppendAt { i, ..from };
        }
        colour[i] = table::WHITE;
    }
    AppendAt { i: end, ..from }
}

// One step of Append, or none where it is refused. One more may be free.
// Kept: x and end are two parameters, since `append_some` passes another end on than it is given.
// Kept: three slices, also below: a struct of three `&mut` slices would need a clause in each
// function that it lends the same ones afterwards, as `SameSlices` of session is.
// Kept: beside `append_step` of collector, which makes the record anew at each step: one `collect`
// takes 28 ns, a step in a call of 1,000 takes 1.2 ns (docs/BENCHMARKS.md, in order, M = 64).
fn append_one(
    left: &mut [u16],
    right: &mut [u16],
    colour: &mut [u8],
    x: Record,
    s: AppendAt,
) -> Option<AppendAt>
    requires can_append { CanAppend left.old right.old colour.old x (s.i + 1) s }
    requires r_bound { x.r + 1 < s.i }
    requires r_bound_2 { s.free + (x.r + 2) < x.m }
    ensures { MatchOption result (AppendLeads left.old right.old colour.old x s
        left.new right.new colour.new s) (λ t. (t.i ≡ s.i + 1)
        × AppendLeads left.old right.old colour.old x s left.new right.new colour.new t) }
{
    let AppendAt { i, last, free } = s;
    if colour[i] == table::BLACK {
        colour[i] = table::WHITE;
        return Some(AppendAt {
            i: i + 1,
            last,
            free,
        });
    }
    if colour[i] != table::WHITE || i == last {
        return None;
    }
    left[i] = 0;
    right[i] = 0;
    left[last] = i as u16;
    Some(AppendAt {
        i: i + 1,
        last: i,
        free: free + 1,
    })
}

// Steps of Append up to end, or to one that is refused. All these nodes may be free.
fn append_each(
    left: &mut [u16],
    right: &mut [u16],
    colour: &mut [u8],
    x: Record,
    end: usize,
    from: AppendAt,
) -> AppendAt
    requires can_append { CanAppend left.old right.old colour.old x end from }
    requires r_bound { x.r + 1 < from.i }
    requires r_bound_2 { from.free + end + (x.r + 2) ≤ from.i + x.m }
    ensures { (result.i ≤ end) × AppendLeads left.old right.old colour.old x from
        left.new right.new colour.new result }
{
    let mut s = from;
    while s.i < end
        && let Some(t) = append_one(left, right, colour, x, s)
    {
        s = t;
    }
    s
}

// Up to where all nodes from s.i on may be appended: no more are free then than can be.
fn limit(x: Record, end: usize, s: AppendAt) -> usize
    requires i_le_end { s.i ≤ end }
    requires end_le_most_nodes { end ≤ most_nodes }
    requires r_bound { s.free + (x.r + 2) ≤ x.m }
    ensures { (s.i ≤ result) × (result ≤ end) × (s.free + result + (x.r + 2) ≤ s.i + x.m) }
{
    let room = usize::from(x.m) - (s.free + usize::from(x.r) + 2);
    end.min(s.i + room)
}

// Steps of Append behind the roots, up to end or to one that is refused, and no more than can be
// free.
fn append_some(
    left: &mut [u16],
    right: &mut [u16],
    colour: &mut [u8],
    x: Record,
    end: usize,
    s: AppendAt,
) -> AppendAt
    requires { CanAppend left.old right.old colour.old x end s }
    ensures { (result.i ≤ end) × AppendLeads left.old right.old colour.old x s
        left.new right.new colour.new result }
{
    if s.i <= usize::from(x.r) + 1 {
        return s;
    }
    let near = limit(x, end, s);
    append_each(left, right, colour, x, near, s)
}

// Steps of Append up to end, or to one that is refused or would have more free than can be.
fn appending(
    left: &mut [u16],
    right: &mut [u16],
    colour: &mut [u8],
    x: Record,
    end: usize,
    from: AppendAt,
) -> AppendAt
    requires { CanAppend left.old right.old colour.old x end from }
    ensures { (result.i ≤ end) × AppendLeads left.old right.old colour.old x from
        left.new right.new colour.new result }
{
    let mut s = from;
    while s.i < end {
        let whitened = whitening(colour, end, s);
        let t = append_some(left, right, colour, x, end, whitened);
        // Kept: a turn makes any number of steps, so its place tells that it made none.
        if t.i == s.i {
            return t;
        }
        s = t;
    }
    s
}

// Append i: at most cap steps, none of them that of the last node.
pub fn appends(
    left: &mut [u16],
    right: &mut [u16],
    colour: &mut [u8],
    x: Record,
    i: u16,
    cap: usize,
) -> Ahead
    requires passes { Passes (state left.old right.old colour.old x) }
    requires room { Room x cap }
    requires phase_value { x.phase ≡ Append i }
    ensures { (result.d ≤ cap) × Leads (given left.old right.old colour.old x) result.d
        result.changed
        (state left.new right.new colour.new result.rec) }
{
    let from = usize::from(i);
    let free = usize::from(x.free);
    let near = cap.min(usize::from(x.m) - 1 - from);
    let begun = AppendAt {
        i: from,
        last: usize::from(x.last),
        free,
    };
    let s = appending(left, right, colour, x, from + near, begun);
    Ahead {
        d: s.i - from,
        changed: s.i + free - (from + s.free),
        rec: swept(x, from, s),
    }
}
