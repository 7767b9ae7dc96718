// Many collector steps in one call, which notes the nodes that they append to the free list.
#![tactic(auto)]

ghost use Rattle.std.specs.Prelude.{◌≡◌, [], ◌++◌, ◌+◌, ◌-◌, ◌<◌, ◌≤◌, length, take, drop};
ghost use Rattle.rules.specs.Table.{state};
ghost use Rattle.freed.specs.Freed.{appended_by, room_of, run_in, changes_in};
ghost use Rattle.freed.specs.Freed.{appended_in, noted, freed};
ghost use Rattle.rules.specs.Facts.{quiet};
ghost use Rattle.freed.specs.Gathers.{gathered, gather, dark, far, Turn};
ghost use Rattle.rules.specs.Lent.{given};

use batch::Many;
use rules::{Answer, Phase, Record};

// How many steps were done, the code that ended them or 0, with its detail, how many colours they
// changed in all, how many nodes they appended, and the record.
// Kept: a code is a number of the rules, 0 where no step was refused, as `run_in` and C have it.
// The list is lent by C's jenturik_collect_freed, so the count of its nodes goes beside it.
// Kept: the fields of `Ran` and no `Ran` in it, since the definition `freed` and C have them side
// by side.
#[derive(Clone, Copy)]
pub struct Freed {
    pub done: usize,
    pub code: u8,
    pub detail: u8,
    pub changed: usize,
    pub count: u16,
    pub rec: Record,
}

// So many steps, at least, come before the first of Append.
fn quiet(x: Record) -> u16
    ensures { result ≡ quiet x.m x.phase }
{
    match x.phase {
        Phase::Scan(_, k) => k,
        Phase::Append(_) => 0,
        _ => x.m,
    }
}

// How many colours from i on, in a row and at most most, are not white.
// Kept: no `position`: the library's module would depend on the size of a pointer.
fn until_white(colour: &[u8], i: usize, most: usize) -> usize
    requires { i + most ≤ length colour.now }
    ensures { (result ≤ most) × (result ≤ dark most i colour.now) }
{
    for n in 0..most {
        if colour[i + n] == 0 {
            return n;
        }
    }
    most
}

// The same of the colours before end.
fn dark(colour: &[u8], i: usize, end: usize, most: usize) -> usize
    requires { end ≤ length colour.now }
    ensures { (result ≤ most) × (result ≤ dark (end - i) i colour.now) }
{
    if end <= i {
        return 0;
    }
    until_white(colour, i, most.min(end - i))
}

// So many steps, at most most, append nothing.
fn far(colour: &[u8], x: Record, most: usize) -> usize
    ensures { (result ≤ most) × (result ≤ far x.m colour.now x.phase) }
{
    match x.phase {
        Phase::Append(i) => dark(
            colour,
            usize::from(i),
            colour.len().min(usize::from(x.m)),
            most,
        ),
        _ => most.min(usize::from(quiet(x))),
    }
}

// At most n steps, of which only the last can append a node.
// Kept: three slices and a record, also below: a struct of three `&mut` slices would need a clause
// in each function that it lends the same ones afterwards, as `SameSlices` of session is, and
// jenturik_collect_freed lends them one by one.
fn turn(left: &mut [u16], right: &mut [u16], colour: &mut [u8], x: Record, n: usize) -> Many
    requires { 1 ≤ n }
    ensures { Turn (given left.old right.old colour.old x) n result.done result.changed
        result.answer
        (state left.new right.new colour.new result.rec) }
{
    let before = far(colour, x, n - 1);
    batch::collect_many(left, right, colour, x, before + 1)
}

// Notes the node that a step appended, if it did: how many are noted now.
fn note(list: &mut [u16], count: u16, a: Answer) -> u16
    requires count_in_bounds { count < length list.old }
    requires count_bound { count < 65535 }
    ensures value { result ≡ count + length (appended_by a) }
    ensures list_value { take result list.new ≡ take count list.old ++ appended_by a }
    ensures list_value_2 { drop result list.new ≡ drop result list.old }
{
    match a {
        Answer::Appended(n) => {
            list[usize::from(count)] = n;
            count + 1
        }
        // Append makes this node white, and it stays in use.
        Answer::Whitened(_) => count,
        _ => count,
    }
}

// For how many nodes the list has room.
fn room_of(n: usize) -> u16
    ensures { result ≡ room_of n }
{
    u16::try_from(n).unwrap_or(u16::MAX)
}

// At most n steps, until the list is full of the nodes that they append.
fn turns(
    left: &mut [u16],
    right: &mut [u16],
    colour: &mut [u8],
    x: Record,
    n: usize,
    list: &mut [u16],
) -> Freed
    requires { length list.old < 65536 }
    ensures count_in_bounds { result.count ≤ length list.new }
    ensures list_value { gathered (freed result left.new right.new colour.new) result.changed
        (take result.count list.new)
        ≡ gather n (length list.old) 0 0 [] (given left.old right.old colour.old x) }
    ensures list_value_2 { drop result.count list.new ≡ drop result.count list.old }
{
    let mut rec = x;
    let mut done = 0;
    let mut changed = 0;
    let mut count = 0;
    // Kept: a turn makes any number of steps, so this is no loop over a range.
    while done < n && usize::from(count) < list.len() {
        let gone = turn(left, right, colour, rec, n - done);
        let answer = gone.answer;
        rec = gone.rec;
        done += gone.done;
        changed += gone.changed;
        let code = answer.code();
        if code != 0 {
            return Freed {
                done,
                code,
                detail: answer.detail(),
                changed,
                count,
                rec,
            };
        }
        count = note(list, count, answer);
    }
    Freed {
        done,
        code: 0,
        detail: 0,
        changed,
        count,
        rec,
    }
}

// n steps of the collector, or as many as are done before one is refused or the list is full of the
// nodes that they append.
pub fn collect_freed(
    left: &mut [u16],
    right: &mut [u16],
    colour: &mut [u8],
    x: Record,
    n: usize,
    list: &mut [u16],
) -> Freed
    ensures colour_value { freed result left.new right.new colour.new
        ≡ run_in n list.old (given left.old right.old colour.old x) }
    ensures changed_value { result.changed
        ≡ changes_in n list.old (given left.old right.old colour.old x) }
    ensures list_value { list.new
        ≡ noted (appended_in n list.old (given left.old right.old colour.old x))
        list.old }
    ensures count_value { result.count
        ≡ length (appended_in n list.old (given left.old right.old colour.old x)) }
{
    let code = rules::check(left.len(), right.len(), colour.len(), x);
    if code != 0 {
        return Freed {
            done: 0,
            code,
            detail: 0,
            changed: 0,
            count: 0,
            rec: x,
        };
    }
    let room = usize::from(room_of(list.len()));
    turns(left, right, colour, x, n, &mut list[..room])
}
