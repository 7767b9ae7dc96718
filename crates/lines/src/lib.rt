// What a line of the schedule program does: the first, a later one, and the last of an export. The
// definitions are in specs/.
#![tactic(auto)]

ghost use Rattle.std.specs.Prelude.{◌≡◌, ℕ, ◌+◌, ◌≤◌, ◌<◌, List, [], ◌∷◌, length, take, drop};
ghost use Rattle.rules.specs.Table.{state};
ghost use Rattle.rules.specs.Fresh.{fresh};
ghost use Rattle.rules.specs.Schedules.{ran, schedule, collects};
ghost use Rattle.text.specs.Grammar.{read};
ghost use Rattle.lines.specs.Lines.{prints, start_of, collected, later, placed};
ghost use Rattle.lines.specs.Lines.{loaded, failed, opened};
ghost use Rattle.rules.specs.Lent.{given};

use rules::{Made, Ran, Record};
use text::Said;

// Kept: the code is a number of the rules, 0 where the line is done, as its line of output prints
// it (`said` in crate text).

// What a line prints, and the record that it leaves.
#[derive(Clone, Copy)]
pub struct Told {
    pub code: u8,
    pub node: u16,
    pub rec: Record,
}

// A line prints the answer's code and node.
impl From<Made> for Told {
    ghost use Rattle.std.specs.Prelude.{◌≡◌, ℕ, List};
    ghost use Rattle.rules.specs.Table.{state, outcome};
    ghost use Rattle.lines.specs.Lines.{prints, answered};

    ghost from_gives = { λ d t. (l r c : List ℕ) → prints t.code t.node (state l r c t.rec)
        ≡ answered (outcome d l r c) };

    fn from(d: Made) -> Told {
        Told {
            code: d.answer.code(),
            node: d.answer.node(),
            rec: d.rec,
        }
    }
}

// Kept: slices and record one by one in the functions below: a struct of three `&mut` slices would
// need a clause in each that it lends the same ones afterwards, as `SameSlices` of session is.

fn start_of(done: usize, i: u16) -> u16
    ensures { result ≡ start_of done i }
{
    if done == 0 { 0 } else { i }
}

// So many collector steps, until one is refused.
fn collect_many(left: &mut [u16], right: &mut [u16], colour: &mut [u8], x: Record, n: usize) -> Ran
    ensures { ran result left.new right.new colour.new
        ≡ schedule (collects n) (given left.old right.old colour.old x) }
{
    let made = batch::collect_many(left, right, colour, x, n);
    Ran {
        done: made.done,
        code: made.answer.code(),
        detail: made.answer.detail(),
        changed: made.changed,
        rec: made.rec,
    }
}

// All collector steps of a line but the last, then the last.
fn collect_some(left: &mut [u16], right: &mut [u16], colour: &mut [u8], x: Record, n: u32) -> Told
    requires { 0 < n }
    ensures { prints result.code result.node (state left.new right.new colour.new result.rec)
        ≡ collected n (given left.old right.old colour.old x) }
{
    let most = collect_many(left, right, colour, x, (n - 1) as usize);
    let i = rules::position(most.rec.phase);
    if most.code != 0 {
        return Told {
            code: most.code,
            node: start_of(most.done, i),
            rec: most.rec,
        };
    }
    let last = collect_many(left, right, colour, most.rec, 1);
    Told {
        code: last.code,
        node: start_of(most.done + last.done, i),
        rec: last.rec,
    }
}

fn collect(left: &mut [u16], right: &mut [u16], colour: &mut [u8], x: Record, n: u32) -> Told
    ensures { prints result.code result.node (state left.new right.new colour.new result.rec)
        ≡ collected n (given left.old right.old colour.old x) }
{
    if 0 < n {
        return collect_some(left, right, colour, x, n);
    }
    let none = collect_many(left, right, colour, x, 0);
    Told {
        code: none.code,
        node: 0,
        rec: none.rec,
    }
}

// What a line after the first prints, and what it leaves.
pub fn later(left: &mut [u16], right: &mut [u16], colour: &mut [u8], x: Record, line: &[u8]) -> Told
    ensures { prints result.code result.node (state left.new right.new colour.new result.rec)
        ≡ later (read line.now) (given left.old right.old colour.old x) }
{
    match text::read(line) {
        Said::Do(a) => Told::from(calls::step(left, right, colour, x, a)),
        Said::Collect(n) => collect(left, right, colour, x, n),
        Said::First(_, _) | Said::Unreadable => Told {
            code: 10,
            node: 0,
            rec: x,
        },
    }
}

// What an export of these edges prints, and the table that it makes in the place of that of the
// first line.
pub fn load(
    lefts: &[u32],
    rights: &[u32],
    left: &mut [u16],
    right: &mut [u16],
    colour: &mut [u8],
    x: Record,
) -> Told
    ensures { prints result.code result.node (state left.new right.new colour.new result.rec)
        ≡ loaded lefts.now rights.now (given left.old right.old colour.old x) }
{
    let m = usize::from(x.m);
    let r = usize::from(x.r);
    Told::from(load::load(lefts, rights, left, right, colour, m, r))
}

// A fresh table in the first m entries.
fn start(left: &mut [u16], right: &mut [u16], colour: &mut [u8], m: usize, r: usize) -> Told
    requires m_in_bounds { m ≤ length left.old }
    requires m_in_bounds_2 { m ≤ length right.old }
    requires m_in_bounds_3 { m ≤ length colour.old }
    ensures { prints result.code result.node (state left.new right.new colour.new result.rec)
        ≡ placed (fresh m r (take m left.old ∷ take m right.old ∷ []) (take m colour.old))
        (drop m left.old) (drop m right.old) (drop m colour.old) }
{
    Told::from(fresh::fresh(&mut left[..m], &mut right[..m], &mut colour[..m], m, r))
}

// A first line that fails: no table.
fn refused(code: u8) -> Told
    ensures { (l k c : List ℕ) → prints result.code result.node (state l k c result.rec)
        ≡ failed code l k c }
{
    Told {
        code,
        node: 0,
        rec: Record::fresh(0, 0, 0, 0),
    }
}

// A fresh table of m nodes and r slots, where the tables have room for it.
fn begin(left: &mut [u16], right: &mut [u16], colour: &mut [u8], m: u32, r: u32) -> Told
    ensures { prints result.code result.node (state left.new right.new colour.new result.rec)
        ≡ opened (Said.First m r) left.old right.old colour.old }
{
    let nodes = m as usize;
    if left.len() < nodes || right.len() < nodes || colour.len() < nodes {
        return refused(1);
    }
    start(left, right, colour, nodes, r as usize)
}

// What the first line prints, and the table that it begins in the first entries of the program's
// own.
pub fn first(left: &mut [u16], right: &mut [u16], colour: &mut [u8], line: &[u8]) -> Told
    ensures { prints result.code result.node (state left.new right.new colour.new result.rec)
        ≡ opened (read line.now) left.old right.old colour.old }
{
    match text::read(line) {
        Said::First(m, r) => begin(left, right, colour, m, r),
        Said::Do(_) | Said::Collect(_) | Said::Unreadable => refused(10),
    }
}
