// The lines of an export: their edges are kept in two lists, and after the last one Load answers.
#![tactic(auto)]

ghost use Rattle.std.specs.Prelude.{◌≡◌, List, true, ℕ, ◌+◌, ◌<◌, set, take, ltb};
ghost use Rattle.rules.specs.Table.{state};
ghost use Rattle.rules.specs.Lent.{given};
ghost use Rattle.text.specs.Grammar.{is_export, entry};
ghost use Rattle.lines.specs.Lines.{loaded};
ghost use Rattle.session.specs.Feeding.{standing, stand, stopped, filled, noting};
ghost use Rattle.session.specs.Replaces.{Replaces};

use lines::Told;
use rules::Record;
use session::{Run, Session, Stage};
use text::Edges;

// Whether the first at bytes of the line begin an export.
pub fn is_export(line: &[u8], at: usize) -> bool
    ensures { result ≡ is_export (take at line.now) }
{
    let end = at.min(line.len());
    text::is_export(&line[..end])
}

// The export ends the run.
pub fn stop(out: &mut [u8], g: Run, m: usize) -> Session
    ensures { (l r c ls rs line : List ℕ) → stand result l r c ls rs line out.new
        ≡ stopped m (standing (Stage.Serving m) g l r c ls rs line out.old) }
{
    let used = text::say(out, g.used, 10, 0);
    Session {
        stage: Stage::Stopped(m),
        run: Run { at: 0, used, ..g },
    }
}

// Load of the first n edges of the lists, in the first m entries of the tables.
// Kept: slices and lengths one by one: their parts are made here.
fn load_part(
    left: &mut [u16],
    right: &mut [u16],
    colour: &mut [u8],
    lefts: &[u32],
    rights: &[u32],
    x: Record,
    m: usize,
    n: usize,
) -> Told
    ensures { Replaces m (loaded (take n lefts.now) (take n rights.now))
        (given left.old right.old colour.old x) result.code result.node
        (state left.new right.new colour.new result.rec) }
{
    let a = m.min(left.len());
    let b = m.min(right.len());
    let c = m.min(colour.len());
    let d = n.min(lefts.len());
    let e = n.min(rights.len());
    lines::load(
        &lefts[..d],
        &rights[..e],
        &mut left[..a],
        &mut right[..b],
        &mut colour[..c],
        x,
    )
}

// All lines of an export are read: Load answers, and its table is served unless it is refused.
// It is done once, and apart: else each line would have Load's arrays in its frame.
#[inline(never)]
fn fill(
    left: &mut [u16],
    right: &mut [u16],
    colour: &mut [u8],
    lefts: &[u32],
    rights: &[u32],
    out: &mut [u8],
    g: Run,
    m: usize,
) -> Session
    ensures { (line : List ℕ)
        → stand result left.new right.new colour.new lefts.now rights.now line out.new
        ≡ filled m (standing (Stage.Serving m) g left.old right.old colour.old lefts.now
        rights.now line out.old) }
{
    let n = usize::from(g.rec.m);
    let told = load_part(left, right, colour, lefts, rights, g.rec, m, n);
    let used = text::say(out, g.used, told.code, told.node);
    Session {
        stage: Stage::after(told.code, Stage::Serving(m), Stage::Stopped(m)),
        run: Run {
            rec: told.rec,
            at: 0,
            used,
        },
    }
}

// Kept: tried, `list.get_mut(n)`: the proof does not close, since nothing says that the list stays
// where it answers None.
fn keep(list: &mut [u32], n: usize, e: u32)
    ensures { list.new ≡ set list.old n e }
{
    if n < list.len() {
        list[n] = e;
    }
}

// Line n of an export has these edges.
fn note(lefts: &mut [u32], rights: &mut [u32], n: usize, edges: Edges)
    ensures left { lefts.new ≡ set lefts.old n edges.left }
    ensures right { rights.new ≡ set rights.old n edges.right }
{
    keep(lefts, n, edges.left);
    keep(rights, n, edges.right);
}

// Whether more lines follow line n of an export of m.
fn more(m: u16, n: usize) -> bool
    ensures value { result ≡ ltb (n + 1) m }
    ensures small { result ≡ true → n < 65535 }
{
    usize::from(m).saturating_sub(n) > 1
}

// What the first at bytes of the line say, as line n of an export.
fn entry_of(line: &[u8], at: usize, n: usize) -> Option<Edges>
    ensures { result ≡ entry (take at line.now) n }
{
    let end = at.min(line.len());
    text::entry(&line[..end], n)
}

// Line n of an export is at its end.
// Kept: the slices one by one: with `Buffers` a caller would have to lend the line, which is only
// read here, as one to write.
pub fn load_line(
    left: &mut [u16],
    right: &mut [u16],
    colour: &mut [u8],
    lefts: &mut [u32],
    rights: &mut [u32],
    line: &[u8],
    out: &mut [u8],
    g: Run,
    m: usize,
    n: usize,
) -> Session
    ensures { stand result left.new right.new colour.new lefts.new rights.new line.now
        out.new
        ≡ noting m n (entry (take g.at line.now) n) (standing (Stage.Serving m) g left.old
        right.old colour.old lefts.old rights.old line.now out.old) }
{
    let Some(edges) = entry_of(line, g.at, n) else {
        return stop(out, g, m);
    };
    note(lefts, rights, n, edges);
    if more(g.rec.m, n) {
        return Session {
            stage: Stage::Loading(m, n + 1),
            run: Run { at: 0, ..g },
        };
    }
    fill(left, right, colour, lefts, rights, out, g, m)
}
