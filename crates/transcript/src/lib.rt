// The schedule program without its reading and writing: a block of the input to its output. What a
// block makes of where the run stands is defined in crate session.
#![tactic(auto)]

ghost use Rattle.std.specs.Prelude.{◌≡◌, List, ℕ, ◌<◌, length, get_or, take, drop};
ghost use Rattle.text.specs.Grammar.{entry};
ghost use Rattle.session.specs.Feeding.{fold, eats, noting, standing_in, stand, stand_in};
ghost use Rattle.session.specs.Feeding.{SameSlices};
ghost use Rattle.session.specs.Feeding.{emptied, block, bare, closed, finish, turn};
ghost use Rattle.session.specs.Feeding.{is_over, is_stopped, started};
ghost use Rattle.transcript.specs.Leads.{Leads};

use rules::Record;
use session::{Buffers, Run, Session, Stage};

// The bytes of a line that are kept: one more than a line may have.
pub const LINE: usize = 81;

// Line n of an export is at its end.
fn load_line(b: &mut Buffers<'_>, g: Run, m: usize, n: usize) -> Session
    ensures same { SameSlices b.old b.new }
    ensures stands { stand_in result b.new ≡ noting m n (entry (take g.at b.old.line.now) n)
        (standing_in (Stage.Serving m) g b.old) }
{
    let line = &mut *b.line;
    export::load_line(
        b.left, b.right, b.colour, b.lefts, b.rights, line, b.out, g, m, n,
    )
}

// Steps are served, from the newline at position i on up to the block's end.
fn serve(b: &mut Buffers<'_>, g: Run, m: usize, input: &[u8], i: usize) -> Session
    ensures same { SameSlices b.old b.new }
    ensures stands { stand_in result b.new
        ≡ fold eats (drop i input.now) (standing_in (Stage.Serving m) g b.old) }
{
    serving::serve(b.left, b.right, b.colour, b.line, b.out, g, m, input, i)
}

// The line at hand is at its end, at position i: the line after the first begins an export, or is
// the first step, and steps are served up to the block's end. The position of the next byte.
fn end_line(b: &mut Buffers<'_>, s: &mut Session, input: &[u8], i: usize) -> usize
    requires i_in_bounds { i < length input.now }
    requires i_value { get_or input.now i 0 ≡ 10 }
    ensures same { SameSlices b.old b.new }
    ensures leads { Leads i result input.now (stand_in s.old b.old) (stand_in s.new b.new) }
{
    let g = s.run;
    match s.stage {
        Stage::Opening => {
            let line = &mut *b.line;
            *s = serving::begin(b.left, b.right, b.colour, line, b.out, g);
            i + 1
        }
        Stage::Second(m) => {
            let line = &mut *b.line;
            if export::is_export(line, g.at) {
                *s = load_line(b, g, m, 0);
                i + 1
            } else {
                *s = serve(b, g, m, input, i);
                input.len()
            }
        }
        Stage::Loading(m, n) => {
            *s = load_line(b, g, m, n);
            i + 1
        }
        Stage::Serving(m) => {
            *s = serve(b, g, m, input, i);
            input.len()
        }
        Stage::Over | Stage::Stopped(_) => input.len(),
    }
}

// The bytes from position i on up to a newline, and what follows from it, or all that are left; the
// position of the next byte.
fn lead(b: &mut Buffers<'_>, s: &mut Session, input: &[u8], i: usize) -> usize
    requires { i < length input.now }
    ensures same { SameSlices b.old b.new }
    ensures leads { Leads i result input.now (stand_in s.old b.old) (stand_in s.new b.new) }
{
    if is_over(*s) {
        return input.len();
    }
    let end = session::newline_from(input, i);
    let bytes = &input[i..end];
    s.run.at = text::put_all(b.line, s.run.at, bytes);
    if end < input.len() {
        return end_line(b, s, input, end);
    }
    end
}

// The output is empty again.
fn emptied(s: Session) -> Session
    ensures { (l r c ls rs line out : List ℕ) → stand result l r c ls rs line out
        ≡ emptied (stand s l r c ls rs line out) }
{
    Session {
        run: Run { used: 0, ..s.run },
        ..s
    }
}

// Before the first byte.
pub fn start() -> Session
    ensures { result ≡ started }
{
    Session {
        stage: Stage::Opening,
        run: Run {
            rec: Record::fresh(0, 0, 0, 0),
            at: 0,
            used: 0,
        },
    }
}

// Whether the run is over: the first line was refused, or the export.
pub fn is_over(s: Session) -> bool
    ensures { result ≡ is_over s.stage }
{
    matches!(s.stage, Stage::Over | Stage::Stopped(_))
}

// Whether the run is over since the export was refused.
pub fn is_stopped(s: Session) -> bool
    ensures { result ≡ is_stopped s.stage }
{
    matches!(s.stage, Stage::Stopped(_))
}

// A block of the input, in the buffers that are lent.
fn feed(b: &mut Buffers<'_>, s: Session, input: &[u8]) -> Session
    ensures same { SameSlices b.old b.new }
    ensures stands { stand_in result b.new ≡ block input.now (stand_in s b.old) }
{
    let mut t = emptied(s);
    let mut next = 0;
    // Kept: a turn takes a line, or the steps up to the block's end, so no range counts the turns.
    while next < input.len() {
        next = lead(b, &mut t, input, next);
    }
    t
}

// Whether no line is at hand; the first one is, even where it has no byte.
fn bare(s: Session) -> bool
    ensures { result ≡ bare s.stage s.run.at }
{
    match s.stage {
        Stage::Opening => false,
        Stage::Over | Stage::Stopped(_) => true,
        _ => s.run.at == 0,
    }
}

// The input is at its end: an export that is not ends the run.
fn closed(out: &mut [u8], s: Session) -> Session
    ensures { (l r c ls rs line : List ℕ) → stand result l r c ls rs line out.new
        ≡ closed s.stage (stand s l r c ls rs line out.old) }
{
    match s.stage {
        Stage::Loading(m, _) => export::stop(out, s.run, m),
        _ => s,
    }
}

// Kept: the buffers one by one in the three calls below, whose promises are read slice by slice by
// `block_determined`, `finish_determined` and `turn_determined` in crate whole.

// A block of the input: what it prints is put into the output, from its start, as far as there is
// room.
pub fn block(
    left: &mut [u16],
    right: &mut [u16],
    colour: &mut [u8],
    lefts: &mut [u32],
    rights: &mut [u32],
    line: &mut [u8],
    out: &mut [u8],
    s: Session,
    input: &[u8],
) -> Session
    ensures { stand result left.new right.new colour.new lefts.new rights.new line.new
        out.new ≡ block input.now (stand s left.old right.old colour.old lefts.old
        rights.old line.old out.old) }
{
    let mut b = Buffers {
        left,
        right,
        colour,
        lefts,
        rights,
        line,
        out,
    };
    feed(&mut b, s, input)
}

// The end of the input: the last line may lack its newline.
pub fn finish(
    left: &mut [u16],
    right: &mut [u16],
    colour: &mut [u8],
    lefts: &mut [u32],
    rights: &mut [u32],
    line: &mut [u8],
    out: &mut [u8],
    s: Session,
) -> Session
    ensures { stand result left.new right.new colour.new lefts.new rights.new line.new
        out.new ≡ finish (stand s left.old right.old colour.old lefts.old rights.old
        line.old out.old) }
{
    if bare(s) {
        return closed(out, emptied(s));
    }
    let t = block(left, right, colour, lefts, rights, line, out, s, b"\n");
    closed(out, t)
}

// What a read delivered: n bytes of the input, or none, which is its end.
pub fn turn(
    left: &mut [u16],
    right: &mut [u16],
    colour: &mut [u8],
    lefts: &mut [u32],
    rights: &mut [u32],
    line: &mut [u8],
    out: &mut [u8],
    s: Session,
    input: &[u8],
    n: usize,
) -> Session
    ensures { stand result left.new right.new colour.new lefts.new rights.new line.new
        out.new ≡ turn n input.now (stand s left.old right.old colour.old lefts.old
        rights.old line.old out.old) }
{
    if n == 0 {
        return finish(left, right, colour, lefts, rights, line, out, s);
    }
    let end = n.min(input.len());
    block(
        left,
        right,
        colour,
        lefts,
        rights,
        line,
        out,
        s,
        &input[..end],
    )
}

// The same in the buffers that are lent together.
pub fn turn_in(b: &mut Buffers<'_>, s: Session, input: &[u8], n: usize) -> Session
    ensures same { SameSlices b.old b.new }
    ensures stands { stand_in result b.new ≡ turn n input.now (stand_in s b.old) }
{
    turn(
        b.left, b.right, b.colour, b.lefts, b.rights, b.line, b.out, s, input, n,
    )
}
