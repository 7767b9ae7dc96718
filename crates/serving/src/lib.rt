// The lines of a table: the first one, which makes it, and the steps, a line at a time up to a
// block's end.
#![tactic(auto)]

ghost use Rattle.std.specs.Prelude.{◌≡◌, List, ℕ, ◌<◌, length, take, drop};
ghost use Rattle.rules.specs.Table.{state};
ghost use Rattle.rules.specs.Lent.{given};
ghost use Rattle.text.specs.Grammar.{read};
ghost use Rattle.lines.specs.Lines.{prints, opened, later};
ghost use Rattle.session.specs.Feeding.{fold, ended, eats, standing, stand, begun};
ghost use Rattle.serving.specs.Serving.{going, next_byte, fed, next_line};

use lines::Told;
use rules::Record;
use session::{Run, Session, Stage};

// The position of the next byte, and where the bytes before it led.
#[derive(Clone, Copy)]
pub struct Fed {
    pub next: usize,
    pub run: Run,
}

// Kept: in the loop over the lines of a block five slices and a Run go one by one; tried: one `&mut
// Buffers` and a Session, with the table's entries lent for each line, took 17 % more time for
// 1,000,000 lines (146 ms against 125 ms).

// The line that the first n bytes of a buffer are.
fn later_of(
    left: &mut [u16],
    right: &mut [u16],
    colour: &mut [u8],
    x: Record,
    line: &[u8],
    n: usize,
) -> Told
    ensures { prints result.code result.node (state left.new right.new colour.new result.rec)
        ≡ later (read (take n line.now)) (given left.old right.old colour.old x) }
{
    let end = n.min(line.len());
    lines::later(left, right, colour, x, &line[..end])
}

// The line at hand is at its end: it is answered, and the next begins.
fn ended(
    left: &mut [u16],
    right: &mut [u16],
    colour: &mut [u8],
    line: &[u8],
    out: &mut [u8],
    g: Run,
) -> Run
    ensures { going result left.new right.new colour.new line.now out.new
        ≡ ended (going g left.old right.old colour.old line.now out.old) }
{
    let told = later_of(left, right, colour, g.rec, line, g.at);
    Run {
        rec: told.rec,
        at: 0,
        used: text::say(out, g.used, told.code, told.node),
    }
}

// The bytes from position i on up to a newline, and with it the line's answer; or all that are
// left.
fn next_line(
    left: &mut [u16],
    right: &mut [u16],
    colour: &mut [u8],
    line: &mut [u8],
    out: &mut [u8],
    g: Run,
    input: &[u8],
    i: usize,
) -> Fed
    requires { i < length input.now }
    ensures { fed result left.new right.new colour.new line.new out.new
        ≡ next_line input.now i (going g left.old right.old colour.old line.old
        out.old) }
{
    let end = session::newline_from(input, i);
    let at = text::put_all(line, g.at, &input[i..end]);
    let run = Run { at, ..g };
    if end < input.len() {
        let run = ended(left, right, colour, line, out, run);
        return Fed { next: end + 1, run };
    }
    Fed { next: end, run }
}

// Bytes of the input from position i on, a line at a time.
fn feed(
    left: &mut [u16],
    right: &mut [u16],
    colour: &mut [u8],
    line: &mut [u8],
    out: &mut [u8],
    g: Run,
    input: &[u8],
    i: usize,
) -> Run
    ensures { going result left.new right.new colour.new line.new out.new
        ≡ fold next_byte (drop i input.now)
        (going g left.old right.old colour.old line.old out.old) }
{
    let mut run = g;
    let mut next = i;
    // Kept: a line has any number of bytes, so no range counts the turns.
    while next < input.len() {
        let fed = next_line(left, right, colour, line, out, run, input, next);
        run = fed.run;
        next = fed.next;
    }
    run
}

// The same where the table is in the first m entries of longer ones, which are lent in part.
// Kept: the slices one by one: with `Buffers` a caller would have to lend lefts and rights too.
pub fn serve(
    left: &mut [u16],
    right: &mut [u16],
    colour: &mut [u8],
    line: &mut [u8],
    out: &mut [u8],
    g: Run,
    m: usize,
    input: &[u8],
    i: usize,
) -> Session
    ensures { (ls rs : List ℕ)
        → stand result left.new right.new colour.new ls rs line.new out.new
        ≡ fold eats (drop i input.now)
        (standing (Stage.Serving m) g left.old right.old colour.old
        ls rs line.old out.old) }
{
    let a = m.min(left.len());
    let b = m.min(right.len());
    let c = m.min(colour.len());
    let run = feed(
        &mut left[..a],
        &mut right[..b],
        &mut colour[..c],
        line,
        out,
        g,
        input,
        i,
    );
    Session {
        stage: Stage::Serving(m),
        run,
    }
}

// The first line that the first n bytes of a buffer are.
fn first_of(left: &mut [u16], right: &mut [u16], colour: &mut [u8], line: &[u8], n: usize) -> Told
    ensures { prints result.code result.node (state left.new right.new colour.new result.rec)
        ≡ opened (read (take n line.now)) left.old right.old colour.old }
{
    let end = n.min(line.len());
    lines::first(left, right, colour, &line[..end])
}

// The first line is at its end: it is answered, and begins a table unless it is refused.
// Kept: the slices one by one: with `Buffers` a caller would have to lend lefts and rights too, and
// the line, which is only read here, as one to write.
pub fn begin(
    left: &mut [u16],
    right: &mut [u16],
    colour: &mut [u8],
    line: &[u8],
    out: &mut [u8],
    g: Run,
) -> Session
    ensures { (ls rs : List ℕ)
        → stand result left.new right.new colour.new ls rs line.now out.new
        ≡ begun (standing Stage.Opening g left.old right.old colour.old ls rs line.now
        out.old) }
{
    let opened = first_of(left, right, colour, line, g.at);
    let used = text::say(out, g.used, opened.code, opened.node);
    let m = usize::from(opened.rec.m);
    Session {
        stage: Stage::after(opened.code, Stage::Second(m), Stage::Over),
        run: Run {
            rec: opened.rec,
            at: 0,
            used,
        },
    }
}
