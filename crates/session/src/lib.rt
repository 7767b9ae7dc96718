// Where a run of the schedule program stands: which line is awaited, and what goes on beside the
// buffers. What a block of the input makes of it is defined in specs/.
#![tactic(auto)]

ghost use Rattle.std.specs.Prelude.{◌≡◌, drop, eqb};
ghost use Rattle.base.specs.Choice.{pick};
ghost use Rattle.session.specs.Feeding.{newline_from};

use rules::Record;

const NEWLINE: u8 = b'\n';

// What goes on from line to line beside the buffers: the record, the bytes of the line at hand, and
// those of the output that are used.
// Kept: at and used count what is filled of two lent buffers (`jenturik_turn`): there is no heap.
#[derive(Clone, Copy)]
pub struct Run {
    pub rec: Record,
    pub at: usize,
    pub used: usize,
}

// The first line is awaited; there is a table of so many nodes, and a step is awaited or line 0 of
// an export; line n of an export; a step; the run is over, since the first line is refused; it is
// over, since the export is.
#[derive(Clone, Copy)]
pub enum Stage {
    Opening,
    Second(usize),
    Loading(usize, usize),
    Serving(usize),
    Over,
    Stopped(usize),
}

// What goes on from block to block beside the buffers.
#[derive(Clone, Copy)]
pub struct Session {
    pub stage: Stage,
    pub run: Run,
}

impl Stage {
    // Where an answer with this code leads: a refusal ends the run.
    pub fn after(code: u8, accepted: Stage, refused: Stage) -> Stage
        ensures { result ≡ pick (eqb code 0) accepted refused }
    {
        if code == 0 { accepted } else { refused }
    }
}

// The buffers that a run is lent: the program's own table, the lists of an export's edges, the line
// at hand and the output.
// Kept: left and right edges are two lists each, as C lends them (`jenturik_load`,
// `jenturik_turn`).
// Kept: SameSlices is a clause of each function that is lent these: it compares before and after,
// which no field or invariant can.
#[derive(Drop)]
pub struct Buffers<'a> {
    pub left: &'a mut [u16],
    pub right: &'a mut [u16],
    pub colour: &'a mut [u8],
    pub lefts: &'a mut [u32],
    pub rights: &'a mut [u32],
    pub line: &'a mut [u8],
    pub out: &'a mut [u8],
}

// The position of the first newline from position i on, or the input's length.
pub fn newline_from(input: &[u8], i: usize) -> usize
    ensures { result ≡ newline_from (drop i input.now) i }
{
    if i >= input.len() {
        return i;
    }
    // Kept: a `for` over positions; tried: with `iter().position(..)` the program took 6 % more
    // time for 1,000,000 lines (155 ms against 146 ms).
    for at in i..input.len() {
        if input[at] == NEWLINE {
            return at;
        }
    }
    input.len()
}
