// The schedule program for callers in C and JavaScript: a block of the input to its output, over
// buffers and a session's words, which the caller keeps.
#![tactic(auto)]

ghost use Rattle.std.specs.Prelude.{◌≡◌, ◌++◌, true, replicate, IfOk, IfErr};
ghost use Rattle.record_words.specs.Words.{word};
ghost use Rattle.session.specs.Feeding.{held};
ghost use Rattle.jenturik_text.specs.Words.{tag_of, entry_of, words_of};
ghost use Rattle.jenturik_text.specs.Words.{record_part};
ghost use Rattle.jenturik_text.specs.Words.{stage_of, most_table, most_entry, all_zero};
ghost use Rattle.jenturik_text.specs.Words.{is_session, session_of, Fits};
ghost use Rattle.jenturik_text.specs.Turning.{over_of, judged, answered, answered_of};
ghost use Rattle.jenturik_text.specs.Turning.{left as leaves, turns, Stays};

use session::{Run, Session, Stage};

// How many words there are, and the number of each behind the record's, by the names of
// include/jenturik_text.h.
// Kept: numbers of places in one array, the C interface: a caller in C keeps the session as words.
pub const WORDS: usize = 32;

const STAGE: usize = 24;

const TABLE: usize = 25;

const ENTRY: usize = 26;

const AT: usize = 27;

// What a block answers: how many bytes of the output are printed, the code, and whether the run is
// over: 0 it goes on, 1 the first line was refused, 2 the export was.
// Kept: a struct of numbers, the C interface (include/jenturik_text.h); made by `told` and no
// `From`, since a refused block has no session.
#[repr(C)]
#[derive(Clone, Copy)]
pub struct Turned {
    pub used: usize,
    pub code: u16,
    pub over: u16,
    pub zero: u32,
}

// Kept: a stage is a number among the words, the C interface; `stage_of` reads it back.
fn tag(stage: Stage) -> u32
    ensures { result ≡ tag_of stage }
{
    match stage {
        Stage::Opening => 0,
        Stage::Second(..) => 1,
        Stage::Loading(..) => 2,
        Stage::Serving(..) => 3,
        Stage::Over => 4,
        Stage::Stopped(..) => 5,
    }
}

// The entries of the table that there is.
fn table(stage: Stage) -> usize
    ensures { result ≡ held stage }
{
    match stage {
        Stage::Opening | Stage::Over => 0,
        Stage::Second(m) | Stage::Loading(m, _) | Stage::Serving(m) | Stage::Stopped(m) => m,
    }
}

// The line of an export that comes.
fn entry(stage: Stage) -> usize
    ensures { result ≡ entry_of stage }
{
    match stage {
        Stage::Loading(_, n) => n,
        _ => 0,
    }
}

// The record's words, and 0 behind them.
fn with_record(v: [u32; record_words::WORDS]) -> [u32; WORDS]
    ensures { result ≡ v ++ replicate 8 0 }
{
    // Kept: no `copy_from_slice`, here and in `record_part`: its module depends on the size of a
    // pointer.
    let mut words = [0; WORDS];
    for k in 0..record_words::WORDS {
        words[k] = v[k];
    }
    words
}

// The session's words; the output is not among them.
// Kept: the casts narrow by `as`: that each number fits is what `Fits` requires.
// Kept: this and `session_of` are functions and no `TryFrom`: that words are a session's is tested
// apart (`is_session`), and code 2 tells it.
fn words_of(s: Session) -> [u32; WORDS]
    requires { Fits s }
    ensures value { result ≡ words_of s.stage s.run.rec s.run.at }
    ensures true_value { true ≡ is_session result }
{
    let mut words = with_record(record_words::words_of(s.run.rec));
    words[STAGE] = tag(s.stage);
    words[TABLE] = table(s.stage) as u32;
    words[ENTRY] = entry(s.stage) as u32;
    words[AT] = s.run.at as u32;
    words
}

// The words of the record.
fn record_part(w: [u32; WORDS]) -> [u32; record_words::WORDS]
    ensures { result ≡ record_part w }
{
    let mut words = [0; record_words::WORDS];
    for k in 0..record_words::WORDS {
        words[k] = w[k];
    }
    words
}

fn stage_of(tag: u32, m: usize, n: usize) -> Stage
    ensures { result ≡ stage_of tag m n }
{
    match tag {
        0 => Stage::Opening,
        1 => Stage::Second(m),
        2 => Stage::Loading(m, n),
        3 => Stage::Serving(m),
        4 => Stage::Over,
        _ => Stage::Stopped(m),
    }
}

// The most entries that a table may have: none where a stage has no table.
fn most_table(tag: u32) -> u32
    ensures { result ≡ most_table tag }
{
    match tag {
        0 | 4 => 0,
        _ => 65535,
    }
}

fn most_entry(tag: u32) -> u32
    ensures { result ≡ most_entry tag }
{
    if tag == 2 { 65535 } else { 0 }
}

// Whether the words that have no use are 0.
fn all_zero(w: [u32; WORDS]) -> bool
    ensures { result ≡ all_zero (word w 28) (word w 29) (word w 30) (word w 31) }
{
    w[28] == 0 && w[29] == 0 && w[30] == 0 && w[31] == 0
}

// Whether words are a session's.
fn is_session(w: [u32; WORDS]) -> bool
    ensures { result ≡ is_session w }
{
    record_words::is_record(record_part(w))
        && w[STAGE] <= 5
        && w[TABLE] <= most_table(w[STAGE])
        && w[ENTRY] <= most_entry(w[STAGE])
        && w[AT] <= 81
        && all_zero(w)
}

// The session that words are.
fn session_of(w: [u32; WORDS]) -> Session
    requires { true ≡ is_session w }
    ensures { result ≡ session_of w }
{
    let rec = record_words::record_of(record_part(w));
    // Kept: `as`, here and below: std has no `From` of 32 bits to `usize`, and each word fits.
    let run = Run {
        rec,
        at: w[AT] as usize,
        used: 0,
    };
    let stage = stage_of(w[STAGE], w[TABLE] as usize, w[ENTRY] as usize);
    Session { stage, run }
}

// The session that words are, for a line's buffer of n bytes; else the code of a block that is
// refused: the words are no session's, or the buffer has another length.
// Kept: the error is a number: the codes are those of the rules (`judged` [Text 4]), for C too.
fn passed(n: usize, w: [u32; WORDS]) -> Result<Session, u16>
    ensures ok { IfOk result (λ s. (s ≡ session_of w) × (0 ≡ judged n w)) }
    ensures err { IfErr result (λ code. (code ≡ judged n w) × (code ≡ 0 → ⊥)) }
{
    if !is_session(w) {
        return Err(2);
    }
    if n != transcript::LINE {
        return Err(1);
    }
    Ok(session_of(w))
}

fn over(stage: Stage) -> u16
    ensures { result ≡ over_of stage }
{
    match stage {
        Stage::Over => 1,
        Stage::Stopped(_) => 2,
        _ => 0,
    }
}

fn refused(code: u16) -> Turned
    ensures { answered_of result ≡ answered 0 code 0 }
{
    Turned {
        used: 0,
        code,
        over: 0,
        zero: 0,
    }
}

fn told(s: Session) -> Turned
    ensures { answered_of result ≡ answered s.run.used 0 (over_of s.stage) }
{
    Turned {
        used: s.run.used,
        code: 0,
        over: over(s.stage),
        zero: 0,
    }
}

// A block of the input, or its end where the block is empty: what it prints is put into the output,
// from its start, as far as there is room.
#[unsafe(no_mangle)]
pub extern "C" fn jenturik_turn(
    left: &mut [u16],
    right: &mut [u16],
    colour: &mut [u8],
    lefts: &mut [u32],
    rights: &mut [u32],
    line: &mut [u8],
    out: &mut [u8],
    words: &mut [u32; WORDS],
    input: &[u8],
) -> Turned
    ensures out_value { leaves result words.new left.new right.new colour.new lefts.new rights.new
        line.new out.new
        ≡ turns words.old left.old right.old colour.old lefts.old rights.old line.old out.old
        input.now }
    ensures stays { Stays words.old words.new }
{
    let s = match passed(line.len(), *words) {
        Ok(s) => s,
        Err(code) => return refused(code),
    };
    let n = input.len();
    let s = transcript::turn(left, right, colour, lefts, rights, line, out, s, input, n);
    *words = words_of(s);
    told(s)
}
