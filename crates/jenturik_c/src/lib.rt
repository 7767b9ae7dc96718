// The library for callers in C: each call over three slices and the record's words, which the
// caller keeps.
#![tactic(auto)]

ghost use Rattle.std.specs.Prelude.{◌≡◌, [], ◌∷◌, ◌+◌, ◌*◌, ◌/◌, ◌<◌, ◌≤◌, length, eqb, true};
ghost use Rattle.std.specs.Prelude.{false, IfOk, IfErr, IfSome, IfNone};
ghost use Rattle.rules.specs.Table.{refused};
ghost use Rattle.base.specs.Choice.{pick};
ghost use Rattle.rules.specs.Fresh.{fresh};
ghost use Rattle.rules.specs.Load.{load};
ghost use Rattle.rules.specs.InUse.{in_use};
ghost use Rattle.rules.specs.FreeCount.{free_count};
ghost use Rattle.rules.specs.Steps.{step, taking, linking, shading, collecting, looking};
ghost use Rattle.rules.specs.Schedules.{ran, schedule, collects};
ghost use Rattle.rules.specs.Changes.{changes, changes_all};
ghost use Rattle.freed.specs.Freed.{run_in, changes_in, appended_in, noted};
ghost use Rattle.record_words.specs.Words.{is_record, record_of};
ghost use Rattle.jenturik_c.specs.Face.{what_of, answered_of, told_of, shown, fitted};
ghost use Rattle.jenturik_c.specs.Face.{faced, face, face_count};
ghost use Rattle.jenturik_c.specs.Face.{asking, Narrow};
ghost use Rattle.jenturik_c.specs.Face.{place_of};
ghost use Rattle.jenturik_c.specs.Flat.{STEP_WORDS, UNUSED, zeros, kind_at, step_at, steps_of};
ghost use Rattle.jenturik_c.specs.Flat.{schedule_of, changes_of};
ghost use Rattle.jenturik_c.specs.Many.{code_in, detail_in, last_of, faced_run};
ghost use Rattle.jenturik_c.specs.Many.{face_run, last_told, face_nodes};
ghost use Rattle.jenturik_c.specs.Lent.{Stays, Passing, Barred};
ghost use Rattle.jenturik_c.specs.Version.{VERSION};
ghost use Rattle.rules.specs.Lent.{given};

use rules::{Answer, Phase, Place, Ran, Record, Step};
use schedule::Steps;

// The library's version, as JENTURIK_VERSION_NUMBER of include/jenturik.h has it.
const VERSION: u32 = 4007;

// How many words a step of a schedule has, and the number of each, by the names of
// include/jenturik.h. From UNUSED on they have no use.
// Kept: numbers of places, the C interface: a schedule is one array of words there.
const STEP_WORDS: usize = 12;

const KIND: usize = 0;

const SLOT: usize = 1;

const COUNT: usize = 2;

const WORD: usize = 3;

const SIDE: usize = 4;

const TOSLOT: usize = 5;

const TOCOUNT: usize = 6;

const TOWORD: usize = 7;

const UNUSED: usize = 8;

// A kind that no step has.
// Kept: a number, as `kind_at` has it: any kind above 4 is code 10.
const NO_KIND: u32 = 4294967295;

// What a call answers: what was done (0: refused), the code, the detail, the node, and how many
// colours it changed.
// Kept: this and the next three are structs of numbers, the C interface (include/jenturik.h). They
// are made by hand, since each call fits its counts in its own way.
#[repr(C)]
#[derive(Clone, Copy)]
pub struct Told {
    pub what: u32,
    pub code: u16,
    pub detail: u16,
    pub node: u32,
    pub changed: u32,
}

// What a schedule answers: how many steps were done, the code that ended it, or 0, the detail, and
// how many colours they changed in all.
#[repr(C)]
#[derive(Clone, Copy)]
pub struct Done {
    pub done: usize,
    pub code: u16,
    pub detail: u16,
    pub changed: u32,
}

// What many steps of the collector answer: how many were done, how many colours they changed in
// all, and what the last one answers, or the one that was refused. The byte `code` has the code in
// its lower five bits and the detail in its upper three.
#[repr(C)]
#[derive(Clone, Copy)]
pub struct Last {
    pub done: usize,
    pub changed: u32,
    pub node: u16,
    pub what: u8,
    pub code: u8,
}

// What many steps of the collector answer that note the nodes that become free: how many were done,
// how many colours they changed in all, how many nodes became free, the code that ended them, or 0,
// and the detail.
#[repr(C)]
#[derive(Clone, Copy)]
pub struct Freed {
    pub done: usize,
    pub changed: u32,
    pub freed: u16,
    pub code: u8,
    pub detail: u8,
}

// Kept: what was done is a number, JENTURIK_NAMED and so on of include/jenturik.h, the C interface.
fn what(a: Answer) -> u8
    ensures { result ≡ what_of a }
{
    match a {
        Answer::Refused(_, _, _) => 0,
        Answer::Started(_) => 1,
        Answer::Named(_) => 2,
        Answer::Linked(_) => 3,
        Answer::Taken(_) => 4,
        Answer::Shaded(_) => 5,
        Answer::Looked(_) => 6,
        Answer::Blackened(_) => 7,
        Answer::Whitened(_) => 8,
        Answer::Appended(_) => 9,
        Answer::Counted(_) => 10,
    }
}

// The node and what was done have fewer bits than their fields.
fn tell(a: Answer, changed: u8) -> Told
    ensures result_value { answered_of result ≡ told_of a }
    ensures changed_value { result.changed ≡ changed }
    ensures narrow { Narrow result }
{
    Told {
        what: u32::from(what(a)),
        code: u16::from(a.code()),
        detail: u16::from(a.detail()),
        node: u32::from(a.node()),
        changed: u32::from(changed),
    }
}

// A sum in 32 bits: the largest number where it does not fit.
fn fitted(n: usize) -> u32
    ensures { result ≡ fitted n }
{
    u32::try_from(n).unwrap_or(u32::MAX)
}

// The answer to a call that is refused with a code.
fn refused(code: u8) -> Told
    ensures result_value { answered_of result ≡ told_of (refused code 0) }
    ensures changed_value { result.changed ≡ 0 }
{
    tell(Answer::refused(code, 0), 0)
}

// Kept: here and in the calls below the slices, the words and the numbers of a place are parameters
// of their own, the C interface.

// The record that words are, where it passes with slices of these lengths; else code 1 or 2.
// Kept: the error is a number: the codes are those of the rules (`judged` [C 4]), for C too.
// Kept: one copy of the words, for both calls: with one for each, words are loaded twice.
fn passed(
    left: &[u16],
    right: &[u16],
    colour: &[u8],
    words: &[u32; record_words::WORDS],
) -> Result<Record, u8>
    ensures ok { IfOk result (Passing left.now right.now colour.now words.now) }
    ensures err { IfErr result (Barred left.now right.now colour.now words.now) }
{
    let w = *words;
    match record_words::judge(left.len(), right.len(), colour.len(), w) {
        0 => Ok(record_words::record_of(w)),
        code => Err(code),
    }
}

// The record that words are, where they are one's.
fn formed(words: &[u32; record_words::WORDS]) -> Option<Record>
    ensures some { IfSome result (λ x. (true ≡ is_record words.now) × (x ≡ record_of words.now)) }
    ensures none { IfNone result (false ≡ is_record words.now) }
{
    if record_words::is_record(*words) {
        Some(record_words::record_of(*words))
    } else {
        None
    }
}

// The library's version.
#[unsafe(no_mangle)]
pub extern "C" fn jenturik_version() -> u32
    ensures { result ≡ VERSION }
{
    VERSION
}

// A fresh table; the words are written whatever they were.
#[unsafe(no_mangle)]
pub extern "C" fn jenturik_fresh(
    left: &mut [u16],
    right: &mut [u16],
    colour: &mut [u8],
    words: &mut [u32; record_words::WORDS],
    nodes: u32,
    slots: u32,
) -> Told
    ensures words_value { faced (answered_of result) left.new right.new colour.new words.new
        ≡ shown (fresh nodes slots (left.old ∷ right.old ∷ []) colour.old) }
    ensures true_value { true ≡ is_record words.new }
    ensures changed_value { result.changed ≡ 0 }
{
    // Kept: `as`, here and in the load: std has no `From` of 32 bits to `usize`, and each fits.
    let made = fresh::fresh(left, right, colour, nodes as usize, slots as usize);
    *words = record_words::words_of(made.rec);
    tell(made.answer, 0)
}

// A table with the edges of two lists; the words are written whatever they were.
#[unsafe(no_mangle)]
pub extern "C" fn jenturik_load(
    left: &mut [u16],
    right: &mut [u16],
    colour: &mut [u8],
    words: &mut [u32; record_words::WORDS],
    lefts: &[u32],
    rights: &[u32],
    nodes: u32,
    slots: u32,
) -> Told
    ensures words_value { faced (answered_of result) left.new right.new colour.new words.new
        ≡ shown (load nodes slots (lefts.now ∷ rights.now ∷ []) (left.old ∷ right.old ∷ [])
        colour.old) }
    ensures true_value { true ≡ is_record words.new }
    ensures changed_value { result.changed ≡ 0 }
{
    let made = load::load(
        lefts,
        rights,
        left,
        right,
        colour,
        nodes as usize,
        slots as usize,
    );
    *words = record_words::words_of(made.rec);
    tell(made.answer, 0)
}

// Names the node at a place.
#[unsafe(no_mangle)]
pub extern "C" fn jenturik_look(
    left: &[u16],
    right: &[u16],
    colour: &[u8],
    words: &[u32; record_words::WORDS],
    slot: u32,
    count: u32,
    word: u32,
) -> Told
    ensures words_value { faced (answered_of result) left.now right.now colour.now words.now
        ≡ face (step (looking (place_of slot count word))) left.now right.now colour.now
        words.now }
    ensures changed_value { result.changed
        ≡ face_count (changes (looking (place_of slot count word))) left.now right.now colour.now
        words.now }
{
    let x = match passed(left, right, colour, words) {
        Ok(x) => x,
        Err(code) => return refused(code),
    };
    let p = Place { slot, count, word };
    let made = editor::look_passed(left, right, colour, x, p);
    tell(made.answer, made.changed)
}

// How many nodes some slot reaches; nothing is written.
#[unsafe(no_mangle)]
pub extern "C" fn jenturik_in_use(
    left: &[u16],
    right: &[u16],
    colour: &[u8],
    words: &[u32; record_words::WORDS],
) -> Told
    ensures words_value { faced (answered_of result) left.now right.now colour.now words.now
        ≡ face (asking in_use) left.now right.now colour.now words.now }
    ensures changed_value { result.changed ≡ 0 }
{
    let Some(x) = formed(words) else {
        return refused(2);
    };
    tell(in_use::in_use(left, right, colour, x), 0)
}

// How many nodes are free; nothing is written.
#[unsafe(no_mangle)]
pub extern "C" fn jenturik_free_count(
    left: &[u16],
    right: &[u16],
    colour: &[u8],
    words: &[u32; record_words::WORDS],
) -> Told
    ensures words_value { faced (answered_of result) left.now right.now colour.now words.now
        ≡ face (asking free_count) left.now right.now colour.now words.now }
    ensures changed_value { result.changed ≡ 0 }
{
    let x = match passed(left, right, colour, words) {
        Ok(x) => x,
        Err(code) => return refused(code),
    };
    tell(Answer::Counted(x.free), 0)
}

// Points the source's edge on a side to the target, whose shade is owed.
#[unsafe(no_mangle)]
pub extern "C" fn jenturik_link(
    left: &mut [u16],
    right: &mut [u16],
    colour: &[u8],
    words: &mut [u32; record_words::WORDS],
    slot: u32,
    count: u32,
    word: u32,
    side: u32,
    toslot: u32,
    tocount: u32,
    toword: u32,
) -> Told
    ensures words_value { faced (answered_of result) left.new right.new colour.now words.new
        ≡ face (step (linking (place_of slot count word) side (place_of toslot tocount toword)))
        left.old right.old colour.now words.old }
    ensures stays { Stays words.old words.new }
    ensures changed_value { result.changed
        ≡ face_count (changes (linking (place_of slot count word) side
        (place_of toslot tocount toword))) left.old right.old colour.now words.old }
{
    let x = match passed(left, right, colour, words) {
        Ok(x) => x,
        Err(code) => return refused(code),
    };
    let p = Place { slot, count, word };
    let q = Place {
        slot: toslot,
        count: tocount,
        word: toword,
    };
    let made = editor::link_passed(left, right, colour, x, p, side, q);
    record_words::put_owed(words, made.rec);
    tell(made.answer, made.changed)
}

// Shades the node owed.
#[unsafe(no_mangle)]
pub extern "C" fn jenturik_shade(
    left: &[u16],
    right: &[u16],
    colour: &mut [u8],
    words: &mut [u32; record_words::WORDS],
) -> Told
    ensures words_value { faced (answered_of result) left.now right.now colour.new words.new
        ≡ face (step shading) left.now right.now colour.old words.old }
    ensures stays { Stays words.old words.new }
    ensures changed_value { result.changed
        ≡ face_count (changes shading) left.now right.now colour.old words.old }
{
    let x = match passed(left, right, colour, words) {
        Ok(x) => x,
        Err(code) => return refused(code),
    };
    let made = editor::shade_passed(left, right, colour, x);
    record_words::put_owed(words, made.rec);
    tell(made.answer, made.changed)
}

// Points the source's edge on a side to the first free node.
#[unsafe(no_mangle)]
pub extern "C" fn jenturik_take(
    left: &mut [u16],
    right: &mut [u16],
    colour: &mut [u8],
    words: &mut [u32; record_words::WORDS],
    slot: u32,
    count: u32,
    word: u32,
    side: u32,
) -> Told
    ensures words_value { faced (answered_of result) left.new right.new colour.new words.new
        ≡ face (step (taking (place_of slot count word) side)) left.old right.old colour.old
        words.old }
    ensures stays { Stays words.old words.new }
    ensures changed_value { result.changed
        ≡ face_count (changes (taking (place_of slot count word) side)) left.old right.old
        colour.old words.old }
{
    let x = match passed(left, right, colour, words) {
        Ok(x) => x,
        Err(code) => return refused(code),
    };
    let p = Place { slot, count, word };
    let made = take::take_passed(left, right, colour, x, p, side);
    record_words::put_free(words, made.rec);
    tell(made.answer, made.changed)
}

// The collector's step in the record's phase. A refused one leaves the words, so they are not
// stored.
fn in_phase(
    left: &mut [u16],
    right: &mut [u16],
    colour: &mut [u8],
    words: &mut [u32; record_words::WORDS],
    x: Record,
    phase: Phase,
) -> Told
    requires passing { Passing left.old right.old colour.old words.old x }
    requires phase_value { phase ≡ x.phase }
    ensures words_value { faced (answered_of result) left.new right.new colour.new words.new
        ≡ face (step collecting) left.old right.old colour.old words.old }
    ensures true_value { true ≡ is_record words.new }
    ensures changed_value { result.changed
        ≡ face_count (changes collecting) left.old right.old colour.old words.old }
    ensures narrow { Narrow result }
{
    let made = collector::phase_step(left, right, colour, x, phase);
    if made.answer.code() != 0 {
        return tell(made.answer, made.changed);
    }
    record_words::put_step(words, made.rec);
    tell(made.answer, made.changed)
}

// The collector's step. Each phase has a call of its own, which the compiler makes a path of its
// own up to the answer.
// Kept: tried as one call with the record's phase: the paths meet before the answer then, and
// jenturik_collect takes 7 % longer, 24.1 ns and not 22.5.
fn any_phase(
    left: &mut [u16],
    right: &mut [u16],
    colour: &mut [u8],
    words: &mut [u32; record_words::WORDS],
    x: Record,
) -> Told
    requires { Passing left.old right.old colour.old words.old x }
    ensures words_value { faced (answered_of result) left.new right.new colour.new words.new
        ≡ face (step collecting) left.old right.old colour.old words.old }
    ensures true_value { true ≡ is_record words.new }
    ensures changed_value { result.changed
        ≡ face_count (changes collecting) left.old right.old colour.old words.old }
    ensures narrow { Narrow result }
{
    let phase = x.phase;
    match phase {
        Phase::Roots(i) => in_phase(left, right, colour, words, x, Phase::Roots(i)),
        Phase::Scan(i, k) => in_phase(left, right, colour, words, x, Phase::Scan(i, k)),
        Phase::Left(i) => in_phase(left, right, colour, words, x, Phase::Left(i)),
        Phase::ShadeLeft(i, n) => in_phase(left, right, colour, words, x, Phase::ShadeLeft(i, n)),
        Phase::Right(i) => in_phase(left, right, colour, words, x, Phase::Right(i)),
        Phase::ShadeRight(i, n) => in_phase(left, right, colour, words, x, Phase::ShadeRight(i, n)),
        Phase::Black(i) => in_phase(left, right, colour, words, x, Phase::Black(i)),
        Phase::Append(i) => in_phase(left, right, colour, words, x, Phase::Append(i)),
    }
}

// One step of the collector.
#[unsafe(no_mangle)]
pub extern "C" fn jenturik_collect(
    left: &mut [u16],
    right: &mut [u16],
    colour: &mut [u8],
    words: &mut [u32; record_words::WORDS],
) -> Told
    ensures words_value { faced (answered_of result) left.new right.new colour.new words.new
        ≡ face (step collecting) left.old right.old colour.old words.old }
    ensures stays { Stays words.old words.new }
    ensures changed_value { result.changed
        ≡ face_count (changes collecting) left.old right.old colour.old words.old }
{
    let x = match passed(left, right, colour, words) {
        Ok(x) => x,
        Err(code) => return refused(code),
    };
    any_phase(left, right, colour, words, x)
}

// A code and a detail in one byte.
// Kept: two numbers in one, the C interface: `code` of jenturik_last has them so.
fn packed(code: u8, detail: u8) -> u8
    requires code_bound { code < 32 }
    requires detail_bound { detail < 8 }
    ensures result_value { code_in result ≡ code }
    ensures result_value_2 { detail_in result ≡ detail }
{
    code + 32 * detail
}

// How many steps of one are done that answers a code.
fn one_done(code: u16) -> usize
    ensures { result ≡ pick (eqb code 0) 1 0 }
{
    usize::from(code == 0)
}

// What one step answers, as the last of many.
// Kept: the casts narrow by `as`: that each number fits is required (`Narrow` and the two bounds).
fn last_of(t: Told) -> Last
    requires narrow { Narrow t }
    requires code_bound { t.code < 32 }
    requires detail_bound { t.detail < 8 }
    ensures result_value { last_of result ≡ answered_of t }
    ensures done_value { result.done ≡ pick (eqb t.code 0) 1 0 }
    ensures changed_value { result.changed ≡ t.changed }
{
    let Told {
        what,
        code,
        detail,
        node,
        changed,
    } = t;
    Last {
        done: one_done(code),
        changed,
        node: node as u16,
        what: what as u8,
        code: packed(code as u8, detail as u8),
    }
}

// n steps of the collector, or as many as are done before one is refused. A batch of one step is
// the call of one step: it needs no stride.
#[unsafe(no_mangle)]
pub extern "C" fn jenturik_collect_many(
    left: &mut [u16],
    right: &mut [u16],
    colour: &mut [u8],
    words: &mut [u32; record_words::WORDS],
    n: usize,
) -> Last
    ensures words_value { faced_run result.done (code_in result.code) (detail_in result.code)
        left.new right.new colour.new words.new
        ≡ face_run (schedule (collects n)) left.old right.old colour.old words.old }
    ensures result_value { last_of result ≡ last_told n left.old right.old colour.old words.old }
    ensures stays { Stays words.old words.new }
    ensures changed_value { result.changed
        ≡ face_count (λ s. fitted (changes_all (collects n) s)) left.old right.old colour.old
        words.old }
{
    let x = match passed(left, right, colour, words) {
        Ok(x) => x,
        Err(code) => {
            return Last {
                done: 0,
                changed: 0,
                node: 0,
                what: 0,
                code: packed(code, 0),
            };
        }
    };
    if n == 1 {
        return last_of(any_phase(left, right, colour, words, x));
    }
    let many = batch::all_steps(left, right, colour, x, rules::bound(x.m, x.r), n);
    record_words::put_step(words, many.rec);
    let answer = many.answer;
    Last {
        done: many.done,
        changed: fitted(many.changed),
        node: answer.node(),
        what: what(answer),
        code: packed(answer.code(), answer.detail()),
    }
}

// n steps of the collector, or as many as are done before one is refused or the list is full of the
// nodes that become free.
#[unsafe(no_mangle)]
pub extern "C" fn jenturik_collect_freed(
    left: &mut [u16],
    right: &mut [u16],
    colour: &mut [u8],
    words: &mut [u32; record_words::WORDS],
    n: usize,
    list: &mut [u16],
) -> Freed
    ensures words_value { faced_run result.done result.code result.detail left.new right.new
        colour.new words.new
        ≡ face_run (run_in n list.old) left.old right.old colour.old words.old }
    ensures stays { Stays words.old words.new }
    ensures changed_value { result.changed
        ≡ face_count (λ s. fitted (changes_in n list.old s)) left.old right.old colour.old
        words.old }
    ensures list_value { list.new
        ≡ noted (face_nodes (appended_in n list.old) left.old right.old colour.old words.old)
        list.old }
    ensures freed_value { result.freed
        ≡ length (face_nodes (appended_in n list.old) left.old right.old colour.old words.old) }
{
    let Some(x) = formed(words) else {
        return Freed {
            done: 0,
            changed: 0,
            freed: 0,
            code: 2,
            detail: 0,
        };
    };
    let all = freed::collect_freed(left, right, colour, x, n, list);
    *words = record_words::words_of(all.rec);
    Freed {
        done: all.done,
        changed: fitted(all.changed),
        freed: all.count,
        code: all.code,
        detail: all.detail,
    }
}

// Whether the words of a step that have no use are 0.
fn zeros(step: &[u32]) -> bool
    requires { length step.now ≡ STEP_WORDS }
    ensures { result ≡ zeros step.now UNUSED }
{
    step[UNUSED] == 0 && step[UNUSED + 1] == 0 && step[UNUSED + 2] == 0 && step[UNUSED + 3] == 0
}

// The kind of the step that words are: none that can be read where a word without a use is not 0.
fn kind_of(step: &[u32]) -> u32
    requires { length step.now ≡ STEP_WORDS }
    ensures { result ≡ kind_at step.now 0 }
{
    if zeros(step) { step[KIND] } else { NO_KIND }
}

// The i-th step of a schedule of words.
fn step_at(steps: &[u32], i: usize) -> Step
    requires { STEP_WORDS * i + STEP_WORDS ≤ length steps.now }
    ensures { result ≡ step_at steps.now i }
{
    let at = STEP_WORDS * i;
    let step = &steps[at..at + STEP_WORDS];
    Step {
        kind: kind_of(step),
        slot: step[SLOT],
        count: step[COUNT],
        word: step[WORD],
        side: step[SIDE],
        toslot: step[TOSLOT],
        tocount: step[TOCOUNT],
        toword: step[TOWORD],
    }
}

// A schedule as words: its whole steps.
#[derive(Clone, Copy)]
struct Words<'a> {
    words: &'a [u32],
}

impl<'a> Steps for Words<'a> {
    ghost list = { λ s. steps_of s.words.now };

    fn count(&self) -> usize {
        self.words.len() / STEP_WORDS
    }

    fn at(&self, i: usize) -> Step {
        step_at(self.words, i)
    }
}

// The whole steps of a schedule of words, in order until one is refused.
fn follow(steps: &[u32], left: &mut [u16], right: &mut [u16], colour: &mut [u8], x: Record) -> Ran
    ensures colour_value { ran result left.new right.new colour.new
        ≡ schedule (steps_of steps.now) (given left.old right.old colour.old x) }
    ensures changed_value { result.changed
        ≡ changes_all (steps_of steps.now) (given left.old right.old colour.old x) }
{
    schedule::run(&Words { words: steps }, left, right, colour, x)
}

// A schedule of words: none of it is done where the last step lacks some.
fn schedule_of(
    steps: &[u32],
    left: &mut [u16],
    right: &mut [u16],
    colour: &mut [u8],
    x: Record,
) -> Ran
    ensures colour_value { ran result left.new right.new colour.new
        ≡ schedule_of steps.now (given left.old right.old colour.old x) }
    ensures changed_value { result.changed
        ≡ changes_of steps.now (given left.old right.old colour.old x) }
{
    if steps.len() % STEP_WORDS != 0 {
        return Ran {
            done: 0,
            code: calls::unreadable(left.len(), right.len(), colour.len(), x),
            detail: 0,
            changed: 0,
            rec: x,
        };
    }
    follow(steps, left, right, colour, x)
}

// A schedule of words: its steps in order, until one is refused.
#[unsafe(no_mangle)]
pub extern "C" fn jenturik_schedule(
    left: &mut [u16],
    right: &mut [u16],
    colour: &mut [u8],
    words: &mut [u32; record_words::WORDS],
    steps: &[u32],
) -> Done
    ensures words_value { faced_run result.done result.code result.detail left.new right.new
        colour.new words.new
        ≡ face_run (schedule_of steps.now) left.old right.old colour.old words.old }
    ensures stays { Stays words.old words.new }
    ensures changed_value { result.changed
        ≡ face_count (λ s. fitted (changes_of steps.now s)) left.old right.old colour.old
        words.old }
{
    let Some(x) = formed(words) else {
        return Done {
            done: 0,
            code: 2,
            detail: 0,
            changed: 0,
        };
    };
    let ran = schedule_of(steps, left, right, colour, x);
    record_words::put(words, ran.rec);
    Done {
        done: ran.done,
        code: u16::from(ran.code),
        detail: u16::from(ran.detail),
        changed: fitted(ran.changed),
    }
}
