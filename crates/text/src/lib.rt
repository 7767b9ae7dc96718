// A schedule's text: a line's bytes to what it says, and an answer to its line of bytes. The forms
// of the lines are definitions in specs/.
#![tactic(auto)]

ghost use Rattle.std.specs.Prelude.{◌≡◌, ◌+◌, ◌<◌, ◌≤◌, length, option_copied};
ghost use Rattle.text.specs.Grammar.{after, digits_at, number_at, side_at, letters_at, turns_at};
ghost use Rattle.text.specs.Grammar.{place_at, take_line, link_line, shade_line, look_line};
ghost use Rattle.text.specs.Grammar.{collect_line, first_line, entry_line, counted, longest};
ghost use Rattle.text.specs.Grammar.{seen, whole, read, is_export, entry};
ghost use Rattle.text.specs.Answers.{digit_of, decimal, said, written, put, put_all};
ghost use Rattle.rules.specs.Steps.{step_of};

use rules::{Place, Step};

// The bytes of a line at most.
const LONGEST: usize = 80;

// The letters of turns at most: as many as a line has bytes.
const LETTERS: u32 = 80;

// The digits of a number at most, and the collector steps of a line.
const DIGITS: u32 = 7;

const COUNT: u32 = 1000000;

// One more than the largest word of twelve turns.
const MANY_WORDS: u32 = 4096;

// The numbers of a step that its kind does not need.
const UNREAD: Place = Place {
    slot: 0,
    count: 0,
    word: 0,
};

// What a line says.
#[derive(Clone, Copy)]
pub enum Said {
    First(u32, u32),
    Do(Step),
    Collect(u32),
    Unreadable,
}

// Letters: how many, and the word of the first twelve.
#[derive(Clone, Copy)]
pub struct Turns {
    pub count: u32,
    pub word: u32,
}

// M and R.
#[derive(Clone, Copy)]
pub struct Sizes {
    pub nodes: u32,
    pub slots: u32,
}

// The edges of a node, as a line of an export lists them.
#[derive(Clone, Copy)]
pub struct Edges {
    pub left: u32,
    pub right: u32,
}

// A node and its edges.
#[derive(Clone, Copy)]
pub struct Row {
    pub node: u32,
    pub edges: Edges,
}

// The bytes that follow a word.
fn after<'a>(line: &'a [u8], word: &[u8]) -> Option<&'a [u8]>
    ensures { option_copied result ≡ after line.now word.now }
{
    line.strip_prefix(word)
}

// Kept: no `parse`: a number ends at the first byte that is no digit, or after seven, and what
// follows it is read on.
fn digits_at(line: &[u8]) -> (u32, &[u8])
    ensures { (result.0, result.1.now) ≡ digits_at line.now 7 0 }
{
    let mut n: u32 = 0;
    let mut rest = line;
    for _ in 0..DIGITS {
        let Some((b, tail)) = rest.split_first() else {
            return (n, rest);
        };
        if !b.is_ascii_digit() {
            return (n, rest);
        }
        n = n * 10 + u32::from(*b - b'0');
        rest = tail;
    }
    (n, rest)
}

fn number_at(line: &[u8]) -> Option<(u32, &[u8])>
    ensures { seen result ≡ number_at line.now }
{
    let (b, rest) = line.split_first()?;
    if !b.is_ascii_digit() {
        return None;
    }
    if *b == b'0' {
        return Some((0, rest));
    }
    Some(digits_at(line))
}

fn side_at(line: &[u8]) -> Option<(u32, &[u8])>
    ensures { seen result ≡ side_at line.now }
{
    let (b, rest) = line.split_first()?;
    if *b == b'L' {
        return Some((0, rest));
    }
    if *b == b'R' {
        return Some((1, rest));
    }
    None
}

fn letters_at(line: &[u8]) -> (Turns, &[u8])
    ensures { (result.0, result.1.now) ≡ letters_at line.now longest 0 0 1 }
{
    let mut count: u32 = 0;
    let mut word: u32 = 0;
    let mut bit: u32 = 1;
    let mut rest = line;
    for _ in 0..LETTERS {
        let Some((side, tail)) = side_at(rest) else {
            return (Turns { count, word }, rest);
        };
        count += 1;
        word = (word + side * bit) % MANY_WORDS;
        bit = bit * 2 % MANY_WORDS;
        rest = tail;
    }
    (Turns { count, word }, rest)
}

fn turns_at(line: &[u8]) -> Option<(Turns, &[u8])>
    ensures { seen result ≡ turns_at line.now }
{
    let (b, rest) = line.split_first()?;
    if *b == b'-' {
        return Some((Turns { count: 0, word: 0 }, rest));
    }
    side_at(line)?;
    Some(letters_at(line))
}

#[tactic(auto, unfolding(crate::specs::Grammar::place_at))]
fn place_at<'a>(line: &'a [u8], word: &[u8]) -> Option<(Place, &'a [u8])>
    ensures { seen result ≡ place_at line.now word.now }
{
    let (slot, rest) = number_at(line)?;
    let (turns, rest) = turns_at(after(rest, word)?)?;
    let place = Place {
        slot,
        count: turns.count,
        word: turns.word,
    };
    Some((place, rest))
}

// A step of a kind, with its two places and its side.
fn step_of(kind: u32, p: Place, side: u32, q: Place) -> Step
    ensures { result ≡ step_of kind p side q }
{
    Step {
        kind,
        slot: p.slot,
        count: p.count,
        word: p.word,
        side,
        toslot: q.slot,
        tocount: q.count,
        toword: q.word,
    }
}

#[tactic(auto, unfolding(crate::specs::Grammar::take_line))]
fn take_line(line: &[u8]) -> Option<(Step, &[u8])>
    ensures { seen result ≡ take_line line.now }
{
    let (place, rest) = place_at(after(line, b"op=take slot=")?, b" turns=")?;
    let (side, rest) = side_at(after(rest, b" side=")?)?;
    Some((step_of(0, place, side, UNREAD), rest))
}

#[tactic(auto, unfolding(crate::specs::Grammar::link_line))]
fn link_line(line: &[u8]) -> Option<(Step, &[u8])>
    ensures { seen result ≡ link_line line.now }
{
    let (source, rest) = place_at(after(line, b"op=link slot=")?, b" turns=")?;
    let (side, rest) = side_at(after(rest, b" side=")?)?;
    let (target, rest) = place_at(after(rest, b" toslot=")?, b" toturns=")?;
    Some((step_of(1, source, side, target), rest))
}

#[tactic(auto, unfolding(crate::specs::Grammar::shade_line))]
fn shade_line(line: &[u8]) -> Option<(Step, &[u8])>
    ensures { seen result ≡ shade_line line.now }
{
    let rest = after(line, b"op=shade")?;
    Some((step_of(2, UNREAD, 0, UNREAD), rest))
}

#[tactic(auto, unfolding(crate::specs::Grammar::look_line))]
fn look_line(line: &[u8]) -> Option<(Step, &[u8])>
    ensures { seen result ≡ look_line line.now }
{
    let (place, rest) = place_at(after(line, b"op=look slot=")?, b" turns=")?;
    Some((step_of(4, place, 0, UNREAD), rest))
}

#[tactic(auto, unfolding(crate::specs::Grammar::collect_line))]
fn collect_line(line: &[u8]) -> Option<(u32, &[u8])>
    ensures { seen result ≡ collect_line line.now }
{
    number_at(after(line, b"op=collect count=")?)
}

#[tactic(auto, unfolding(crate::specs::Grammar::first_line))]
fn first_line(line: &[u8]) -> Option<(Sizes, &[u8])>
    ensures { seen result ≡ first_line line.now }
{
    let (nodes, rest) = number_at(after(line, b"nodes=")?)?;
    let (slots, rest) = number_at(after(rest, b" slots=")?)?;
    Some((Sizes { nodes, slots }, rest))
}

#[tactic(auto, unfolding(crate::specs::Grammar::entry_line))]
fn entry_line(line: &[u8]) -> Option<(Row, &[u8])>
    ensures { seen result ≡ entry_line line.now }
{
    let (node, rest) = number_at(after(line, b"node=")?)?;
    let (left, rest) = number_at(after(rest, b" left=")?)?;
    let (right, rest) = number_at(after(rest, b" right=")?)?;
    let edges = Edges { left, right };
    Some((Row { node, edges }, rest))
}

fn counted(n: u32) -> Said
    ensures { result ≡ counted n }
{
    if n <= COUNT {
        Said::Collect(n)
    } else {
        Said::Unreadable
    }
}

// What stands there, where nothing follows it.
fn whole<T: Copy>(found: Option<(T, &[u8])>) -> Option<T>
    ensures { result ≡ whole (seen found.entry) }
{
    let (x, rest) = found?;
    if rest.is_empty() { Some(x) } else { None }
}

// What a line says; a line over 80 bytes is unreadable.
pub fn read(line: &[u8]) -> Said
    ensures { result ≡ read line.now }
{
    if LONGEST < line.len() {
        return Said::Unreadable;
    }
    if let Some(step) = whole(take_line(line)) {
        return Said::Do(step);
    }
    if let Some(step) = whole(link_line(line)) {
        return Said::Do(step);
    }
    if let Some(step) = whole(shade_line(line)) {
        return Said::Do(step);
    }
    if let Some(step) = whole(look_line(line)) {
        return Said::Do(step);
    }
    if let Some(n) = whole(collect_line(line)) {
        return counted(n);
    }
    if let Some(sizes) = whole(first_line(line)) {
        return Said::First(sizes.nodes, sizes.slots);
    }
    Said::Unreadable
}

// Whether a line begins an export, well formed or not.
#[tactic(auto, unfolding(crate::specs::Grammar::is_export))]
pub fn is_export(line: &[u8]) -> bool
    ensures { result ≡ is_export line.now }
{
    after(line, b"node=").is_some()
}

// The edges in the line of an export where those of node n are due; None of any other line.
pub fn entry(line: &[u8], n: usize) -> Option<Edges>
    ensures { result ≡ entry line.now n }
{
    if LONGEST < line.len() {
        return None;
    }
    let row = whole(entry_line(line))?;
    // Kept: the library has no `From<u32>` for `usize`.
    if row.node as usize == n {
        Some(row.edges)
    } else {
        None
    }
}

// Kept: C lends the output with a fixed length (`jenturik_turn`); what is used goes by value.

// One byte more of the output, where there is room; answers how much is used.
pub fn put(out: &mut [u8], used: usize, b: u8) -> usize
    ensures { written out.new result ≡ put (written out.old used) b }
{
    if used < out.len() {
        out[used] = b;
        return used + 1;
    }
    used
}

// Bytes more of the output, which has room for all of them.
fn put_whole(out: &mut [u8], used: usize, word: &[u8])
    requires { used + length word.now ≤ length out.old }
    ensures { written out.new (used + length word.now)
        ≡ put_all (written out.old used) word.now }
{
    // Kept: no `copy_from_slice`: its module depends on the size of a pointer, and a back end calls
    // memmove for it.
    for k in 0..word.len() {
        out[used + k] = word[k];
    }
}

// Bytes more of the output, one by one, as far as there is room; answers how much is used.
fn put_part(out: &mut [u8], used: usize, word: &[u8]) -> usize
    ensures { written out.new result ≡ put_all (written out.old used) word.now }
{
    let mut at = used;
    for k in 0..word.len() {
        at = put(out, at, word[k]);
    }
    at
}

// Bytes more of the output, as far as there is room; answers how much is used.
pub fn put_all(out: &mut [u8], used: usize, word: &[u8]) -> usize
    ensures { written out.new result ≡ put_all (written out.old used) word.now }
{
    if out.len() < used || out.len() - used < word.len() {
        return put_part(out, used, word);
    }
    put_whole(out, used, word);
    used + word.len()
}

fn digit(out: &mut [u8], used: usize, n: u16, ten: u16) -> usize
    requires { 0 < ten }
    ensures { written out.new result ≡ put_all (written out.old used) (digit_of n ten) }
{
    if n < ten {
        return used;
    }
    put(out, used, b'0' + (n / ten % 10) as u8)
}

fn decimal(out: &mut [u8], used: usize, n: u16) -> usize
    ensures { written out.new result ≡ put_all (written out.old used) (decimal n) }
{
    // Kept: a loop over the four powers has as many lines, and an invariant besides.
    let a = digit(out, used, n, 10000);
    let b = digit(out, a, n, 1000);
    let c = digit(out, b, n, 100);
    let d = digit(out, c, n, 10);
    put(out, d, b'0' + (n % 10) as u8)
}

// Puts an answer's line behind the bytes of the output that are used, as far as there is room;
// answers how many are used then.
// Kept: no Display: the clause has each byte (said), also where the output has no room for all.
pub fn say(out: &mut [u8], used: usize, code: u8, node: u16) -> usize
    ensures { written out.new result ≡ put_all (written out.old used) (said code node) }
{
    let a = put_all(out, used, b"code=");
    let b = decimal(out, a, u16::from(code));
    let c = put_all(out, b, b" node=");
    let d = decimal(out, c, node);
    put(out, d, b'\n')
}
