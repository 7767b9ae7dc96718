// The record as 32-bit words, for callers that have no enums.
#![tactic(auto)]

ghost use Rattle.std.specs.Prelude.{◌≡◌, true, not, [], ◌∷◌, ◌+◌, ◌<◌, ◌≤◌, ltb, eqb, set};
ghost use Rattle.base.specs.Choice.{every};
ghost use Rattle.record_words.specs.Words.{owes_of, owed_of, words_of, moved};
ghost use Rattle.record_words.specs.Words.{shade_of, picked_up, record_of, within, flagged};
ghost use Rattle.record_words.specs.Words.{is_record, judged, Within, WORDS, word};
ghost use Rattle.record_words.specs.Words.{NODES, SLOTS, narrow, spare};
ghost use Rattle.rules.specs.Table.{most_nodes, most_slots, FREE};
ghost use Rattle.rules.specs.Phases.{position, second};
ghost use Rattle.rules.specs.Records.{with_owed, with_last, with_free};
ghost use Rattle.rules.specs.Check.{position_ok, second_ok, last_ok, free_ok, counts_ok, record_ok};

use rules::{Phase, Record};

// How many words there are, and the number of each, by the names of include/jenturik.h.
// Kept: numbers of places in one array, the C interface: a caller in C keeps the record as words.
pub const WORDS: usize = 24;

const NODES: usize = 0;

const SLOTS: usize = 1;

const PHASE: usize = 2;

const I: usize = 3;

const K: usize = 4;

const OWES: usize = 5;

const OWED: usize = 6;

const LAST: usize = 7;

const STEPS: usize = 8;

const CYCLES: usize = 9;

const TOOK: usize = 10;

const BLACKENED: usize = 11;

const LASTBLACKENED: usize = 12;

const FREECOUNT: usize = 13;

fn owes(o: Option<u16>) -> u32
    ensures { result ≡ owes_of o }
{
    u32::from(o.is_some())
}

fn owed(o: Option<u16>) -> u16
    ensures { result ≡ owed_of o }
{
    o.unwrap_or(0)
}

// The record's words.
// Kept: this and `record_of` are functions and no `TryFrom`: that words are a record's is tested
// apart (`is_record`), and code 2 tells it.
pub fn words_of(x: Record) -> [u32; WORDS]
    ensures value { result ≡ words_of x }
    ensures true_value { true ≡ is_record result }
{
    let mut words = [0; WORDS];
    put(&mut words, x);
    words
}

// Stores a word, where it was another one. A call that loads two words at once would wait for a
// store of one of them, and most words stay as they are.
fn keep(words: &mut [u32; WORDS], n: usize, v: u32)
    requires { n < WORDS }
    ensures { words.new ≡ set words.old n v }
{
    if words[n] != v {
        words[n] = v;
    }
}

// Stores the words that a collector's step can change.
fn put_moved(words: &mut [u32; WORDS], x: Record)
    ensures words_value { words.new ≡ moved words.old x }
    ensures position_bound { position x.phase ≤ 65535 }
    ensures second_bound { second x.phase ≤ 65535 }
{
    words[PHASE] = rules::tag(x.phase);
    words[I] = u32::from(rules::position(x.phase));
    words[K] = u32::from(rules::second(x.phase));
    words[LAST] = u32::from(x.last);
    words[STEPS] = x.steps;
    words[CYCLES] = x.cycles;
    words[TOOK] = x.took;
    words[BLACKENED] = u32::from(x.blackened);
    words[LASTBLACKENED] = u32::from(x.lastblackened);
    words[FREECOUNT] = u32::from(x.free);
}

// Words that were a record's become those of this one; those that have no use stay 0.
// Kept: that words are a record's is a clause, here and below, and no type's invariant: C lends the
// array, with any numbers.
pub fn put(words: &mut [u32; WORDS], x: Record)
    requires { true ≡ is_record words.old }
    ensures words_value { words.new ≡ words_of x }
    ensures true_value { true ≡ is_record words.new }
{
    keep(words, NODES, u32::from(x.m));
    keep(words, SLOTS, u32::from(x.r));
    words[OWES] = owes(x.owed);
    words[OWED] = u32::from(owed(x.owed));
    put_moved(words, x);
}

// The same for a record that differs from the words' only in what is owed.
pub fn put_owed(words: &mut [u32; WORDS], x: Record)
    requires true_value { true ≡ is_record words.old }
    requires x_value { x ≡ with_owed (record_of words.old) x.owed }
    ensures words_value { words.new ≡ words_of x }
    ensures true_value_2 { true ≡ is_record words.new }
{
    let node = owed(x.owed);
    words[OWES] = owes(x.owed);
    words[OWED] = u32::from(node);
}

// The same for one that differs only in the free list's last node and in the number of free nodes.
pub fn put_free(words: &mut [u32; WORDS], x: Record)
    requires true_value { true ≡ is_record words.old }
    requires x_value { x ≡ with_free (with_last (record_of words.old) x.last) x.free }
    ensures words_value { words.new ≡ words_of x }
    ensures true_value_2 { true ≡ is_record words.new }
{
    let Record { last, free, .. } = x;
    words[LAST] = u32::from(last);
    words[FREECOUNT] = u32::from(free);
}

// The same for one that does not differ in M, in R and in what is owed.
pub fn put_step(words: &mut [u32; WORDS], x: Record)
    requires true_value { true ≡ is_record words.old }
    requires m_value { x.m ≡ (record_of words.old).m }
    requires r_value { x.r ≡ (record_of words.old).r }
    requires owed_value { x.owed ≡ (record_of words.old).owed }
    ensures words_value { words.new ≡ words_of x }
    ensures true_value_2 { true ≡ is_record words.new }
{
    put_moved(words, x);
}

// All bits of the words of 16 bits.
// Kept: each word is named, since these do not stand side by side: no slice has just them.
fn narrow(w: &[u32; WORDS]) -> u32
    ensures { result ≡ narrow w.now }
{
    w[NODES]
        | w[SLOTS]
        | w[I]
        | w[K]
        | w[OWED]
        | w[LAST]
        | w[BLACKENED]
        | w[LASTBLACKENED]
        | w[FREECOUNT]
}

// All bits of the words that have no use.
// Kept: tried as a fold over the slice from word 14 on: Free count takes 5 % longer, 14.8 ns and
// not 14.1, and Look 3 %.
fn spare(w: &[u32; WORDS]) -> u32
    ensures { result ≡ spare w.now }
{
    w[14] | w[15] | w[16] | w[17] | w[18] | w[19] | w[20] | w[21] | w[22] | w[23]
}

// Whether each word has its width. The compiler loads several words at once only of those that no
// step stores, M and R and the ones that have no use: else the load would wait for the stores.
fn within(w: &[u32; WORDS]) -> bool
    ensures { result ≡ within w.now WORDS }
{
    w[PHASE] <= rules::MOST_TAG && w[OWES] <= 1 && narrow(w) <= 65535 && spare(w) == 0
}

fn flagged(told: bool, n: u32) -> bool
    ensures { result ≡ flagged told n }
{
    told || n == 0
}

// Whether words are a record's.
pub fn is_record(w: [u32; WORDS]) -> bool
    ensures { result ≡ is_record w }
{
    within(&w) && flagged(rules::has_second(w[PHASE]), w[K]) && flagged(w[OWES] == 1, w[OWED])
}

// Whether a phase's numbers are in their ranges, by the number of the phase.
fn phase_ok(m: u32, r: u32, tag: u32, i: u32, k: u32) -> bool
    requires { r ≤ most_slots }
    ensures { result ≡ every (position_ok m r tag i ∷ second_ok m tag k ∷ []) }
{
    if tag == 0 {
        return i <= r + 1;
    }
    if m <= i {
        return false;
    }
    if tag == 1 {
        if k < 1 {
            return false;
        }
        return k <= m;
    }
    if !rules::has_second(tag) {
        return true;
    }
    if k == 1 {
        return false;
    }
    k < m
}

fn counts_ok(w: [u32; WORDS], b: u32) -> bool
    ensures { result ≡ counts_ok (record_of w) b }
{
    if w[NODES] < w[BLACKENED] {
        return false;
    }
    if b <= w[STEPS] {
        return false;
    }
    if w[NODES] < w[LASTBLACKENED] {
        return false;
    }
    w[TOOK] <= b
}

// Whether the record passes that words are: the tests of `rules::record_ok`, without the record.
fn record_ok(w: [u32; WORDS]) -> bool
    requires true_value { true ≡ is_record w }
    requires w_bound { word w NODES ≤ most_nodes }
    requires w_bound_2 { word w SLOTS ≤ most_slots }
    requires w_bound_3 { word w SLOTS + 2 ≤ word w NODES }
    ensures { result ≡ record_ok 2 (record_of w) }
{
    let m = w[NODES];
    let r = w[SLOTS];
    if !phase_ok(m, r, w[PHASE], w[I], w[K]) {
        return false;
    }
    // Where no shade is owed, the node owed is 0, which is good.
    if !rules::node_ok(m, w[OWED]) {
        return false;
    }
    if !rules::last_ok(m, r, w[LAST]) {
        return false;
    }
    if !rules::free_ok(m, r, w[LAST], w[FREECOUNT]) {
        return false;
    }
    counts_ok(w, rules::bound(m as u16, r as u16))
}

// Codes 1 and 2 of words, for slices of these lengths; 0 where neither is given. No record is made.
// Kept: a number and no Result: the codes are the rules' numbers, and the clause is `judged` [C 4].
// Kept: this and the three above have the tests of rules once more, on words: tried as
// `rules::check` of the record that words are: jenturik_link and jenturik_shade take 7 % longer,
// 25.4 ns each and not 23.6, and jenturik_free_count 14 %, 18.5 ns and not 16.2.
pub fn judge(lefts: usize, rights: usize, colours: usize, w: [u32; WORDS]) -> u8
    ensures { result ≡ judged (lefts ∷ rights ∷ []) colours w }
{
    if !is_record(w) {
        return 2;
    }
    if !rules::size_ok(w[NODES] as usize, w[SLOTS] as usize, lefts, rights, colours) {
        return 1;
    }
    if !record_ok(w) {
        return 2;
    }
    0
}

#[tactic(auto, unfolding(base::specs::Choice::pick, crate::specs::Words::shade_of))]
fn shade_of(owes: u32, n: u16) -> Option<u16>
    ensures { result ≡ shade_of owes n }
{
    if owes == 0 { None } else { Some(n) }
}

// Kept: the casts narrow by `as`, here, above and below: that each word fits is what `Within` says,
// so `try_from` would answer an error that cannot come; std has no `From` of 32 bits to `usize`.
fn picked_up(w: [u32; WORDS], phase: Phase, owed: Option<u16>) -> Record
    requires { Within w WORDS }
    ensures { result ≡ picked_up w phase owed }
{
    Record {
        m: w[NODES] as u16,
        r: w[SLOTS] as u16,
        phase,
        owed,
        last: w[LAST] as u16,
        steps: w[STEPS],
        cycles: w[CYCLES],
        took: w[TOOK],
        blackened: w[BLACKENED] as u16,
        lastblackened: w[LASTBLACKENED] as u16,
        free: w[FREECOUNT] as u16,
    }
}

// The record that words are.
pub fn record_of(w: [u32; WORDS]) -> Record
    requires { true ≡ is_record w }
    ensures { result ≡ record_of w }
{
    let phase = rules::phase_of(w[PHASE], w[I] as u16, w[K] as u16);
    let owed = shade_of(w[OWES], w[OWED] as u16);
    picked_up(w, phase, owed)
}
