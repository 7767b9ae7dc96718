// The types. The rules as definitions are in specs/; what is here is the record's test and its
// steps, and an answer's numbers.

#![tactic(auto)]

ghost use Rattle.std.specs.Prelude.{◌≡◌, [], ◌∷◌, ◌+◌, ◌*◌, ◌<◌, ◌≤◌, ltb, eqb, not};
ghost use Rattle.rules.specs.Table.{most_nodes, most_slots, FREE, refused_with, refused};
ghost use Rattle.rules.specs.Table.{refusal_with, refusal};
ghost use Rattle.base.specs.Choice.{every};
ghost use Rattle.rules.specs.Facts.{many_steps};
ghost use Rattle.rules.specs.Phases.{tag_of, position, second, has_second, phase_of};
ghost use Rattle.rules.specs.Records.{fresh_record, with_phase, with_last};
ghost use Rattle.rules.specs.Records.{less_free, more_free, owing, paid, moved, marked, next};
ghost use Rattle.rules.specs.Records.{rescan, closed, after_append};
ghost use Rattle.rules.specs.Check.{size_ok, phase_ok, owed_ok, last_ok, free_ok, bound, cycle_ok};
ghost use Rattle.rules.specs.Check.{in_limits, told_ok, counts_ok, record_ok, check_of};
ghost use Rattle.rules.specs.Steps.{code_of, node_of, detail_of};

// [Table 1] The most nodes that a table has, and the most slots.
pub const MOST_NODES: usize = 4096;

pub const MOST_SLOTS: usize = 64;

// [Places 2] The most turns of a place.
pub const MOST_TURNS: u32 = 12;

// [Table 12] The sides, as details of a refusal.
pub const LEFT: u8 = 0;

pub const RIGHT: u8 = 1;

// [Codes 15] Why Append should not meet a node.
// Kept: these and the sides above are numbers, as a detail is one in `refused_with` and in C.
pub const GRAY_NODE: u8 = 0;

pub const WHITE_ROOT: u8 = 1;

pub const WHITE_LAST: u8 = 2;

// [C 2] The number of each phase, and the largest of them.
// Kept: numbers, since C has no enums; the definition `tag_of` has the same.
const ROOTS_TAG: u32 = 0;

pub const SCAN_TAG: u32 = 1;

const LEFT_TAG: u32 = 2;

const RIGHT_TAG: u32 = 3;

const BLACK_TAG: u32 = 4;

pub const APPEND_TAG: u32 = 5;

const SHADE_LEFT_TAG: u32 = 6;

const SHADE_RIGHT_TAG: u32 = 7;

pub const MOST_TAG: u32 = 7;

// Where the collector is: eight cases, each with its own position.
#[derive(Clone, Copy)]
pub enum Phase {
    Roots(u16),
    Scan(u16, u16),
    Left(u16),
    ShadeLeft(u16, u16),
    Right(u16),
    ShadeRight(u16, u16),
    Black(u16),
    Append(u16),
}

// What travels beside the table, by value.
#[derive(Clone, Copy)]
pub struct Record {
    pub m: u16,
    pub r: u16,
    pub phase: Phase,
    // The node whose shade is owed, if one is. NIL may be owed.
    pub owed: Option<u16>,
    // Kept: FREE (1) where the list is empty, as `last_ok`, `fresh_last` and C's words have it.
    pub last: u16,
    pub steps: u32,
    pub cycles: u32,
    pub took: u32,
    pub blackened: u16,
    pub lastblackened: u16,
    pub free: u16,
}

// What a call did and to which node, or how many nodes it counted, or the code that refuses it,
// with a node and a detail.
#[derive(Clone, Copy)]
pub enum Answer {
    Started(u16),
    Named(u16),
    Linked(u16),
    Taken(u16),
    Shaded(u16),
    Looked(u16),
    Blackened(u16),
    Whitened(u16),
    Appended(u16),
    Counted(u16),
    // Kept: a code is a number of the rules, which `code_of` tells and C takes.
    Refused(u8, u16, u8),
}

// What every call hands back; `changed` is the number of colours that it changed.
#[derive(Clone, Copy)]
pub struct Made {
    pub answer: Answer,
    pub changed: u8,
    pub rec: Record,
}

// What a call hands back whose record is lent.
#[derive(Clone, Copy)]
pub struct Told {
    pub answer: Answer,
    pub changed: u8,
}

// A slot, a count of turns and the turns, lowest bit first.
#[derive(Clone, Copy)]
pub struct Place {
    pub slot: u32,
    pub count: u32,
    pub word: u32,
}

// Why a walk ends early: the edge of this node is bad, on this side.
#[derive(Clone, Copy)]
pub struct Damaged {
    pub node: u16,
    pub side: u8,
}

// A step as a kind and seven numbers: 0 take, 1 link, 2 shade, 3 collect, 4 look.
// Kept: a kind and a side are any numbers, since [Codes 10] is for those that are none; the places
// are three numbers each, as C's words and the definition `step_of` have them.
#[derive(Clone, Copy)]
pub struct Step {
    pub kind: u32,
    pub slot: u32,
    pub count: u32,
    pub word: u32,
    pub side: u32,
    pub toslot: u32,
    pub tocount: u32,
    pub toword: u32,
}

// What a run of steps hands back: how many were done, the code that ended it or 0, with its detail,
// how many colours they changed in all, and the record.
// Kept: the code is a number, 0 where none is given, as `ran` and `schedule` have it.
#[derive(Clone, Copy)]
pub struct Ran {
    pub done: usize,
    pub code: u8,
    pub detail: u8,
    pub changed: usize,
    pub rec: Record,
}

// Code 1: M and R in range, and the three lengths M.
#[tactic(auto, unfolding(base::specs::Choice::every, crate::specs::Check::size_ok))]
pub fn size_ok(m: usize, r: usize, lefts: usize, rights: usize, colours: usize) -> bool
    ensures { result ≡ size_ok m r (lefts ∷ rights ∷ []) colours }
{
    3 <= m
        && m <= MOST_NODES
        && 1 <= r
        && r <= MOST_SLOTS
        && r + 2 <= m
        && lefts == m
        && rights == m
        && colours == m
}

// Which phase it is.
pub fn tag(phase: Phase) -> u32
    ensures { result ≡ tag_of phase }
{
    match phase {
        Phase::Roots(_) => ROOTS_TAG,
        Phase::Scan(_, _) => SCAN_TAG,
        Phase::Left(_) => LEFT_TAG,
        Phase::ShadeLeft(_, _) => SHADE_LEFT_TAG,
        Phase::Right(_) => RIGHT_TAG,
        Phase::ShadeRight(_, _) => SHADE_RIGHT_TAG,
        Phase::Black(_) => BLACK_TAG,
        Phase::Append(_) => APPEND_TAG,
    }
}

// The position that a phase carries: its i.
pub fn position(phase: Phase) -> u16
    ensures { result ≡ position phase }
{
    match phase {
        Phase::Roots(i)
        | Phase::Scan(i, _)
        | Phase::Left(i)
        | Phase::ShadeLeft(i, _)
        | Phase::Right(i)
        | Phase::ShadeRight(i, _)
        | Phase::Black(i)
        | Phase::Append(i) => i,
    }
}

// Its second number, 0 where it has none.
pub fn second(phase: Phase) -> u16
    ensures { result ≡ second phase }
{
    match phase {
        Phase::Scan(_, k) => k,
        Phase::ShadeLeft(_, n) | Phase::ShadeRight(_, n) => n,
        _ => 0,
    }
}

// Whether a phase has a second number.
pub fn has_second(tag: u32) -> bool
    ensures { result ≡ has_second tag }
{
    tag == SCAN_TAG || tag == SHADE_LEFT_TAG || tag == SHADE_RIGHT_TAG
}

// The phase of three numbers.
#[tactic(auto, unfolding(base::specs::Choice::pick, crate::specs::Phases::phase_of))]
pub fn phase_of(tag: u32, i: u16, k: u16) -> Phase
    ensures { result ≡ phase_of tag i k }
{
    match tag {
        ROOTS_TAG => Phase::Roots(i),
        SCAN_TAG => Phase::Scan(i, k),
        LEFT_TAG => Phase::Left(i),
        RIGHT_TAG => Phase::Right(i),
        BLACK_TAG => Phase::Black(i),
        APPEND_TAG => Phase::Append(i),
        SHADE_LEFT_TAG => Phase::ShadeLeft(i, k),
        _ => Phase::ShadeRight(i, k),
    }
}

// Whether n is a node, and not FREE.
#[tactic(auto, unfolding(base::specs::Choice::every))]
pub fn node_ok(m: u32, n: u32) -> bool
    ensures { result ≡ every (not (eqb n FREE) ∷ ltb n m ∷ []) }
{
    n != 1 && n < m
}

// Whether a node i and a number read from it are good.
#[tactic(auto, unfolding(base::specs::Choice::every))]
fn read_ok(m: u32, i: u32, n: u32) -> bool
    ensures { result ≡ every (ltb i m ∷ not (eqb n FREE) ∷ ltb n m ∷ []) }
{
    i < m && node_ok(m, n)
}

// By the phase and not its numbers: this is done at every step.
#[tactic(auto, unfolding(base::specs::Choice::every, crate::specs::Check::phase_ok, crate::specs::Check::position_ok, crate::specs::Check::second_ok, base::specs::Choice::pick))]
fn phase_ok(m: u16, r: u16, p: Phase) -> bool
    requires { r ≤ most_slots }
    ensures { result ≡ phase_ok m r p }
{
    match p {
        Phase::Roots(i) => i <= r + 1,
        Phase::Scan(i, k) => i < m && 1 <= k && k <= m,
        Phase::ShadeLeft(i, n) | Phase::ShadeRight(i, n) => {
            read_ok(u32::from(m), u32::from(i), u32::from(n))
        }
        Phase::Left(i) | Phase::Right(i) | Phase::Black(i) | Phase::Append(i) => i < m,
    }
}

#[tactic(auto, unfolding(base::specs::Choice::every, crate::specs::Check::owed_ok))]
fn owed_ok(m: u32, owed: Option<u16>) -> bool
    ensures { result ≡ owed_ok m owed }
{
    match owed {
        None => true,
        Some(n) => node_ok(m, u32::from(n)),
    }
}

// Whether n may be the last node of the free list, or FREE where the list is empty.
#[tactic(auto, unfolding(base::specs::Choice::every, crate::specs::Check::last_ok))]
pub fn last_ok(m: u32, r: u32, n: u32) -> bool
    requires { r ≤ most_slots }
    ensures { result ≡ last_ok m r n }
{
    n == 1 || r + 2 <= n && n < m
}

// Whether so many may be free: none exactly while last is FREE.
#[tactic(auto, unfolding(base::specs::Choice::every, base::specs::Choice::pick, crate::specs::Check::free_ok))]
pub fn free_ok(m: u32, r: u32, last: u32, n: u32) -> bool
    requires r_le_most_slots { r ≤ most_slots }
    requires r_bound { r + 2 ≤ m }
    ensures { result ≡ free_ok m r last n }
{
    n <= m - (r + 2) && (last == 1) == (n == 0)
}

// B, the most steps that a cycle may take.
pub fn bound(m: u16, r: u16) -> u32
    requires m_le_most_nodes { m ≤ most_nodes }
    requires r_le_most_slots { r ≤ most_slots }
    ensures { result ≡ bound 2 m r }
{
    let n = u32::from(m);
    n * n + 7 * n + u32::from(r) + 2
}

// What the cycle counts, b being B.
#[tactic(auto, unfolding(base::specs::Choice::every, crate::specs::Check::cycle_ok))]
fn cycle_ok(x: Record, b: u32) -> bool
    ensures { result ≡ cycle_ok x b }
{
    x.blackened <= x.m && x.steps < b
}

// Whether the counts that a step can bring past their limits are within them, b being B.
#[tactic(auto, unfolding(base::specs::Choice::every, crate::specs::Check::in_limits))]
pub fn in_limits(x: Record, b: u32) -> bool
    requires r_le_most_slots { x.r ≤ most_slots }
    requires r_bound { x.r + 2 ≤ x.m }
    ensures { result ≡ in_limits x b }
{
    x.free_ok() && cycle_ok(x, b)
}

// What earlier cycles told.
#[tactic(auto, unfolding(base::specs::Choice::every, crate::specs::Check::told_ok))]
fn told_ok(x: Record, b: u32) -> bool
    ensures { result ≡ told_ok x b }
{
    x.lastblackened <= x.m && x.took <= b
}

#[tactic(auto, unfolding(base::specs::Choice::every, crate::specs::Check::counts_ok))]
fn counts_ok(x: Record, b: u32) -> bool
    ensures { result ≡ counts_ok x b }
{
    cycle_ok(x, b) && told_ok(x, b)
}

#[tactic(auto, unfolding(base::specs::Choice::every, crate::specs::Check::record_ok))]
fn record_ok(x: Record) -> bool
    requires m_le_most_nodes { x.m ≤ most_nodes }
    requires r_le_most_slots { x.r ≤ most_slots }
    requires r_bound { x.r + 2 ≤ x.m }
    ensures { result ≡ record_ok 2 x }
{
    phase_ok(x.m, x.r, x.phase)
        && owed_ok(u32::from(x.m), x.owed)
        && last_ok(u32::from(x.m), u32::from(x.r), u32::from(x.last))
        && x.free_ok()
        && counts_ok(x, bound(x.m, x.r))
}

// Codes 1 and 2, for slices of these lengths; 0 where neither is given.
// Kept: a number and no Result, since the clause is that it is `check_of`'s; none of its callers
// answers a Result, so `?` has no place there.
pub fn check(lefts: usize, rights: usize, colours: usize, x: Record) -> u8
    ensures { result ≡ check_of (lefts ∷ rights ∷ []) colours x }
{
    if !size_ok(usize::from(x.m), usize::from(x.r), lefts, rights, colours) {
        return 1;
    }
    if !record_ok(x) {
        return 2;
    }
    0
}

// [Answers 4] What a call that is refused hands back: the record stays.
pub fn refusal_with(code: u8, node: u16, detail: u8, x: Record) -> Made
    ensures { result ≡ refusal_with code node detail x }
{
    Made {
        answer: Answer::refused_with(code, node, detail),
        changed: 0,
        rec: x,
    }
}

// The same where there is no more to tell.
// Kept: two functions, as the definitions are two words, `refusal_with` and `refusal`; and so are
// `Answer::refused_with` and `refused`.
pub fn refusal(code: u8, node: u16, x: Record) -> Made
    ensures { result ≡ refusal code node x }
{
    refusal_with(code, node, 0, x)
}

// Kept: bounds of its fields are clauses and no invariant, since a record may hold any numbers
// until it is judged.
impl Record {
    // Roots 0, nothing owed, all other counts 0.
    pub fn fresh(m: u16, r: u16, last: u16, free: u16) -> Record
        ensures { result ≡ fresh_record m r last free }
    {
        Record {
            m,
            r,
            phase: Phase::Roots(0),
            owed: None,
            last,
            steps: 0,
            cycles: 0,
            took: 0,
            blackened: 0,
            lastblackened: 0,
            free,
        }
    }

    // Whether its free count fits its last.
    fn free_ok(self) -> bool
        requires r_le_most_slots { self.r ≤ most_slots }
        requires r_bound { self.r + 2 ≤ self.m }
        ensures { result ≡ free_ok self.m self.r self.last self.free }
    {
        free_ok(
            u32::from(self.m),
            u32::from(self.r),
            u32::from(self.last),
            u32::from(self.free),
        )
    }

    pub fn with_phase(mut self, phase: Phase) -> Record
        ensures { result ≡ with_phase self phase }
    {
        self.phase = phase;
        self
    }

    // The shade of node n is owed.
    pub fn owing(self, n: u16) -> Record
        ensures { result ≡ owing self n }
    {
        Record {
            owed: Some(n),
            ..self
        }
    }

    // The shade is paid: nothing is owed.
    pub fn paid(self) -> Record
        ensures { result ≡ paid self }
    {
        Record { owed: None, ..self }
    }

    // The free list ends at n.
    pub fn with_last(mut self, n: u16) -> Record
        ensures { result ≡ with_last self n }
    {
        self.last = n;
        self
    }

    // One node less is free; 0 stays 0.
    pub fn less_free(mut self) -> Record
        ensures { result ≡ less_free self }
    {
        self.free = self.free.saturating_sub(1);
        self
    }

    // One node more is free.
    pub fn more_free(mut self) -> Record
        requires { self.free ≤ most_nodes }
        ensures { result ≡ more_free self }
    {
        self.free += 1;
        self
    }

    // A collector step is counted, and the phase moves.
    pub fn moved(mut self, phase: Phase) -> Record
        requires { self.steps < many_steps }
        ensures { result ≡ moved self phase }
    {
        self.steps += 1;
        self.with_phase(phase)
    }

    // The step that ends the marking: what it blackened is kept.
    pub fn marked(mut self) -> Record
        requires { self.steps < many_steps }
        ensures { result ≡ marked self }
    {
        self.lastblackened = self.blackened;
        self.moved(Phase::Append(0))
    }

    // The node after node i. A remainder would take as long as the rest of a step.
    pub fn next(self, i: u16) -> u16
        requires { i < self.m }
        ensures { result ≡ next self i }
    {
        let after = i + 1;
        if after == self.m {
            return 0;
        }
        after
    }

    // The step that blackens node i: the scan begins again behind it.
    pub fn rescan(mut self, i: u16) -> Record
        requires steps_lt_many_steps { self.steps < many_steps }
        requires blackened_le_most_nodes { self.blackened ≤ most_nodes }
        requires i_lt_m { i < self.m }
        ensures { result ≡ rescan self i }
    {
        self.blackened += 1;
        self.moved(Phase::Scan(self.next(i), self.m))
    }

    // The step that completes the cycle.
    #[tactic(auto, unfolding(base::specs::Choice::pick, crate::specs::Records::one_more, crate::specs::Records::closed))]
    fn closed(mut self) -> Record
        requires { self.steps < many_steps }
        ensures { result ≡ closed self }
    {
        self.took = self.steps + 1;
        self.steps = 0;
        self.cycles = self.cycles.saturating_add(1);
        self.blackened = 0;
        self.with_phase(Phase::Roots(0))
    }

    // After Append i.
    #[tactic(auto, unfolding(base::specs::Choice::pick, crate::specs::Records::after_append))]
    pub fn after_append(self, i: u16) -> Record
        requires steps_lt_many_steps { self.steps < many_steps }
        requires i_lt_most_nodes { i < most_nodes }
        ensures { result ≡ after_append self i }
    {
        if i + 1 == self.m {
            return self.closed();
        }
        self.moved(Phase::Append(i + 1))
    }
}

// The one place where a refusal is made.
impl Answer {
    // [Answers 3] Refused with a code, a node and a detail [Answers 5].
    pub fn refused_with(code: u8, node: u16, detail: u8) -> Answer
        ensures { result ≡ refused_with code node detail }
    {
        Answer::Refused(code, node, detail)
    }

    // The same where there is no more to tell.
    pub fn refused(code: u8, node: u16) -> Answer
        ensures { result ≡ refused code node }
    {
        Answer::refused_with(code, node, 0)
    }

    // [Answers 2] The code: 0 where done.
    pub fn code(self) -> u8
        ensures { result ≡ code_of self }
    {
        match self {
            Answer::Refused(code, _, _) => code,
            _ => 0,
        }
    }

    // The node answered; of Counted, the number of nodes.
    pub fn node(self) -> u16
        ensures { result ≡ node_of self }
    {
        match self {
            Answer::Started(n)
            | Answer::Named(n)
            | Answer::Linked(n)
            | Answer::Taken(n)
            | Answer::Shaded(n)
            | Answer::Looked(n)
            | Answer::Blackened(n)
            | Answer::Whitened(n)
            | Answer::Appended(n)
            | Answer::Counted(n)
            | Answer::Refused(_, n, _) => n,
        }
    }

    // [Answers 5] The detail: 0 where done.
    pub fn detail(self) -> u8
        ensures { result ≡ detail_of self }
    {
        match self {
            Answer::Refused(_, _, detail) => detail,
            _ => 0,
        }
    }
}
