// Scan on plain numbers: runs of looks at once, and a gray node's six steps at once.
#![tactic(auto)]

ghost use Rattle.std.specs.Prelude.{◌≡◌, true, ℕ, ◌+◌, ◌-◌, ◌<◌, ◌≤◌, ◌%◌, length, get_or, set};
ghost use Rattle.std.specs.Option.{MatchOption};
ghost use Rattle.rules.specs.Table.{most_nodes, state, shade_in};
ghost use Rattle.rules.specs.Facts.{many_steps};
ghost use Rattle.rules.specs.declared.Phase.TheVariants.{Scan};
ghost use Rattle.rules.specs.Changes.{differing};
ghost use Rattle.skim.specs.Stops.{stops, NoStop};
ghost use Rattle.ahead.specs.Leads.{Passes, Room, Leads, CanShade};
ghost use Rattle.scanning.specs.Marking.{standing, Valid, ScanLeads, CanVisit};
ghost use Rattle.scanning.specs.Chains.{OneGray, CanFollow, Follows};
ghost use Rattle.rules.specs.Lent.{given};

use ahead::Ahead;
use rules::{Phase, Record};

// Where the marking stands: Scan i, k; nodes blackened; steps made here; how many colours stop a
// look, at most; the node that was made gray last; and how many colours the steps changed.
// Kept: `grayed` is a node in any case, 0 at first: its colour is tested wherever it is used.
#[derive(Clone, Copy)]
struct ScanAt {
    i: usize,
    k: usize,
    blackened: usize,
    d: usize,
    stops: usize,
    grayed: usize,
    changed: usize,
}

// Kept: `as`: a `usize` has no `From` into a narrower type, and each value is proved to fit.
fn standing(mut x: Record, s: ScanAt) -> Record
    requires i_lt_most_nodes { s.i < most_nodes }
    requires k_le_most_nodes { s.k ≤ most_nodes }
    requires blackened_le_most_nodes { s.blackened ≤ most_nodes }
    requires d_bound { x.steps + s.d < many_steps }
    ensures { result ≡ standing x s }
{
    x.steps += s.d as u32;
    x.blackened = s.blackened as u16;
    x.with_phase(Phase::Scan(s.i as u16, s.k as u16))
}

// n modulo m, for n below two rounds.
fn around(n: usize, m: usize) -> usize
    requires { n < m + m }
    ensures { result ≡ n % m }
{
    if n < m { n } else { n - m }
}

// How far it is from i to t, round the end of the table.
fn gap(i: usize, t: usize, m: usize) -> usize
    requires i_lt_m { i < m }
    requires t_lt_m { t < m }
    requires m_le_most_nodes { m ≤ most_nodes }
    ensures { (i ≤ t → i + result ≡ t) × (t < i → i + result ≡ t + m) }
{
    if i <= t { t - i } else { t + m - i }
}

// How far it is from i on to t, a whole round if they are the same.
// Kept: beside `gap`, since for i = t that one answers 0 and this one m.
fn beyond(i: usize, t: usize, m: usize) -> usize
    requires i_lt_m { i < m }
    requires t_lt_m { t < m }
    requires m_le_most_nodes { m ≤ most_nodes }
    ensures { (result ≤ m) × ((i < t → i + result ≡ t) × (t ≤ i → i + result ≡ t + m)) }
{
    if i < t { t - i } else { t + m - i }
}

// The node before i, round the end of the table.
fn before(i: usize, m: usize) -> usize
    requires { i < m }
    ensures { (i ≡ 0 → result + 1 ≡ m) × (0 < i → result + 1 ≡ i) }
{
    i.checked_sub(1).unwrap_or(m - 1)
}

// How many looks from i on, at most near, find nothing: none stops where no colour does, and only
// at the node made gray last where that is the only one.
fn idle_looks(colour: &[u8], s: ScanAt, near: usize) -> usize
    requires size { length colour.now ≤ most_nodes }
    requires few { stops colour.now 0 (length colour.now) ≤ s.stops }
    requires i_in_bounds { s.i < length colour.now }
    requires grayed_in_bounds { s.grayed < length colour.now }
    ensures { (result ≤ near) × NoStop colour.now (length colour.now) s.i result }
{
    let m = colour.len();
    let i = s.i;
    let t = s.grayed;
    if skim::stop(colour[i]) != 0 {
        return 0;
    }
    if s.stops == 0 {
        return near;
    }
    if s.stops == 1 && colour[t] == table::GRAY {
        return near.min(gap(i, t, m));
    }
    skim::until_stop(colour, i, near.min(m - i))
}

// Whether e is a good edge to a node with a good colour.
fn can_shade(colour: &[u8], e: u16) -> bool
    ensures { result ≡ true → CanShade (length colour.now) colour.now e }
{
    let at = usize::from(e);
    at < colour.len() && at != 1 && colour[at] <= table::BLACK
}

// Whether the visit of a node with the edges e and f makes the node at e gray and no other.
fn can_follow(colour: &[u8], e: u16, f: u16) -> bool
    ensures { result ≡ true → CanFollow (length colour.now) colour.now e f }
{
    can_shade(colour, e)
        && can_shade(colour, f)
        && colour[usize::from(e)] == table::WHITE
        && colour[usize::from(f)] != table::WHITE
}

// Shades a node; 1 where that makes it gray.
// Kept: a number, since `spread` sums it, and `value` is that it is how many colours differ.
fn shade_and_count(colour: &mut [u8], n: u16) -> usize
    requires { n < length colour.old }
    ensures upper_bound { (result ≤ 1) × ((colour.new
        ≡ shade_in colour.old n) ×
        (stops colour.new 0 (length colour.new) ≤ stops colour.old 0 (length colour.old) +
        result)) }
    ensures value { result ≡ differing colour.old colour.new }
{
    usize::from(table::shade_node(colour, n))
}

// Kept: no `paint` of table: its node is of 16 bits, and that one colour changes is known here.
fn blacken(colour: &mut [u8], i: usize)
    requires { i < length colour.old }
    ensures { colour.new ≡ set colour.old i 2 }
{
    colour[i] = table::BLACK;
}

// Makes node n gray and node i black.
fn pass_on(colour: &mut [u8], i: usize, n: usize)
    requires i_in_bounds { i < length colour.old }
    requires n_in_bounds { n < length colour.old }
    ensures { colour.new ≡ set (set colour.old n 1) i 2 }
{
    colour[n] = table::GRAY;
    colour[i] = table::BLACK;
}

// f where it was made gray, else e.
fn newer(e: u16, f: u16, b: usize) -> usize
    ensures { (m : ℕ) → e < m → f < m → result < m }
{
    usize::from(if b == 1 { f } else { e })
}

// How many nodes were made gray, and one of them.
// Kept: no Option: the node goes into `ScanAt` in any case, and its colour is tested there.
#[derive(Clone, Copy)]
struct Grayed {
    more: usize,
    node: usize,
}

// Shades e and f, and makes i, which is gray, black.
fn spread(colour: &mut [u8], i: usize, e: u16, f: u16) -> Grayed
    requires i_in_bounds { i < length colour.old }
    requires e_in_bounds { e < length colour.old }
    requires f_in_bounds { f < length colour.old }
    requires i_value { get_or colour.old i 0 ≡ 1 }
    ensures more_bound { (result.more ≤ 2) × (((m : ℕ) → e < m → f < m
        → result.node < m) × ((colour.new
        ≡ set (shade_in (shade_in colour.old e) f) i 2) ×
        (stops colour.new 0 (length colour.new) + 1 ≤ stops colour.old 0
        (length colour.old) + result.more))) }
    ensures more_value { result.more ≡ differing colour.old (shade_in (shade_in colour.old e) f) }
{
    let a = shade_and_count(colour, e);
    let b = shade_and_count(colour, f);
    blacken(colour, i);
    Grayed {
        more: a + b,
        node: newer(e, f, b),
    }
}

// Where a chain of nodes is followed: the node visited last; the one it made gray, which is the
// only gray one; steps made; nodes blackened.
#[derive(Clone, Copy)]
struct Chain {
    last: usize,
    gray: usize,
    d: usize,
    blackened: usize,
}

// What a marking goes by: the edges, the record that it began at, and how many steps it may make.
// Kept: `Valid` is a clause of each method, since it speaks of the colours, which the caller lends.
#[derive(Clone, Copy)]
struct Marker<'a> {
    left: &'a [u16],
    right: &'a [u16],
    x: Record,
    cap: usize,
    ghost room: { Room x cap },
}

impl<'a> Marker<'a> {
    // The looks that find nothing, all at once.
    fn look_on(self, colour: &[u8], s: ScanAt) -> ScanAt
        requires { Valid self.left.now self.right.now colour.now self.x self.cap s }
        ensures { ScanLeads self.entry.left.now self.entry.right.now colour.now
            self.entry.x self.entry.cap s colour.now result }
    {
        let idle = idle_looks(colour, s, (self.cap - s.d).min(s.k - 1));
        ScanAt {
            i: around(s.i + idle, colour.len()),
            k: s.k - idle,
            d: s.d + idle,
            ..s
        }
    }

    // Whether node i is gray and its six steps can be made.
    fn can_visit(self, colour: &[u8], s: ScanAt) -> bool
        requires { Valid self.left.now self.right.now colour.now self.x self.cap s }
        ensures { result ≡ true
            → CanVisit self.entry.left.now self.entry.right.now colour.now
            self.entry.x self.entry.cap s }
    {
        6 <= self.cap - s.d
            && s.blackened < colour.len()
            && colour[s.i] == table::GRAY
            && can_shade(colour, self.left[s.i])
            && can_shade(colour, self.right[s.i])
    }

    // The six steps at a gray node.
    // Kept: beside `phase_step` of collector, which makes one step and the record anew: a `collect`
    // takes 28 ns, a step in a call of 1,000 takes 1.2 ns (docs/BENCHMARKS.md, in order, M = 64).
    fn visit(self, colour: &mut [u8], s: ScanAt) -> ScanAt
        requires valid { Valid self.left.now self.right.now colour.old self.x self.cap s }
        requires can_visit { CanVisit self.left.now self.right.now colour.old self.x self.cap s }
        ensures leads { ScanLeads self.entry.left.now self.entry.right.now colour.old
            self.entry.x self.entry.cap s colour.new result }
        ensures six { result.d ≡ s.d + 6 }
    {
        let m = colour.len();
        let grayed = spread(colour, s.i, self.left[s.i], self.right[s.i]);
        ScanAt {
            i: around(s.i + 1, m),
            k: m,
            blackened: s.blackened + 1,
            d: s.d + 6,
            stops: s.stops + grayed.more - 1,
            grayed: grayed.node,
            changed: s.changed + grayed.more + 1,
        }
    }

    // Whether a chain can be followed from here: the node made gray last is the only one, and there
    // is room for a round of looks and a visit.
    fn one_gray(self, colour: &[u8], s: ScanAt) -> bool
        requires { Valid self.left.now self.right.now colour.now self.x self.cap s }
        ensures { result ≡ true → OneGray colour.now self.entry.x self.entry.cap s }
    {
        let m = colour.len();
        s.stops == 1 && s.k == m && m + 5 <= self.cap - s.d && colour[s.grayed] == table::GRAY
    }

    // Follows the left edges for as long as each visit makes one node gray, from which the next is
    // found without a look at the colours between.
    // Kept: a `while`: it goes along edges and counts no index.
    fn follow_left(self, colour: &mut [u8], s: ScanAt, from: Chain) -> Chain
        requires one_gray { OneGray colour.old self.x self.cap s }
        requires follows { Follows self.left.now self.right.now colour.old self.x self.cap s
            colour.old from }
        ensures { Follows self.entry.left.now self.entry.right.now colour.old
            self.entry.x self.entry.cap s colour.new result }
    {
        let m = colour.len();
        let limit = self.cap - (m + 5);
        let mut q = from;
        while q.blackened < m
            && q.d <= limit
            && can_follow(colour, self.left[q.gray], self.right[q.gray])
        {
            let n = usize::from(self.left[q.gray]);
            pass_on(colour, q.gray, n);
            q = Chain {
                last: q.gray,
                gray: n,
                d: q.d + 5 + beyond(q.last, q.gray, m),
                blackened: q.blackened + 1,
            };
        }
        q
    }

    // Follows a chain where the node made gray last is the only one.
    fn follow(self, colour: &mut [u8], s: ScanAt) -> ScanAt
        requires { Valid self.left.now self.right.now colour.old self.x self.cap s }
        ensures { ScanLeads self.entry.left.now self.entry.right.now colour.old
            self.entry.x self.entry.cap s colour.new result }
    {
        if !self.one_gray(colour, s) {
            return s;
        }
        let m = colour.len();
        let from = Chain {
            last: before(s.i, m),
            gray: s.grayed,
            d: s.d,
            blackened: s.blackened,
        };
        let q = self.follow_left(colour, s, from);
        ScanAt {
            i: around(q.last + 1, m),
            k: m,
            blackened: q.blackened,
            d: q.d,
            stops: 1,
            grayed: q.gray,
            changed: s.changed + 2 * (q.blackened - s.blackened),
        }
    }

    // The looks that find nothing, and then the visit of a gray node where one is there, and of
    // those behind it on a chain; `None` where no step is made.
    fn look_and_visit(self, colour: &mut [u8], s: ScanAt) -> Option<ScanAt>
        requires { Valid self.left.now self.right.now colour.old self.x self.cap s }
        ensures { MatchOption result (colour.new ≡ colour.old) (λ t. (s.d < t.d)
            × ScanLeads self.entry.left.now self.entry.right.now colour.old
            self.entry.x self.entry.cap s colour.new t) }
    {
        if s.d == self.cap {
            return None;
        }
        let h = self.look_on(colour, s);
        if self.can_visit(colour, h) {
            let v = self.visit(colour, h);
            return Some(self.follow(colour, v));
        }
        if s.d < h.d { Some(h) } else { None }
    }

    // Looks and visits for as long as they lead on.
    fn marking(self, colour: &mut [u8], from: ScanAt) -> ScanAt
        requires { Valid self.left.now self.right.now colour.old self.x self.cap from }
        ensures { ScanLeads self.entry.left.now self.entry.right.now colour.old
            self.entry.x self.entry.cap from colour.new result }
    {
        let mut s = from;
        while let Some(t) = self.look_and_visit(colour, s) {
            s = t;
        }
        s
    }
}

// How many colours stop a look: counted where many steps are to be made, else the most that can be.
fn most_stops(colour: &[u8], cap: usize) -> usize
    ensures { (stops colour.now 0 (length colour.now) ≤ result)
        × (result ≤ length colour.now) }
{
    if cap < colour.len() {
        colour.len()
    } else {
        skim::all_stops(colour)
    }
}

// Scan i, k: at most cap steps, none of them the last look.
// Kept: one by one, as batch hands them on; `Marker` is made here, since its room is of this cap. i
// and k stand beside the record: `stride` of batch has just matched the phase.
pub fn scans(
    left: &[u16],
    right: &[u16],
    colour: &mut [u8],
    x: Record,
    i: u16,
    k: u16,
    cap: usize,
) -> Ahead
    requires passes { Passes (state left.now right.now colour.old x) }
    requires room { Room x cap }
    requires phase_value { x.phase ≡ Scan i k }
    ensures { (result.d ≤ cap) × Leads (given left.now right.now colour.old x) result.d
        result.changed
        (state left.now right.now colour.new result.rec) }
{
    let from = ScanAt {
        i: usize::from(i),
        k: usize::from(k),
        blackened: usize::from(x.blackened),
        d: 0,
        stops: most_stops(colour, cap),
        grayed: 0,
        changed: 0,
    };
    let marker = Marker {
        left,
        right,
        x,
        cap,
    };
    let s = marker.marking(colour, from);
    Ahead {
        d: s.d,
        changed: s.changed,
        rec: standing(x, s),
    }
}
