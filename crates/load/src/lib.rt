// Load: a table from lists of edges, which are judged first.
#![tactic(auto)]

ghost use Rattle.std.specs.Prelude.{◌≡◌, List, [], ◌∷◌, ℕ, ◌+◌, ◌<◌, ◌≤◌};
ghost use Rattle.std.specs.Prelude.{length, take, true, IfOk};
ghost use Rattle.rules.specs.Table.{most_nodes, most_slots, handed, refused_with};
ghost use Rattle.rules.specs.Meet.{blank, meet, any_edge, first_side};
ghost use Rattle.rules.specs.Load.{load_size_of, bad_given, first_bad, chained, chain};
ghost use Rattle.rules.specs.Load.{chain_length, is_shared, first_shared, judge_free};
ghost use Rattle.rules.specs.Load.{load_by, load};
ghost use Rattle.load.specs.GoodEdges.{Below, load_good, found, answer_of, fault_answer};
ghost use Rattle.rules.specs.Lent.{leaves};
ghost use Rattle.meet.specs.Edges.{edges};

use meet::{FEW_NODES, Graph};
use rules::{Answer, MOST_NODES, Made, Record};

// The last node of a free chain, and how many nodes it has.
#[derive(Clone, Copy)]
struct FreeChain {
    last: u16,
    free: u16,
}

// Why lists with good edges are refused, and at which node.
#[derive(Clone, Copy)]
enum Fault {
    Broken(u16),
    Shared(u16),
}

impl Fault {
    // Codes 12 and 13.
    fn answer(self) -> Answer
        ensures { result ≡ fault_answer self }
    {
        match self {
            Fault::Broken(n) => Answer::refused(12, n),
            Fault::Shared(n) => Answer::refused(13, n),
        }
    }
}

// Code 1: the sizes of Fresh, and each list has M entries.
fn size_ok(
    m: usize,
    r: usize,
    lefts: usize,
    rights: usize,
    left: usize,
    right: usize,
    colour: usize,
) -> bool
    ensures { result
        ≡ load_size_of m r (lefts ∷ rights ∷ []) (left ∷ right ∷ []) colour }
{
    rules::size_ok(m, r, left, right, colour) && lefts == m && rights == m
}

// Whether an edge e of node n is bad, or is NIL's and not 0.
fn bad_given(m: u32, n: usize, e: u32) -> bool
    ensures { result ≡ bad_given m n e }
{
    m <= e || e == 1 || n == 0 && e != 0
}

fn bad_node(lefts: &[u32], rights: &[u32], m: u32, n: usize) -> bool
    requires n_in_bounds { n < length lefts.now }
    requires n_in_bounds_2 { n < length rights.now }
    ensures { result ≡ any_edge (bad_given m n) (lefts.now ∷ rights.now ∷ []) n }
{
    bad_given(m, n, lefts[n]) || bad_given(m, n, rights[n])
}

// Code 11: the lowest node with such an edge, if there is one.
fn first_bad(lefts: &[u32], rights: &[u32], m: u32) -> Option<usize>
    requires lefts_len { length lefts.now ≡ m }
    requires rights_len { length rights.now ≡ m }
    ensures { result ≡ found m (first_bad m (lefts.now ∷ rights.now ∷ [])) }
{
    // Kept: a loop, and so in `lowest_shared`: tried, `(0..lefts.len()).find(..)`: the proof did
    // not close by search, and std has no lemma of what `find` promises (`FindsItem`).
    for n in 0..lefts.len() {
        if bad_node(lefts, rights, m, n) {
            return Some(n);
        }
    }
    None
}

// The side of the first such edge of node n, which has one.
// Kept: `hurt_side` of In use is the same of 16-bit edges by another test; one function for both is
// no plainer, since it takes the test as a closure and serves one call in each crate.
fn bad_side(lefts: &[u32], m: u32, n: usize) -> u8
    requires { n < length lefts.now }
    ensures { (rights : List ℕ)
        → true ≡ any_edge (bad_given m n) (lefts.now ∷ rights ∷ []) n
        → result ≡ first_side (bad_given m n) (lefts.now ∷ rights ∷ []) n }
{
    if bad_given(m, n, lefts[n]) {
        rules::LEFT
    } else {
        rules::RIGHT
    }
}

// The edges given, as 16-bit numbers.
// Kept: `as`, here and below: each number is proved to fit.
fn narrow(given: &[u32], edges: &mut [u16])
    requires given_in_bounds { length given.now ≤ length edges.old }
    requires below { Below most_nodes given.now }
    ensures { take (length given.now) edges.new ≡ given.now }
{
    // Kept: by an index: in a loop over `edges.iter_mut().zip(given)` the invariant, which is of
    // the first n of `edges`, could not name them as they are by then; and by an iterator the
    // library's module would depend on the size of a pointer.
    for n in 0..given.len() {
        edges[n] = given[n] as u16;
    }
}

// Code 12: the free chain, or the first node that breaks it. The free nodes are marked.
// Kept: the marks are numbers, as the definition `chain` has them. `Below` is a clause and no ghost
// field of `Graph`, since In use follows graphs with bad edges.
// Kept: the node goes on as an index, and its number is made of it: made the other way, each turn
// waits for one instruction more.
fn chain(graph: Graph, free: &mut [u8]) -> Result<FreeChain, Fault>
    requires m_in_bounds { graph.m ≤ length free.old }
    requires below { Below graph.m graph.left.now }
    ensures answer_value { chained free.new (answer_of result)
        ≡ chain graph.entry.r (edges graph.entry) graph.entry.m free.old 1 }
    ensures free_value { IfOk result (λ c. c.free
        ≡ chain_length (edges graph.entry) graph.entry.m 1) }
{
    let mut at = 1;
    for k in 0..graph.m {
        let n = at as u16;
        if graph.right[at] != 0 {
            return Err(Fault::Broken(n));
        }
        let next = graph.left[at];
        if next == 0 {
            return Ok(FreeChain { last: n, free: k });
        }
        let to = usize::from(next);
        if next < graph.r + 2 || free[to] != 0 {
            return Err(Fault::Broken(n));
        }
        free[to] = 1;
        at = to;
    }
    Err(Fault::Broken(at as u16))
}

// Whether node n is free and marked.
fn shared(free: &[u8], marks: &[u8], n: u16) -> bool
    requires n_in_bounds { n < length free.now }
    requires n_in_bounds_2 { n < length marks.now }
    ensures { result ≡ is_shared free.now marks.now n }
{
    let at = usize::from(n);
    free[at] != 0 && marks[at] != 0
}

// The lowest such node, if there is one.
fn lowest_shared(free: &[u8], marks: &[u8], m: u16) -> Option<u16>
    requires m_in_bounds { m ≤ length free.now }
    requires m_in_bounds_2 { m ≤ length marks.now }
    ensures { result ≡ found m (first_shared m free.now marks.now) }
{
    for n in 0..m {
        if shared(free, marks, n) {
            return Some(n);
        }
    }
    None
}

// Code 13: the lowest free node that slots reach, if there is one, with N marks.
fn first_shared<const N: usize>(graph: Graph, free: &[u8]) -> Option<u16>
    requires m_in_bounds { graph.m ≤ N }
    requires n_le_most_nodes { N ≤ most_nodes }
    requires m_in_bounds_2 { graph.m ≤ length free.now }
    ensures { result ≡ found graph.entry.m (first_shared graph.entry.m free.now
        (meet graph.entry.m graph.entry.r (edges graph.entry)).num) }
{
    let mut marks = [0; N];
    meet::meet(graph, &mut marks);
    lowest_shared(free, &marks, graph.m)
}

// Codes 12 and 13, for edges that are good, with N marks of each kind.
fn judge_in<const N: usize>(graph: Graph) -> Result<FreeChain, Fault>
    requires m_in_bounds { graph.m ≤ N }
    requires n_le_most_nodes { N ≤ most_nodes }
    requires below { Below graph.m graph.left.now }
    ensures answer_value { answer_of result
        ≡ judge_free graph.entry.m graph.entry.r (edges graph.entry)
        (chain graph.entry.r (edges graph.entry) graph.entry.m blank 1) }
    ensures free_value { IfOk result (λ c. c.free
        ≡ chain_length (edges graph.entry) graph.entry.m 1) }
{
    let mut free = [0; N];
    let whole = chain(graph, &mut free)?;
    match first_shared::<N>(graph, &free) {
        Some(n) => Err(Fault::Shared(n)),
        None => Ok(whole),
    }
}

// The same; a table of few nodes has no more marks cleared than it may need.
fn judge(graph: Graph) -> Result<FreeChain, Fault>
    requires { Below graph.m graph.left.now }
    ensures answer_value { answer_of result
        ≡ judge_free graph.entry.m graph.entry.r (edges graph.entry)
        (chain graph.entry.r (edges graph.entry) graph.entry.m blank 1) }
    ensures free_value { IfOk result (λ c. c.free
        ≡ chain_length (edges graph.entry) graph.entry.m 1) }
{
    if usize::from(graph.m) <= FEW_NODES {
        return judge_in::<FEW_NODES>(graph);
    }
    judge_in::<MOST_NODES>(graph)
}

// Copies the edges given.
// Kept: no `copy_from_slice`: the library's module would depend on the size of a pointer, and ask
// for memmove.
fn copy(given: &[u16], edges: &mut [u16])
    requires { length edges.old ≡ length given.now }
    ensures { edges.new ≡ given.now }
{
    for n in 0..given.len() {
        edges[n] = given[n];
    }
}

// The table of lists whose edges are good, or none.
fn load_table(given: Graph, left: &mut [u16], right: &mut [u16], colour: &mut [u8]) -> Made
    requires left_len { length left.old ≡ given.m }
    requires right_len { length right.old ≡ given.m }
    requires colour_len { length colour.old ≡ given.m }
    requires below { Below given.m given.left.now }
    ensures colour_value { leaves result left.new right.new colour.new
        ≡ load_good given.entry.m given.entry.r (edges given.entry)
        (left.old ∷ right.old ∷ []) colour.old }
    ensures changed_value { result.changed ≡ 0 }
{
    match judge(given) {
        Ok(whole) => {
            copy(given.left, left);
            copy(given.right, right);
            fresh::whiten(colour);
            Made {
                answer: Answer::Started(whole.last),
                changed: 0,
                rec: Record::fresh(given.m, given.r, whole.last, whole.free),
            }
        }
        Err(fault) => Made {
            answer: fault.answer(),
            changed: 0,
            rec: Record::fresh(0, 0, 0, 0),
        },
    }
}

// The same of lists of 32-bit numbers, with room for the 16 bits of N of each.
// Kept: lists, slices, m and r go one by one, here and below: the `Graph` of the 16-bit lists is
// made here. The room is two arrays, since there is no heap.
fn load_in<const N: usize>(
    lefts: &[u32],
    rights: &[u32],
    left: &mut [u16],
    right: &mut [u16],
    colour: &mut [u8],
    m: u16,
    r: u16,
) -> Made
    requires m_le_most_nodes { m ≤ most_nodes }
    requires r_le_most_slots { r ≤ most_slots }
    requires r_bound { r + 2 ≤ m }
    requires lefts_len { length lefts.now ≡ m }
    requires rights_len { length rights.now ≡ m }
    requires m_in_bounds { m ≤ N }
    requires n_le_most_nodes { N ≤ most_nodes }
    requires left_len { length left.old ≡ m }
    requires right_len { length right.old ≡ m }
    requires colour_len { length colour.old ≡ m }
    requires below { Below m lefts.now }
    requires below_2 { Below m rights.now }
    ensures colour_value { leaves result left.new right.new colour.new
        ≡ load_good m r (lefts.now ∷ rights.now ∷ [])
        (left.old ∷ right.old ∷ []) colour.old }
    ensures changed_value { result.changed ≡ 0 }
{
    let mut narrow_lefts = [0; N];
    let mut narrow_rights = [0; N];
    narrow(lefts, &mut narrow_lefts);
    narrow(rights, &mut narrow_rights);
    let given = Graph {
        left: &narrow_lefts[..lefts.len()],
        right: &narrow_rights[..rights.len()],
        m,
        r,
    };
    load_table(given, left, right, colour)
}

// The same; lists of few nodes have no more room cleared than they may need.
fn load_good(
    lefts: &[u32],
    rights: &[u32],
    left: &mut [u16],
    right: &mut [u16],
    colour: &mut [u8],
    m: u16,
    r: u16,
) -> Made
    requires m_le_most_nodes { m ≤ most_nodes }
    requires r_le_most_slots { r ≤ most_slots }
    requires r_bound { r + 2 ≤ m }
    requires lefts_len { length lefts.now ≡ m }
    requires rights_len { length rights.now ≡ m }
    requires left_len { length left.old ≡ m }
    requires right_len { length right.old ≡ m }
    requires colour_len { length colour.old ≡ m }
    requires below { Below m lefts.now }
    requires below_2 { Below m rights.now }
    ensures colour_value { leaves result left.new right.new colour.new
        ≡ load_good m r (lefts.now ∷ rights.now ∷ [])
        (left.old ∷ right.old ∷ []) colour.old }
    ensures changed_value { result.changed ≡ 0 }
{
    if usize::from(m) <= FEW_NODES {
        return load_in::<FEW_NODES>(lefts, rights, left, right, colour, m, r);
    }
    load_in::<MOST_NODES>(lefts, rights, left, right, colour, m, r)
}

// Refused: no table is made.
// Kept: the code is a number, as `refused_with` of the rules has it.
fn refused(code: u8, node: u16, detail: u8) -> Made
    requires { 0 < code }
    ensures by_index { (m r : ℕ) (given edges : List (List ℕ)) (colours : List ℕ)
        → handed result edges colours ≡ load_by m r given edges colours
        (refused_with code node detail) }
    ensures changed_value { result.changed ≡ 0 }
{
    rules::refusal_with(code, node, detail, Record::fresh(0, 0, 0, 0))
}

// A table of m nodes and r slots with the edges of two lists, and its record.
// Refused: 1, 11, 12, 13.
// Kept: left and right edges are two lists each, as C lends them (jenturik_load).
pub fn load(
    lefts: &[u32],
    rights: &[u32],
    left: &mut [u16],
    right: &mut [u16],
    colour: &mut [u8],
    m: usize,
    r: usize,
) -> Made
    ensures colour_value { leaves result left.new right.new colour.new
        ≡ load m r (lefts.now ∷ rights.now ∷ []) (left.old ∷ right.old ∷ []) colour.old }
    ensures changed_value { result.changed ≡ 0 }
{
    if !size_ok(
        m,
        r,
        lefts.len(),
        rights.len(),
        left.len(),
        right.len(),
        colour.len(),
    ) {
        return refused(1, 0, 0);
    }
    if let Some(n) = first_bad(lefts, rights, m as u32) {
        return refused(11, n as u16, bad_side(lefts, m as u32, n));
    }
    load_good(lefts, rights, left, right, colour, m as u16, r as u16)
}
