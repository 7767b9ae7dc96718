// What slots reach, in the order met: one primitive for whoever asks for it.
#![tactic(auto)]

ghost use Rattle.std.specs.Prelude.{◌≡◌, [], ◌∷◌, ℕ, ◌+◌, ◌-◌, ◌<◌, ◌≤◌, length, get_or};
ghost use Rattle.base.specs.Choice.{pick};
ghost use Rattle.rules.specs.Table.{most_nodes, most_slots, bad_edge};
ghost use Rattle.rules.specs.Meet.{Met, met, blank, visit, visit_slots, visit_edges};
ghost use Rattle.rules.specs.Meet.{visit_from, meet, any_edge};
ghost use Rattle.meet.specs.Shown.{Shown, Shows, lowest, Hurt, Going, Gone, Told};

// So many nodes are few: whoever is lent no more gives shorter arrays.
pub const FEW_NODES: usize = 512;

// How many entries the queue has at first, and at most: two more than there are nodes.
const FEW: usize = FEW_NODES + 2;

const MANY: usize = rules::MOST_NODES + 2;

// The edges of a table of m nodes, the first of them NIL, FREE and those of r slots.
#[derive(Clone, Copy)]
pub struct Graph<'a> {
    pub left: &'a [u16],
    pub right: &'a [u16],
    pub m: u16,
    pub r: u16,
    pub ghost m_le_most_nodes: { m ≤ most_nodes },
    pub ghost r_le_most_slots: { r ≤ most_slots },
    pub ghost r_bound: { r + 2 ≤ m },
    pub ghost left_len: { length left.now ≡ m },
    pub ghost right_len: { length right.now ≡ m },
}

// What is known after a visit: the number that a node gets next, and the lowest node visited that
// has a bad edge, if there is one.
#[derive(Clone, Copy)]
pub struct Visited {
    pub tail: usize,
    pub hurt: Option<u16>,
}

// The same, and the number of the node whose edges come next.
#[derive(Clone, Copy)]
struct Walk {
    next: usize,
    met: Visited,
}

// The lowest of a node and of those before, if there are any.
fn lowest(n: u16, hurt: Option<u16>) -> u16
    ensures { result ≡ lowest n hurt }
{
    match hurt {
        Some(h) => n.min(h),
        None => n,
    }
}

// An edge e of node n is followed. A node that has a number is written behind the queue's end,
// where nothing is read: so no branch is taken by what is met.
// Kept: marks and queue are two slices, here and below, since `visit_many` goes on with a longer
// queue over the same marks.
fn visit(marks: &mut [u8], order: &mut [u16], m: u16, n: u16, e: u16, met: Visited) -> Visited
    requires le_m { 2 ≤ m }
    requires m_in_bounds { m ≤ length marks.old }
    requires tail_in_bounds { met.tail < length order.old }
    requires shows { Shows m marks.old order.old met.tail }
    ensures tail_bound { result.tail ≤ met.tail + 1 }
    ensures hurt_value { result.hurt
        ≡ pick (bad_edge m e) (Some (lowest n met.hurt)) met.hurt }
    ensures shown { (s : Met) → Shown m marks.old order.old met.tail s
        → Shown m marks.new order.new result.tail (visit m e s) }
{
    if e == 0 {
        return met;
    }
    let hurt = met.hurt;
    if table::bad_edge(m, e) {
        return Visited {
            tail: met.tail,
            hurt: Some(lowest(n, hurt)),
        };
    }
    let at = usize::from(e);
    let known = marks[at];
    marks[at] = 1;
    order[met.tail] = e;
    let tail = met.tail + 1 - usize::from(known);
    Visited { tail, hurt }
}

// The nodes that slots name, each at its own number.
fn visit_slots(marks: &mut [u8], order: &mut [u16], m: u16, r: u16)
    requires m_le_most_nodes { m ≤ most_nodes }
    requires r_le_most_slots { r ≤ most_slots }
    requires r_bound { r + 2 ≤ m }
    requires m_in_bounds { m ≤ length marks.old }
    requires r_in_bounds { r + 2 ≤ length order.old }
    requires by_index { (n : ℕ) → get_or marks.old n 0 ≡ 0 }
    ensures { Shown m marks.new order.new (r + 2)
        (visit_slots m r (met blank blank 2)) }
{
    for n in 2..r + 2 {
        marks[usize::from(n)] = 1;
        order[usize::from(n)] = n;
    }
}

// The edges of node n are followed.
fn visit_edges(graph: Graph, marks: &mut [u8], order: &mut [u16], n: u16, met: Visited) -> Visited
    requires n_in_bounds { n < graph.m }
    requires m_in_bounds { graph.m ≤ length marks.old }
    requires tail_in_bounds { met.tail + 1 < length order.old }
    requires shows { Shows graph.m marks.old order.old met.tail }
    ensures tail_bound { result.tail ≤ met.tail + 2 }
    ensures hurt_value { result.hurt
        ≡ pick (any_edge (bad_edge graph.entry.m)
        (graph.entry.left.now ∷ graph.entry.right.now ∷ []) n)
        (Some (lowest n met.hurt)) met.hurt }
    ensures shown { (s : Met) → Shown graph.entry.m marks.old order.old met.tail s
        → Shown graph.entry.m marks.new order.new result.tail
        (visit_edges graph.entry.m (graph.entry.left.now ∷ graph.entry.right.now ∷ []) n s) }
{
    let at = usize::from(n);
    let once = visit(marks, order, graph.m, n, graph.left[at], met);
    visit(marks, order, graph.m, n, graph.right[at], once)
}

// The edges of all nodes from the number start.next on, also of those that get one meanwhile, while
// the queue has room for what a node's edges lead to.
fn visit_rest(graph: Graph, marks: &mut [u8], order: &mut [u16], start: Walk) -> Walk
    requires m_in_bounds { graph.m ≤ length marks.old }
    requires le_next { 2 ≤ start.next }
    requires start_in_bounds { start.met.tail ≤ length order.old }
    requires going { Going graph.m (graph.left.now ∷ graph.right.now ∷ []) marks.old order.old
        start.met.tail start.next start.met.hurt }
    ensures le_next { 2 ≤ result.next }
    ensures tail_in_bounds { result.met.tail ≤ length order.old }
    ensures tail_le_next { graph.entry.m + 2 ≤ length order.old → result.met.tail ≤ result.next }
    ensures gone { (s : Met) → Shown graph.entry.m marks.old order.old start.met.tail s
        → Hurt graph.entry.m (graph.entry.left.now ∷ graph.entry.right.now ∷ []) s start.next
        start.met.hurt
        → Gone graph.entry.m (graph.entry.left.now ∷ graph.entry.right.now ∷ []) start.next s
        marks.new order.new result.met.tail result.next result.met.hurt }
{
    let mut next = start.next;
    let mut met = start.met;
    // Kept: the queue grows while it is read, so that no range or iterator over it is known at
    // first.
    while next < met.tail {
        if order.len() - met.tail < 2 {
            return Walk { next, met };
        }
        let n = order[next];
        met = visit_edges(graph, marks, order, n, met);
        next += 1;
    }
    Walk { next, met }
}

// Copies a queue to the front of a longer one.
fn widen(few: &[u16], order: &mut [u16])
    requires { length few.now ≤ length order.old }
    ensures { (k : ℕ) → k < length few.now → get_or order.new k 0 ≡ get_or few.now k 0 }
{
    // Kept: tried: before `copy_from_slice` all of the longer queue is cleared: In use at M = 1,024
    // (503 nodes in use) then takes 1,665 ns in place of 1,492; at M = 4,096 there is no gain.
    for k in 0..few.len() {
        order[k] = few[k];
    }
}

// The same as `visit_rest` with room for all nodes, so that none is left.
fn visit_many(graph: Graph, marks: &mut [u8], few: &[u16], start: Walk) -> Visited
    requires m_in_bounds { graph.m ≤ length marks.old }
    requires le_next { 2 ≤ start.next }
    requires start_in_bounds { start.met.tail ≤ length few.now }
    requires going { Going graph.m (graph.left.now ∷ graph.right.now ∷ []) marks.old few.now
        start.met.tail start.next start.met.hurt }
    ensures { (s : Met) → Shown graph.entry.m marks.old few.now start.met.tail s
        → Hurt graph.entry.m (graph.entry.left.now ∷ graph.entry.right.now ∷ []) s start.next
        start.met.hurt
        → Told graph.entry.m (graph.entry.left.now ∷ graph.entry.right.now ∷ []) marks.new
        result.tail result.hurt
        (visit_from graph.entry.m (graph.entry.left.now ∷ graph.entry.right.now ∷ [])
        (graph.entry.m - start.next) start.next s) }
{
    let mut order = [0u16; MANY];
    widen(&few[..start.met.tail], &mut order);
    visit_rest(graph, marks, &mut order, start).met
}

// All that the slots reach along good edges: the nodes that have a number are marked. The marks
// are given as zeros. The queue has few entries at first, since it takes longer to clear a long one
// than to follow the edges of a few nodes.
// Kept: `marks` are numbers, as in the definition `is_shared`, and that they are zeros is a clause:
// the caller makes them, of its own length. The queue is an array with a tail beside it, since
// there is no heap.
pub fn meet(graph: Graph, marks: &mut [u8]) -> Visited
    requires m_in_bounds { graph.m ≤ length marks.old }
    requires by_index { (n : ℕ) → get_or marks.old n 0 ≡ 0 }
    ensures { Told graph.entry.m (graph.entry.left.now ∷ graph.entry.right.now ∷ []) marks.new
        result.tail result.hurt
        (meet graph.entry.m graph.entry.r (graph.entry.left.now ∷ graph.entry.right.now ∷ [])) }
{
    let mut few = [0u16; FEW];
    visit_slots(marks, &mut few, graph.m, graph.r);
    let start = Walk {
        next: 2,
        met: Visited {
            tail: usize::from(graph.r) + 2,
            hurt: None,
        },
    };
    let walk = visit_rest(graph, marks, &mut few, start);
    if walk.met.tail <= walk.next {
        return walk.met;
    }
    visit_many(graph, marks, &few, walk)
}
