// In use: how many nodes slots reach at the moment of asking. Nothing is written.
#![tactic(auto)]

ghost use Rattle.std.specs.Prelude.{◌≡◌, List, [], ◌∷◌, ℕ, ◌<◌, ◌≤◌, length, true};
ghost use Rattle.rules.specs.Table.{most_nodes, bad_edge};
ghost use Rattle.rules.specs.Lent.{given};
ghost use Rattle.rules.specs.Meet.{meet, any_edge, first_side};
ghost use Rattle.rules.specs.InUse.{count_met, in_use};
ghost use Rattle.meet.specs.Edges.{edges};

use meet::{FEW_NODES, Graph};
use rules::{Answer, MOST_NODES, Record};

// The side of the first bad edge of node n, which has one.
// Kept: `bad_side` of Load is the same of 32-bit edges by another test; one function for both is no
// plainer, since it takes the test as a closure and serves one call in each crate.
fn hurt_side(left: &[u16], m: u16, n: u16) -> u8
    requires { n < length left.now }
    ensures { (right : List ℕ) → true ≡ any_edge (bad_edge m) (left.now ∷ right ∷ []) n
        → result ≡ first_side (bad_edge m) (left.now ∷ right ∷ []) n }
{
    if table::bad_edge(m, left[usize::from(n)]) {
        rules::LEFT
    } else {
        rules::RIGHT
    }
}

// What is answered of a table that passes its test, with N marks.
// Kept: the marks are an array of N, since there is no heap; `as`, since the number
// is proved to fit.
fn count_in<const N: usize>(graph: Graph) -> Answer
    requires m_in_bounds { graph.m ≤ N }
    requires n_le_most_nodes { N ≤ most_nodes }
    ensures { result ≡ count_met graph.entry.m graph.entry.r
        (edges graph.entry) (meet graph.entry.m graph.entry.r (edges graph.entry)) }
{
    let mut marks = [0; N];
    let met = meet::meet(graph, &mut marks);
    match met.hurt {
        Some(n) => Answer::refused_with(7, n, hurt_side(graph.left, graph.m, n)),
        None => Answer::Counted(met.tail as u16 - (graph.r + 2)),
    }
}

// The same; a table of few nodes has no more marks cleared than it may need.
fn count(graph: Graph) -> Answer
    ensures { result ≡ count_met graph.entry.m graph.entry.r
        (edges graph.entry) (meet graph.entry.m graph.entry.r (edges graph.entry)) }
{
    if usize::from(graph.m) <= FEW_NODES {
        return count_in::<FEW_NODES>(graph);
    }
    count_in::<MOST_NODES>(graph)
}

// How many nodes some slot reaches, NIL and the slots' nodes left out.
// Refused: 1, 2, 7.
pub fn in_use(left: &[u16], right: &[u16], colour: &[u8], x: Record) -> Answer
    ensures { result ≡ in_use (given left.now right.now colour.now x) }
{
    let code = rules::check(left.len(), right.len(), colour.len(), x);
    if code != 0 {
        return Answer::refused(code, 0);
    }
    count(Graph {
        left,
        right,
        m: x.m,
        r: x.r,
    })
}
