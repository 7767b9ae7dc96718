// Places and walks; the codes that a place, a side and a shade owed give; the source of a step that
// changes an edge.
#![tactic(auto)]

ghost use Rattle.std.specs.Prelude.{◌≡◌, [], ◌∷◌, ◌+◌, ◌<◌, ◌≤◌, length};
ghost use Rattle.rules.specs.Table.{most_nodes, edge_of};
ghost use Rattle.rules.specs.Places.{turns_ok, place_code, start, walk_from};
ghost use Rattle.rules.specs.Editor.{side_code, owed_code};
ghost use Rattle.places.specs.Sources.{edit_code, missed, source_of};

use rules::{Damaged, Place, Record};

// Why a step that changes an edge has no source: a code, a node and a detail.
// Kept: code and detail are numbers, as `rules::refusal_with` takes them.
#[derive(Clone, Copy)]
pub struct Refusal {
    pub code: u8,
    pub node: u16,
    pub detail: u8,
}

// A bad edge on the way refuses the step.
impl From<Damaged> for Refusal {
    ghost from_gives = { λ d r. r ≡ missed d };

    fn from(d: Damaged) -> Refusal {
        let (code, node, detail) = (7, d.node, d.side);
        Refusal { code, node, detail }
    }
}

fn turns_ok(p: Place) -> bool
    ensures { result ≡ turns_ok 2 p }
{
    p.count <= rules::MOST_TURNS && p.word >> p.count == 0
}

// Kept: these codes are numbers, 0 where none is given, as their definitions are, which the clauses
// name; `edit_code` answers the first that is not 0.

// Codes 3 and 4.
#[tactic(auto, unfolding(base::specs::Choice::pick, rules::specs::Places::place_code))]
pub fn place_code(r: u16, p: Place) -> u8
    ensures { result ≡ place_code 2 r p }
{
    if u32::from(r) <= p.slot {
        return 3;
    }
    if !turns_ok(p) {
        return 4;
    }
    0
}

// Code 10, of a side.
#[tactic(auto, unfolding(base::specs::Choice::pick, rules::specs::Editor::side_code))]
pub fn side_code(side: u32) -> u8
    ensures { result ≡ side_code 2 side }
{
    if 2 <= side {
        return 10;
    }
    0
}

// Code 5.
#[tactic(auto, unfolding(rules::specs::Editor::owed_code))]
pub fn owed_code(owed: Option<u16>) -> u8
    ensures { result ≡ owed_code owed }
{
    match owed {
        None => 0,
        Some(_) => 5,
    }
}

// What refuses a step that changes an edge after codes 1 and 2, before the table is read: 10, 3, 4
// and 5. Between its source's codes and 5 comes another: that of the target's place, 0 where there
// is no target.
pub fn edit_code(x: Record, p: Place, side: u32, target: u8) -> u8
    ensures { result ≡ edit_code x p side target }
{
    let sided = side_code(side);
    if sided != 0 {
        return sided;
    }
    let from = place_code(x.r, p);
    if from != 0 {
        return from;
    }
    if target != 0 {
        return target;
    }
    owed_code(x.owed)
}

// From node start, turn by turn, lowest bit first.
// Kept: two slices and m: a struct of them would be made anew by each call that changes an edge,
// since there the slices are `&mut`.
// Kept: `as`, here and below: each number is proved to fit.
pub fn walk_from(
    left: &[u16],
    right: &[u16],
    m: u16,
    start: u16,
    count: u32,
    word: u32,
) -> Result<u16, Damaged>
    requires start_lt_m { start < m }
    requires left_len { length left.now ≡ m }
    requires right_len { length right.now ≡ m }
    ensures { result ≡ walk_from 2 (edge_of (left.now ∷ right.now ∷ [])) m count word start }
{
    let mut n = start;
    let mut rest = word;
    for _ in 0..count {
        if n == 0 {
            return Ok(0);
        }
        let side = rest % 2;
        let e = table::edge(left, right, side, n);
        if table::bad_edge(m, e) {
            return Err(Damaged {
                node: n,
                side: side as u8,
            });
        }
        n = e;
        rest /= 2;
    }
    Ok(n)
}

// The walk of a place, from its slot's node.
pub fn walk(left: &[u16], right: &[u16], m: u16, p: Place) -> Result<u16, Damaged>
    requires p_bound { start p < m }
    requires m_le_most_nodes { m ≤ most_nodes }
    requires left_len { length left.now ≡ m }
    requires right_len { length right.now ≡ m }
    ensures { result
        ≡ walk_from 2 (edge_of (left.now ∷ right.now ∷ [])) m p.count p.word (start p) }
{
    walk_from(left, right, m, (p.slot + 2) as u16, p.count, p.word)
}

// The way to a source: 7 where an edge on it is bad, 8 where it ends at NIL.
#[tactic(auto, unfolding(base::specs::Choice::pick, crate::specs::Sources::source_of))]
pub fn depart(left: &[u16], right: &[u16], m: u16, p: Place) -> Result<u16, Refusal>
    requires p_bound { start p < m }
    requires m_le_most_nodes { m ≤ most_nodes }
    requires left_len { length left.now ≡ m }
    requires right_len { length right.now ≡ m }
    ensures { result ≡ source_of
        (walk_from 2 (edge_of (left.now ∷ right.now ∷ [])) m p.count p.word (start p)) }
{
    let n = walk(left, right, m, p)?;
    if n == 0 {
        return Err(Refusal {
            code: 8,
            node: 0,
            detail: 0,
        });
    }
    Ok(n)
}
