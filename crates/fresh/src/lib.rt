// Fresh: a table with every node white and the free list in rising order, and its record.
#![tactic(auto)]

ghost use Rattle.std.specs.Prelude.{◌≡◌, [], ◌∷◌, ◌++◌, ◌+◌, ◌-◌, ◌≤◌, length, drop};
ghost use Rattle.rules.specs.Table.{most_slots, state};
ghost use Rattle.rules.specs.Records.{fresh_record};
ghost use Rattle.rules.specs.Fresh.{tabulate, next_free, fresh_left, no_edge, all_white};
ghost use Rattle.rules.specs.Fresh.{fresh_last, fresh_state, fresh};
ghost use Rattle.rules.specs.Lent.{leaves};

use rules::{Answer, Made, Record};

// Links the free nodes, from the last down to the first: each leads to the one written before it,
// the last to NIL. The first is returned; 0 if none is free.
fn link_free(left: &mut [u16], m: u16, r: u16) -> u16
    requires left_len { length left.old ≡ m }
    requires r_bound { r + 2 ≤ m }
    ensures value { result ≡ next_free m (r + 1) }
    ensures left_value { tabulate (fresh_left m r) (r + 2) ++ drop (r + 2) left.new
        ≡ tabulate (fresh_left m r) m }
{
    let roots = r + 2;
    if m <= roots {
        return 0;
    }
    let mut node = m - 1;
    let last = usize::from(node);
    left[last] = 0;
    // Kept: tried: a `for` over `(r + 2..m).rev()` makes no vector stores: at M = 4,096 Fresh then
    // takes 2,411 ns in place of 356.
    while roots < node {
        let next = node;
        node -= 1;
        left[usize::from(node)] = next;
    }
    node
}

// Clears the first n edges.
fn clear(edges: &mut [u16], n: u16)
    requires { n ≤ length edges.old }
    ensures { edges.new ≡ tabulate no_edge n ++ drop n edges.old }
{
    for i in (0..usize::from(n)).rev() {
        edges[i] = 0;
    }
}

// Makes every node white.
pub fn whiten(colour: &mut [u8])
    ensures { colour.new ≡ tabulate all_white (length colour.old) }
{
    for n in (0..colour.len()).rev() {
        colour[n] = 0;
    }
}

// Writes every node, from the top. FREE leads to the first free node; to NIL if none is free.
// Kept: three slices: a struct of three `&mut` slices would need a clause that it lends the same
// ones afterwards, as `SameSlices` of session is, and jenturik_fresh lends them one by one.
fn fill(left: &mut [u16], right: &mut [u16], colour: &mut [u8], m: u16, r: u16)
    requires left_len { length left.old ≡ m }
    requires right_len { length right.old ≡ m }
    requires colour_len { length colour.old ≡ m }
    requires r_bound { r + 2 ≤ m }
    ensures { state left.new right.new colour.new
        (fresh_record m r (fresh_last m r) (m - (r + 2)))
        ≡ fresh_state 2 m r }
{
    let first = link_free(left, m, r);
    clear(left, r + 2);
    left[1] = first;
    clear(right, m);
    whiten(colour);
}

// The last free node, or FREE.
// Kept: FREE where the list is empty, as `fresh_last`, `last_ok` and the words of C have it.
fn last_of(m: u16, r: u16) -> u16
    requires le_m { 3 ≤ m }
    requires r_le_most_slots { r ≤ most_slots }
    ensures { result ≡ fresh_last m r }
{
    if r + 2 < m { m - 1 } else { 1 }
}

// A fresh table of m nodes and r slots, and its record. Refused: 1.
pub fn fresh(left: &mut [u16], right: &mut [u16], colour: &mut [u8], m: usize, r: usize) -> Made
    ensures colour_value { leaves result left.new right.new colour.new
        ≡ fresh m r (left.old ∷ right.old ∷ []) colour.old }
    ensures changed_value { result.changed ≡ 0 }
{
    if !rules::size_ok(m, r, left.len(), right.len(), colour.len()) {
        return rules::refusal(1, 0, Record::fresh(0, 0, 0, 0));
    }
    // Kept: `as`: `size_ok` has judged both numbers, and they are proved to fit.
    let nodes = m as u16;
    let slots = r as u16;
    fill(left, right, colour, nodes, slots);
    let last = last_of(nodes, slots);
    let free = nodes - (slots + 2);
    Made {
        answer: Answer::Started(last),
        changed: 0,
        rec: Record::fresh(nodes, slots, last, free),
    }
}
