// The leaves that read and write the node table.
#![tactic(auto)]

ghost use Rattle.std.specs.Prelude.{◌≡◌, ℕ, ◌<◌, List, [], ◌∷◌, length, set};
ghost use Rattle.rules.specs.Table.{state, edge_of, with_edge, bad_edge, shade_in};
ghost use Rattle.rules.specs.Changes.{differing};
ghost use Rattle.rules.specs.declared.Record.{Record};

// [Table 4] The colours of a node.
// Kept: a colour is a byte that the caller of C lends, and code 14 tells of one above 2.
pub const WHITE: u8 = 0;

pub const GRAY: u8 = 1;

pub const BLACK: u8 = 2;

// Whether an edge is bad: at least M, or to FREE.
pub fn bad_edge(m: u16, e: u16) -> bool
    ensures { result ≡ bad_edge m e }
{
    m <= e || e == 1
}

// The edge of node n on a side.
// Kept: a side is a number, as in a step and in C's calls, where code 10 refuses one above 1.
pub fn edge(left: &[u16], right: &[u16], side: u32, n: u16) -> u16
    requires side_bound { side < 2 }
    requires n_in_bounds { n < length left.now }
    requires n_in_bounds_2 { n < length right.now }
    ensures { result ≡ edge_of (left.now ∷ right.now ∷ []) side n }
{
    let at = usize::from(n);
    if side == 0 { left[at] } else { right[at] }
}

// The edge of node n on a side now points to t.
pub fn set_edge(left: &mut [u16], right: &mut [u16], side: u32, n: u16, t: u16)
    requires side_bound { side < 2 }
    requires n_in_bounds { n < length left.old }
    requires n_in_bounds_2 { n < length right.old }
    ensures { (c : List ℕ) (x : Record) → state left.new right.new c x
        ≡ with_edge (state left.old right.old c x) side n t }
{
    let at = usize::from(n);
    if side == 0 {
        left[at] = t;
    } else {
        right[at] = t;
    }
}

// [Changes 1] Node n takes a colour: 1 where it had another one, else 0.
pub fn paint(colour: &mut [u8], n: u16, to: u8) -> u8
    requires { n < length colour.old }
    ensures colour_value { colour.new ≡ set colour.old n to }
    ensures value { result ≡ differing colour.old colour.new }
{
    let at = usize::from(n);
    let changed = u8::from(colour[at] != to);
    colour[at] = to;
    changed
}

// [Table 11] Makes a white node gray: 1 where it was white, else 0.
pub fn shade_node(colour: &mut [u8], n: u16) -> u8
    requires { n < length colour.old }
    ensures colour_value { colour.new ≡ shade_in colour.old n }
    ensures value { result ≡ differing colour.old colour.new }
{
    if colour[usize::from(n)] == WHITE {
        paint(colour, n, GRAY)
    } else {
        0
    }
}
