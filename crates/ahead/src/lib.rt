// Many collector steps at once: the laws by which a run of steps is one stride are in proofs/.
#![tactic(auto)]

use rules::Record;

// Steps made, how many colours they changed in all, and the record after them.
#[derive(Clone, Copy)]
pub struct Ahead {
    pub d: usize,
    pub changed: usize,
    pub rec: Record,
}
