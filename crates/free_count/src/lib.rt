// Free count: how many nodes are free, as the record has it. Nothing is written.
#![tactic(auto)]

ghost use Rattle.std.specs.Prelude.{◌≡◌};
ghost use Rattle.rules.specs.Lent.{given};
ghost use Rattle.rules.specs.FreeCount.{free_count};

use rules::{Answer, Record};

// How many nodes are free; the free chain is not walked. Refused: 1, 2.
pub fn free_count(left: &[u16], right: &[u16], colour: &[u8], x: Record) -> Answer
    ensures { result ≡ free_count (given left.now right.now colour.now x) }
{
    let code = rules::check(left.len(), right.len(), colour.len(), x);
    if code != 0 {
        return Answer::refused(code, 0);
    }
    Answer::Counted(x.free)
}
