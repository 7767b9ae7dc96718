// The collector for a frame loop: the record is lent, and changed in place.
#![tactic(auto)]

ghost use Rattle.std.specs.Prelude.{◌≡◌};
ghost use Rattle.rules.specs.Table.{outcome};
ghost use Rattle.rules.specs.Steps.{step, collecting};
ghost use Rattle.rules.specs.Changes.{changes};
ghost use Rattle.rules.specs.Lent.{given};

use rules::{Record, Told};

// Kept: slices and record go one by one, as `collector::collect` takes them, and no `From` makes
// `rules::Told` of a `Made`, since this is the one place that needs it.

// [Calls 4] One step of the collector, as `collector::collect` does it.
pub fn collect_in_place(
    left: &mut [u16],
    right: &mut [u16],
    colour: &mut [u8],
    rec: &mut Record,
) -> Told
    ensures { (outcome (record { answer = result.answer; changed = result.changed; rec = rec.new })
        left.new right.new colour.new
        ≡ step collecting (given left.old right.old colour.old rec.old)) × (result.changed
        ≡ changes collecting (given left.old right.old colour.old rec.old)) }
{
    let c = collector::collect(left, right, colour, *rec);
    *rec = c.rec;
    Told {
        answer: c.answer,
        changed: c.changed,
    }
}
