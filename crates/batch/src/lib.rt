// Many collector steps in one call: what is judged at each step is judged once, and runs of steps
// are made at once.
#![tactic(auto)]

ghost use Rattle.std.specs.Prelude.{◌≡◌, ◌+◌, ◌<◌, ◌≤◌};
ghost use Rattle.rules.specs.Table.{most_slots, refused, state};
ghost use Rattle.rules.specs.Check.{bound};
ghost use Rattle.rules.specs.Schedules.{schedule, collects};
ghost use Rattle.rules.specs.Changes.{changes_all};
ghost use Rattle.rules.specs.declared.Answer.TheVariants.{Named};
ghost use Rattle.ahead.specs.Leads.{lasted, more, Passes, Room, Leads};
ghost use Rattle.batch.specs.Last.{many, last_answer};
ghost use Rattle.batch.specs.StrideAndStep.{StrideAndStep};
ghost use Rattle.rules.specs.Lent.{given};

use ahead::Ahead;
use rules::{Answer, Phase, Record};

// How many steps were done, what the last one answered, or the one that was refused, how many
// colours they changed in all, and the record.
#[derive(Clone, Copy)]
pub struct Many {
    pub done: usize,
    pub answer: Answer,
    pub changed: usize,
    pub rec: Record,
}

// At most cap steps of the record's phase at once.
// Kept: three slices and a record, also below: a struct of three `&mut` slices would need a clause
// in each function that it lends the same ones afterwards, as `SameSlices` of session is, and
// jenturik_collect_many lends them one by one.
fn stride(left: &mut [u16], right: &mut [u16], colour: &mut [u8], x: Record, cap: usize) -> Ahead
    requires passes { Passes (state left.old right.old colour.old x) }
    requires room { Room x cap }
    ensures { (result.d ≤ cap) × Leads (given left.old right.old colour.old x) result.d
        result.changed
        (state left.new right.new colour.new result.rec) }
{
    let none = Ahead {
        d: 0,
        changed: 0,
        rec: x,
    };
    if cap == 0 {
        return none;
    }
    match x.phase {
        Phase::Roots(i) => in_order::roots(left, right, colour, x, i, cap),
        Phase::Scan(i, k) => scanning::scans(left, right, colour, x, i, k, cap),
        Phase::Append(i) => in_order::appends(left, right, colour, x, i, cap),
        _ => none,
    }
}

// At most most steps at once, and then one.
fn stride_and_step(
    left: &mut [u16],
    right: &mut [u16],
    colour: &mut [u8],
    x: Record,
    b: u32,
    most: usize,
) -> Many
    requires passes { Passes (state left.old right.old colour.old x) }
    requires b_value { b ≡ bound 2 x.m x.r }
    ensures { (result.done ≤ most) × StrideAndStep b (given left.old right.old colour.old x)
        result.done
        result.changed result.answer (state left.new right.new colour.new result.rec) }
{
    // Kept: `as`: there is no `From<u32>` for `usize`.
    let near = b - 1 - x.steps;
    let ahead = stride(left, right, colour, x, most.min(near as usize));
    let made = collector::phase_step(left, right, colour, ahead.rec, ahead.rec.phase);
    Many {
        done: ahead.d,
        answer: made.answer,
        changed: ahead.changed + usize::from(made.changed),
        rec: made.rec,
    }
}

// The answer of a run that stands at a record with a count past its limit: code 2 where a step is
// still to be made.
fn ended(done: usize, n: usize, a: Answer) -> Answer
    ensures { (done < n → result ≡ refused 2 0) × (n ≤ done → result ≡ a) }
{
    if done < n { Answer::refused(2, 0) } else { a }
}

// n steps, from a record that passes.
pub fn all_steps(
    left: &mut [u16],
    right: &mut [u16],
    colour: &mut [u8],
    x: Record,
    b: u32,
    n: usize,
) -> Many
    requires passes { Passes (state left.old right.old colour.old x) }
    requires b_value { b ≡ bound 2 x.m x.r }
    ensures rec_value { lasted result.done result.answer (state left.new right.new colour.new
        result.rec)
        ≡ more n 0 (Named 0) (given left.old right.old colour.old x) }
    ensures changed_value { result.changed
        ≡ changes_all (collects n) (given left.old right.old colour.old x) }
{
    let mut rec = x;
    let mut answer = Answer::Named(0);
    let mut done = 0;
    let mut changed = 0;
    // Kept: a `while`: a turn makes as many steps as its stride has, so no range counts them.
    while done < n {
        let gone = stride_and_step(left, right, colour, rec, b, n - done - 1);
        rec = gone.rec;
        answer = gone.answer;
        done += gone.done;
        changed += gone.changed;
        // Kept: by its number, as the definition `more` goes by `code_of`.
        if answer.code() != 0 {
            break;
        }
        done += 1;
        if !rules::in_limits(rec, b) {
            answer = ended(done, n, answer);
            break;
        }
    }
    Many {
        done,
        answer,
        changed,
        rec,
    }
}

// n steps of the collector, or as many as are done before one is refused.
pub fn collect_many(
    left: &mut [u16],
    right: &mut [u16],
    colour: &mut [u8],
    x: Record,
    n: usize,
) -> Many
    ensures colour_value { (many result left.new right.new colour.new
        ≡ schedule (collects n) (given left.old right.old colour.old x)) × (result.answer
        ≡ last_answer n (given left.old right.old colour.old x)) }
    ensures changed_value { result.changed
        ≡ changes_all (collects n) (given left.old right.old colour.old x) }
{
    let code = rules::check(left.len(), right.len(), colour.len(), x);
    // Kept: a number, as `check` of rules answers it (docs/RULES.md, Codes).
    if code != 0 {
        return Many {
            done: 0,
            answer: Answer::refused(code, 0),
            changed: 0,
            rec: x,
        };
    }
    all_steps(left, right, colour, x, rules::bound(x.m, x.r), n)
}
