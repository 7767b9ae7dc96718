// A schedule: steps that are done in order until one is refused.
#![tactic(auto)]

ghost use Rattle.std.specs.Prelude.{◌≡◌, List, ◌∷◌, ◌+◌, ◌<◌, length, drop};
ghost use Rattle.rules.specs.declared.Made.{Made};
ghost use Rattle.rules.specs.declared.Step.{Step};
ghost use Rattle.rules.specs.Table.{state};
ghost use Rattle.rules.specs.Check.{check};
ghost use Rattle.rules.specs.Steps.{step, collecting};
ghost use Rattle.rules.specs.Schedules.{ran, schedule};
ghost use Rattle.rules.specs.Changes.{changes, changes_all};
ghost use Rattle.schedule.specs.Stands.{after, Goes};
ghost use Rattle.rules.specs.Lent.{given, leaves};

use rules::{Made, Phase, Ran, Record, Step};

// The steps of a schedule, whatever they stand in.
// Kept: steps by their place and no iterator: a step of words is made as it is read, and what is
// left of the list from there on is all that the loop needs to know.
pub trait Steps {
    ghost list: { Self → List Step };

    // How many there are: so few that two colours of each can be counted, and two more.
    fn count(&self) -> usize
        ensures value { result ≡ length (list self.now) }
        ensures few { result + result + 2 < 18446744073709551616 };

    // The i-th step: what is left of the list from there on begins with it.
    fn at(&self, i: usize) -> Step
        requires { i < length (list self.now) }
        ensures { drop i (list self.now) ≡ result ∷ drop (i + 1) (list self.now) };
}

impl<'a> Steps for &'a [Step] {
    ghost list = { λ s. s.now };

    fn count(&self) -> usize {
        self.len()
    }

    fn at(&self, i: usize) -> Step {
        self[i]
    }
}

// After a step: one more is done, or its code ends the run.
// Kept: code 0 tells a step that is done, as the definitions `after` and `follow` have it.
fn after(so_far: Ran, made: Made) -> Ran
    requires done_bound { so_far.done + 1 < 18446744073709551616 }
    requires changed_bound { so_far.changed + made.changed < 18446744073709551616 }
    ensures { result ≡ after so_far made }
{
    let answer = made.answer;
    let code = answer.code();
    if code == 0 {
        Ran {
            done: so_far.done + 1,
            changed: so_far.changed + usize::from(made.changed),
            rec: made.rec,
            ..so_far
        }
    } else {
        Ran {
            code,
            detail: answer.detail(),
            rec: made.rec,
            ..so_far
        }
    }
}

// Kept: slices and record go one by one: a struct of `&mut` slices would need a clause in each
// function that it lends the same ones afterwards, as `SameSlices` of session is. That they pass is
// a clause, since a table and a record from C may be anything. `Goes` speaks of them too.

// The collector's step in the record's phase.
fn in_phase(
    left: &mut [u16],
    right: &mut [u16],
    colour: &mut [u8],
    so_far: Ran,
    phase: Phase,
) -> Ran
    requires goes { Goes so_far (state left.old right.old colour.old so_far.rec) }
    requires value { 0 ≡ check (state left.old right.old colour.old so_far.rec) }
    requires phase_value { phase ≡ so_far.rec.phase }
    ensures { (d : Made) × ((leaves d left.new right.new colour.new
        ≡ step collecting (given left.old right.old colour.old so_far.rec)) × ((d.changed
        ≡ changes collecting (given left.old right.old colour.old so_far.rec))
        × (result ≡ after so_far d))) }
{
    let x = so_far.rec;
    after(so_far, collector::phase_step(left, right, colour, x, phase))
}

// The collector's step.
// Kept: tried, one call for all phases misses the bar of speed: a collector's step of a schedule
// takes 11.1 ns in place of 9.9. Each arm becomes a path of its own up to the next step.
fn any_phase(left: &mut [u16], right: &mut [u16], colour: &mut [u8], so_far: Ran) -> Ran
    requires goes { Goes so_far (state left.old right.old colour.old so_far.rec) }
    requires value { 0 ≡ check (state left.old right.old colour.old so_far.rec) }
    ensures { (d : Made) × ((leaves d left.new right.new colour.new
        ≡ step collecting (given left.old right.old colour.old so_far.rec)) × ((d.changed
        ≡ changes collecting (given left.old right.old colour.old so_far.rec))
        × (result ≡ after so_far d))) }
{
    let x = so_far.rec;
    let phase = x.phase;
    match phase {
        Phase::Roots(i) => in_phase(left, right, colour, so_far, Phase::Roots(i)),
        Phase::Scan(i, k) => in_phase(left, right, colour, so_far, Phase::Scan(i, k)),
        Phase::Left(i) => in_phase(left, right, colour, so_far, Phase::Left(i)),
        Phase::ShadeLeft(i, n) => in_phase(left, right, colour, so_far, Phase::ShadeLeft(i, n)),
        Phase::Right(i) => in_phase(left, right, colour, so_far, Phase::Right(i)),
        Phase::ShadeRight(i, n) => in_phase(left, right, colour, so_far, Phase::ShadeRight(i, n)),
        Phase::Black(i) => in_phase(left, right, colour, so_far, Phase::Black(i)),
        Phase::Append(i) => in_phase(left, right, colour, so_far, Phase::Append(i)),
    }
}

// One step. After the first, only the limits of the counts are judged: no step can break what else
// codes 1 and 2 judge.
fn advance(left: &mut [u16], right: &mut [u16], colour: &mut [u8], so_far: Ran, a: Step) -> Ran
    requires { Goes so_far (state left.old right.old colour.old so_far.rec) }
    ensures { (d : Made) × ((leaves d left.new right.new colour.new
        ≡ step a (given left.old right.old colour.old so_far.rec)) × ((d.changed
        ≡ changes a (given left.old right.old colour.old so_far.rec))
        × (result ≡ after so_far d))) }
{
    let x = so_far.rec;
    if !rules::in_limits(x, rules::bound(x.m, x.r)) {
        return after(so_far, rules::refusal(2, 0, x));
    }
    if a.kind == calls::COLLECT {
        any_phase(left, right, colour, so_far)
    } else {
        after(so_far, calls::step_passed(left, right, colour, x, a))
    }
}

// The steps in order until one is refused: how many were done, the code and its detail, and how
// many colours they changed in all. Codes 1 and 2 are judged first, for no steps too.
pub fn run<S: Steps>(
    steps: &S,
    left: &mut [u16],
    right: &mut [u16],
    colour: &mut [u8],
    rec: Record,
) -> Ran
    ensures colour_value { ran result left.new right.new colour.new
        ≡ schedule (S.list steps.now) (given left.old right.old colour.old rec) }
    ensures changed_value { result.changed
        ≡ changes_all (S.list steps.now) (given left.old right.old colour.old rec) }
{
    let judged = rules::check(left.len(), right.len(), colour.len(), rec);
    let mut so_far = Ran {
        done: 0,
        code: judged,
        detail: 0,
        changed: 0,
        rec,
    };
    if judged != 0 {
        return so_far;
    }
    for i in 0..steps.count() {
        so_far = advance(left, right, colour, so_far, steps.at(i));
        if so_far.code != 0 {
            return so_far;
        }
    }
    so_far
}

// The same of a lent run of steps.
pub fn schedule(
    steps: &[Step],
    left: &mut [u16],
    right: &mut [u16],
    colour: &mut [u8],
    rec: Record,
) -> Ran
    ensures { (ran result left.new right.new colour.new
        ≡ schedule steps.now (given left.old right.old colour.old rec)) × (result.changed
        ≡ changes_all steps.now (given left.old right.old colour.old rec)) }
{
    run(&steps, left, right, colour, rec)
}
