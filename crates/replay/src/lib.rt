// Lists of calls on a reel, and the law that holds over every such list.
#![tactic(auto)]

ghost use Rattle.std.specs.Prelude.{◌≡◌, false, drop, length, take};
ghost use Rattle.calls.specs.Held.{fits};
ghost use Rattle.calls.specs.Laws.{LawOverRuns, granted};
ghost use Rattle.calls.specs.Runs.{call_of};
ghost use Rattle.reel.specs.Memories.{held_in};
ghost use Rattle.replay.specs.Stages.{NoneWrites, Replayed, answer_to, close_turn, format_of, open_turn, reel_of, reply_to, spent_of, state_after, state_of, with_room, writes};

use calls::answers::{Answer, Call};
use calls::faults::PictureFault;
use pictures::Store;
use reel::memory::Memory;
use reel::reels::{Reel, Slip};
use transform::Transform;

// A reel rests, or has a picture open.
pub enum Stage {
    Resting(Reel),
    Open(Slip),
}

impl Stage {
    // The reel, at rest or while a picture is open.
    pub fn reel(&self) -> &Reel
        ensures { result.now ≡ reel_of self.now }
    {
        match self {
            Stage::Resting(reel) => reel,
            Stage::Open(slip) => slip.reel(),
        }
    }
}

// What an opening gives, as a stage and an answer.
fn open_turn(given: Result<(Slip, u32), (Reel, PictureFault)>) -> (Stage, Answer)
    ensures { result ≡ open_turn given }
{
    match given {
        Ok((slip, segments)) => (Stage::Open(slip), Answer::Opened { segments }),
        Err((reel, fault)) => (Stage::Resting(reel), Answer::Refused(fault)),
    }
}

// What a closing gives. It goes the other way, and so is no case of one function with the opening.
fn close_turn(given: Result<(Reel, u32), (Slip, PictureFault)>) -> (Stage, Answer)
    ensures { result ≡ close_turn given }
{
    match given {
        Ok((reel, marks)) => (Stage::Resting(reel), Answer::Closed { marks }),
        Err((slip, fault)) => (Stage::Open(slip), Answer::Refused(fault)),
    }
}

// The answer to a call that leaves the stage as it is: what it was granted, or its refusal.
fn answer_to(given: Result<Answer, PictureFault>) -> Answer
    ensures { result ≡ answer_to given }
{
    given.unwrap_or_else(Answer::Refused)
}

// Makes a call where it is in turn. One that is refused or out of turn leaves the very stage, and only an accepted delivery or closing writes to the memory.
pub fn step<S: Store, T: Transform>(
    stage: Stage,
    memory: &mut Memory<S>,
    transform: &T,
    call: &Call<&[u8]>,
) -> (Stage, Answer)
    ensures state { state_of result.0 (held_in S.picture memory.new) ≡ state_after (T.meaning transform.now) stage (held_in S.picture memory.old) (call_of call.now) }
    ensures answer { result.1 ≡ reply_to (T.meaning transform.now) stage (held_in S.picture memory.old) (call_of call.now) }
    ensures format { format_of result.0 ≡ format_of stage }
    ensures unspent { spent_of stage ≡ false → spent_of result.0 ≡ false }
    ensures stays { granted result.1 ≡ false → result.0 ≡ stage }
    ensures untouched { writes result.1 ≡ false → memory.new ≡ memory.old }
{
    match (stage, call) {
        (
            Stage::Resting(reel),
            Call::Open {
                kind,
                rounding,
                layout,
            },
        ) => { open_turn(reel.open(memory, *kind, *rounding, *layout)) }
        (Stage::Open(slip), Call::Deliver { segment, bytes }) => {
            let (slip, given) = slip.deliver(memory, transform, *segment, bytes);
            (Stage::Open(slip), answer_to(given.map(Answer::Delivered)))
        }
        (Stage::Open(slip), Call::Close) => close_turn(slip.close(memory)),
        (
            stage,
            Call::Sample {
                plane,
                across,
                down,
            },
        ) => {
            let given = stage
                .reel()
                .sample(&memory.finished, *plane, *across, *down);
            (stage, answer_to(given.map(Answer::Sample)))
        }
        (stage, Call::Age { column, row }) => {
            let given = stage.reel().age(&memory.finished_ages, *column, *row);
            (stage, answer_to(given.map(Answer::Age)))
        }
        (stage, _) => (stage, Answer::OutOfTurn),
    }
}

// The calls for whose answers there is room.
fn with_room<'a, 'b>(calls: &'a [Call<&'b [u8]>], answers: &[Answer]) -> &'a [Call<&'b [u8]>]
    ensures { result.now ≡ take (length answers.now) calls.now }
{
    &calls[..calls.len().min(answers.len())]
}

// Makes the calls of a list, in order, as far as there is room for their answers, and lays the answers to the front of that room; what lies behind them stays.
// No call with room is left out, whatever happens: nothing is asked for here that may be lacking.
pub fn replay<S: Store, T: Transform>(
    stage: Stage,
    memory: &mut Memory<S>,
    transform: &T,
    calls: &[Call<&[u8]>],
    answers: &mut [Answer],
) -> Stage
    ensures runs { Replayed (T.meaning transform.now) stage (held_in S.picture memory.old) (with_room answers.old calls.now) result (held_in S.picture memory.new) (take (length calls.now) answers.new) }
    ensures rest { drop (length calls.now) answers.new ≡ drop (length calls.now) answers.old }
    ensures untouched { NoneWrites (take (length calls.now) answers.new) → memory.new ≡ memory.old }
    ensures format { format_of result ≡ format_of stage }
    ensures size { fits (format_of stage) (held_in S.picture memory.new) ≡ fits (format_of stage) (held_in S.picture memory.old) }
    ensures law { LawOverRuns }
{
    let made = with_room(calls, answers);
    let mut stage = stage;
    for (index, call) in made.iter().enumerate() {
        let (next, answer) = step(stage, memory, transform, call);
        stage = next;
        answers[index] = answer;
    }
    stage
}
