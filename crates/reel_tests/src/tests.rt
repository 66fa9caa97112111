use calls::answers::{Answer, Call};
use calls::faults::PictureFault;
use motion::vectors::Vector;
use pictures::{Format, Store};
use reel::memory::Memory;
use reel::reels::Reel;
use replay::{Stage, replay};
use std::alloc::Global;
use std::test::Fail;
use stores::ByteStore;
use transform::TwoPass;

// A store of a format, of zeros, made by the format's number over memory that suffices.
fn store(heap: Global, format: Format) -> Result<ByteStore, Fail> {
    let memory = vec![in heap; 0u8; format.samples()]?;
    Ok(ByteStore::new(u8::from(format), memory))
}

// The parts of a memory.
#[derive(Clone, Copy, PartialEq, Eq)]
enum Part {
    Finished,
    Working,
    FinishedAges,
    WorkingAges,
    Vectors,
    Marks,
}

// One of two values.
fn either<X: Copy>(first: bool, one: X, other: X) -> X {
    if first { one } else { other }
}

// A memory of sub-QCIF, of zeros and absent marks, in which one part may have another size.
fn memory_but(heap: Global, wrong: Option<Part>) -> Result<Memory<ByteStore>, Fail> {
    let is = |part| wrong == Some(part);
    Ok(Memory {
        finished: store(
            heap,
            either(is(Part::Finished), Format::Qcif, Format::SubQcif),
        )?,
        working: store(
            heap,
            either(is(Part::Working), Format::Cif, Format::SubQcif),
        )?,
        finished_ages: vec![in heap; 0u8; either(is(Part::FinishedAges), 49, 48)]?,
        working_ages: vec![in heap; 0u8; either(is(Part::WorkingAges), 47, 48)]?,
        vectors: vec![in heap; Vector::default(); either(is(Part::Vectors), 49, 48)]?,
        marks: vec![in heap; None; either(is(Part::Marks), 47, 48)]?,
    })
}

// The number of a refusal. The numbers are what is under test, and so refusals are compared by them.
fn number_of(fault: PictureFault) -> u8 {
    fault.refusal().number
}

// What a question is answered: its value, or the number of the refusal.
fn answer_of(found: Result<u8, PictureFault>) -> Result<u8, u8> {
    found.map_err(number_of)
}

fn new_reel() -> Result<Reel, Fail> {
    match Reel::new(1) {
        Ok(reel) => Ok(reel),
        Err(_) => Err(Fail::new("a new reel is refused")),
    }
}

// The number that a delivery over a memory is refused with, if it is, on a slip that is opened and handed in over another. (Reel and memories are passed
// apart here and below, as the calls under test take them.)
fn refused_delivery(
    reel: Reel,
    right: &mut Memory<ByteStore>,
    wrong: &mut Memory<ByteStore>,
) -> (Reel, Option<u8>) {
    match reel.open(right, 0, 0, 1) {
        Ok((slip, _)) => {
            let (slip, given) = slip.deliver(wrong, &TwoPass, 0, b"");
            match slip.close(right) {
                Ok((reel, _)) => (reel, given.err().map(number_of)),
                Err(_) => unreachable(),
            }
        }
        Err((reel, _)) => (reel, None),
    }
}

// The number that a closing over a memory is refused with, if it is; the slip that it hands back is closed over another, with these marks. A refused
// opening has no marks.
fn refused_closing(
    reel: Reel,
    right: &mut Memory<ByteStore>,
    wrong: &mut Memory<ByteStore>,
) -> (Option<u8>, Option<u32>) {
    match reel.open(right, 0, 0, 1) {
        Ok((slip, _)) => match slip.close(wrong) {
            Ok((_, marks)) => (None, Some(marks)),
            Err((slip, fault)) => match slip.close(right) {
                Ok((_, marks)) => (Some(number_of(fault)), Some(marks)),
                Err(_) => unreachable(),
            },
        },
        Err((_, fault)) => (Some(number_of(fault)), None),
    }
}

// Opens an INTRA picture and closes it with nothing delivered: the reel, and the number of the refusal, if it is refused.
fn pass_picture(reel: Reel, memory: &mut Memory<ByteStore>) -> (Reel, Option<u8>) {
    match reel.open(memory, 0, 0, 1) {
        Ok((slip, _)) => match slip.close(memory) {
            Ok((reel, _)) => (reel, None),
            Err(_) => unreachable(),
        },
        Err((reel, fault)) => (reel, Some(number_of(fault))),
    }
}

// Each of the six parts in a wrong size refuses each call that is given it, with the number 2, and the slip that closing hands back is closed then.
#[test]
fn wrong_sizes(rt: HostRuntime) -> Result<(), Fail> {
    let heap = rt.alloc();
    for part in [
        Part::Finished,
        Part::Working,
        Part::FinishedAges,
        Part::WorkingAges,
        Part::Vectors,
        Part::Marks,
    ] {
        let mut right = memory_but(heap, None)?;
        let mut wrong = memory_but(heap, Some(part))?;
        let (reel, opening) = pass_picture(new_reel()?, &mut wrong);
        assert_eq!(rt; opening, Some(2));
        let (reel, delivery) = refused_delivery(reel, &mut right, &mut wrong);
        assert_eq!(rt; delivery, Some(2));
        assert_eq!(rt;
            refused_closing(reel, &mut right, &mut wrong),
            (Some(2), Some(0))
        );
    }
    Ok(())
}

// The answers to both questions on an open slip, over a memory with right and one with wrong sizes; the slip is handed in at the end.
fn answers_while_open(
    reel: Reel,
    right: &mut Memory<ByteStore>,
    wrong: &Memory<ByteStore>,
) -> [Result<u8, u8>; 4] {
    match reel.open(right, 1, 1, 1) {
        Ok((slip, _)) => {
            let answers = [
                answer_of(slip.reel().sample(&right.finished, 0, 127, 95)),
                answer_of(slip.reel().sample(&wrong.finished, 0, 0, 0)),
                answer_of(slip.reel().age(&right.finished_ages, 7, 5)),
                answer_of(slip.reel().age(&wrong.finished_ages, 0, 0)),
            ];
            match slip.close(right) {
                Ok(_) => answers,
                Err(_) => unreachable(),
            }
        }
        Err((_, fault)) => [Err(number_of(fault)); 4],
    }
}

// The questions are put of the finished store and of the finished ages alone, at rest and while a picture is open.
#[test]
fn questions_of_wrong_size(rt: HostRuntime) -> Result<(), Fail> {
    let heap = rt.alloc();
    let mut right = memory_but(heap, None)?;
    let store = memory_but(heap, Some(Part::Finished))?;
    let ages = memory_but(heap, Some(Part::FinishedAges))?;
    let (reel, _) = pass_picture(new_reel()?, &mut right);
    assert_eq!(rt;
        answer_of(reel.sample(&right.finished, 0, 127, 95)),
        Ok(128)
    );
    assert_eq!(rt; answer_of(reel.sample(&ages.finished, 0, 127, 95)), Ok(0));
    assert_eq!(rt; answer_of(reel.sample(&store.finished, 0, 127, 95)), Err(2));
    assert_eq!(rt; answer_of(reel.age(&right.finished_ages, 7, 5)), Ok(255));
    assert_eq!(rt; answer_of(reel.age(&store.finished_ages, 7, 5)), Ok(0));
    assert_eq!(rt; answer_of(reel.age(&ages.finished_ages, 7, 5)), Err(2));
    assert_eq!(rt; answer_of(reel.age(&right.finished_ages, 8, 5)), Err(18));
    assert_eq!(rt; answer_of(reel.sample(&right.finished, 256, 0, 0)), Err(18));
    let wrong = Memory {
        finished: store.finished,
        ..ages
    };
    assert_eq!(rt;
        answers_while_open(reel, &mut right, &wrong),
        [Ok(128), Err(2), Ok(255), Err(2)]
    );
    Ok(())
}

// The reel opens 60,000 pictures and no more; those that were refused do not count.
#[test]
fn picture_limit(rt: HostRuntime) -> Result<(), Fail> {
    let mut memory = memory_but(rt.alloc(), None)?;
    let mut reel = new_reel()?;
    let mut accepted = 0u32;
    for _ in 0..60_002 {
        let (rested, number) = pass_picture(reel, &mut memory);
        reel = rested;
        accepted = accepted.saturating_add(u32::from(number.is_none()));
    }
    let (_, number) = pass_picture(reel, &mut memory);
    assert_eq!(rt; accepted, 60_000);
    assert_eq!(rt; number, Some(3));
    Ok(())
}

// Makes a list of calls on a reel, with room for some answers. A picture that is left open is closed then. (Over a memory that has not the reel's size none
// is made, since its slip could not be handed in.)
fn replay_in(
    reel: Reel,
    memory: &mut Memory<ByteStore>,
    calls: &[Call<&[u8]>],
    room: &mut [Answer],
) -> bool {
    if !memory.fits(reel.format()) {
        return false;
    }
    match replay(Stage::Resting(reel), memory, &TwoPass, calls, room) {
        Stage::Resting(_) => true,
        Stage::Open(slip) => match slip.close(memory) {
            Ok(_) => true,
            Err(_) => unreachable(),
        },
    }
}

// The calls of a list are made as far as there is room for their answers, and room behind them stays as it was.
#[test]
fn room_for_answers(rt: HostRuntime) -> Result<(), Fail> {
    let heap = rt.alloc();
    let calls = [
        Call::Open {
            kind: 0,
            rounding: 0,
            layout: 1,
        },
        Call::Open {
            kind: 0,
            rounding: 0,
            layout: 1,
        },
        Call::Close,
        Call::Age { column: 0, row: 0 },
    ];
    let mut memory = memory_but(heap, None)?;
    let mut few = [Answer::Age(7); 2];
    assert!(rt; replay_in(new_reel()?, &mut memory, &calls, &mut few));
    assert!(rt; matches!(few, [Answer::Opened { segments: 1 }, Answer::OutOfTurn]));
    let mut many = [Answer::Age(7); 5];
    assert!(rt; replay_in(new_reel()?, &mut memory, &calls, &mut many));
    assert!(rt;
        matches!(
            many,
            [
                Answer::Opened { segments: 1 },
                Answer::OutOfTurn,
                Answer::Closed { marks: 0 },
                Answer::Age(255),
                Answer::Age(7),
            ]
        )
    );
    Ok(())
}
