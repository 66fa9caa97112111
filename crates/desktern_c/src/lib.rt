// Desktern for C: each export makes one call on a reel and tells its answer in numbers. Relies on `reels_in_memory` for the calls. Only a new reel allocates,
// and only giving it back frees.
#![tactic(auto)]

ghost use Rattle.std.specs.Prelude.{◌≡◌, None, Option, length};
ghost use Rattle.std.specs.Borrow.{sem};
ghost use denote.RawPtr.{null_ptr};
ghost use Rattle.calls.specs.declared.answers.Call.TheVariants.{Age as asking_age, Sample as asking_sample, Close as closing, Deliver as delivering, Open as opening};
ghost use Rattle.pictures.specs.Formats.{format_of_number};
ghost use Rattle.handles.specs.Handles.{Answered, ages_behind, finished_behind, slot_owns};
ghost use Rattle.reels_in_memory.specs.Copies.{laid_over, plane_samples, plane_size};
ghost use Rattle.handles.specs.Begun.{Begun, choices_numbered};
ghost use Rattle.handles.specs.declared.handle.ReelHandle.{ReelHandle as Handle};

use calls::answers::Call;
use handles::answer::AnswerNumbers;
use handles::begin::begin;
use handles::calling::release;
use handles::handle::ReelHandle;
use handles::raw_box::RawBox;
use handles::slot::ReelSlot;
use std::alloc::Global;

// Begins a reel, and puts its pointer where `reel` points. Where that is not accepted it leaves the place as it was. (No handle may lie behind it before,
// or that one would be lost; behind a place that C did not fill none does.)
#[unsafe(no_mangle)]
pub extern "C" fn desktern_new(
    heap: Global,
    format: u32,
    store: u32,
    transform: u32,
    reel: &mut ReelSlot,
    answer: &mut AnswerNumbers,
)
    requires { reel.old.handle ≡ None }
    ensures begun { Begun (format_of_number format) (choices_numbered store transform) reel.new.handle answer.new }
    ensures left { reel.new.handle ≡ None → reel.new ≡ reel.old }
{
    match begin(heap, format, store, transform) {
        Ok(raw) => {
            *reel = ReelSlot::of(raw);
            *answer = AnswerNumbers::outcome_accepted(0, 0);
        }
        Err(numbers) => {
            *answer = numbers;
        }
    }
}

// Gives a reel's memory back, and does nothing where there is none: the pointer is null then. A picture that is open is closed first, since a slip has to be
// handed in.
#[unsafe(no_mangle)]
pub unsafe extern "C" fn desktern_free(heap: Global, reel: *mut ReelHandle)
    ghost handle: { Option Handle }
    requires null { handle ≡ None → reel ≡ null_ptr }
    requires* owned { sem 𝓛 (slot_owns reel handle) }
{
    if reel.is_null() {
        return;
    }
    release(RawBox {
        at: reel,
        alloc: heap,
    });
}

// Opens a picture.
#[unsafe(no_mangle)]
pub extern "C" fn desktern_open(
    reel: &mut ReelHandle,
    kind: u32,
    rounding: u32,
    layout: u32,
    answer: &mut AnswerNumbers,
)
    ensures { Answered reel.old (opening kind rounding layout) reel.new answer.new }
{
    *answer = reel.step(&Call::Open {
        kind,
        rounding,
        layout,
    });
}

// Delivers a segment of the open picture.
#[unsafe(no_mangle)]
pub extern "C" fn desktern_deliver(
    reel: &mut ReelHandle,
    segment: u32,
    bytes: &[u8],
    answer: &mut AnswerNumbers,
)
    ensures { Answered reel.old (delivering segment bytes.now) reel.new answer.new }
{
    *answer = reel.step(&Call::Deliver { segment, bytes });
}

// Closes the open picture.
#[unsafe(no_mangle)]
pub extern "C" fn desktern_close(reel: &mut ReelHandle, answer: &mut AnswerNumbers)
    ensures { Answered reel.old closing reel.new answer.new }
{
    *answer = reel.step(&Call::Close);
}

// Asks for a sample of the finished picture.
#[unsafe(no_mangle)]
pub extern "C" fn desktern_sample(
    reel: &mut ReelHandle,
    plane: u32,
    across: u32,
    down: u32,
    answer: &mut AnswerNumbers,
)
    ensures { Answered reel.old (asking_sample plane across down) reel.new answer.new }
{
    *answer = reel.step(&Call::Sample {
        plane,
        across,
        down,
    });
}

// Asks for an age of the finished picture.
#[unsafe(no_mangle)]
pub extern "C" fn desktern_age(
    reel: &mut ReelHandle,
    column: u32,
    row: u32,
    answer: &mut AnswerNumbers,
)
    ensures { Answered reel.old (asking_age column row) reel.new answer.new }
{
    *answer = reel.step(&Call::Age { column, row });
}

// Copies a plane of the finished picture, row by row from the top, and tells how many samples it has. A shorter buffer stays as it is.
#[unsafe(no_mangle)]
pub extern "C" fn desktern_plane(reel: &mut ReelHandle, plane: u32, samples: &mut [u8]) -> usize
    ensures size { result ≡ plane_size (finished_behind reel.old) plane }
    ensures samples { samples.new ≡ laid_over (plane_size (finished_behind reel.old) plane) (plane_samples (finished_behind reel.old) plane) samples.old }
    ensures reel { reel.new ≡ reel.old }
{
    reel.copy_plane(plane, samples)
}

// Copies the ages of the finished picture in raster order, in the same way.
#[unsafe(no_mangle)]
pub extern "C" fn desktern_ages(reel: &mut ReelHandle, ages: &mut [u8]) -> usize
    ensures size { result ≡ length (ages_behind reel.old) }
    ensures ages { ages.new ≡ laid_over (length (ages_behind reel.old)) (ages_behind reel.old) ages.old }
    ensures reel { reel.new ≡ reel.old }
{
    reel.copy_ages(ages)
}
