// New reels for C.
ghost use Rattle.std.specs.Prelude.{◌≡◌, IfSome};
ghost use Rattle.pictures.specs.Formats.{format_of_number};
ghost use Rattle.handles.specs.Begun.{Begun, answer_in, choices_numbered, handle_in, store_numbered, transform_numbered};

use crate::answer::AnswerNumbers;
use crate::handle::ReelHandle;
use crate::kept::KeptReel;
use crate::raw_box::RawBox;
use call_lines::line::StoreKind;
use calls::answers::Answer;
use reel::reels::Reel;
use reels_in_memory::reel_in_memory::{Choices, ReelInMemory};
use std::alloc::Global;
use transform::TransformKind;

// The store that a number names, if it names one.
fn store_numbered(number: u32) -> Option<StoreKind>
    ensures { result ≡ store_numbered number }
{
    match number {
        0 => Some(StoreKind::Bytes),
        1 => Some(StoreKind::Tiles),
        _ => None,
    }
}

// The transform that a number names, if it names one.
fn transform_numbered(number: u32) -> Option<TransformKind>
    ensures { result ≡ transform_numbered number }
{
    match number {
        0 => Some(TransformKind::TwoPass),
        1 => Some(TransformKind::Direct),
        _ => None,
    }
}

// The choices of two numbers. (A number that is not known names none, rather than a default: what a newer program means by it would else be decoded as
// something else.)
fn choices_numbered(store: u32, transform: u32) -> Option<Choices>
    ensures { result ≡ choices_numbered store transform }
{
    let store = store_numbered(store)?;
    let transform = transform_numbered(transform)?;
    Some(Choices { store, transform })
}

// Lays a reel with its memory behind the two pointers of a handle, if there is memory for that.
fn lay(heap: Global, reel: ReelInMemory) -> Option<RawBox<ReelHandle, Global>>
    ensures { IfSome result (λ raw. raw.value.kept.reel ≡ reel) }
{
    let kept = RawBox::new(heap, KeptReel::new(reel))?;
    RawBox::new(heap, ReelHandle::of(kept))
}

// A new reel of the format, the store and the transform of three numbers, or what is answered in its place.
pub fn begin(
    heap: Global,
    format: u32,
    store: u32,
    transform: u32,
) -> Result<RawBox<ReelHandle, Global>, AnswerNumbers>
    ensures { Begun (format_of_number format) (choices_numbered store transform) (handle_in result) (answer_in result) }
{
    let resting = match Reel::new(format) {
        Ok(resting) => resting,
        Err(fault) => return Err(AnswerNumbers::from(Answer::Refused(fault))),
    };
    let Some(choices) = choices_numbered(store, transform) else {
        return Err(AnswerNumbers::outcome_unknown_choice());
    };
    let Ok(reel) = ReelInMemory::new(heap, resting, choices) else {
        return Err(AnswerNumbers::outcome_no_memory());
    };
    lay(heap, reel).ok_or(AnswerNumbers::outcome_no_memory())
}
