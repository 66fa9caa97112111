// New reels, and opening a picture.
ghost use Rattle.std.specs.Prelude.{◌≡◌, true, IfOk, MatchResult};
ghost use Rattle.pictures.specs.Formats.{format_of_number};
ghost use Rattle.calls.specs.Held.{fits};
ghost use Rattle.calls.specs.Questions.{judge_opening};
ghost use Rattle.reel.specs.Calls.{opened_kind, judge_layout, kind_read, new_reel, opened};
ghost use Rattle.reel.specs.Memories.{held_in};

use crate::memory::Memory;
use crate::reels::{Reel, Slip};
use calls::faults::PictureFault;
use pictures::{Format, Store};
use records::types::PictureKind;
use samples::Rounding;

// How many pictures a reel may open.
const MOST_PICTURES: u16 = 60_000;

// The kind and the rounding that two numbers stand for. Each is 0 or 1, and an INTRA picture rounds halves up.
fn read_kind(kind: u32, rounding: u32) -> Result<(PictureKind, Rounding), PictureFault>
    ensures { result ≡ kind_read kind rounding }
{
    match (PictureKind::try_from(kind), Rounding::try_from(rounding)) {
        (Ok(PictureKind::Intra), Ok(Rounding::Down)) => Err(PictureFault::Kind),
        (Ok(kind), Ok(rounding)) => Ok((kind, rounding)),
        _ => Err(PictureFault::Kind),
    }
}

impl Reel {
    // A new reel of the format of a number. (The caller's number: that of no format is refused.)
    pub fn new(format: u32) -> Result<Reel, PictureFault>
        ensures { result ≡ new_reel (format_of_number format) }
    {
        let Ok(number) = u8::try_from(format) else {
            return Err(PictureFault::Format);
        };
        Ok(Reel {
            format: Format::try_from(number)?,
            pictures: 0,
            finished: None,
        })
    }

    // Whether a picture of a kind may have a layout: for INTRA a sound one, for INTER that of the finished picture, which has to be there.
    fn check_layout(&self, kind: PictureKind, layout: u32) -> Result<(), PictureFault>
        ensures { result ≡ judge_layout self.now.format self.now.finished kind layout }
    {
        match (kind, self.finished) {
            (PictureKind::Intra, _) if self.format.is_sound(layout) => Ok(()),
            (PictureKind::Inter, None) => Err(PictureFault::Unfinished),
            (PictureKind::Inter, Some(own)) if own == layout => Ok(()),
            _ => Err(PictureFault::Layout),
        }
    }

    // Puts an opening its questions: the kind and the rounding that the picture is opened with, or the first fault.
    fn check_opening<S: Store>(
        &self,
        memory: &Memory<S>,
        kind: u32,
        rounding: u32,
        layout: u32,
    ) -> Result<(PictureKind, Rounding), PictureFault>
        ensures { result ≡ opened_kind kind rounding (judge_opening (fits self.now.format (held_in S.picture memory.now)) self.now.format self.now.pictures self.now.finished kind rounding layout) }
    {
        if !memory.fits(self.format) {
            return Err(PictureFault::Size);
        }
        if self.pictures >= MOST_PICTURES {
            return Err(PictureFault::Limit);
        }
        let (kind, rounding) = read_kind(kind, rounding)?;
        self.check_layout(kind, layout)?;
        Ok((kind, rounding))
    }

    // Opens a picture of a kind (0 INTRA, 1 INTER), a rounding and a layout: gives the slip and the number of segments. A refusal hands the reel back.
    // Nothing is written. (Kind and rounding are the caller's numbers, since what stands for none is refused in its turn.)
    pub fn open<S: Store>(
        self,
        memory: &Memory<S>,
        kind: u32,
        rounding: u32,
        layout: u32,
    ) -> Result<(Slip, u32), (Reel, PictureFault)>
        ensures answer { result ≡ opened self kind rounding layout (judge_opening (fits self.format (held_in S.picture memory.now)) self.format self.pictures self.finished kind rounding layout) }
        ensures back { MatchResult result (λ p. p.0.reel.format ≡ self.format) (λ p. p.0 ≡ self) }
        ensures fit { IfOk result (λ p. fits p.0.reel.format (held_in S.picture memory.now) ≡ true) }
    {
        let (kind, rounding) = match self.check_opening(memory, kind, rounding, layout) {
            Ok(found) => found,
            Err(fault) => return Err((self, fault)),
        };
        let segments = self.format.segments(layout);
        let slip = Slip {
            reel: Reel {
                pictures: self.pictures + 1,
                ..self
            },
            kind,
            rounding,
            layout,
            accepted: 0,
            spent: false,
        };
        Ok((slip, segments))
    }
}
