// Why a call is refused. The fault of a delivery's segment is held whole.
ghost use Rattle.std.specs.Prelude.{◌≡◌};
ghost use Rattle.calls.specs.declared.faults.PictureFault.TheVariants.{Format as format_in_picture, Segment as segment_in_picture};
ghost use Rattle.calls.specs.Faults.{picture_refusal, plainly};

use pictures::UnknownFormat;
use records::faults::{Layer, Refusal, SegmentFault};

// The picture layer's faults, and what a delivery's bytes are refused for.
#[derive(Clone, Copy)]
pub enum PictureFault {
    // the number names no format
    Format,
    // a store or a table has not the reel's size
    Size,
    // the reel has as many pictures as it may
    Limit,
    // kind or rounding is no such number, or the rounding of an INTRA picture is not 0
    Kind,
    // there is no finished picture
    Unfinished,
    // the layout is not sound, or not that of the finished picture
    Layout,
    // the picture has no segment of that number
    Number,
    // the segment was accepted before
    Repeated,
    // the place is outside the picture or the plane
    Outside,
    Segment(SegmentFault),
}

impl From<SegmentFault> for PictureFault {
    ghost from_gives = { λ x y. y ≡ segment_in_picture x };

    fn from(value: SegmentFault) -> PictureFault {
        PictureFault::Segment(value)
    }
}

impl From<UnknownFormat> for PictureFault {
    ghost from_gives = { λ _ y. y ≡ format_in_picture };

    fn from(_value: UnknownFormat) -> PictureFault {
        PictureFault::Format
    }
}

// A refusal of the picture layer, which concerns no word. (`records` writes the like out where bytes are no words: one function for both would be public for
// that one place.)
fn plain(number: u8) -> Refusal
    ensures { result ≡ plainly number }
{
    Refusal {
        number,
        layer: Layer::Picture,
        word: 0,
        macroblock: 0,
        block: 6,
    }
}

impl PictureFault {
    pub fn refusal(self) -> Refusal
        ensures { result ≡ picture_refusal self }
    {
        match self {
            PictureFault::Format => plain(1),
            PictureFault::Size => plain(2),
            PictureFault::Limit => plain(3),
            PictureFault::Kind => plain(4),
            PictureFault::Unfinished => plain(5),
            PictureFault::Layout => plain(6),
            PictureFault::Number => plain(7),
            PictureFault::Repeated => plain(8),
            PictureFault::Outside => plain(18),
            PictureFault::Segment(fault) => fault.refusal(),
        }
    }
}
