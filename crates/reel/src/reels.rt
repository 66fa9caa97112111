// A resting reel, and the slip of its open picture. Both are plain numbers and are moved from call to call; what they speak of lies in the memory that
// comes with each call.
ghost use Rattle.std.specs.Prelude.{◌≡◌, true};

use pictures::Format;
use records::types::PictureKind;
use samples::Rounding;

// A reel that rests: its format, how many pictures were opened, and the layout of the finished picture, if there is one.
#[derive(Drop)]
pub struct Reel {
    pub(crate) format: Format,
    pub(crate) pictures: u16,
    pub(crate) finished: Option<u32>,
}

// The slip of an open picture: the reel, which counts the picture already, how the picture was opened, and the segments that were accepted so far, by
// their bits. It has to be handed in by a closing, which spends it: one that is not spent cannot be let go.
pub struct Slip {
    pub(crate) reel: Reel,
    pub(crate) kind: PictureKind,
    pub(crate) rounding: Rounding,
    pub(crate) layout: u32,
    pub(crate) accepted: u32,
    // A flag, and not a type for each state, since a `drop` can ask for the value of a field and not for a type: by it a slip that was not handed in is refused.
    pub(crate) spent: bool,
}

impl Reel {
    // The format of its pictures.
    pub fn format(&self) -> Format
        ensures { result ≡ self.now.format }
    {
        self.format
    }
}

impl Slip {
    // The reel while the picture is open. It is lent for the questions: its finished picture is the one before the open one.
    pub fn reel(&self) -> &Reel
        ensures { result.now ≡ self.now.reel }
    {
        &self.reel
    }
}

impl Drop for Slip {
    fn drop(self)
        requires { self.spent ≡ true }
    {
        let Slip {
            reel: _,
            kind: _,
            rounding: _,
            layout: _,
            accepted: _,
            spent: _,
        } = self;
    }
}
