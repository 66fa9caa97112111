// Calls and answers as values, for lists of calls.
ghost use Rattle.std.specs.Prelude.{◌≡◌, vec_items};
ghost use Rattle.calls.specs.Runs.{call_of, with_bytes};

use crate::faults::PictureFault;
use records::types::Delivered;

// A call on a reel or on its slip. `B` is how it has its bytes: owned in a line of a script, lent where it is made. (Its numbers are the caller's, one by one: what stands for no kind, rounding or plane
// is refused by the call, in its turn. Kind, rounding and layout stay apart: a struct of them would be made and taken apart again at each call.)
#[derive(Clone, Copy)]
pub enum Call<B> {
    Open {
        kind: u32,
        rounding: u32,
        layout: u32,
    },
    Deliver {
        segment: u32,
        bytes: B,
    },
    Close,
    Sample {
        plane: u32,
        across: u32,
        down: u32,
    },
    Age {
        column: u32,
        row: u32,
    },
}

impl Call<Vec<u8>> {
    // The call with its bytes lent, as it is made.
    pub fn lent(&self) -> Call<&[u8]>
        ensures { call_of result ≡ with_bytes (λ bytes. vec_items bytes) self.now }
    {
        match self {
            Call::Open {
                kind,
                rounding,
                layout,
            } => Call::Open {
                kind: *kind,
                rounding: *rounding,
                layout: *layout,
            },
            Call::Deliver { segment, bytes } => Call::Deliver {
                segment: *segment,
                bytes: bytes.as_slice(),
            },
            Call::Close => Call::Close,
            Call::Sample {
                plane,
                across,
                down,
            } => Call::Sample {
                plane: *plane,
                across: *across,
                down: *down,
            },
            Call::Age { column, row } => Call::Age {
                column: *column,
                row: *row,
            },
        }
    }
}

// What a call is answered. A call is out of turn where the reel rests and a slip is needed, or the other way round.
#[derive(Clone, Copy)]
pub enum Answer {
    Opened { segments: u32 },
    Delivered(Delivered),
    Closed { marks: u32 },
    Sample(u8),
    Age(u8),
    Refused(PictureFault),
    OutOfTurn,
}
