ghost use Rattle.std.specs.Prelude.{◌≡◌, ◌≤◌};
ghost use Rattle.pictures.specs.Formats.{columns_of, rows_of};
ghost use Rattle.pictures.specs.Pictures.{inside};

use crate::formats::Format;
use crate::planes::is_inside;

// A picture's size in macroblocks, across and down, which is at most that of CIF.
#[derive(Clone, Copy, PartialEq, Eq, Debug)]
pub struct Size {
    pub columns: u16,
    pub rows: u16,
    ghost narrow: { columns ≤ 22 },
    ghost low: { rows ≤ 18 },
}

impl Size {
    // Whether a place is one of a picture of this size.
    pub fn is_inside(self, plane: u8, across: usize, down: usize) -> bool
        ensures { result ≡ inside self.columns self.rows plane across down }
    {
        is_inside(self.columns, self.rows, plane, across, down)
    }
}

impl From<Format> for Size {
    ghost from_gives = { λ format size. (size.columns ≡ columns_of format) × (size.rows ≡ rows_of format) };

    fn from(format: Format) -> Size {
        Size {
            columns: format.columns(),
            rows: format.rows(),
        }
    }
}

// No macroblocks.
// By hand: the derive of `Default` is refused beside ghost fields.
impl Default for Size {
    ghost is_default = { λ size. (size.columns ≡ 0) × (size.rows ≡ 0) };

    fn default() -> Size {
        Size {
            columns: 0,
            rows: 0,
        }
    }
}
