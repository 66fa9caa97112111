// Where the samples of macroblocks and blocks lie. (The bounds are those of the largest picture, and far below what a machine word holds.)
ghost use Rattle.std.specs.Prelude.{◌≡◌, ◌%◌, ◌<◌, ◌≤◌};
ghost use Rattle.rebuild.specs.Macroblocks.{left_in, plane_of, segment_of_one, top_in};

use pictures::Segment;

// The plane of a block, and where its samples begin.
#[derive(Clone, Copy)]
pub struct BlockPlace {
    pub plane: u8,
    pub left: usize,
    pub top: usize,
    pub ghost across: { left ≤ 1000 },
    pub ghost down: { top ≤ 1000 },
    pub ghost in_columns: { left % 8 ≡ 0 },
    pub ghost in_rows: { top % 8 ≡ 0 },
}

// The column and the row of a macroblock.
#[derive(Clone, Copy)]
pub struct MacroblockPlace {
    pub column: u16,
    pub row: u16,
    pub ghost across: { column ≤ 22 },
    pub ghost down: { row ≤ 22 },
}

impl MacroblockPlace {
    // The macroblock as a segment of one.
    pub(crate) fn segment(self) -> Segment
        ensures { result ≡ segment_of_one self.column self.row }
    {
        Segment {
            left: self.column,
            right: self.column + 1,
            top: self.row,
            bottom: self.row + 1,
        }
    }

    // The place of one of the macroblock's six blocks.
    pub(crate) fn block(self, block: u8) -> BlockPlace
        requires { block < 6 }
        ensures plane { result.plane ≡ plane_of block }
        ensures left { result.left ≡ left_in self.column block }
        ensures top { result.top ≡ top_in self.row block }
    {
        let column = self.column as usize;
        let row = self.row as usize;
        if block < 4 {
            let across = block as usize % 2;
            let down = block as usize / 2;
            BlockPlace {
                plane: 0,
                left: 16 * column + 8 * across,
                top: 16 * row + 8 * down,
            }
        } else {
            BlockPlace {
                plane: block - 3,
                left: 8 * column,
                top: 8 * row,
            }
        }
    }
}
