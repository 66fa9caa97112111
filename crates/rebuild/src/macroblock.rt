// Rebuilding a macroblock.
ghost use Rattle.std.specs.Prelude.{◌≡◌, ℕ, ◌+◌, ◌*◌, ◌<◌, pos, slice_index_or};
ghost use Rattle.pictures.specs.Pictures.{covers, painted};
ghost use Rattle.rebuild.specs.Blocks.{values_of};
ghost use Rattle.rebuild.specs.Macroblocks.{coefficients_of, component_for, residual_of, segment_of_one, source_for};
ghost use Rattle.rebuild.specs.Rebuilders.{coded_sample_by, macroblock_sample_by};

use crate::block::{copy_block, rebuild_block};
use crate::places::MacroblockPlace;
use crate::rebuilder::Rebuilder;
use motion::vectors::Vector;
use pictures::Store;
use records::is_coded;
use records::types::{Block, Macroblock};
use samples::chroma_component;
use transform::{Transform, coefficients};

// The component of a vector for a plane.
fn component_for(plane: u8, component: i8) -> i8
    ensures { result ≡ component_for plane component }
{
    if plane == 0 {
        component
    } else {
        chroma_component(component)
    }
}

// The vector that a macroblock is predicted by in a plane; an INTRA macroblock is predicted by none.
fn source_for(macroblock: &Macroblock, vector: Vector, plane: u8) -> Option<Vector>
    ensures { result ≡ source_for macroblock.now vector plane }
{
    match macroblock {
        Macroblock::Intra { .. } => None,
        _ => Some(Vector {
            horizontal: component_for(plane, vector.horizontal),
            vertical: component_for(plane, vector.vertical),
        }),
    }
}

// Copies the samples of the macroblock at a place, and no others: at once where the store has them together, and else block by block.
fn copy_macroblock<S: Store>(finished: &S, working: &mut S, place: MacroblockPlace)
    ensures { S.picture working.new ≡ painted (covers (segment_of_one place.column place.row)) (S.picture finished.now).sample (S.picture working.old) }
{
    if working.copy_together(finished, place.segment()) {
        return;
    }
    copy_blocks(finished, working, place);
}

fn copy_blocks<S: Store>(finished: &S, working: &mut S, place: MacroblockPlace)
    ensures { S.picture working.new ≡ painted (covers (segment_of_one place.column place.row)) (S.picture finished.now).sample (S.picture working.old) }
{
    for block in 0..6 {
        copy_block(finished, working, place.block(block));
    }
}

// The results of the transform for a block.
fn transformed<T: Transform>(transform: &T, quantizer: u8, block: &Block) -> [i16; 64]
    ensures { (n k : ℕ) → n < 8 → k < 8 → slice_index_or result (8 * k + n) (pos 0) ≡ T.meaning transform.now (coefficients_of quantizer block.now) n k }
{
    transform.inverse(&coefficients(quantizer, block.dc, &block.levels))
}

// The residual of a block that has coefficients; the transform is called only for these.
fn residual_of<T: Transform>(transform: &T, macroblock: &Macroblock, block: u8) -> Option<[i16; 64]>
    requires { block < 6 }
    ensures { (n k : ℕ) → n < 8 → k < 8 → slice_index_or (values_of result) (8 * k + n) (pos 0) ≡ residual_of (T.meaning transform.now) macroblock.now block n k }
{
    match macroblock {
        Macroblock::Inter {
            quantizer,
            pattern,
            blocks,
            ..
        } if is_coded(*pattern, block) => {
            Some(transformed(transform, *quantizer, &blocks[block as usize]))
        }
        Macroblock::Intra {
            quantizer,
            blocks,
            ..
        } => Some(transformed(transform, *quantizer, &blocks[block as usize])),
        _ => None,
    }
}

impl<S: Store, T: Transform> Rebuilder<'_, '_, S, T> {
    // Sets the samples of a coded macroblock at a place, and no others.
    fn rebuild_coded(
        &self,
        working: &mut S,
        place: MacroblockPlace,
        macroblock: &Macroblock,
        vector: Vector,
    )
        ensures { S.picture working.new ≡ painted (covers (segment_of_one place.column place.row)) (coded_sample_by S.picture T.meaning self.now macroblock.now vector) (S.picture working.old) }
    {
        for block in 0..6 {
            let at = place.block(block);
            let source = source_for(macroblock, vector, at.plane);
            let residual = residual_of(self.transform, macroblock, block);
            rebuild_block(&self.window, working, source, at, &residual);
        }
    }

    // Sets the samples of the macroblock at a place, and no others.
    pub fn rebuild_macroblock(
        &self,
        working: &mut S,
        place: MacroblockPlace,
        macroblock: &Macroblock,
        vector: Vector,
    )
        ensures { S.picture working.new ≡ painted (covers (segment_of_one place.column place.row)) (macroblock_sample_by S.picture T.meaning self.now macroblock.now vector) (S.picture working.old) }
    {
        match macroblock {
            Macroblock::Skipped => copy_macroblock(self.window.finished, working, place),
            _ => self.rebuild_coded(working, place, macroblock, vector),
        }
    }
}
