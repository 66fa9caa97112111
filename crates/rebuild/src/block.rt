// Rebuilding a block.
ghost use Rattle.std.specs.Prelude.{◌≡◌, ℕ, ◌+◌, ◌/◌, ◌%◌, ◌<◌, pos, ◌+ℤ◌, slice_index, slice_index_or};
ghost use Rattle.pictures.specs.Pictures.{painted, square_at};
ghost use Rattle.samples.specs.Clipping.{clipped};
ghost use Rattle.rebuild.specs.Blocks.{values_of};
ghost use Rattle.rebuild.specs.Rebuilders.{predicted_in, summed_in};

use crate::places::BlockPlace;
use motion::vectors::Vector;
use pictures::Store;
use prediction::window::Window;
use samples::add_residuals;

// The predictions at the places of a block, by a vector; without a vector nothing is predicted. (The block's plane, left and top are its place's: they are asked
// to be small there, in the machine words that stores take.)
fn predicted_block<S: Store>(
    window: &Window<S>,
    source: Option<Vector>,
    place: BlockPlace,
) -> [u8; 64]
    ensures { (k : ℕ) → k < 64 → slice_index result k ≡ predicted_in S.picture window.now source place.plane (place.left + k % 8) (place.top + k / 8) }
{
    let BlockPlace { plane, left, top } = place;
    match source {
        None => [0; 64],
        Some(vector) => window.predict_square(plane, left, top, vector.horizontal, vector.vertical),
    }
}

// The sums of a block's predictions and residuals. Without residuals they are the predictions.
fn sums_of(predictions: [u8; 64], residual: &Option<[i16; 64]>) -> [u8; 64]
    ensures { (k : ℕ) → k < 64 → slice_index result k ≡ clipped (pos (slice_index predictions k) +ℤ slice_index_or (values_of residual.now) k (pos 0)) }
{
    match residual {
        None => predictions,
        Some(residual) => add_residuals(&predictions, residual),
    }
}

// Sets the samples of the block at a place, and no others.
pub fn rebuild_block<S: Store>(
    window: &Window<S>,
    working: &mut S,
    source: Option<Vector>,
    place: BlockPlace,
    residual: &Option<[i16; 64]>,
)
    ensures { S.picture working.new ≡ painted (square_at place.plane place.left place.top) (summed_in S.picture window.now source (values_of residual.now)) (S.picture working.old) }
{
    let sums = sums_of(predicted_block(window, source, place), residual);
    let BlockPlace { plane, left, top } = place;
    working.write_square(plane, left, top, &sums);
}

// Copies the samples of the block at a place, and no others.
pub fn copy_block<S: Store>(finished: &S, working: &mut S, place: BlockPlace)
    ensures { S.picture working.new ≡ painted (square_at place.plane place.left place.top) (S.picture finished.now).sample (S.picture working.old) }
{
    let BlockPlace { plane, left, top } = place;
    let samples = finished.read_square(plane, left, top);
    working.write_square(plane, left, top, &samples);
}
