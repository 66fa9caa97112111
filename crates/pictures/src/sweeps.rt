ghost use Rattle.std.specs.Prelude.{◌≡◌, ℕ, ◌<◌, true, ◌&&◌, ◌==◌};
ghost use Rattle.pictures.specs.Pictures.{covers, painted, span};

use crate::layouts::Segment;
use crate::planes::{Store, side_of};

// What a sweep puts into the rows of a segment.
trait Brush<S: Store> {
    // the samples that it paints, by plane, across and down
    ghost paint: { Self → ℕ → ℕ → ℕ → ℕ };

    // Paints a row's samples from left to before right, those inside, and no others. (A row's place is passed as the store's own `fill_row` takes it.)
    fn paint_row(&self, store: &mut S, plane: u8, down: usize, left: usize, right: usize)
        ensures { S.picture store.new ≡ painted (span plane down left right) (paint self.now) (S.picture store.old) };
}

// One value for every sample.
#[derive(Drop)]
struct Value(u8);

impl<S: Store> Brush<S> for Value {
    ghost paint = { λ brush _ _ _. brush.0 };

    fn paint_row(&self, store: &mut S, plane: u8, down: usize, left: usize, right: usize) {
        store.fill_row(plane, down, left, right, self.0);
    }
}

// The samples of a store at the same places.
#[derive(Drop)]
struct Source<'a, S>(&'a S);

impl<S: Store> Brush<S> for Source<'_, S> {
    ghost paint = { λ brush. (S.picture brush.0.now).sample };

    fn paint_row(&self, store: &mut S, plane: u8, down: usize, left: usize, right: usize) {
        store.copy_row(self.0, plane, down, left, right);
    }
}

// Paints a segment's samples in one plane, and no others.
fn sweep_plane<S: Store, B: Brush<S>>(brush: &B, store: &mut S, segment: Segment, plane: u8)
    ensures { S.picture store.new ≡ painted (λ q u v. (plane == q) && covers segment q u v) (B.paint brush.now) (S.picture store.old) }
{
    let side = side_of(plane);
    let left = segment.left as usize * side;
    let right = segment.right as usize * side;
    for down in segment.top as usize * side..segment.bottom as usize * side {
        brush.paint_row(store, plane, down, left, right);
    }
}

// Paints the samples of a segment in all planes, and no others.
fn sweep<S: Store, B: Brush<S>>(brush: &B, store: &mut S, segment: Segment)
    ensures { S.picture store.new ≡ painted (covers segment) (B.paint brush.now) (S.picture store.old) }
{
    for plane in 0..3 {
        sweep_plane(brush, store, segment, plane);
    }
}

// Sets the samples of a segment, in all planes, to one value, and no others.
pub fn fill_segment<S: Store>(store: &mut S, segment: Segment, value: u8)
    ensures { S.picture store.new ≡ painted (covers segment) (λ _ _ _. value) (S.picture store.old) }
{
    if store.fill_together(segment, value) {
        return;
    }
    sweep(&Value(value), store, segment);
}

// Copies the samples of a segment, in all planes, from one store to another, and no others.
pub fn copy_segment<S: Store>(from: &S, to: &mut S, segment: Segment)
    ensures { S.picture to.new ≡ painted (covers segment) (S.picture from.now).sample (S.picture to.old) }
{
    if to.copy_together(from, segment) {
        return;
    }
    sweep(&Source(from), to, segment);
}

// Copies every sample that the second store has a place for from the first.
pub fn copy_picture<S: Store>(from: &S, to: &mut S)
    ensures after { S.picture to.new ≡ painted (λ _ _ _. true) (S.picture from.now).sample (S.picture to.old) }
    ensures whole { (S.picture from.now).wide ≡ (S.picture to.old).wide → (S.picture from.now).high ≡ (S.picture to.old).high → S.picture to.new ≡ S.picture from.now }
{
    let segment = Segment {
        left: 0,
        right: to.columns(),
        top: 0,
        bottom: to.rows(),
    };
    copy_segment(from, to, segment);
}
