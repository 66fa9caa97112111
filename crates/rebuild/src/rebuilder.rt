use prediction::window::Window;

// What macroblocks are rebuilt by: the window that they are predicted from, and the transform that gives their residuals.
#[derive(Drop)]
pub struct Rebuilder<'w, 't, S, T> {
    pub window: Window<'w, S>,
    pub transform: &'t T,
}
