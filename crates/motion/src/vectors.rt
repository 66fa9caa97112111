// A motion vector in half samples; positive is to the right, and down.
#[derive(Clone, Copy, Default)]
pub struct Vector {
    pub horizontal: i8,
    pub vertical: i8,
}
