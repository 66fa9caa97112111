// The transforms by name, for a choice that is made while the program runs.
ghost use Rattle.transform.specs.Kinds.{meaning_of, range_of, zeros_of, ends_of};

use crate::{Direct, Transform, TwoPass};

#[derive(Clone, Copy)]
pub enum TransformKind {
    TwoPass,
    Direct,
}

impl Transform for TransformKind {
    ghost meaning = { meaning_of };

    ghost range = { range_of };

    ghost zeros = { zeros_of };

    ghost ends = { ends_of };

    fn inverse(&self, coefficients: &[i16; 64]) -> [i16; 64] {
        match self {
            TransformKind::TwoPass => TwoPass.inverse(coefficients),
            TransformKind::Direct => Direct.inverse(coefficients),
        }
    }
}
