// What is counted of macroblock records for their text.
ghost use Rattle.std.specs.Prelude.{◌≡◌, ℕ, ◌≤◌};
ghost use Rattle.script.specs.Shown.{coefficients_in, nonzero_levels};

use records::types::Block;

// How many of a block's levels are not 0: the number of its coefficient words.
fn coefficients_in(block: &Block) -> usize
    ensures count { result ≡ nonzero_levels block.now.levels }
    ensures few { result ≤ 64 }
{
    block.levels.iter().filter(|level| **level != 0).count()
}

// The same of a macroblock's six blocks.
pub fn coefficients(blocks: &[Block; 6]) -> usize
    ensures { result ≡ coefficients_in blocks.now }
{
    blocks.iter().map(coefficients_in).sum()
}
