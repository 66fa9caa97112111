// Both stores side by side, on all formats; the memories cell by cell; segments; and tables of each kind of element.
#![tactic(auto)]

ghost use Rattle.std.specs.Prelude.{◌≡◌, ℕ, length, ℤ, pos, if◌then◌else◌, None, Option, slice_index_or};
ghost use Rattle.tables.specs.Cells.{in_part};

#[cfg(test)]
mod tests;

// Sets so many cells of the three kinds of table from a place on: the age 255, the zero vector and the absent mark.
pub fn clear_cells(
    ages: &mut [u8],
    vectors: &mut [(i8, i8)],
    marks: &mut [Option<u8>],
    first: usize,
    count: usize,
)
    ensures ages { (k d : ℕ) → slice_index_or ages.new k d ≡ (if in_part first count (length ages.old) k then 255 else slice_index_or ages.old k d) }
    ensures vectors { (k : ℕ) (d : ℤ × ℤ) → slice_index_or vectors.new k d ≡ (if in_part first count (length vectors.old) k then (pos 0, pos 0) else slice_index_or vectors.old k d) }
    ensures marks { (k : ℕ) (d : Option ℕ) → slice_index_or marks.new k d ≡ (if in_part first count (length marks.old) k then None else slice_index_or marks.old k d) }
{
    tables::fill_part(ages, first, count, 255);
    tables::fill_part(vectors, first, count, (0, 0));
    tables::fill_part(marks, first, count, None);
}
