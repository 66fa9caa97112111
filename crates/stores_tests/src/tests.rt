use crate::clear_cells;
use pictures::{Format, Segment, Store, UnknownFormat, copy_picture, copy_segment, fill_segment};
use std::alloc::{AllocError, Global};
use std::process::Abort;
use std::test::Fail;
use stores::{ByteStore, CellStore, TileStore};

// The value that the drawing has at a place.
fn drawn(plane: u8, across: usize, down: usize) -> u8 {
    (across
        .wrapping_mul(7)
        .wrapping_add(down.wrapping_mul(13))
        .wrapping_add(plane as usize * 101)
        % 251) as u8
}

// How many places pass a test, of so many planes as large as CIF's, and so of many places outside a smaller picture. (One walk for all tests, by a loop in
// each direction: the test may write, and of a chain whose closure writes nothing is known.)
fn count_places<F: FnMut(u8, usize, usize) -> bool>(planes: u8, mut test: F) -> u32
    requires { F.IsAlwaysCallable test }
{
    let mut count = 0u32;
    for plane in 0..planes {
        for down in 0..300 {
            for across in 0..360 {
                count = count.wrapping_add(u32::from(test(plane, across, down)));
            }
        }
    }
    count
}

// Writes the drawing at every place. Counts those inside.
fn draw<S: Store>(store: &mut S) -> u32 {
    count_places(4, |plane, across, down| {
        store.write(plane, across, down, drawn(plane, across, down))
    })
}

// How many places, inside and outside, two stores read differently.
fn differences<A: Store, B: Store>(a: &A, b: &B) -> u32 {
    count_places(4, |plane, across, down| {
        a.read(plane, across, down) != b.read(plane, across, down)
    })
}

// How many places of a store read otherwise than the drawing.
fn not_drawn<S: Store>(store: &S) -> u32 {
    count_places(3, |plane, across, down| {
        store
            .read(plane, across, down)
            .is_some_and(|value| value != drawn(plane, across, down))
    })
}

// A store of cells that are alike, made by the format's number over memory that just suffices.
fn store_of<C: Copy, const PER_MACROBLOCK: u16>(
    heap: Global,
    format: Format,
    cell: C,
) -> Result<CellStore<C, PER_MACROBLOCK>, AllocError> {
    let memory = vec![in heap; cell; format.macroblocks() * PER_MACROBLOCK as usize]?;
    Ok(CellStore::new(u8::from(format), memory))
}

// A store of nines.
fn bytes_of(heap: Global, format: Format) -> Result<ByteStore, AllocError> {
    store_of(heap, format, 9)
}

fn tiles_of(heap: Global, format: Format) -> Result<TileStore, AllocError> {
    store_of(heap, format, 0x0909_0909)
}

// One drawing, one band and one copy through both stores.
fn agree(rt: &impl Abort, heap: Global, format: Format) -> Result<(), Fail> {
    let mut bytes = bytes_of(heap, format)?;
    let mut tiles = tiles_of(heap, format)?;
    assert_eq!(rt; differences(&bytes, &tiles), 0);
    assert_eq!(rt; draw(&mut bytes) as usize, format.samples());
    assert_eq!(rt; draw(&mut tiles) as usize, format.samples());
    assert_eq!(rt; differences(&bytes, &tiles), 0);
    assert_eq!(rt; not_drawn(&tiles), 0);
    let band = format.segment(0b10_1001, 1);
    fill_segment(&mut bytes, band, 128);
    fill_segment(&mut tiles, band, 128);
    assert_eq!(rt; differences(&bytes, &tiles), 0);
    assert_eq!(rt; not_drawn(&bytes) == 0, false);
    let mut more_bytes = bytes_of(heap, format)?;
    let mut more_tiles = tiles_of(heap, format)?;
    copy_segment(&bytes, &mut more_bytes, band);
    copy_segment(&tiles, &mut more_tiles, band);
    assert_eq!(rt; differences(&more_bytes, &more_tiles), 0);
    assert_eq!(rt; differences(&more_bytes, &bytes) == 0, false);
    copy_picture(&bytes, &mut more_bytes);
    copy_picture(&tiles, &mut more_tiles);
    assert_eq!(rt; differences(&more_bytes, &bytes), 0);
    assert_eq!(rt; differences(&more_tiles, &tiles), 0);
    Ok(())
}

#[test]
fn stores_agree(rt: HostRuntime) -> Result<(), Fail> {
    agree(&rt, rt.alloc(), Format::SubQcif)?;
    agree(&rt, rt.alloc(), Format::Qcif)?;
    agree(&rt, rt.alloc(), Format::Cif)
}

// A rectangle that begins and ends inside the picture touches its own places alone.
#[test]
fn a_rectangle_inside(rt: HostRuntime) -> Result<(), Fail> {
    let mut bytes = bytes_of(rt.alloc(), Format::Qcif)?;
    let mut tiles = tiles_of(rt.alloc(), Format::Qcif)?;
    let part = Segment {
        left: 3,
        right: 5,
        top: 2,
        bottom: 3,
    };
    fill_segment(&mut bytes, part, 77);
    fill_segment(&mut tiles, part, 77);
    assert_eq!(rt; differences(&bytes, &tiles), 0);
    assert_eq!(rt; bytes.read(0, 48, 32), Some(77));
    assert_eq!(rt; bytes.read(0, 47, 32), Some(9));
    assert_eq!(rt; bytes.read(0, 79, 47), Some(77));
    assert_eq!(rt; bytes.read(0, 80, 47), Some(9));
    assert_eq!(rt; bytes.read(2, 24, 16), Some(77));
    assert_eq!(rt; bytes.read(2, 24, 15), Some(9));
    Ok(())
}

// A picture of another size is copied where both have places, and is 0 elsewhere.
#[test]
fn unequal_sizes(rt: HostRuntime) -> Result<(), Fail> {
    let mut small = tiles_of(rt.alloc(), Format::SubQcif)?;
    let mut large = tiles_of(rt.alloc(), Format::Qcif)?;
    copy_picture(&small, &mut large);
    assert_eq!(rt; large.read(0, 127, 95), Some(9));
    assert_eq!(rt; large.read(0, 128, 95), Some(0));
    copy_picture(&large, &mut small);
    assert_eq!(rt; small.read(1, 63, 47), Some(9));
    Ok(())
}

#[test]
fn memory_too_small(rt: HostRuntime) -> Result<(), Fail> {
    let heap = rt.alloc();
    assert_eq!(rt; ByteStore::suffices(1, 18432), true);
    assert_eq!(rt; ByteStore::suffices(1, 18431), false);
    assert_eq!(rt; ByteStore::suffices(4, 1_000_000), false);
    assert_eq!(rt; TileStore::suffices(3, 38016), true);
    assert_eq!(rt; TileStore::suffices(3, 38015), false);
    assert_eq!(rt; TileStore::suffices(0, 38016), false);
    let mut none = ByteStore::new(1, vec![in heap; 0u8; 18431]?);
    assert_eq!(rt; (none.columns(), none.rows()), (0, 0));
    assert_eq!(rt; none.read(0, 0, 0), None);
    assert_eq!(rt; none.write(0, 0, 0, 1), false);
    let unknown = TileStore::new(7, vec![in heap; 0u32; 100_000]?);
    assert_eq!(rt; (unknown.columns(), unknown.rows()), (0, 0));
    Ok(())
}

// A store that is made in new memory has its format's size, and its cell in every place.
#[test]
fn filled_with_a_cell(rt: HostRuntime) -> Result<(), Fail> {
    let bytes = ByteStore::filled(rt.alloc(), Format::Qcif, 9)?;
    let tiles = TileStore::filled(rt.alloc(), Format::Qcif, 0x0102_0304)?;
    assert_eq!(rt; (bytes.columns(), bytes.rows()), (11, 9));
    assert_eq!(rt; (tiles.columns(), tiles.rows()), (11, 9));
    assert_eq!(rt;
        differences(&bytes, &bytes_of(rt.alloc(), Format::Qcif)?),
        0
    );
    assert_eq!(rt; bytes.into_memory().len(), 38_016);
    let words = tiles.into_memory();
    assert_eq!(rt; words.len(), 9_504);
    assert_eq!(rt; words.iter().all(|word| *word == 0x0102_0304), true);
    Ok(())
}

// Plane 0 by rows, then planes 1 and 2: in QCIF 176 across, and planes 1 and 2 from bytes 25,344 and 31,680 on.
#[test]
fn bytes_in_memory(rt: HostRuntime) -> Result<(), Fail> {
    let mut store = bytes_of(rt.alloc(), Format::Qcif)?;
    assert!(rt; store.write(0, 175, 1, 1));
    assert!(rt; store.write(1, 1, 0, 2));
    assert!(rt; store.write(2, 87, 71, 3));
    let memory = store.into_memory();
    assert_eq!(rt; memory.get(351).copied(), Some(1));
    assert_eq!(rt; memory.get(25_345).copied(), Some(2));
    assert_eq!(rt; memory.get(38_015).copied(), Some(3));
    assert_eq!(rt; memory.get(352).copied(), Some(9));
    Ok(())
}

// In QCIF the macroblock in column 2 of row 1 is number 13, and its words begin at 1,248: 64 for Y, then 16 for Cb, then 16 for Cr.
#[test]
fn tiles_in_memory(rt: HostRuntime) -> Result<(), Fail> {
    let mut store = tiles_of(rt.alloc(), Format::Qcif)?;
    assert!(rt; store.write(0, 32, 16, 0xa1));
    assert!(rt; store.write(0, 39, 18, 0xa2));
    assert!(rt; store.write(1, 17, 8, 0xa3));
    assert!(rt; store.write(2, 22, 15, 0xa4));
    let memory = store.into_memory();
    assert_eq!(rt; memory.get(1_248).copied(), Some(0xa109_0909));
    assert_eq!(rt; memory.get(1_257).copied(), Some(0x0909_09a2));
    assert_eq!(rt; memory.get(1_312).copied(), Some(0x09a3_0909));
    assert_eq!(rt; memory.get(1_343).copied(), Some(0x0909_a409));
    Ok(())
}

#[test]
fn segments_of_layouts(rt: HostRuntime) {
    assert_eq!(rt; Format::try_from(2), Ok(Format::Qcif));
    assert_eq!(rt; Format::try_from(0), Err(UnknownFormat(0)));
    assert_eq!(rt; Format::Qcif.is_sound(0b1_0001_0001), true);
    assert_eq!(rt; Format::Qcif.is_sound(0b11_0001_0001), false);
    assert_eq!(rt; Format::Qcif.is_sound(0b1_0001_0000), false);
    assert_eq!(rt; Format::Qcif.segments(0b1_0001_0001), 3);
    assert_eq!(rt; Format::Qcif.segment_of_row(0b1_0001_0001, 7), 1);
    assert_eq!(rt;
        Format::Qcif.segment(0b1_0001_0001, 0),
        Segment {
            left: 0,
            right: 11,
            top: 0,
            bottom: 4,
        }
    );
    assert_eq!(rt;
        Format::Qcif.segment(0b1_0001_0001, 1),
        Segment {
            left: 0,
            right: 11,
            top: 4,
            bottom: 8,
        }
    );
    assert_eq!(rt;
        Format::Qcif.segment(0b1_0001_0001, 2),
        Segment {
            left: 0,
            right: 11,
            top: 8,
            bottom: 9,
        }
    );
    assert_eq!(rt;
        Format::Qcif.segment(0b1_0001_0001, 3),
        Segment {
            left: 0,
            right: 11,
            top: 9,
            bottom: 9,
        }
    );
    assert_eq!(rt; Format::Cif.segments(0x3ffff), 18);
}

#[test]
fn tables_of_each_kind(rt: HostRuntime) {
    let mut ages = [1u8, 2, 3, 4, 5];
    let mut vectors = [(1i8, -1i8); 5];
    let mut marks = [Some(31u8); 5];
    clear_cells(&mut ages, &mut vectors, &mut marks, 2, 2);
    assert_eq!(rt; tables::read(&ages, 1), Some(2));
    assert_eq!(rt; tables::read(&ages, 3), Some(255));
    assert_eq!(rt; tables::read(&vectors, 4), Some((1, -1)));
    assert_eq!(rt; tables::read(&vectors, 2), Some((0, 0)));
    assert_eq!(rt; tables::read(&marks, 2), Some(None));
    assert_eq!(rt; tables::read(&marks, 5), None);
    let mut others = [0u8; 4];
    tables::copy(&ages, &mut others);
    assert_eq!(rt; tables::read(&others, 3), Some(255));
    assert!(rt; tables::put(&mut others, 0, 7));
    assert_eq!(rt; tables::read(&others, 0), Some(7));
}
