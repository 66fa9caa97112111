// The memory of a reel, in the store that the script chose.
ghost use Rattle.std.specs.Prelude.{◌≡◌, true, false, IfOk};
ghost use Rattle.calls.specs.Effects.{picture_closed};
ghost use Rattle.calls.specs.Held.{fits};
ghost use Rattle.calls.specs.Runs.{call_of};
ghost use Rattle.reel.specs.Memories.{held_in};
ghost use Rattle.replay.specs.Stages.{format_of, writes};
ghost use Rattle.stores.specs.Bytes.{bytes_seen};
ghost use Rattle.stores.specs.Tiles.{tiles_seen};
ghost use Rattle.reels_in_memory.specs.Copies.{laid_over, plane_samples, plane_size};
ghost use Rattle.reels_in_memory.specs.Memories.{Made, Tabled, blank, blank_picture, held_by, memory_fits, store_in, sums_of};

use crate::copies::copy_plane;
use call_lines::line::StoreKind;
use calls::answers::{Answer, Call};
use motion::vectors::Vector;
use pictures::{Format, Store};
use reel::memory::Memory;
use reel::reels::Slip;
use replay::{Stage, replay};
use std::alloc::{AllocError, Global};
use stores::{ByteStore, TileStore};
use transcripts::sums::{PictureSums, sum_plane, sum_table};
use transform::TransformKind;

// A memory in bytes or in tiles. (Two arms in each method, and no type parameter: which store it is, is known only as the script is read.)
#[derive(Drop)]
pub enum StoredMemory {
    Bytes(Memory<ByteStore>),
    Tiles(Memory<TileStore>),
}

// A store of a format in bytes: zeros. (Each store has its own map from memory to picture, and so each is read as zeros by itself.)
#[tactic(auto, using(crate::proofs::Blank::blank_bytes))]
fn byte_zeros(heap: Global, format: Format) -> Result<ByteStore, AllocError>
    ensures { IfOk result (λ s. bytes_seen s.size.columns s.size.rows s.memory.items ≡ blank_picture format) }
{
    ByteStore::filled(heap, format, 0)
}

// A store of a format in tiles: zeros.
#[tactic(auto, using(crate::proofs::Blank::blank_tiles))]
fn tile_zeros(heap: Global, format: Format) -> Result<TileStore, AllocError>
    ensures { IfOk result (λ s. tiles_seen s.size.columns s.size.rows s.memory.items ≡ blank_picture format) }
{
    TileStore::filled(heap, format, 0)
}

// Two stores with empty tables of a format: zeros and absent marks.
fn with_tables<S: Drop>(
    heap: Global,
    format: Format,
    finished: S,
    working: S,
) -> Result<Memory<S>, AllocError>
    ensures { IfOk result (λ m. Tabled format finished working m) }
{
    let cells = format.macroblocks();
    Ok(Memory {
        finished,
        working,
        finished_ages: vec![in heap; 0u8; cells]?,
        working_ages: vec![in heap; 0u8; cells]?,
        vectors: vec![in heap; Vector::default(); cells]?,
        marks: vec![in heap; None; cells]?,
    })
}

// Makes one call: a list of one, with room for its answer. (Stage, memory and call come from three places, and a struct of them would be made for this one
// call. That the memory has the reel's size, which the two together hold, is asked here and below, since they are taken apart while a call is made.)
fn step_by<S: Store>(
    stage: Stage,
    memory: &mut Memory<S>,
    transform: TransformKind,
    call: &Call<&[u8]>,
) -> (Stage, Answer)
    requires { fits (format_of stage) (held_in S.picture memory.old) ≡ true }
    ensures size { fits (format_of result.0) (held_in S.picture memory.new) ≡ true }
    ensures made { Made transform stage (held_in S.picture memory.old) (call_of call.now) result.0 (held_in S.picture memory.new) result.1 }
    ensures untouched { writes result.1 ≡ false → memory.new ≡ memory.old }
{
    let mut answers = [Answer::OutOfTurn];
    let stage = replay(stage, memory, &transform, &[*call], &mut answers);
    (stage, answers[0])
}

// Closes an open picture in a memory that has its size, and gives the marks of its segments.
fn close_in<S: Store>(memory: &mut Memory<S>, slip: Slip) -> u32
    requires { fits slip.reel.format (held_in S.picture memory.old) ≡ true }
    ensures marks { result ≡ slip.accepted }
    ensures memory { held_in S.picture memory.new ≡ picture_closed slip.reel.format slip.kind slip.layout slip.accepted (held_in S.picture memory.old) }
{
    match slip.close(memory) {
        Ok((_, marks)) => marks,
        Err(_) => unreachable(),
    }
}

// The sums of the finished picture.
fn sums_of<S: Store>(memory: &Memory<S>) -> PictureSums
    ensures { result ≡ sums_of (held_in S.picture memory.now) }
{
    PictureSums {
        luma: sum_plane(&memory.finished, 0),
        cb: sum_plane(&memory.finished, 1),
        cr: sum_plane(&memory.finished, 2),
        ages: sum_table(&memory.finished_ages),
    }
}

impl StoredMemory {
    // A memory for reels of a format: zeros and absent marks.
    pub fn new(heap: Global, kind: StoreKind, format: Format) -> Result<StoredMemory, AllocError>
        ensures fits { IfOk result (λ m. fits format (held_by m) ≡ true) }
        ensures blank { IfOk result (λ m. held_by m ≡ blank format) }
        ensures store { IfOk result (λ m. store_in m ≡ kind) }
    {
        match kind {
            StoreKind::Bytes => {
                let finished = byte_zeros(heap, format)?;
                let working = byte_zeros(heap, format)?;
                Ok(StoredMemory::Bytes(with_tables(heap, format, finished, working)?))
            }
            StoreKind::Tiles => {
                let finished = tile_zeros(heap, format)?;
                let working = tile_zeros(heap, format)?;
                Ok(StoredMemory::Tiles(with_tables(heap, format, finished, working)?))
            }
        }
    }

    // Makes one call.
    pub fn step(
        &mut self,
        stage: Stage,
        transform: TransformKind,
        call: &Call<&[u8]>,
    ) -> (Stage, Answer)
        requires { memory_fits stage self.old ≡ true }
        ensures size { memory_fits result.0 self.new ≡ true }
        ensures made { Made transform stage (held_by self.old) (call_of call.now) result.0 (held_by self.new) result.1 }
        ensures untouched { writes result.1 ≡ false → self.new ≡ self.old }
    {
        match self {
            StoredMemory::Bytes(memory) => step_by(stage, memory, transform, call),
            StoredMemory::Tiles(memory) => step_by(stage, memory, transform, call),
        }
    }

    // Closes an open picture, and gives the marks of its segments.
    pub fn close(&mut self, slip: Slip) -> u32
        requires { fits slip.reel.format (held_by self.old) ≡ true }
        ensures marks { result ≡ slip.accepted }
        ensures memory { held_by self.new ≡ picture_closed slip.reel.format slip.kind slip.layout slip.accepted (held_by self.old) }
    {
        match self {
            StoredMemory::Bytes(memory) => close_in(memory, slip),
            StoredMemory::Tiles(memory) => close_in(memory, slip),
        }
    }

    // The ages of the finished picture.
    pub fn ages(&self) -> &[u8]
        ensures { result.now ≡ (held_by self.now).finished_ages }
    {
        match self {
            StoredMemory::Bytes(memory) => &memory.finished_ages,
            StoredMemory::Tiles(memory) => &memory.finished_ages,
        }
    }

    // Copies a plane of the finished picture, row by row from the top, where there is room for it, and tells how many samples it has.
    pub fn copy_plane(&self, plane: u32, samples: &mut [u8]) -> usize
        ensures size { result ≡ plane_size (held_by self.now).finished plane }
        ensures samples { samples.new ≡ laid_over (plane_size (held_by self.now).finished plane) (plane_samples (held_by self.now).finished plane) samples.old }
    {
        match self {
            StoredMemory::Bytes(memory) => copy_plane(&memory.finished, plane, samples),
            StoredMemory::Tiles(memory) => copy_plane(&memory.finished, plane, samples),
        }
    }

    // The sums of the finished picture.
    pub fn sums(&self) -> PictureSums
        ensures { result ≡ sums_of (held_by self.now) }
    {
        match self {
            StoredMemory::Bytes(memory) => sums_of(memory),
            StoredMemory::Tiles(memory) => sums_of(memory),
        }
    }
}
