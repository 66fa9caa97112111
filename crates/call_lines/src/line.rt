// What a line of a script says, or what is wrong with it.
ghost use Rattle.std.specs.Prelude.{◌≡◌, ℕ, IfOk};
ghost use Rattle.std.specs.Option.{ok_or};
ghost use Rattle.script.specs.Lines.{Says, ended, result_map};
ghost use Rattle.script.specs.declared.line.Mistake.TheVariants as mistake;
ghost use Rattle.call_lines.specs.Lines.{age_line_of, deliver_line_of, line_meant, line_of, meant, new_line_of, numbers_in, open_line_of, plain_line_of, sample_line_of, store_kind_in, store_line_of, transform_kind_in, transform_line_of, worded};

use calls::answers::Call;
use script::fields::{is_text, split_field, without_comment};
use script::line::{LineError, Mistake, Records, bytes_of, end, records_line};
use script::numbers::number;
use std::alloc::{AllocError, Global};
use transform::TransformKind;

// How the samples of the reels to come are stored.
#[derive(Clone, Copy)]
pub enum StoreKind {
    Bytes,
    Tiles,
}

impl TryFrom<&[u8]> for StoreKind {
    type Error = Mistake;

    ghost try_from_gives = { λ field r. r ≡ ok_or (store_kind_in field.now) mistake.Store };

    fn try_from(field: &[u8]) -> Result<StoreKind, Mistake> {
        match field {
            b"bytes" => Ok(StoreKind::Bytes),
            b"tiles" => Ok(StoreKind::Tiles),
            _ => Err(Mistake::Store),
        }
    }
}

// The inverse transform that a field names, for the reels to come. (No `TryFrom`, since neither the kind nor the field's type is this crate's.)
fn transform_kind_in(field: &[u8]) -> Option<TransformKind>
    ensures { result ≡ transform_kind_in field.now }
{
    match field {
        b"two-pass" => Some(TransformKind::TwoPass),
        b"direct" => Some(TransformKind::Direct),
        _ => None,
    }
}

// A line: a choice for the reels to come, a new reel, a call on a reel, the question for all ages of the finished picture, or bytes that are to be read as the
// records of a delivery. (The numbers are as they were written: the calls refuse what stands for nothing.)
#[derive(Drop)]
pub enum Line {
    Store(StoreKind),
    Transform(TransformKind),
    New { format: u32 },
    Call(Call<Vec<u8>>),
    Ages,
    Records(Records),
}

// What a line says, if it is not blank, or what is wrong with it.
pub type Said = Result<Option<Line>, Mistake>;

// As many numbers as are due, one in each field, and no field after them.
fn numbers<const N: usize>(fields: &[u8]) -> Result<[u32; N], Mistake>
    ensures { result ≡ numbers_in N fields.now }
{
    let mut numbers = [0; N];
    let mut rest = fields;
    for slot in &mut numbers {
        let (field, after) = split_field(rest);
        *slot = number(field).ok_or(Mistake::Number)?;
        rest = after;
    }
    end(rest)?;
    Ok(numbers)
}

// The fields after `store`.
fn store_line(fields: &[u8]) -> Result<Line, Mistake>
    ensures { result_map meant result ≡ store_line_of fields.now }
{
    let (kind, rest) = split_field(fields);
    let kind = StoreKind::try_from(kind)?;
    end(rest)?;
    Ok(Line::Store(kind))
}

// The fields after `transform`.
fn transform_line(fields: &[u8]) -> Result<Line, Mistake>
    ensures { result_map meant result ≡ transform_line_of fields.now }
{
    let (kind, rest) = split_field(fields);
    let kind = transform_kind_in(kind).ok_or(Mistake::Transform)?;
    end(rest)?;
    Ok(Line::Transform(kind))
}

// The fields after `new`.
fn new_line(fields: &[u8]) -> Result<Line, Mistake>
    ensures { result_map meant result ≡ new_line_of fields.now }
{
    let [format] = numbers::<1>(fields)?;
    Ok(Line::New { format })
}

// The fields after `open`. (It and those below share `numbers`, and differ in the names that they give them.)
fn open_line(fields: &[u8]) -> Result<Line, Mistake>
    ensures { result_map meant result ≡ open_line_of fields.now }
{
    let [kind, rounding, layout] = numbers::<3>(fields)?;
    Ok(Line::Call(Call::Open {
        kind,
        rounding,
        layout,
    }))
}

// The fields after `sample`.
fn sample_line(fields: &[u8]) -> Result<Line, Mistake>
    ensures { result_map meant result ≡ sample_line_of fields.now }
{
    let [plane, across, down] = numbers::<3>(fields)?;
    Ok(Line::Call(Call::Sample {
        plane,
        across,
        down,
    }))
}

// The fields after `age`.
fn age_line(fields: &[u8]) -> Result<Line, Mistake>
    ensures { result_map meant result ≡ age_line_of fields.now }
{
    let [column, row] = numbers::<2>(fields)?;
    Ok(Line::Call(Call::Age { column, row }))
}

// A line that is its first word alone.
fn bare_line(line: Line, fields: &[u8]) -> Result<Line, Mistake>
    ensures { result_map meant result ≡ ended fields.now (meant line) }
{
    end(fields)?;
    Ok(line)
}

// The fields after `deliver`.
fn deliver_line(heap: Global, fields: &[u8]) -> Result<Line, LineError>
    ensures { Says meant result (deliver_line_of fields.now) }
{
    let (segment, rest) = split_field(fields);
    let (bytes, rest) = split_field(rest);
    let segment = number(segment).ok_or(Mistake::Number)?;
    let bytes = bytes_of(heap, bytes)?.ok_or(Mistake::Bytes)?;
    end(rest)?;
    Ok(Line::Call(Call::Deliver { segment, bytes }))
}

// A line that carries no bytes, by its first word.
fn plain_line(word: &[u8], fields: &[u8]) -> Result<Line, Mistake>
    ensures { result_map meant result ≡ plain_line_of word.now fields.now }
{
    // no `match` on the words' bytes: what it says at `_` stayed open, over some forty ways that lead there
    if is_text(word, b"store") {
        store_line(fields)
    } else if is_text(word, b"transform") {
        transform_line(fields)
    } else if is_text(word, b"new") {
        new_line(fields)
    } else if is_text(word, b"open") {
        open_line(fields)
    } else if is_text(word, b"close") {
        bare_line(Line::Call(Call::Close), fields)
    } else if is_text(word, b"sample") {
        sample_line(fields)
    } else if is_text(word, b"age") {
        age_line(fields)
    } else if is_text(word, b"ages") {
        bare_line(Line::Ages, fields)
    } else {
        Err(Mistake::Call)
    }
}

// A line by its first word. (No `match` on its bytes: tried for a single word, what is said at `_` stayed open.)
fn worded_line(heap: Global, word: &[u8], fields: &[u8]) -> Result<Line, LineError>
    ensures { Says meant result (worded word.now fields.now) }
{
    if is_text(word, b"deliver") {
        deliver_line(heap, fields)
    } else if is_text(word, b"records") {
        Ok(Line::Records(records_line(heap, fields)?))
    } else {
        Ok(plain_line(word, fields)?)
    }
}

// What a line says, where memory does not fail.
pub fn read_line(heap: Global, line: &[u8]) -> Result<Said, AllocError>
    ensures { IfOk result (λ said. line_meant said ≡ line_of line.now) }
{
    let (word, fields) = split_field(without_comment(line));
    if word.is_empty() {
        return Ok(Ok(None));
    }
    match worded_line(heap, word, fields) {
        Ok(line) => Ok(Ok(Some(line))),
        Err(LineError::Wrong(mistake)) => Ok(Err(mistake)),
        Err(LineError::OutOfMemory) => Err(AllocError),
    }
}

#[cfg(test)]
mod tests {
    use super::*;
    use std::test::Fail;

    // The number of a delivery's segment, or of the macroblocks of records, and how many bytes there are.
    fn read(heap: Global, line: &[u8]) -> Option<(u32, usize)> {
        match read_line(heap, line) {
            Ok(Ok(Some(Line::Call(Call::Deliver { segment, bytes })))) => Some((
                segment,
                bytes.len(),
            )),
            Ok(Ok(Some(Line::Records(records)))) => Some((
                records.macroblocks,
                records.bytes.len(),
            )),
            _ => None,
        }
    }

    #[test]
    fn deliveries_are_read(rt: HostRuntime) -> Result<(), Fail> {
        let heap = rt.alloc();
        assert_eq!(rt; read(heap, b"deliver 3 c0ff # two bytes"), Some((3, 2)));
        assert_eq!(rt; read(heap, b"deliver 0 -"), Some((0, 0)));
        assert_eq!(rt; read(heap, b"deliver c0ff"), None);
        assert_eq!(rt; read(heap, b"records 1 99 0aFF # two bytes"), Some((99, 2)));
        Ok(())
    }
}
