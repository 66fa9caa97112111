// What the fields of a line say that asks for the records of a delivery, and what may be wrong with any line.
ghost use Rattle.std.specs.Prelude.{◌≡◌, ℕ, IfOk, vec_items};
ghost use Rattle.std.specs.Option.{option_map};
ghost use Rattle.script.specs.declared.line.LineError.TheVariants.{OutOfMemory, Wrong};
ghost use Rattle.script.specs.Lines.{Says, bytes_of, end_of, kind_in, records_line, records_meant};

use crate::fields::split_field;
use crate::numbers::{number, unhex};
use records::types::PictureKind;
use std::alloc::{AllocError, Global};

// What is wrong with a line that is no call.
#[derive(Clone, Copy)]
pub enum Mistake {
    Call,
    Store,
    Transform,
    Number,
    Kind,
    Macroblocks,
    Bytes,
    Fields,
}

// Why a line is not read.
#[derive(Clone, Copy)]
pub enum LineError {
    Wrong(Mistake),
    OutOfMemory,
}

impl From<Mistake> for LineError {
    ghost from_gives = { λ m e. e ≡ Wrong m };

    fn from(mistake: Mistake) -> LineError {
        LineError::Wrong(mistake)
    }
}

impl From<AllocError> for LineError {
    ghost from_gives = { λ _ e. e ≡ OutOfMemory };

    fn from(_error: AllocError) -> LineError {
        LineError::OutOfMemory
    }
}

// Bytes that are to be read as the records of a delivery.
#[derive(Drop)]
pub struct Records {
    pub kind: PictureKind,
    pub macroblocks: u32,
    pub bytes: Vec<u8>,
}

// The kind of a picture by its number. (No `TryFrom`, since neither the kind nor the field's type is this crate's.)
pub fn kind_in(field: &[u8]) -> Option<PictureKind>
    ensures { result ≡ kind_in field.now }
{
    match field {
        b"0" => Some(PictureKind::Intra),
        b"1" => Some(PictureKind::Inter),
        _ => None,
    }
}

// The bytes of a delivery: `-` stands for none.
pub fn bytes_of(heap: Global, field: &[u8]) -> Result<Option<Vec<u8>>, AllocError>
    ensures { IfOk result (λ o. option_map vec_items o ≡ bytes_of field.now) }
{
    match field {
        b"" => Ok(None),
        b"-" => Ok(Some(Vec::new(heap))),
        _ => unhex(heap, field),
    }
}

// That no field is left.
pub fn end(fields: &[u8]) -> Result<(), Mistake>
    ensures { result ≡ end_of fields.now }
{
    let (field, _) = split_field(fields);
    if field.is_empty() {
        Ok(())
    } else {
        Err(Mistake::Fields)
    }
}

// The fields after `records`.
pub fn records_line(heap: Global, fields: &[u8]) -> Result<Records, LineError>
    ensures { Says records_meant result (records_line fields.now) }
{
    let (kind, rest) = split_field(fields);
    let (macroblocks, rest) = split_field(rest);
    let (bytes, rest) = split_field(rest);
    let kind = kind_in(kind).ok_or(Mistake::Kind)?;
    let macroblocks = number(macroblocks).ok_or(Mistake::Macroblocks)?;
    let bytes = bytes_of(heap, bytes)?.ok_or(Mistake::Bytes)?;
    end(rest)?;
    Ok(Records {
        kind,
        macroblocks,
        bytes,
    })
}

#[cfg(test)]
mod tests {
    use super::*;
    use std::test::Fail;

    // How many macroblocks and bytes the fields after `records` tell.
    fn read(heap: Global, fields: &[u8]) -> Option<(u32, usize)> {
        match records_line(heap, fields) {
            Ok(records) => Some((records.macroblocks, records.bytes.len())),
            Err(_) => None,
        }
    }

    #[test]
    fn records_are_read(rt: HostRuntime) -> Result<(), Fail> {
        let heap = rt.alloc();
        assert_eq!(rt; read(heap, b" 1 99 0aFF"), Some((99, 2)));
        assert_eq!(rt; read(heap, b" 0 0 -"), Some((0, 0)));
        assert_eq!(rt; read(heap, b" 2 99 -"), None);
        Ok(())
    }
}
