ghost use Rattle.std.specs.Prelude.{◌≡◌};
ghost use Rattle.pictures.specs.Formats.{format_of_number};
ghost use Rattle.stores.specs.Room.{fitting};

use pictures::Format;

// The format of a number, if there is one and room for its macroblocks.
pub fn format_in(format: u8, room: usize) -> Option<Format>
    ensures { result ≡ fitting (format_of_number format) room }
{
    Format::try_from(format)
        .ok()
        .filter(|format| format.macroblocks() <= room)
}
