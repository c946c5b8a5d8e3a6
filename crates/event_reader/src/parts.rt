// What a byte is to the grammar of lines.
ghost use Rattle.std.specs.Prelude.{◌≡◌};
ghost use Rattle.event_reader.specs.Machine.{part_of, DigitFits};

/// What a byte is to the grammar of lines; a digit has its value.
#[derive(Clone, Copy)]
pub(crate) enum Part {
    Blank,
    Digit(u8),
    Plus,
    Minus,
    Bang,
    Hash,
    Stop,
    Other,
}

/// The part that a byte is.
pub(crate) fn classify(byte: u8) -> Part
    ensures part { result ≡ part_of byte }
    ensures digit { DigitFits result }
{
    match byte {
        b' ' | b'\t' => Part::Blank,
        b'+' => Part::Plus,
        b'-' => Part::Minus,
        b'!' => Part::Bang,
        b'#' => Part::Hash,
        b'.' => Part::Stop,
        _ => {
            if byte >= b'0' && byte <= b'9' {
                Part::Digit(byte - b'0')
            } else {
                Part::Other
            }
        }
    }
}
