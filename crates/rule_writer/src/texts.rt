// Texts and numbers.
ghost use Rattle.std.specs.Prelude.{◌≡◌, ◌++◌, OnOk, decimal};
ghost use Rattle.std.specs.Fmt.{signed_decimal};
ghost use Rattle.event_model.specs.Text.{quoted};
ghost use Rattle.rule_writer.specs.Writes.{when};

use event_model::{Name, Term, term_text};
use itoa::Buffer;
use std::alloc::AllocError;

pub(crate) fn write_str(out: &mut Vec<u8>, text: &str) -> Result<(), AllocError>
    ensures { OnOk result (out.new.items ≡ out.old.items ++ text.now) }
{
    out.extend_from_slice(text.as_bytes())
}

pub(crate) fn write_if(out: &mut Vec<u8>, wanted: bool, text: &str) -> Result<(), AllocError>
    ensures { OnOk result (out.new.items ≡ out.old.items ++ when wanted text.now) }
{
    if wanted {
        write_str(out, text)?;
    }
    Ok(())
}

pub(crate) fn write_number(out: &mut Vec<u8>, n: u64) -> Result<(), AllocError>
    ensures { OnOk result (out.new.items ≡ out.old.items ++ decimal n) }
{
    let mut buffer = Buffer::new();
    write_str(out, buffer.format(n))
}

pub(crate) fn write_signed(out: &mut Vec<u8>, n: i64) -> Result<(), AllocError>
    ensures { OnOk result (out.new.items ≡ out.old.items ++ signed_decimal n) }
{
    let mut buffer = Buffer::new();
    write_str(out, buffer.format(n))
}

// A text between quotes, with its escapes.
#[tactic(auto, using(event_model::specs::Text::texts))]
pub(crate) fn write_quoted(out: &mut Vec<u8>, text: &Name) -> Result<(), AllocError>
    ensures { OnOk result (out.new.items ≡ out.old.items ++ quoted text.now) }
{
    term_text(&Term::Text(text.share()?), out)?;
    Ok(())
}
