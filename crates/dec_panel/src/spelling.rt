// The bytes of pens and of the wipe.
ghost use Rattle.std.specs.Prelude.{◌≡◌, ◌++◌, take};
ghost use Rattle.dec_rules.specs.Pens.{attribute as attributed, pen_bytes, wipe};
ghost use Rattle.panel.specs.Bytes.{bytes_of};

use panel::bytes::ShortBytes;

// A parameter for a bit that the pen has.
fn attribute(bytes: &mut ShortBytes, pen: u8, bit: u8, digit: u8)
    ensures { bytes_of bytes.new ≡ take 16 (bytes_of bytes.old ++ attributed pen bit digit) }
{
    let parameter = [b';', digit];
    bytes.extend_from_slice(if pen & bit != 0 { &parameter } else { b"" });
}

pub(crate) fn of_pen(pen: u8) -> ShortBytes
    ensures { bytes_of result ≡ pen_bytes pen }
{
    let mut bytes = ShortBytes::from_slice(b"\x1B[0");
    attribute(&mut bytes, pen, 1, b'1');
    attribute(&mut bytes, pen, 2, b'4');
    attribute(&mut bytes, pen, 4, b'5');
    attribute(&mut bytes, pen, 8, b'7');
    bytes.push(b'm');
    bytes
}

// Pen 0, the first place, and all cells blank.
pub(crate) fn of_wipe() -> ShortBytes
    ensures { bytes_of result ≡ wipe }
{
    ShortBytes::from_slice(b"\x1B[0m\x1B[H\x1B[2J")
}
