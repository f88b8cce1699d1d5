// Bits as hexadecimal digits.
ghost use Rattle.std.specs.Prelude.{◌≡◌, ◌%◌};
ghost use Rattle.text.specs.Numbers.{glyph_of, hex_digits};

// The digit 0-9 or A-F of a number's last four bits.
fn glyph(n: u64) -> u8
    ensures { result ≡ glyph_of (n % 16) }
{
    let d = (n % 16) as u8;
    if d < 10 { 48 + d } else { 55 + d }
}

// The 16 hexadecimal digits of bits.
pub fn hex_digits(bits: u64) -> [u8; 16]
    ensures { result ≡ hex_digits 16 bits }
{
    let mut out = [0u8; 16];
    let mut rest = bits;
    for i in (0..16).rev() {
        out[i] = glyph(rest);
        rest /= 16;
    }
    out
}
