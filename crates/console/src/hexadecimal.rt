// Bytes as capital hexadecimal digits.
ghost use Rattle.std.specs.Prelude.{◌≡◌, ◌<◌, Some};
ghost use Rattle.console.specs.Lines.{hex_digit, hex_byte, hex_code};

use std::fmt;

// One byte, as two digits.
// Kept beside `{:02X}`: four padded numbers a code take more than twice the time of a line, and no edit could plant one wrong digit.
#[derive(Clone, Copy)]
struct HexByte(u8);

impl fmt::Display for HexByte {
    ghost output = { λ b. Some (hex_byte b.0) };

    fn fmt<W: fmt::Write>(&self, f: &mut fmt::Formatter<W>) -> fmt::Result {
        let high = digit(self.0 / 16);
        let low = digit(self.0 % 16);
        write!(f, "{high}{low}")
    }
}

// Four bytes, as eight digits.
#[derive(Clone, Copy)]
pub struct HexCode(pub [u8; 4]);

impl fmt::Display for HexCode {
    ghost output = { λ x. Some (hex_code x.0) };

    fn fmt<W: fmt::Write>(&self, f: &mut fmt::Formatter<W>) -> fmt::Result {
        let a = HexByte(self.0[0]);
        let b = HexByte(self.0[1]);
        let c = HexByte(self.0[2]);
        let d = HexByte(self.0[3]);
        write!(f, "{a}{b}{c}{d}")
    }
}

fn digit(n: u8) -> &'static str
    requires { n < 16 }
    ensures { result.now ≡ hex_digit n }
{
    match n {
        0 => "0",
        1 => "1",
        2 => "2",
        3 => "3",
        4 => "4",
        5 => "5",
        6 => "6",
        7 => "7",
        8 => "8",
        9 => "9",
        10 => "A",
        11 => "B",
        12 => "C",
        13 => "D",
        14 => "E",
        _ => "F",
    }
}
