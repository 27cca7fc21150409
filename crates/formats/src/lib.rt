// The seven formats, as document 01 numbers them: digits of a number, or the exponent form.
#![tactic(auto)]

ghost use Rattle.std.specs.Prelude.{◌≡◌, ◌≤◌};
ghost use Rattle.formats.specs.Formats.{letter_from, numeral_code, exponent_code, format_code, Decodes};

// Whether letters are small or capital.
#[derive(Clone, Copy, Debug, PartialEq, Eq)]
pub enum Case {
    Lower,
    Upper,
}

// The forms that are digits alone.
#[derive(Clone, Copy, Debug, PartialEq, Eq)]
pub enum Numeral {
    Decimal,
    Binary,
    Octal,
    Hex(Case),
}

// A format: digits alone, or the exponent form with a small or a capital letter.
#[derive(Clone, Copy, Debug, PartialEq, Eq)]
pub enum Format {
    Numeral(Numeral),
    Exponent(Case),
}

// A code that no format has.
#[derive(Clone, Copy, Debug, PartialEq, Eq)]
pub struct UnknownFormat;

impl Case {
    // A small letter, or its capital, which comes 32 before.
    pub fn letter(self, small: u8) -> u8
        requires { 32 ≤ small }
        ensures { result ≡ letter_from self small }
    {
        match self {
            Case::Lower => small,
            Case::Upper => small - 32,
        }
    }
}

impl TryFrom<u32> for Format {
    type Error = UnknownFormat;

    ghost try_from_gives = { Decodes };

    fn try_from(code: u32) -> Result<Self, UnknownFormat> {
        match code {
            0 => Ok(Format::Numeral(Numeral::Decimal)),
            1 => Ok(Format::Numeral(Numeral::Binary)),
            2 => Ok(Format::Numeral(Numeral::Octal)),
            3 => Ok(Format::Numeral(Numeral::Hex(Case::Lower))),
            4 => Ok(Format::Numeral(Numeral::Hex(Case::Upper))),
            5 => Ok(Format::Exponent(Case::Lower)),
            6 => Ok(Format::Exponent(Case::Upper)),
            _ => Err(UnknownFormat),
        }
    }
}
