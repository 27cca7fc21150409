// What answers are made of.
ghost use Rattle.std.specs.Prelude.{[], ◌∷◌, ◌++◌, OnOk, codes, decimal};
ghost use Rattle.std.specs.Io.KnownBytes.{Appends};

use decimal::Number;
use std::io;
use std::io::Write;

// The answer to a line that says nothing.
#[inline(always)]
pub fn unknown<W: Write>(out: &mut W) -> io::Result<()>
    ensures { OnOk result (Appends (W.contents out.old) (W.contents out.new) (codes "?")) }
{
    out.write_all(b"?")
}

// A number, by the end entry.
#[inline(always)]
pub fn number<W: Write>(out: &mut W, n: u64) -> io::Result<()>
    ensures { OnOk result (Appends (W.contents out.old) (W.contents out.new) (decimal n)) }
{
    let mut space = [0; 20];
    let at = n.end_at(&mut space);
    out.write_all(&space[at..])
}

// Document 01's number of an answer, and what it returns.
#[inline(always)]
pub fn pair<W: Write>(out: &mut W, number: u64, value: u64) -> io::Result<()>
    ensures { OnOk result (Appends (W.contents out.old) (W.contents out.new)
        (decimal number ++ codes " " ++ decimal value)) }
{
    self::number(out, number)?;
    out.write_all(b" ")?;
    self::number(out, value)
}

// A whole buffer, in brackets.
#[inline(always)]
pub fn buffer<W: Write>(out: &mut W, bytes: &[u8]) -> io::Result<()>
    ensures { OnOk result (Appends (W.contents out.old) (W.contents out.new)
        (codes " [" ++ bytes.now ++ codes "]")) }
{
    out.write_all(b" [")?;
    out.write_all(bytes)?;
    out.write_all(b"]")
}
