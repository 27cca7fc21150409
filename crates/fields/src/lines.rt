// The input, cut into lines, each of which is played, and a label in front of a row.
ghost use Rattle.std.specs.Prelude.{◌≡◌, ◌==◌, IfOk, MatchOption, length, position};
ghost use Rattle.std.specs.Iterator.{IsFinite};
ghost use Rattle.fields.specs.Lines.{IsWhole, IsCut, IsRow};

use std::io;
use std::io::Write;

// Room for all of the input that is played: a mebibyte.
pub fn space() -> [u8; 1_048_576]
    ensures { 1048576 ≡ length result }
{
    [0; 1_048_576]
}

// Plays each line in turn: what `answer` writes of it, and a newline. The last line may be without one.
#[inline(always)]
pub fn play<'a, I, W, F>(lines: I, out: &mut W, mut answer: F) -> io::Result<()>
where
    I: Iterator<Item = &'a [u8]> + Drop,
    W: Write,
    F: FnMut(&[u8], &mut W) -> io::Result<()>,
    requires can { I.can_next lines }
    requires ends { IsFinite (I.remaining lines) }
    requires answers { F.IsAlwaysCallable answer }
{
    for line in lines {
        answer(line.strip_suffix(b"\n").unwrap_or(line), out)?;
        out.write_all(b"\n")?;
    }
    out.flush()
}

// Where the byte stands first.
#[inline(always)]
fn place(text: &[u8], byte: u8) -> Option<usize>
    ensures { result ≡ position (λ each. each == byte) text.now }
{
    for at in 0..text.len() {
        if text[at] == byte {
            return Some(at);
        }
    }
    None
}

// What stands in front of the first such byte, and what stands behind it.
#[inline(always)]
pub fn split_once(text: &[u8], byte: u8) -> Option<(&[u8], &[u8])>
    ensures { MatchOption result (IsWhole byte text.now)
        (λ parts. IsCut byte text.now parts.0.now parts.1.now) }
{
    let at = place(text, byte)?;
    Some((&text[..at], &text[at + 1..]))
}

// The row of a line. A label in front of it, `LABEL|ROW`, is written as `LABEL: `.
#[inline(always)]
pub fn past_label<'a, W: Write>(line: &'a [u8], out: &mut W) -> io::Result<&'a [u8]>
    ensures { IfOk result (λ row. IsRow line.now row.now (W.contents out.old) (W.contents out.new)) }
{
    let Some((label, row)) = split_once(line, b'|') else {
        return Ok(line);
    };
    out.write_all(label)?;
    out.write_all(b": ")?;
    Ok(row)
}
