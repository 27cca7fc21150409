// Three parts by value behind a sign: their length and their writing.
// Carries over Formatted of num/imp/fmt.rs. The three are in straight line and no list: the exponent form writes by them.
#![tactic(auto)]

ghost use Rattle.std.specs.Prelude.{◌≡◌, ◌-◌, ◌^◌, ◌≤◌, ◌<◌, length};
ghost use Rattle.buffer.specs.AtEnd.{ended};
ghost use Rattle.part_answers.specs.Answers.{measured, Writes};
ghost use Rattle.parts.specs.Parts.{text_of, Inside, true_length};
ghost use Rattle.formatted.specs.Three.{parts_of};

use part_answers::Refusal;
use parts::{Part, Sign};

// A sign and three parts behind it.
#[derive(Clone, Copy, Debug, PartialEq, Eq)]
pub struct Formatted {
    pub sign: Sign,
    pub first: Part,
    pub second: Part,
    pub third: Part,
}

impl Formatted {
    // The length over a source of so many bytes.
    pub fn length(self, source: usize) -> Result<u64, Refusal>
        ensures { result ≡ measured source self.sign (parts_of self) }
    {
        let none = part_steps::scan_start(self.sign);
        let one = part_steps::scan_step(none, self.first, 0, source);
        let two = part_steps::scan_step(one, self.second, 1, source);
        part_steps::scan_step(two, self.third, 2, source)
    }

    // The text at the start of out. Everything is checked before the first byte is written.
    pub fn write(self, src: &[u8], out: &mut [u8]) -> Result<u64, Refusal>
        ensures { Writes self.sign (parts_of self) src.now out.old result out.new }
    {
        let need = part_steps::judge(self.length(src.len()), out.len())?;
        self.write_before(src, out, need as usize);
        Ok(need)
    }

    // The length of parts that are known to fit.
    pub fn size(self) -> usize
        requires { true_length self.sign (parts_of self) < 2 ^ 64 }
        ensures { result ≡ true_length self.sign (parts_of self) }
    {
        let three = self.first.length() + self.second.length() + self.third.length();
        (self.sign.length() + three) as usize
    }

    // The end travels beside the buffer, as in all crates of writers: the crate buffer says why.
    // The text just before end, with no check: for a caller who has made them all. Its start is handed back.
    pub fn write_before(self, src: &[u8], out: &mut [u8], end: usize) -> usize
        requires { Inside (length src.now) (parts_of self) × (true_length self.sign (parts_of self) ≤ end) × (end ≤ length out.old) }
        ensures { (result ≡ end - true_length self.sign (parts_of self)) × (out.new ≡ ended out.old end (text_of self.sign src.now (parts_of self))) }
    {
        let third = self.third.write_before(src, out, end);
        let second = self.second.write_before(src, out, third);
        let first = self.first.write_before(src, out, second);
        self.sign.write_before(out, first)
    }
}
