//! The lines that are written.
ghost use Rattle.std.specs.Prelude.{◌≡◌, ℕ, ◌+◌, ◌<◌, ◌++◌, MatchResult};
ghost use Rattle.text.specs.Answers.{answer_line, remark_line};

use itoa::write_digits;
use std::alloc::AllocError;
use std::marker::Model;

/// The number of a line, which has six digits at most. Lines count from 1, and number 0 stands for
/// an input as a whole.
#[derive(Clone, Copy, PartialEq, Eq, Debug)]
pub struct LineNumber {
    number: u32,
}

impl Model for LineNumber {
    ghost Value = { ℕ };

    ghost view = { λ n. n.number };

    ghost invariant = { λ n. n.number < 1000000 };

    ghost inverse = { λ n. record { number = n } };
}

impl LineNumber {
    /// Number 0.
    pub const WHOLE: LineNumber = LineNumber { number: 0 };

    /// Number 1.
    pub const HEADING: LineNumber = LineNumber { number: 1 };

    /// A number, as one of a line.
    pub fn new(number: u32) -> LineNumber
        requires { number < 1000000 }
        ensures { result ≡ number }
    {
        LineNumber { number }
    }

    /// The number of the line after it.
    pub fn next(self) -> LineNumber
        requires { self < 999999 }
        ensures { result ≡ self + 1 }
    {
        LineNumber {
            number: self.number + 1,
        }
    }
}

/// The bytes of an answer line.
// The digits are written in place, since `write!` with widths misses the speed: a line takes 700
// instructions with it, where this takes 130, and a trace takes 1,400 to 1,900 in all for each line.
fn answer_line(number: LineNumber, refusal: u8, answer: u64) -> [u8; 31]
    ensures { result ≡ answer_line number refusal answer }
{
    let mut line = [b' '; 31];
    write_digits(u64::from(number.number), &mut line, 6);
    write_digits(u64::from(refusal), &mut line, 9);
    write_digits(answer, &mut line, 30);
    line[30] = b'\n';
    line
}

/// Appends an answer line: the line's number, the refusal or 0, and the answer. Where memory is
/// wanting, nothing is appended.
// A refusal is a number here: these are the bytes of a line, where any number is written as it is.
pub fn push_answer(
    out: &mut Vec<u8>,
    number: LineNumber,
    refusal: u8,
    answer: u64,
) -> Result<(), AllocError>
    ensures { MatchResult result
        (λ _. out.new.items ≡ out.old.items ++ answer_line number refusal answer)
        (λ _. out.new.items ≡ out.old.items) }
{
    out.extend_from_slice(&answer_line(number, refusal, answer))
}

/// Appends a remark and its line end. Where memory is wanting, nothing is appended.
pub fn push_remark(out: &mut Vec<u8>, remark: &[u8]) -> Result<(), AllocError>
    ensures { MatchResult result
        (λ _. out.new.items ≡ out.old.items ++ remark_line remark.now)
        (λ _. out.new.items ≡ out.old.items) }
{
    out.reserve(remark.len().saturating_add(1))?;
    out.extend_from_slice(remark)?;
    out.push(b'\n')?;
    Ok(())
}
