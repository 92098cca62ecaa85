//! A whole run.
ghost use Rattle.std.specs.Prelude.{◌≡◌, ◌≤◌, ◌++◌, length, MatchResult, OnOk};
ghost use Rattle.memory.specs.Of.{plain};
ghost use Rattle.text.specs.Answers.{answer_line};
ghost use Rattle.text.specs.Lines.{coming};
ghost use Rattle.lines.specs.Calls.{saying};
ghost use Rattle.trace.specs.Run.{fault_line, reply_to, left_by, replies, session, Appends};

use capability::format::Format;
use lines::fault::Fault;
use lines::heading::Heading;
use lines::line::Line;
use memory::memory::Memory;
use std::alloc::{AllocError, Global};
use store::Store;
use text::answer::{LineNumber, push_answer, push_remark};
use text::reader::Reader;
use window::Window;

/// A run after its heading: the lines that are still to come, and what they run on.
// The output is no part of it: it is the caller's, who has it still where memory is wanting.
#[derive(Drop)]
pub(crate) struct Run<'a> {
    pub(crate) heap: Global,
    pub(crate) heading: Heading,
    pub(crate) reader: Reader<'a>,
    ghost few: { heading.granules ≤ 8192 },
    ghost short: { length (coming reader) ≤ 65537 },
}

/// Appends the answer line of a call or of a fault.
pub(crate) fn push_outcome(
    out: &mut Vec<u8>,
    number: LineNumber,
    outcome: Result<u64, Fault>,
) -> Result<(), AllocError>
    ensures { MatchResult outcome
        (λ answer. Appends result out.old.items out.new.items (answer_line number 0 answer))
        (λ fault. Appends result out.old.items out.new.items (fault_line number fault)) }
{
    match outcome {
        Ok(answer) => push_answer(out, number, 0, answer),
        Err(fault) => push_answer(out, number, fault.refusal.into(), fault.answer),
    }
}

/// Appends what is written for a line, and makes its call.
fn reply<F: Format, S: Store>(
    memory: &mut Memory<F, S>,
    out: &mut Vec<u8>,
    number: LineNumber,
    line: &[u8],
) -> Result<(), AllocError>
    ensures { OnOk result ((out.new.items ≡ out.old.items ++ reply_to F.Format.meaning (plain S.Store.origin S.Store.cells memory.old) number (saying line.now))
        × (plain S.Store.origin S.Store.cells memory.new ≡ left_by F.Format.meaning (plain S.Store.origin S.Store.cells memory.old) (saying line.now))) }
{
    match Line::read(line) {
        Line::Remark(remark) => push_remark(out, remark),
        Line::Call(call) => push_outcome(out, number, memory.perform(call).map_err(Fault::from)),
        Line::Fault(fault) => push_outcome(out, number, Err(fault)),
    }
}

/// Appends what is written for the lines that a reader has still to hand out, from line 2 on.
fn reply_all<F: Format, S: Store>(
    memory: &mut Memory<F, S>,
    out: &mut Vec<u8>,
    reader: Reader<'_>,
) -> Result<(), AllocError>
    requires { length (coming reader) ≤ 65537 }
    ensures { Appends result out.old.items out.new.items (replies F.Format.meaning (plain S.Store.origin S.Store.cells memory.old) 2 (coming reader.entry)) }
{
    // The number goes beside the lines, since it knows its bound; a range of numbers would be one of plain numbers.
    let mut number = LineNumber::HEADING.next();
    for line in reader {
        reply(memory, out, number, line)?;
        number = number.next();
    }
    Ok(())
}

impl Run<'_> {
    /// Starts a memory over a store with the heading's first granule, answers the heading with the
    /// usable granules, and then each line.
    pub(crate) fn over<F: Format, S: Store>(
        self,
        store: &mut S,
        out: &mut Vec<u8>,
    ) -> Result<(), AllocError>
        ensures { Appends result out.old.items out.new.items (session F.Format.meaning self.entry.heading.first (length (S.Store.cells store.old)) (coming self.entry.reader)) }
    {
        let mut window = Window {
            below: store,
            first: self.heading.first,
        };
        let mut memory: Memory<F, Window<S>> = Memory::start(&mut window, 1);
        push_answer(out, LineNumber::HEADING, 0, u64::from(memory.usable()))?;
        reply_all(&mut memory, out, self.reader)
    }
}
