//! From the bytes of an input to the bytes that answer them.
ghost use Rattle.std.specs.Prelude.{◌≡◌, ◌≤◌, length, IfOk};
ghost use Rattle.text.specs.Lines.{lines, coming};
ghost use Rattle.trace.specs.Run.{meaning_of, session, run_of, transcribed, Appends};

use crate::run::{Run, push_outcome};
use capability::format::Format;
use capability::refusal::Refusal;
use compact::format::Compact;
use exact::Exact;
use flat::Flat;
use lines::heading::{FormatKind, Heading, StoreKind};
use std::alloc::{AllocError, Global};
use text::answer::{LineNumber, push_answer};
use text::reader::Reader;
use words::{Granule, Words};

/// The most bytes that an input has.
const LONGEST: usize = 65536;

impl Run<'_> {
    /// Runs on a flat store.
    // A method of its own for each store, since they differ in the buffers that they make.
    fn on_flat<F: Format>(self, out: &mut Vec<u8>) -> Result<(), AllocError>
        ensures { Appends result out.old.items out.new.items (session F.Format.meaning self.entry.heading.first self.entry.heading.granules (coming self.entry.reader)) }
    {
        let granules = self.heading.granules as usize;
        let mut data = vec![in self.heap; 0u8; 8 * granules]?;
        let mut tags = vec![in self.heap; 0u8; granules.div_ceil(8)]?;
        let mut flat = Flat {
            data: data.as_mut_slice(),
            tags: tags.as_mut_slice(),
        };
        self.over::<F, Flat>(&mut flat, out)
    }

    /// Runs on a word store.
    fn on_words<F: Format>(self, out: &mut Vec<u8>) -> Result<(), AllocError>
        ensures { Appends result out.old.items out.new.items (session F.Format.meaning self.entry.heading.first self.entry.heading.granules (coming self.entry.reader)) }
    {
        let mut granules = vec![in self.heap; Granule::default(); self.heading.granules as usize]?;
        let mut words = Words {
            granules: granules.as_mut_slice(),
        };
        self.over::<F, Words>(&mut words, out)
    }

    /// Runs in the heading's format and on its store.
    fn run(self, out: &mut Vec<u8>) -> Result<(), AllocError>
        ensures { Appends result out.old.items out.new.items (session (meaning_of self.entry.heading.format) self.entry.heading.first self.entry.heading.granules (coming self.entry.reader)) }
    {
        // Each pair of a format and a store is a type of its own, of which the memory is made.
        match (self.heading.format, self.heading.store) {
            (FormatKind::Compact, StoreKind::Flat) => self.on_flat::<Compact>(out),
            (FormatKind::Compact, StoreKind::Words) => self.on_words::<Compact>(out),
            (FormatKind::Exact, StoreKind::Flat) => self.on_flat::<Exact>(out),
            (FormatKind::Exact, StoreKind::Words) => self.on_words::<Exact>(out),
        }
    }
}

/// Answers the heading, and where it is not refused the lines after it.
fn run_lines(heap: Global, input: &[u8], out: &mut Vec<u8>) -> Result<(), AllocError>
    requires { length input.now ≤ 65536 }
    ensures { Appends result out.old.items out.new.items (run_of (lines input.now)) }
{
    let mut reader = Reader::new(input);
    let Some(line) = reader.next() else {
        return Ok(());
    };
    match Heading::read(line) {
        Ok(heading) => {
            let run = Run {
                heap,
                heading,
                reader,
            };
            run.run(out)
        }
        Err(fault) => push_outcome(out, LineNumber::HEADING, Err(fault)),
    }
}

/// What is written for an input.
pub fn transcript(heap: Global, input: &[u8]) -> Result<Vec<u8>, AllocError>
    ensures { IfOk result (λ v. v.items ≡ transcribed input.now) }
{
    let mut out = Vec::new(heap);
    if input.len() > LONGEST {
        push_answer(&mut out, LineNumber::WHOLE, Refusal::InputTooLong.into(), 0)?;
    } else {
        run_lines(heap, input, &mut out)?;
    }
    Ok(out)
}
