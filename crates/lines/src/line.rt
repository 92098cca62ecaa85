//! What a line says.
ghost use Rattle.std.specs.Prelude.{◌≡◌};
ghost use Rattle.lines.specs.Calls.{code_in, call_in, starred, said, saying};

use crate::checks::{CODE, Limits, listed, needed, read_fields, value};
use crate::codes::Code;
use crate::fault::Fault;
use capability::refusal::Refusal;
use plain::types::Call;
use text::fields::Fields;

/// What a line says that is not the first.
// Three kinds of lines, as the rules tell them apart. A remark is no answer that could stand in a result beside a fault.
#[derive(Clone, Copy, PartialEq, Eq, Debug)]
pub enum Line<'a> {
    /// It begins with `*`: these are its bytes, a part of the input.
    Remark(&'a [u8]),
    /// It asks for a call.
    Call(Call),
    /// It is refused.
    Fault(Fault),
}

/// P has 32 bits, and Q has 64.
const LIMITS: Limits = Limits {
    p: u32::MAX as u64,
    q: u64::MAX,
};

/// The code of a line: a filled one is listed, and it is not blank.
fn read_code(fields: Fields) -> Result<Code, Fault>
    ensures { result ≡ code_in fields }
{
    needed(listed(fields.code, CODE)?, CODE)
}

/// The call that a line asks for.
fn read_call(line: &[u8]) -> Result<Call, Fault>
    ensures { result ≡ call_in line.now }
{
    let fields = read_fields(line, LIMITS)?;
    let code = read_code(fields)?;
    code.needs().require(fields)?;
    let a = value(fields.a) as u32;
    let b = value(fields.b) as u32;
    let p = value(fields.p) as u32;
    Ok(code.call(a, b, p, value(fields.q)))
}

/// Whether a line begins with `*`.
fn is_starred(line: &[u8]) -> bool
    ensures { result ≡ starred line.now }
{
    line.starts_with(b"*")
}

impl<'a> Line<'a> {
    /// Reads a line that is not the first.
    // By a name that says so: a `From` of bytes would hide that they are one line.
    pub fn read(line: &'a [u8]) -> Line<'a>
        ensures { said result ≡ saying line.now }
    {
        if is_starred(line) {
            return Line::Remark(line);
        }
        match read_call(line) {
            Ok(call) => Line::Call(call),
            Err(fault) => Line::Fault(fault),
        }
    }
}
