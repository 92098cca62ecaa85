//! The checks of a line's fields.
ghost use Rattle.std.specs.Prelude.{◌≡◌, ◌^◌, ◌<◌, false, not, ◌&&◌, IfOk};
ghost use Rattle.std.specs.Option.{ok_or};
ghost use Rattle.lines.specs.Checks.{malformed, blank, exceeds, number, leftmost, check, too_large, required, fields_in, both, either, others, Names, Bounded};

use crate::fault::Fault;
use capability::refusal::Refusal;
use std::ops::{BitAnd, BitOr, Not};
use text::fields::{Field, Fields};

/// The first column of the code.
pub(crate) const CODE: u64 = 1;

/// The first column of field a.
pub(crate) const A: u64 = 3;

/// The first column of field b.
const B: u64 = 6;

/// The first column of field p.
const P: u64 = 9;

/// The first column of field q.
const Q: u64 = 21;

/// Some of the five fields of a line.
// It is no one generic type with `Fields`, since marks alone have operators and refuse, which a type
// of another crate could not be given as methods here.
#[derive(Clone, Copy)]
pub(crate) struct Marks {
    pub(crate) code: bool,
    pub(crate) a: bool,
    pub(crate) b: bool,
    pub(crate) p: bool,
    pub(crate) q: bool,
}

/// The largest numbers that the last two fields may hold.
#[derive(Clone, Copy)]
pub(crate) struct Limits {
    pub(crate) p: u64,
    pub(crate) q: u64,
}

/// Whether a field is neither blank nor a number.
fn is_malformed(field: Field) -> bool
    ensures { result ≡ malformed field }
{
    field == Field::Malformed
}

/// Whether a field is blank.
fn is_blank(field: Field) -> bool
    ensures { result ≡ blank field }
{
    field == Field::Blank
}

/// Whether a field holds a number above a limit.
fn is_above(field: Field, limit: u64) -> bool
    ensures { result ≡ exceeds limit field }
{
    matches!(field, Field::Number(number) if number > u128::from(limit))
}

/// The number in a field, or 0.
pub(crate) fn value(field: Field) -> u64
    requires { number field < 2 ^ 64 }
    ensures { result ≡ number field }
{
    match field {
        Field::Number(n) => n as u64,
        _ => 0,
    }
}

/// What a field names, or `None` where it is blank. Where it holds something that names nothing,
/// the refusal is answered with the field's first column.
pub(crate) fn listed<T: TryFrom<u128, Error = Refusal>>(
    field: Field,
    column: u64,
) -> Result<Option<T>, Fault>
    ensures { Names T.try_from_gives column field result }
{
    let kind = match field {
        Field::Blank => return Ok(None),
        Field::Number(number) => T::try_from(number),
        Field::Malformed => Err(Refusal::NotListed),
    };
    kind.map(Some).map_err(|refusal| Fault {
        refusal,
        answer: column,
    })
}

/// What a field names, or the refusal of a blank one, which is answered with its first column.
pub(crate) fn needed<T>(kind: Option<T>, column: u64) -> Result<T, Fault>
    ensures { result ≡ ok_or kind (record { refusal = Refusal.FieldMissing; answer = column }) }
{
    kind.ok_or(Fault {
        refusal: Refusal::FieldMissing,
        answer: column,
    })
}

/// The fields that are among both.
impl BitAnd for Marks {
    type Output = Marks;

    ghost bitand_gives = { λ x y z. z ≡ both x y };

    fn bitand(self, other: Marks) -> Marks {
        Marks {
            code: self.code && other.code,
            a: self.a && other.a,
            b: self.b && other.b,
            p: self.p && other.p,
            q: self.q && other.q,
        }
    }
}

/// The fields that are among either.
impl BitOr for Marks {
    type Output = Marks;

    ghost bitor_gives = { λ x y z. z ≡ either x y };

    fn bitor(self, other: Marks) -> Marks {
        Marks {
            code: self.code || other.code,
            a: self.a || other.a,
            b: self.b || other.b,
            p: self.p || other.p,
            q: self.q || other.q,
        }
    }
}

/// The other fields.
impl Not for Marks {
    type Output = Marks;

    ghost not_gives = { λ x y. y ≡ others x };

    fn not(self) -> Marks {
        Marks {
            code: !self.code,
            a: !self.a,
            b: !self.b,
            p: !self.p,
            q: !self.q,
        }
    }
}

impl Marks {
    /// No field.
    const NONE: Marks = Marks {
        code: false,
        a: false,
        b: false,
        p: false,
        q: false,
    };

    /// The code.
    pub(crate) const CODE: Marks = Marks {
        code: true,
        ..Marks::NONE
    };

    /// Field a.
    pub(crate) const A: Marks = Marks {
        a: true,
        ..Marks::NONE
    };

    /// Field b.
    pub(crate) const B: Marks = Marks {
        b: true,
        ..Marks::NONE
    };

    /// Field p.
    pub(crate) const P: Marks = Marks {
        p: true,
        ..Marks::NONE
    };

    /// Field q.
    pub(crate) const Q: Marks = Marks {
        q: true,
        ..Marks::NONE
    };

    /// The fields that pass a test.
    fn passing<F: Fn(Field) -> bool>(fields: Fields, test: F) -> Marks
        requires { F.IsAlwaysCallable test }
        ensures code { F.post test fields.code result.code }
        ensures a { F.post test fields.a result.a }
        ensures b { F.post test fields.b result.b }
        ensures p { F.post test fields.p result.p }
        ensures q { F.post test fields.q result.q }
    {
        Marks {
            code: test(fields.code),
            a: test(fields.a),
            b: test(fields.b),
            p: test(fields.p),
            q: test(fields.q),
        }
    }

    /// The first column of the leftmost field of these.
    fn column(self) -> Option<u64>
        ensures { result ≡ leftmost self }
    {
        self.code
            .then_some(CODE)
            .or(self.a.then_some(A))
            .or(self.b.then_some(B))
            .or(self.p.then_some(P))
            .or(self.q.then_some(Q))
    }

    /// Refuses where there is such a field, and answers its first column.
    fn refuse(self, refusal: Refusal) -> Result<(), Fault>
        ensures { result ≡ check self refusal }
    {
        match self.column() {
            Some(answer) => Err(Fault { refusal, answer }),
            None => Ok(()),
        }
    }

    /// Refuses where one of these fields is blank, and then where another one is filled.
    pub(crate) fn require(self, fields: Fields) -> Result<(), Fault>
        ensures { result ≡ required self fields }
    {
        let blank = Marks::passing(fields, is_blank);
        (self & blank).refuse(Refusal::FieldMissing)?;
        (!self & !blank).refuse(Refusal::FieldUnneeded)
    }
}

impl Limits {
    /// The fields that hold a number above its limit.
    fn exceeded_in(self, fields: Fields) -> Marks
        ensures { result ≡ too_large self fields }
    {
        Marks {
            p: is_above(fields.p, self.p),
            q: is_above(fields.q, self.q),
            ..Marks::NONE
        }
    }
}

/// The fields of a line of 41 bytes, each of them well formed and none above its limit.
pub(crate) fn read_fields(line: &[u8], limits: Limits) -> Result<Fields, Fault>
    ensures value { result ≡ fields_in limits line.now }
    ensures bounded { IfOk result (Bounded limits) }
{
    let length = Fault {
        refusal: Refusal::LineLength,
        answer: line.len() as u64,
    };
    let fields = Fields::read(line).ok_or(length)?;
    Marks::passing(fields, is_malformed).refuse(Refusal::FieldForm)?;
    limits.exceeded_in(fields).refuse(Refusal::NumberTooLarge)?;
    Ok(fields)
}
