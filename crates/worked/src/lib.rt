//! Worked examples of the two formats, proved, and a count over words at the ends of their fields.
#![tactic(auto)]

ghost use Rattle.worked.specs.Worked.{Examples};

pub mod ends;

/// The examples hold.
pub fn examples_stand()
    ensures { Examples }
{}
