//! What the definitions mean, and what holds of every run. These functions say nothing but their contracts.
ghost use Rattle.std.specs.Prelude.{ℕ, Bool};
ghost use Rattle.plain.specs.Guarantee.{AlwaysSafe};
ghost use Rattle.plain.specs.Least.{least, IsLeast};
ghost use Rattle.plain.specs.Memory.{CountsUsable};

/// `least` is below the bound, passes, and nothing lower passes; or nothing below the bound does.
pub fn least_stands()
    ensures { (n : ℕ) (test : ℕ → Bool) → IsLeast n test (least n test) }
{}

/// `usable` counts the granules of the store that end within the span.
pub fn usable_stands()
    ensures { CountsUsable }
{}

/// The guarantee, for every format, store, first serial and list of calls.
pub fn guarantee_stands()
    ensures { AlwaysSafe }
{}
