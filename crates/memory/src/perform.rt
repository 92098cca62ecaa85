//! Any call.
ghost use Rattle.std.specs.Prelude.{◌≡◌};
ghost use Rattle.plain.specs.Memory.{Matches};
ghost use Rattle.plain.specs.Step.{step};
ghost use Rattle.memory.specs.Of.{plain, Tabled, Keeps};

use crate::memory::Memory;
use capability::format::Format;
use capability::refusal::Refusal;
use plain::types::Call;
use store::Store;

impl<F: Format, S: Store> Memory<'_, F, S> {
    /// Makes a call: it answers and leaves what the plain memory does.
    #[tactic(auto, unfolding(plain::specs::Step::step))]
    pub fn perform(&mut self, call: Call) -> Result<u64, Refusal>
        ensures does { Matches (step F.Format.meaning (plain S.Store.origin S.Store.cells self.old) call) result (plain S.Store.origin S.Store.cells self.new) }
        ensures keeps { Keeps S.Store.kept self.old self.new }
        ensures tabled { Tabled self.new }
    {
        // The calls are an enum, as the rules want them: they are read from a trace, and told in the guarantee.
        match call {
            Call::Allocate { slot, size } => self.allocate(slot, size),
            Call::Free { slot } => self.free(slot),
            Call::Move { to, from, address } => self.move_to(to, from, address),
            Call::Narrow {
                to,
                from,
                base,
                length,
            } => self.narrow(to, from, base, length),
            Call::Restrict { to, from, mask } => self.restrict(to, from, mask),
            Call::Load { slot, width } => self.load(slot, width),
            Call::Store { slot, width, value } => self.store(slot, width, value),
            Call::Fetch { to, through } => self.fetch(to, through),
            Call::Put { through, from } => self.put(through, from),
            Call::Copy { to, from, length } => self.copy(to, from, length),
            Call::Open => self.open(),
            Call::Advance { count } => self.advance(count),
            Call::Close => self.close(),
            Call::Whose { slot } => self.whose(slot),
            Call::Tally => self.tally(),
        }
    }
}
