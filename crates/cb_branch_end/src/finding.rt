//! The token of the match with a key.
ghost use Rattle.std.specs.Prelude.{◌≡◌, ◌↔◌, IfOk, true};
ghost use Rattle.cb_branch_end.specs.Internal.{IsFound, IsMatch};
ghost use Rattle.cb_branch_end.specs.TellingKeys.{at_end};

use crate::branch_end::BranchEnd;
use cb_beta::BetaMemory;
use cb_forms::NoMemory;
use cb_matches::Part;

impl BranchEnd<'_> {
    /// Whether a token is there, and its match has these parts.
    pub(crate) fn is_match(&self, memory: &BetaMemory, number: u32, parts: &[Part]) -> bool
        ensures { (result ≡ true) ↔ IsMatch (at_end self.now) memory.now parts.now number }
    {
        memory.is_there(number) && self.lists.has_parts(self.last, number, parts)
    }

    /// The number of a token that is there, whose match has these parts, if there is one. It goes over all. Growth is refused as
    /// `NoMemory`.
    pub(crate) fn search(
        &self,
        memory: &BetaMemory,
        parts: &[Part],
    ) -> Result<Option<u32>, NoMemory>
        ensures { IfOk result (λ found. IsFound (at_end self.now) memory.now parts.now found) }
    {
        let numbers = memory.numbers(self.lists.alloc)?;
        for number in numbers.iter() {
            if self.is_match(memory, *number, parts) {
                return Ok(Some(*number));
            }
        }
        Ok(None)
    }
}
