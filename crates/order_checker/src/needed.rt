// Which access of a program must stand before another.
ghost use Rattle.std.specs.Prelude.{◌≡◌, Some, slice_get};
ghost use Rattle.order_checker.specs.Walking.{passing_load};

use crate::replay::Program;
use order_axioms::{Fences, needs};
use rsim_base::{Access, Model};

impl Program {
    ghost use Rattle.order_checker.specs.Walking.{is_needed_of};

    /// Whether access `k`, whose line is the first one, must stand before the later one that the second line is of;
    /// `passing` is what `passing` gives of that.
    pub fn is_needed(
        &self,
        model: Model,
        earlier: &Access,
        k: u32,
        line: &Access,
        passing: Option<u32>,
    ) -> bool
        requires passing { passing ≡ passing_load model line.now (slice_get self.now.fences.items line.now.index) }
        ensures { result ≡ is_needed_of model (Some earlier.now) (slice_get self.now.fences.items k) line.now (slice_get self.now.fences.items line.now.index) }
    {
        let Some(before) = self.fences.get(k as usize) else {
            return false;
        };
        match passing {
            Some(fences) if !earlier.kind.loads() => before.sl < fences,
            _ => self.is_needed_by_rule(model, earlier, before, line),
        }
    }

    // The same by the model's whole rule. It stands apart so that the loop over what is left is small.
    #[inline(never)]
    fn is_needed_by_rule(
        &self,
        model: Model,
        earlier: &Access,
        before: &Fences,
        line: &Access,
    ) -> bool
        ensures { result ≡ is_needed_of model (Some earlier.now) (Some before.now) line.now (slice_get self.now.fences.items line.now.index) }
    {
        match self.fences.get(line.index as usize) {
            Some(now) => needs(model, earlier, before, line, now),
            None => false,
        }
    }

    /// Where the line is of a load that the model lets pass earlier stores but for fences: how many of these stand
    /// before it. So most accesses are told without the model's whole rule.
    pub fn passing(&self, model: Model, line: &Access) -> Option<u32>
        ensures { result ≡ passing_load model line.now (slice_get self.now.fences.items line.now.index) }
    {
        let now = self.fences.get(line.index as usize)?;
        match model {
            Model::Pc | Model::Rc if !line.kind.stores() => Some(now.sl),
            _ => None,
        }
    }
}
