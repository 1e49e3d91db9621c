//! The units that instructions are issued to.
ghost use Rattle.std.specs.Prelude.{◌≡◌};
ghost use Rattle.issue_queue.specs.Units.{is_div, is_mul};

use rsim_base::Unit;

pub(crate) fn is_mul(unit: Unit) -> bool
    ensures { result ≡ is_mul unit }
{
    match unit {
        Unit::Mul => true,
        Unit::Alu | Unit::Div => false,
    }
}

pub(crate) fn is_div(unit: Unit) -> bool
    ensures { result ≡ is_div unit }
{
    match unit {
        Unit::Div => true,
        Unit::Alu | Unit::Mul => false,
    }
}

/// A value for each kind of unit.
#[derive(Clone, Copy, Debug, PartialEq, Eq)]
pub(crate) struct ByUnit<T> {
    pub alu: T,
    pub mul: T,
    pub div: T,
}

impl<T: Copy> ByUnit<T> {
    ghost use Rattle.issue_queue.specs.Units.{of_unit};

    pub fn of(&self, unit: Unit) -> T
        ensures { result ≡ of_unit self.now unit }
    {
        match unit {
            Unit::Alu => self.alu,
            Unit::Mul => self.mul,
            Unit::Div => self.div,
        }
    }
}
