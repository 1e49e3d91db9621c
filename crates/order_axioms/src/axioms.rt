// Which accesses of a program must keep their order.
ghost use Rattle.std.specs.Prelude.{◌≡◌};
ghost use Rattle.order_axioms.specs.Axioms as axioms;
ghost use Rattle.order_axioms.specs.Counted.{made_after};

use crate::Fences;
use rsim_base::{Access, Model};

/// Whether x must stand before y in every order that keeps the model. Both are of one program, which made x first,
/// and made each of them after so many fences.
pub fn needs(m: Model, x: &Access, fx: &Fences, y: &Access, fy: &Fences) -> bool
    ensures { result ≡ axioms.needs m (made_after x.now fx.now) (made_after y.now fy.now) }
{
    match m {
        Model::Sc => true,
        Model::Pc => !is_store_then_load(x, y) || fx.sl < fy.sl,
        Model::Rc => {
            (x.kind.loads() && y.kind.stores())
                || (x.overlaps(y) && !is_store_then_load(x, y))
                || is_fence_between(x, fx, y, fy)
        }
    }
}

// Whether x is a plain store and y a plain load.
fn is_store_then_load(x: &Access, y: &Access) -> bool
    ensures { result ≡ axioms.store_then_load x.now y.now }
{
    !x.kind.loads() && !y.kind.stores()
}

// Whether a fence between them orders x before y.
fn is_fence_between(x: &Access, fx: &Fences, y: &Access, fy: &Fences) -> bool
    ensures { result ≡ axioms.fence_between (made_after x.now fx.now) (made_after y.now fy.now) }
{
    (x.kind.loads() && y.kind.loads() && fx.ll < fy.ll)
        || (x.kind.stores() && y.kind.loads() && fx.sl < fy.sl)
        || (x.kind.loads() && y.kind.stores() && fx.ls < fy.ls)
        || (x.kind.stores() && y.kind.stores() && fx.ss < fy.ss)
}
