//! Laws of the faults of orders. Their functions do nothing: a law is a contract.

ghost use Rattle.order_checker.specs.Laws.{FaultlessFits, FittingIsFaultless};

/// An order has no fault exactly where it fits the executable.
pub fn faultless_orders_fit()
    ensures fits { FaultlessFits }
    ensures faultless { FittingIsFaultless }
{}
