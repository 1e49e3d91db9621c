//! Laws of the order. Their function does nothing: a law is a contract.

ghost use Rattle.order_log.specs.Laws.{AppendKeeps, RetireKeeps, DropKeeps, PopTakesFirst};

/// Retired places at the front stay as they are, whatever comes about behind them, and what is taken out stood first
/// and was retired.
pub fn retired_front_stays()
    ensures append { AppendKeeps }
    ensures retire { RetireKeeps }
    ensures drop { DropKeeps }
    ensures pop { PopTakesFirst }
{}
