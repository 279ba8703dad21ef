//! Laws of the definitions. A call does nothing: its clauses are the laws.
ghost use Rattle.sal_order.specs.Differences.{DifferencesEndLines};
ghost use Rattle.sal_order.specs.FirstLines.{OrdersAreTold};

/// A first line has an order if and only if it is `order`, then for each number a space and the number in decimal, without leading zeros,
/// and LF; and each number is below 2^32.
pub fn orders_are_told()
    ensures { OrdersAreTold }
{}

/// Texts without a difference are equal. Otherwise the difference is the number of LFs in their longest common prefix.
pub fn differences_end_lines()
    ensures { DifferencesEndLines }
{}
