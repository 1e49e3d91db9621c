//! Laws of the texts of orders. Their functions do nothing: a law is a contract.

ghost use Rattle.order_certificate.specs.Laws.{TextsDiffer, FrontsAreTruncated, ReadsOnce};

/// Two orders do not have one text; a front of an order's text is read as cut off; and a text is read as one thing.
pub fn texts_are_read_once()
    ensures texts { TextsDiffer }
    ensures fronts { FrontsAreTruncated }
    ensures once { ReadsOnce }
{}
