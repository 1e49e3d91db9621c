// An order as it is read from its text.
use rsim_base::{Access, Model};

/// An order of memory accesses, as its text tells it.
#[derive(Debug, Drop)]
pub struct Certificate {
    /// The consistency model of the machine.
    pub model: Model,
    /// How many processors the machine has: 1 to 16.
    pub processors: u8,
    /// The accesses in their order, at most 8,000,000.
    pub lines: Vec<Access>,
    /// By processor, how many steps it retired: at most 8,000,000 together.
    pub counts: Vec<u32>,
}

impl std::marker::Model for Certificate {
    ghost use Rattle.order_certificate.specs.Certificate.{CertificateView};

    ghost Value = { CertificateView };

    ghost view = { λ c. record { model = c.model; processors = c.processors; lines = c.lines.items; counts = c.counts.items } };
}
