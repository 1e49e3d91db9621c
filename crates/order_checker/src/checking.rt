// The whole check, from the text of an order to its verdict.
ghost use Rattle.std.specs.Prelude.{◌≡◌, ◌≤◌, false, IfOk, OnOk, IfErr, List, None, Ok, Result, length};
ghost use Rattle.order_certificate.specs.Certificate.{CertificateView, IsCertificate, text_of};
ghost use Rattle.order_certificate.specs.Reading.{IsRead};
ghost use Rattle.order_certificate.specs.declared.fault.TextFault.{TextFault as FaultOfText};
ghost use Rattle.order_checker.specs.Checked.{Checks, IsVerdict, accepted as accepted_of, is_of_text, rejected as rejected_for, unless_fault, verdict};
ghost use Rattle.order_checker.specs.Faults.{first_fault};
ghost use Rattle.order_checker.specs.Fit.{Fit};
ghost use Rattle.order_checker.specs.Outcomes.{IsFault};
ghost use Rattle.sparc_meaning.specs.Run.{Ran};

use crate::laws;
use crate::lines::check_lines;
use crate::places::find_places;
use crate::runs::run_all;
use crate::verdict::{Accepted, Rejected};
use elf64_load::Image;
use order_certificate::{Certificate, TextFault, laws as text_laws, read};
use std::alloc::Global;

/// Whether the text is that of an order that a machine may write for the image: one that lists what its processors'
/// steps have made, keeps its model, and explains each loaded value. The text has at most 1,073,741,824 bytes.
///
/// # Errors
/// The first fault, exactly where the order has one; `Memory`.
pub fn check(alloc: Global, image: &Image, text: &[u8]) -> Result<Accepted, Rejected>
    ensures verdict { Checks (IsVerdict image.now text.now) result }
    ensures only { (order : Result CertificateView FaultOfText) → IsRead text.now order → Checks (λ r. r ≡ verdict image.now order) result }
    ensures fits { IfOk result (λ a. (c : CertificateView) × IsCertificate c × (text.now ≡ text_of c) × (a ≡ accepted_of c) × ((runs : List Ran) × Fit image.now c.model c.counts c.lines runs)) }
    ensures plain { IfErr result (λ r. r ≡ Rejected.Text FaultOfText.Memory → ⊥) }
    ensures accepts { (c : CertificateView) (runs : List Ran) → IsCertificate c → text.now ≡ text_of c → Fit image.now c.model c.counts c.lines runs → Checks (λ r. r ≡ Ok (accepted_of c)) result }
{
    // by these laws the verdict is one, and says whether the order fits
    text_laws::texts_are_read_once();
    laws::faultless_orders_fit();
    judge(alloc, image, text)
}

// The verdict on a text.
fn judge(alloc: Global, image: &Image, text: &[u8]) -> Result<Accepted, Rejected>
    ensures verdict { Checks (IsVerdict image.now text.now) result }
    ensures plain { IfErr result (λ r. r ≡ Rejected.Text FaultOfText.Memory → ⊥) }
    ensures whole { IfOk result (λ a. (c : CertificateView) × IsCertificate c × (text.now ≡ text_of c) × (a ≡ accepted_of c) × (first_fault image.now c ≡ None)) }
    ensures each { (c : CertificateView) → IsCertificate c → text.now ≡ text_of c → Checks (λ r. r ≡ unless_fault c (first_fault image.now c)) result }
{
    let order = read(alloc, text).map_err(rejected)?;
    check_order(alloc, image, &order)
}

// Why a text that gives no order is rejected.
fn rejected(fault: TextFault) -> Rejected
    ensures { result ≡ rejected_for fault }
{
    match fault {
        TextFault::Memory => Rejected::Memory,
        _ => Rejected::Text(fault),
    }
}

// Whether an order fits the image.
fn check_order(alloc: Global, image: &Image, order: &Certificate) -> Result<Accepted, Rejected>
    requires { IsCertificate order.now }
    ensures accepted { IfOk result (λ a. a ≡ accepted_of order.now) }
    ensures none { OnOk result (first_fault image.now order.now ≡ None) }
    ensures fault { IfErr result (IsFault (first_fault image.now order.now)) }
    ensures plain { IfErr result (λ r. is_of_text r ≡ false) }
{
    let tables = find_places(alloc, &order.lines, order.processors)?;
    let walks = run_all(alloc, image, order, &tables)?;
    drop(tables);
    check_lines(alloc, image, order, walks)?;
    Ok(accepted(order))
}

// What is told of an order without a fault.
fn accepted(order: &Certificate) -> Accepted
    requires { IsCertificate order.now }
    ensures { result ≡ accepted_of order.now }
{
    Accepted {
        retired: order.counts.iter().map(|count| u64::from(*count)).sum(),
        entries: order.lines.len() as u32,
    }
}
