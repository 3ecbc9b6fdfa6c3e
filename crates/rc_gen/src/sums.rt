//! The summary of parasitics.

ghost use Rattle.std.specs.Prelude.{◌≡◌, ◌∷◌, ◌++◌, [], IfOk, OnOk};
ghost use Rattle.rc_gen.specs.Summary.{AreSummable, IsSummable, is_counted as is_counted_of, all_caps, summary_text};
ghost use Rattle.rc_gen.specs.Adding.{Adds, HasRoom, nothing};

use crate::amount::Amount;
use itoa::{Buffer, Integer};
use rc_fixed::{List, NoMemory, Text};
use rc_spef::{Cap, DNet, Spef};
use std::alloc::Global;

/// What capacitances add up to: those to ground, how many pairs of nodes are coupled, and the couplings.
#[derive(Drop)]
pub struct Sums {
    pub ground: Amount,
    pub pairs: u128,
    pub coupling: Amount,
}

/// Whether a capacitance is a coupling that leads from the lower number of a name to the higher.
fn is_counted(cap: &Cap) -> bool
    ensures { result ≡ is_counted_of cap.now }
{
    match &cap.b {
        None => false,
        Some(to) => cap.a.name < to.name,
    }
}

impl Sums {
    /// The sums of no capacitance.
    fn zero() -> Sums
        ensures { result ≡ nothing }
    {
        Sums {
            ground: Amount::zero(),
            pairs: 0,
            coupling: Amount::zero(),
        }
    }

    /// Adds a capacitance.
    fn add(&mut self, cap: &Cap)
        requires { HasRoom self.old (cap.now ∷ []) }
        ensures { Adds self.old self.new (cap.now ∷ []) }
    {
        if cap.b.is_none() {
            self.ground.add(cap.value);
        }
        if is_counted(cap) {
            self.pairs += 1;
            self.coupling.add(cap.value);
        }
    }

    /// Adds the capacitances of a net.
    fn add_all(&mut self, caps: &[Cap])
        requires { HasRoom self.old caps.now }
        ensures { Adds self.old self.new caps.now }
    {
        for cap in caps {
            self.add(cap);
        }
    }

    /// The sums of all capacitances of nets.
    fn of(nets: &List<DNet>) -> Sums
        requires { AreSummable nets.now }
        ensures { Adds nothing result (all_caps nets.now) }
    {
        let mut sums = Sums::zero();
        // Both lengths have 64 bits, so that the count of pairs has 128.
        let _many = nets.len();
        for net in nets.items() {
            let _few = net.caps.len();
            sums.add_all(net.caps.items());
        }
        sums
    }
}

/// Appends a whole number.
fn push_number<I: Integer>(text: &mut Vec<u8>, number: I) -> Result<(), NoMemory>
    ensures { OnOk result (text.new.items ≡ text.old.items ++ I.text number) }
{
    let mut digits = Buffer::new();
    text.extend_from_slice(digits.format(number).as_bytes())?;
    Ok(())
}

/// The four lines of `gen`: how many nets there are, the sum of all capacitances to ground in fF, how many pairs of nodes are
/// coupled, and the sum of their couplings in fF, each pair once. It takes one pass over the capacitances.
///
/// # Errors
///
/// `NoMemory` for want of memory.
pub fn summary(alloc: Global, spef: &Spef) -> Result<Text, NoMemory>
    requires { IsSummable spef.now }
    ensures { IfOk result (λ text. text ≡ summary_text spef.now) }
{
    let sums = Sums::of(&spef.nets);
    let mut text = Vec::from_slice(alloc, b"nets ")?;
    push_number(&mut text, spef.nets.len())?;
    text.extend_from_slice(b"\nground ")?;
    sums.ground.push_to(&mut text)?;
    text.extend_from_slice(b"\ncouplings ")?;
    push_number(&mut text, sums.pairs)?;
    text.extend_from_slice(b"\ncoupling ")?;
    sums.coupling.push_to(&mut text)?;
    text.push(b'\n')?;
    Text::from_vec(alloc, text)
}
