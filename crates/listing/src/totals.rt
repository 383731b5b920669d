//! The lines of a circuit's modules, and what the modules come to in all.

ghost use Rattle.std.specs.Prelude.{◌≡◌, ◌+◌, ◌^◌, ◌<◌, IfOk, Some};
ghost use Rattle.listing.specs.Totals.{TotalsOf, totals_text};

use crate::keys::NamedKey;
use crate::lines::ModuleLine;
use circuit::{Circuit, modules};
use net::Width;
use std::{fmt, io};

/// How many modules there are, and their widths added up, in steps of 10 nm.
#[derive(Clone, Copy)]
pub struct Totals {
    pub modules: usize,
    pub steps: u32,
}

impl fmt::Display for Totals {
    ghost output = { λ t. Some (totals_text t.modules t.steps) };

    fn fmt<W: fmt::Write>(&self, f: &mut fmt::Formatter<W>) -> fmt::Result {
        let Totals { modules, steps } = *self;
        write!(f, "{modules} modules, {steps} steps wide in all")
    }
}

impl Totals {
    /// The totals of the circuit, added up in one pass.
    pub fn of<C: Circuit>(circuit: &C) -> Totals
        ensures { TotalsOf (C.Circuit.list circuit.now) result.modules result.steps }
    {
        let mut totals = Totals {
            modules: 0,
            steps: 0,
        };
        for m in modules(circuit) {
            totals = totals.and(m.width);
        }
        totals
    }

    /// These totals and a module of that width.
    fn and(self, width: Width) -> Totals
        requires place { self.modules + 1 < 2 ^ 64 }
        requires room { self.steps + width.steps < 2 ^ 32 }
        ensures modules { result.modules ≡ self.modules + 1 }
        ensures steps { result.steps ≡ self.steps + width.steps }
    {
        Totals {
            modules: self.modules + 1,
            steps: self.steps + u32::from(width.steps()),
        }
    }
}

/// Prints the line of each module of the circuit, and gives the totals. One pass does both.
// The loop is that of `Totals::of` with a line printed in each turn: one loop for both would take a switch.
// The handle stands beside the circuit in each function that prints: a struct that held both would be handed on as often.
pub fn list_modules<C: Circuit>(rt: &impl Print, circuit: &C) -> io::Result<Totals>
where
    C::Key: NamedKey,
    ensures { IfOk result (λ t. TotalsOf (C.Circuit.list circuit.now) t.modules t.steps) }
{
    let mut totals = Totals {
        modules: 0,
        steps: 0,
    };
    for module in modules(circuit) {
        let position = totals.modules;
        rt.println(ModuleLine { position, module })?;
        totals = totals.and(module.width);
    }
    Ok(totals)
}
