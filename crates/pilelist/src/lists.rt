//! The listing of a circuit.

ghost use Rattle.std.specs.Prelude.{IfOk, IsOk, IsTrue};
ghost use Rattle.listing.specs.Totals.{TotalsOf};

use circuit::Circuit;
use listing::{NamedKey, Totals, list_modules};
use std::io;

/// Prints the totals of the circuit, and before them its modules unless only the totals are asked for. One pass does both.
pub fn list<C: Circuit>(rt: &impl Print, circuit: &C, only_totals: bool) -> io::Result<()>
where
    C::Key: NamedKey,
{
    let totals = list_or_add(rt, circuit, only_totals)?;
    rt.println(totals)
}

/// Prints a line for each module, unless only the totals are asked for, and gives the totals. Where it prints nothing it cannot fail.
fn list_or_add<C: Circuit>(rt: &impl Print, circuit: &C, only_totals: bool) -> io::Result<Totals>
where
    C::Key: NamedKey,
    ensures totals { IfOk result (λ t. TotalsOf (C.Circuit.list circuit.now) t.modules t.steps) }
    ensures added { IsTrue only_totals → IsOk result }
{
    if only_totals {
        Ok(Totals::of(circuit))
    } else {
        list_modules(rt, circuit)
    }
}
