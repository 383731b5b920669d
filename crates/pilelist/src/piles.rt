//! The layers of the pile.

use crate::lists::list;
use crate::options::Options;
use circuit::Circuit;
use console::tell_fault;
use folding::Folding;
use layers::{WidthRange, width_layer};
use listing::NamedKey;
use pile::HousePile;
use refusal::{Layer, Refusal};
use std::io;

/// Lists what the layers over the circuit tell, or tells the fault of a class position that it does not have.
pub fn list_layers<C: Circuit>(rt: &impl Print, circuit: &C, options: Options) -> io::Result<()>
where
    C::Key: NamedKey,
{
    let limit = options.limit.unwrap_or(0);
    let Some(position) = options.class else {
        return list_widths(rt, &Folding::new(circuit, limit), options);
    };
    match circuit.module(position) {
        Some(like) => list_widths(rt, &HousePile::new(circuit, limit, like), options),
        None => tell_fault(rt, Layer::Partition, Refusal::NoSuch { number: position }),
    }
}

/// Lists the fingers that have the widths asked for.
// The handle stands beside circuit and options: a struct that held them would be handed on as often.
fn list_widths<C: Circuit>(rt: &impl Print, fingers: &C, options: Options) -> io::Result<()>
where
    C::Key: NamedKey,
{
    match options.widths {
        None => list(rt, fingers, options.only_totals),
        Some(WidthRange { lowest, highest }) => list(
            rt,
            &width_layer(fingers, lowest, highest),
            options.only_totals,
        ),
    }
}
