//! Where operations begin in a text.
ghost use Rattle.std.specs.Prelude.{◌≡◌, ◌++◌, IfOk, OnOk};
ghost use Rattle.plir_places.specs.OpPlaces.{op_places, place_at};

use crate::leads::{Lead, begins_op, lead_past};
use crate::spots::{Spot, location_of, spot_past, start};
use plir_data::{Location, Memory};
use std::alloc::Global;

// Puts the place of a byte behind others, if an operation begins with it.
fn put_place(places: &mut Vec<Location>, spot: Spot, lead: Lead, byte: u8) -> Result<(), Memory>
    ensures { OnOk result (places.new.items ≡ places.old.items ++ place_at spot lead byte) }
{
    if begins_op(lead, byte) {
        places.push(location_of(spot))?;
    }
    Ok(())
}

/// The places at which operations begin in a text of operations, in their order: lines and columns count from 1, and
/// columns count characters.
///
/// An operation begins with the first character that is no blank, with the first one behind each `;`, and with the
/// first one behind the head of each block, unless that is a `^` or a `}`: then the block has no operation. A head is a
/// `^`, a name, a `(`, and what stands there up to the first `)` that a `:` follows. What stands in strings is passed
/// over.
///
/// # Errors
///
/// `Memory`, where a growth was refused.
pub fn op_places(alloc: Global, text: &str) -> Result<Vec<Location>, Memory>
    ensures { IfOk result (λ v. v.items ≡ op_places text.now) }
{
    let mut places = Vec::new(alloc);
    let mut spot = start();
    let mut lead = Lead::Due;
    let mut rest = text.as_bytes();
    'bytes: while let [byte, tail @ ..] = rest {
        put_place(&mut places, spot, lead, *byte)?;
        spot = spot_past(spot, *byte);
        lead = lead_past(lead, *byte);
        rest = tail;
    }
    Ok(places)
}
