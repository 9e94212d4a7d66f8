//! Lines and columns.
ghost use Rattle.std.specs.Prelude.{◌≡◌};
ghost use Rattle.plir_places.specs.Spots.{goes_on, location_of, spot_past, start};

use plir_data::Location;

// A line and a column, both counted from 1; columns count characters.
#[derive(Clone, Copy)]
pub struct Spot {
    pub line: u32,
    pub column: u32,
}

// Where a text starts.
pub fn start() -> Spot
    ensures { result ≡ start }
{
    Spot { line: 1, column: 1 }
}

// Whether a byte goes on with a character that another one began.
fn goes_on(byte: u8) -> bool
    ensures { result ≡ goes_on byte }
{
    (128..192).contains(&byte)
}

// Where a text stands behind a byte.
pub fn spot_past(spot: Spot, byte: u8) -> Spot
    ensures { result ≡ spot_past spot byte }
{
    if byte == b'\n' {
        Spot {
            line: spot.line.saturating_add(1),
            column: 1,
        }
    } else if goes_on(byte) {
        spot
    } else {
        Spot {
            line: spot.line,
            column: spot.column.saturating_add(1),
        }
    }
}

// The place in a text.
pub fn location_of(spot: Spot) -> Location
    ensures { result ≡ location_of spot }
{
    Location::SrcPos {
        line: spot.line,
        column: spot.column,
    }
}
