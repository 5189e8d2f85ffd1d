// Striking a bit out of a place.
ghost use Rattle.std.specs.Prelude.{◌≡◌};
ghost use Rattle.shelf.specs.Held.{close};

// The place without its bit of that number: the bits above it close up. A bit past the last is none of the place's.
pub fn close(place: u32, bit: u8) -> u32
    ensures { result ≡ close bit place }
{
    if bit >= 32 {
        return place;
    }
    let width = 1u32 << bit;
    place / width / 2 * width + place % width
}
