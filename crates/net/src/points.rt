ghost use Rattle.std.specs.Prelude.{◌≡◌, ℕ, ◌+◌, ◌<◌};
ghost use Rattle.flow.specs.Bits.{bit};

// The feeders of a place: the low half of its number, which is a format, and no conversion of a type.
pub(crate) fn feeders(place: u64) -> u32
    ensures { (s : ℕ) → s < 32 → bit result s ≡ bit place s }
{
    (place & 0xffff_ffff) as u32
}

// The steps that a place feeds: the high half.
pub(crate) fn fed(place: u64) -> u32
    ensures { (s : ℕ) → bit result s ≡ bit place (32 + s) }
{
    (place >> 32) as u32
}
