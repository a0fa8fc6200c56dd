//! Where a memory may stand.

ghost use Rattle.std.specs.Prelude.{◌≡◌};
ghost use Rattle.memories.specs.Placement.{denial_number, placed_length, check_placement};

/// The shortest memory, in bytes.
pub const MIN_LENGTH: usize = 4;

/// The longest memory, in bytes.
pub const MAX_LENGTH: usize = 1_048_576;

/// Why a memory may not stand at a base.
#[derive(Clone, Copy, PartialEq, Eq)]
pub enum PlacementFault {
    /// The base or the length is no multiple of 4.
    Unaligned = 6,
    /// The length is outside `MIN_LENGTH` to `MAX_LENGTH`, or the range ends beyond the last address.
    OutOfBounds = 7,
}

impl PlacementFault {
    /// The number by which the denial is known.
    pub fn number(self) -> u8
        ensures { result ≡ denial_number self }
    {
        self as u8
    }
}

/// Checks whether a memory of `length` bytes may stand at `base`.
pub fn check_placement(base: u32, length: usize) -> Result<(), PlacementFault>
    ensures { result ≡ check_placement base length }
{
    let unaligned = !base.is_multiple_of(4) || !length.is_multiple_of(4);
    let out_of_bounds = length < MIN_LENGTH
        || length > MAX_LENGTH
        || base as usize + length > 1 << 32;
    if unaligned {
        Err(PlacementFault::Unaligned)
    } else if out_of_bounds {
        Err(PlacementFault::OutOfBounds)
    } else {
        Ok(())
    }
}

/// How many bytes stand at `base`: all of them, or none where the placement is denied.
pub(crate) fn placed_length(base: u32, length: usize) -> usize
    ensures { result ≡ placed_length base length }
{
    check_placement(base, length).map_or(0, |()| length)
}
