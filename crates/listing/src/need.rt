//! The yearly need of a part.
ghost use Rattle.listing.specs.Lines.{NearestLaw, Needed};

/// How many pieces a year takes, to the nearest whole number and a half upwards, where `count` of
/// them are changed every `months` months; `None` for 0 months.
pub fn yearly_need(count: u16, months: u16) -> Option<u32>
    ensures { Needed count months result }
{
    if months == 0 {
        return None;
    }
    let months = u32::from(months);
    Some((24 * u32::from(count) + months) / (2 * months))
}

/// The theorem that only one whole number is the nearest.
pub fn nearest_stands() -> u8
    ensures { NearestLaw }
{
    0
}
