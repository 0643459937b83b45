// The width rule (document 01, "Widths"): a measured value filled out from the top to a number of bits.
// Every function takes any numbers: a resolution of 0 counts as 1, and a width above 32 as 32.
#![tactic(auto)]

ghost use Rattle.std.specs.Prelude.{◌%◌, ◌/◌, ◌^◌, max, min, ◌≡◌};
ghost use Rattle.widen.specs.Width.{information, input_bytes, input_value, mask, widened};

// `count` bits of a number, the lowest of them at `place`, counted from the bottom.
fn bits(x: u64, place: u8, count: u8) -> u64
    ensures { result ≡ x / 2 ^ place % 2 ^ count }
{
    let above = x.checked_shr(place as u32).unwrap_or(0);
    match 1u64.checked_shl(count as u32) {
        Some(end) => above % end,
        None => above,
    }
}

// The value filled out from the top: whole copies, doubled until they reach, and cut off at the low end.
// A copy has at least one bit, so that copies reach any width.
pub fn widened(value: u32, resolution: u8, wide: u8) -> u32
    ensures { result ≡ widened value resolution (min wide 32) }
{
    let n = wide.min(32);
    let size = resolution.max(1);
    let mut out = bits(value as u64, 0, size);
    let mut have = size;
    while have < n {
        out = (out << have) + out;
        have = have + have;
    }
    let over = have - n;
    bits(out, over, n) as u32
}

// The number of bytes of inputValue: the least that hold the resolution, from one to four.
pub fn input_bytes(resolution: u8) -> u8
    ensures { result ≡ input_bytes resolution }
{
    resolution.div_ceil(8).clamp(1, 4)
}

// inputValue: the value as queries show it.
pub fn input_value(value: u32, resolution: u8) -> u32
    ensures { result ≡ input_value value resolution }
{
    let wide = 8 * input_bytes(resolution);
    widened(value, resolution, wide)
}

// The ten bits of a light event.
pub fn information(value: u32, resolution: u8) -> u16
    ensures { result ≡ information value resolution }
{
    widened(value, resolution, 10) as u16
}

// MASK: all ones, as wide as inputValue.
pub fn mask(resolution: u8) -> u32
    ensures { result ≡ mask resolution }
{
    let wide = 8 * input_bytes(resolution);
    ((1u64 << wide) - 1) as u32
}
