// Numbers are most significant byte first: the library's conversions, said once in the words of `specs/Numbers`, which
// the callers' definitions use.
ghost use Rattle.std.specs.Prelude.{◌*◌, ◌+◌, ◌≡◌};

// Of two bytes.
pub fn word(high: u8, low: u8) -> u16
    ensures { result ≡ high * 256 + low }
{
    u16::from_be_bytes([high, low])
}

// Of three bytes.
pub fn triple(high: u8, middle: u8, low: u8) -> u32
    ensures { result ≡ (high * 256 + middle) * 256 + low }
{
    u32::from_be_bytes([0, high, middle, low])
}
