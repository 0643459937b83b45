// M-105: a setting command comes twice. The first frame of a pair is remembered until another frame is taken.
ghost use Rattle.device.specs.Frame.{loads, repeats};
ghost use Rattle.std.specs.Prelude.{eqb, ◌||◌, ◌≡◌};

// The three bytes of a frame.
#[derive(Clone, Copy, PartialEq, Eq)]
pub struct Frame {
    pub first: u8,
    pub second: u8,
    pub third: u8,
}

impl Frame {
    // It loads DTR0: C1 30 d.
    #[tactic(auto, unfolding(crate::specs::Frame::loads))]
    pub(crate) fn loads(self) -> bool
        ensures { result ≡ loads self.first self.second }
    {
        self.first == 0xC1 && self.second == 0x30
    }

    // Byte 2 is the number of an instance.
    pub(crate) fn names_instance(self) -> bool
        ensures { result ≡ (eqb self.first 0x01 || eqb self.first 0xFF) }
    {
        self.first == 0x01 || self.first == 0xFF
    }
}

// The first of a pair, and its tick.
#[derive(Clone, Copy)]
pub struct First {
    pub frame: Frame,
    pub tick: u32,
}

// The same frame as is remembered, no more than 2 ticks later.
#[tactic(auto, unfolding(crate::specs::Frame::repeats))]
pub fn repeats(remembered: Option<First>, tick: u32, frame: Frame) -> bool
    ensures { result ≡ repeats remembered tick frame.first frame.second frame.third }
{
    match remembered {
        Some(first) => first.frame == frame && tick.saturating_sub(first.tick) <= 2,
        None => false,
    }
}
