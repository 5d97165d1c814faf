#![tactic(auto, unfolding(crate::specs::Word::pack))]

ghost use Rattle.std.specs.Prelude.{◌≡◌, ◌*◌, ◌^◌, ◌<◌, ◌≤◌, ◌↔◌, IfSome, IfNone, IsNone};
ghost use Rattle.ifl_base.specs.Word.{pack, number_of, name_of};

/// Who takes care of the ring's published items.
#[derive(Clone, Copy, Debug, PartialEq, Eq)]
pub enum Flag {
    /// Nothing is published that was not released.
    Idle,
    /// A consumer is there.
    Busy,
    /// A consumer left, since its drainer would take no more.
    Stalled,
    /// Items wait, and their consumer left or never came: whoever publishes next or looks is to consume.
    Abdicated,
}

/// The ring's state as it stands in one atomic word: three places and a flag.
#[derive(Clone, Copy, Debug, PartialEq, Eq)]
pub struct RingWord {
    /// The place that is reserved next.
    pub head: u16,
    /// The place that is published next.
    pub tail: u16,
    /// The place that is released next.
    pub cidx: u16,
    pub flag: Flag,
}

impl Flag {
    /// The flag's number in a packed word, 0 to 3.
    pub fn number(self) -> u64
        ensures { result ≡ number_of self }
    {
        match self {
            Flag::Idle => 0,
            Flag::Busy => 1,
            Flag::Stalled => 2,
            Flag::Abdicated => 3,
        }
    }

    /// The flag's name in texts.
    pub fn name(self) -> &'static str
        ensures { result.now ≡ name_of self }
    {
        match self {
            Flag::Idle => "idle",
            Flag::Busy => "busy",
            Flag::Stalled => "stalled",
            Flag::Abdicated => "abdicated",
        }
    }

    fn from_number(number: u64) -> Option<Flag>
        ensures some { IfSome result (λ f. number_of f ≡ number) }
        ensures none { IfNone result (4 ≤ number) }
    {
        match number {
            0 => Some(Flag::Idle),
            1 => Some(Flag::Busy),
            2 => Some(Flag::Stalled),
            3 => Some(Flag::Abdicated),
            _ => None,
        }
    }
}

impl RingWord {
    /// The word as one number: head, tail and cidx in 16 bits each, lowest first, and then the flag.
    pub fn pack(&self) -> u64
        ensures { result ≡ pack self.now }
    {
        let low = self.head as u64 + self.tail as u64 * 65_536;
        low + self.cidx as u64 * 4_294_967_296 + self.flag.number() * 281_474_976_710_656
    }

    /// The word that packs to a number. It is `None` exactly where the number names no flag.
    pub fn unpack(word: u64) -> Option<RingWord>
        ensures some { IfSome result (λ w. pack w ≡ word) }
        ensures fits { IfSome result (λ w. (w.head < 65536) × (w.tail < 65536) × (w.cidx < 65536)) }
        ensures none { IsNone result ↔ (4 * 2 ^ 48 ≤ word) }
    {
        let head = word % 65_536;
        let rest = word / 65_536;
        let tail = rest % 65_536;
        let rest = rest / 65_536;
        let cidx = rest % 65_536;
        let flag = Flag::from_number(rest / 65_536)?;
        Some(RingWord {
            head: head as u16,
            tail: tail as u16,
            cidx: cidx as u16,
            flag,
        })
    }
}
