//! A number in unsigned LEB128, read byte by byte.

ghost use Rattle.std.specs.Prelude.{◌≡◌, ◌+◌, ◌-◌, ◌*◌, ◌^◌, ◌<◌, ◌≤◌};

/// The prefix of a number: its first n bytes.
#[derive(Clone, Copy)]
pub(crate) struct Number {
    /// The sum of the seven low bits of each of the n bytes, byte i (from 0) times 128^i.
    pub(crate) value: u64,
    /// The weight of the next byte: 128^n.
    pub(crate) weight: u64,
    ghost covered: { value < weight },
    ghost small: { weight < 2 ^ 49 },
}

/// The weight of the seventh byte, 128^6 = 2^42. A number has at most seven bytes, so a byte of this weight must be the last one.
pub(crate) const LAST_WEIGHT: u64 = 4_398_046_511_104;

impl Number {
    /// A number of which no byte has been read.
    pub(crate) fn new() -> Number
        ensures value { result.value ≡ 0 }
        ensures weight { result.weight ≡ 1 }
    {
        Number {
            value: 0,
            weight: 1,
        }
    }

    /// Answers the value of the number whose last byte, after this prefix, is `byte`.
    #[inline(always)]
    pub(crate) fn ended(self, byte: u8) -> u64
        requires { byte < 128 }
        ensures { result ≡ self.value + self.weight * byte }
    {
        self.value + self.weight * u64::from(byte)
    }

    /// Answers the prefix that is longer by this byte, which is not the number's last one.
    #[inline(always)]
    pub(crate) fn longer(self, byte: u8) -> Number
        requires more { 128 ≤ byte }
        requires room { self.weight < 2 ^ 42 }
        ensures value { result.value ≡ self.value + self.weight * (byte - 128) }
        ensures weight { result.weight ≡ 128 * self.weight }
    {
        Number {
            value: self.value + self.weight * u64::from(byte - 128),
            weight: 128 * self.weight,
        }
    }
}
