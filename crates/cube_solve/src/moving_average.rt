//! An exponential moving average (EMA) in fixed point, so that a search is the same on every machine.

/// An exponential moving average, in units of 2^-20. Value number n, from 1, moves it by 2^-k of the difference, where k is the binary
/// logarithm of n, rounded down, and at most `most`. So the average is near the mean at first, without a bias to 0.
#[derive(Drop)]
pub(crate) struct MovingAverage {
    /// The average, in units of 2^-20.
    value: u64,
    /// The number of values so far.
    count: u64,
    /// The greatest exponent k.
    most: u32,
}

impl MovingAverage {
    /// An average of no value yet, whose smoothing factor falls to 2^-most.
    pub(crate) fn new(most: u32) -> MovingAverage {
        MovingAverage {
            value: 0,
            count: 0,
            most,
        }
    }

    /// The average, in units of 2^-20.
    pub(crate) fn value(&self) -> u64 {
        self.value
    }

    /// Moves the average towards a value, which is in units of 1, by 2^-k of the difference.
    pub(crate) fn add(&mut self, value: u32) {
        let value = (value as u64) << 20;
        self.count = self.count.saturating_add(1);
        let step = self.most.min(63 - self.count.leading_zeros().min(63));
        let part = self.value.abs_diff(value).wrapping_shr(step);
        self.value = if self.value < value {
            self.value.saturating_add(part)
        } else {
            self.value.saturating_sub(part)
        };
    }
}
