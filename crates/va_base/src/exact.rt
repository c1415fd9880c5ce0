//! Exact decimal numbers.

/// What a numeral stands for: the mantissa times ten to the power.
#[derive(Clone, Copy, Debug, PartialEq, Eq)]
pub struct Decimal {
    pub mantissa: u128,
    pub power: i32,
}
