// Numbers drawn from a seed.
ghost use Rattle.std.specs.Prelude.{◌≡◌, ◌%◌, ◌≤◌, ℕ};
ghost use Rattle.bow_units.specs.Draws.{next_number, drawn_value};

use std::marker::Model;

/// A generator of numbers. The same number at the start gives the same draws.
#[derive(Drop)]
pub struct Draws {
    number: u64,
}

impl Model for Draws {
    ghost Value = { ℕ };

    ghost view = { λ d. d.number };
}

impl Draws {
    /// A generator that starts at `number`.
    pub fn new(number: u64) -> Draws
        ensures { result ≡ number }
    {
        Draws { number }
    }

    /// A number below `k`. It sets the generator's number x to `x * 6364136223846793005 +
    /// 1442695040888963407` modulo 2^64, and gives the new x / 2^33, rounded down, modulo `k`.
    pub fn draw(&mut self, k: u32) -> u32
        requires { 1 ≤ k }
        ensures number { self.new ≡ next_number self.old }
        ensures value { result ≡ drawn_value self.new % k }
    {
        self.number = self
            .number
            .wrapping_mul(6_364_136_223_846_793_005)
            .wrapping_add(1_442_695_040_888_963_407);
        let value = (self.number / 0x2_0000_0000) as u32;
        value % k
    }
}
