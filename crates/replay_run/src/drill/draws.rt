//! Numbers that a seed draws.

ghost use Rattle.std.specs.Prelude.{◌≡◌, ◌<◌};
ghost use Rattle.replay_run.specs.Draws.{Draws as Drawn, draw_of, draws_of, next_number};

/// The last number of a linear congruential generator, that of Knuth's MMIX.
#[derive(Drop)]
pub struct Draws {
    pub number: u64,
}

impl Draws {
    /// The next draw below this bound, by the high bits of the next number.
    pub fn below(&mut self, bound: u64) -> u64
        requires { 0 < bound }
        ensures number { self.new.number ≡ next_number self.old.number }
        ensures value { result ≡ draw_of bound self.new.number }
        ensures below { result < bound }
    {
        self.number = self
            .number
            .wrapping_mul(6_364_136_223_846_793_005)
            .wrapping_add(1_442_695_040_888_963_407);
        (self.number >> 33) % bound
    }

    /// Three draws below these bounds, in this order.
    #[tactic(auto, unfolding(crate::specs::Draws::draws_of))]
    pub fn three(&mut self, one: u64, two: u64, three: u64) -> (u64, u64, u64)
        requires one { 0 < one }
        requires two { 0 < two }
        requires three { 0 < three }
        ensures values { draws_of one two three self.old.number
            ≡ record { one = result.0; two = result.1; three = result.2; number = self.new.number } }
        ensures one_below { result.0 < one }
        ensures two_below { result.1 < two }
        ensures three_below { result.2 < three }
    {
        let first = self.below(one);
        let second = self.below(two);
        let third = self.below(three);
        (first, second, third)
    }
}
