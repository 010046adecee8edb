// The pseudo-random numbers that choose statements.
ghost use Rattle.std.specs.Prelude.{◌≡◌, ◌<◌, ◌%◌};
ghost use Rattle.sp_gen.specs.Generated.{first_state, next_state};

/// A linear congruential generator: a draw changes the state `s` to `(75 * s + 74) % 65537`.
#[derive(Drop)]
pub struct Draws {
    state: u32,
    ghost in_range: { state < 65537 },
}

impl Draws {
    pub fn new(seed: u64) -> Draws
        ensures { result.state ≡ first_state seed }
    {
        Draws {
            state: (seed % 65_537) as u32,
        }
    }

    /// Draws a number less than `below`.
    pub fn draw(&mut self, below: u32) -> u32
        requires { 0 < below }
        ensures state { self.new.state ≡ next_state self.old.state }
        ensures value { result ≡ next_state self.old.state % below }
    {
        self.state = (75 * self.state + 74) % 65_537;
        self.state % below
    }
}
