//! The generator of numbers by which places are drawn.

/// A linear congruential generator, by the state that it is in.
#[derive(Drop)]
pub struct Draws {
    pub state: u32,
}

impl Draws {
    ghost use Rattle.std.specs.Prelude.{◌≡◌};
    ghost use Rattle.hp_make.specs.Draws.{next, draw};

    /// Draws the number of a place, below 5, from the next state.
    pub fn place(&mut self) -> u32
        ensures moved { self.new.state ≡ next self.old.state }
        ensures drawn { result ≡ draw self.new.state }
    {
        let state = (u64::from(self.state) * 1_103_515_245 + 12345) % 2_147_483_648;
        self.state = state as u32;
        self.state / 65536 % 5
    }
}
