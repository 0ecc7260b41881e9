//! Numbers that are drawn.
ghost use Rattle.std.specs.Prelude.{◌<◌, ◌≤◌};

/// A linear congruential generator, by the state that it is in.
#[derive(Drop)]
pub struct Draws {
    pub state: u32,
}

impl Draws {
    /// Draws a number below one.
    pub fn below(&mut self, most: usize) -> usize
        requires { 0 < most }
        ensures { result < most }
    {
        let state = (u64::from(self.state) * 1_103_515_245 + 12345) % 2_147_483_648;
        self.state = state as u32;
        (self.state / 65536) as usize % most
    }
}
