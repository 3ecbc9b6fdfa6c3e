//! Draws.

ghost use Rattle.std.specs.Prelude.{◌≡◌, ◌<◌, ◌≤◌, ◌^◌};
ghost use Rattle.rc_gen.specs.Draws.{next, drawn, offset_at};

/// A linear congruential generator modulo 2^31.
#[derive(Drop)]
pub struct Draws {
    pub state: u32,
}

impl Draws {
    /// The next draw, from 0 to 32,767.
    fn draw(&mut self) -> u32
        requires { self.old.state < 2 ^ 31 }
        ensures state { self.new.state ≡ next self.old.state }
        ensures drawn { result ≡ drawn self.new.state }
        ensures small { self.new.state < 2 ^ 31 }
    {
        let product = 1_103_515_245 * u64::from(self.state);
        self.state = ((product + 12_345) % 2_147_483_648) as u32;
        self.state / 65_536
    }

    /// An offset of up to 4,900 units of 1/1000 micron.
    pub fn offset(&mut self) -> u32
        requires { self.old.state < 2 ^ 31 }
        ensures state { self.new.state ≡ next self.old.state }
        ensures offset { result ≡ offset_at self.new.state }
        ensures small { self.new.state < 2 ^ 31 }
        ensures within { result ≤ 4900 }
    {
        100 * (self.draw() % 50)
    }
}
