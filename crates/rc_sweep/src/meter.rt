//! Counts of sweeps.

ghost use Rattle.std.specs.Prelude.{◌≡◌, ◌+◌, ◌<◌, ◌^◌, ℕ};

/// What counts sweeps: each takes a pass, which is drawn here alone. A pass can't be copied. Meters and passes may go to
/// other threads.
pub trait Meter: Send {
    type Pass: Send + Drop;

    ghost drawn: { Self → ℕ };

    /// A pass for one sweep.
    fn draw(&mut self) -> Self::Pass
        requires { drawn self.old < 2 ^ 63 }
        ensures { drawn self.new ≡ drawn self.old + 1 };
}

/// A count of the passes that were drawn.
#[derive(Drop)]
pub struct CountMeter {
    count: u64,
}

/// A pass of a `CountMeter`.
#[derive(Drop)]
pub struct CountPass(());

impl CountMeter {
    /// None were drawn.
    pub fn new() -> CountMeter
        ensures { ⟦<CountMeter as Meter>⟧.drawn result ≡ 0 }
    {
        CountMeter { count: 0 }
    }

    /// How many were drawn.
    pub fn count(&self) -> u64
        ensures { result ≡ ⟦<CountMeter as Meter>⟧.drawn self.now }
    {
        self.count
    }
}

impl Meter for CountMeter {
    type Pass = CountPass;

    ghost drawn = { λ meter. meter.count };

    fn draw(&mut self) -> CountPass {
        self.count += 1;
        CountPass(())
    }
}
