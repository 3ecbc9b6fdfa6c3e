//! What faces are rated by.

ghost use Rattle.std.specs.Prelude.{◌≡◌, ◌<◌, ◌≤◌, ◌^◌, ℕ};
ghost use Rattle.std.specs.Option.{ForSome};
ghost use Rattle.rc_geom.specs.Rates.{Rates};

/// What the faces of each layer are rated by. It is asked only for layers that it has rules for.
pub trait FaceRates {
    ghost has_rules: { Self → ℕ → Type 0 };

    ghost rates_of: { Self → Rates ℕ };

    /// The greatest thickness that counts on a layer, in unit squares.
    fn cap(&self, layer: u8) -> u32
        requires { has_rules self.now layer }
        ensures is { result ≡ (rates_of self.now).cap layer }
        ensures least { 1 ≤ result }
        ensures most { result ≤ 2 ^ 29 };

    /// The greatest gap that counts on a layer, in unit squares.
    fn reach(&self, layer: u8) -> u32
        requires { has_rules self.now layer }
        ensures is { result ≡ (rates_of self.now).reach layer }
        ensures least { 1 ≤ result }
        ensures most { result ≤ 2 ^ 29 };

    /// The two amounts of a face, each below 2^57: its own one, and what it shares with the metal behind the gap. The
    /// layers under and over are those with metal over the face's square; there is no gap where the face sees nothing.
    fn rate(
        &self,
        layer: u8,
        under: Option<u8>,
        over: Option<u8>,
        thick: u32,
        gap: Option<u32>,
    ) -> (u128, u128)
        requires rules { has_rules self.now layer }
        requires thick { 1 ≤ thick }
        requires capped { thick ≤ (rates_of self.now).cap layer }
        requires gap { ForSome gap (λ d. 1 ≤ d) }
        requires within { ForSome gap (λ d. d ≤ (rates_of self.now).reach layer) }
        ensures is { result ≡ (rates_of self.now).rate layer under over thick gap }
        ensures own { result.0 < 2 ^ 57 }
        ensures share { result.1 < 2 ^ 57 };
}
