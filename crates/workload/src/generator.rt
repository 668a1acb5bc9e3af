// Numbers that look as if they were drawn at random.
ghost use Rattle.std.specs.Prelude.{◌≡◌, ◌<◌};
ghost use Rattle.workload.specs.Generator.{next_state, number_at};

/// A linear congruential generator with a state of 64 bits.
#[derive(Clone, Copy)]
pub(crate) struct Generator {
    pub(crate) state: u64,
}

impl Generator {
    // A remainder of the upper 31 bits. The lower bits of such a state soon repeat.
    fn number(self, bound: u64) -> u64
        ensures number { result ≡ number_at self.state bound }
        ensures below { 0 < bound → result < bound }
    {
        let upper = self.state >> 33;
        if bound == 0 { upper } else { upper % bound }
    }

    fn step(&mut self)
        ensures { self.new.state ≡ next_state self.old.state }
    {
        self.state = self
            .state
            .wrapping_mul(6_364_136_223_846_793_005)
            .wrapping_add(1_442_695_040_888_963_407);
    }

    /// The next number: below the bound, or below 2^31 where the bound is 0.
    pub(crate) fn draw(&mut self, bound: u64) -> u64
        ensures state { self.new.state ≡ next_state self.old.state }
        ensures number { result ≡ number_at (next_state self.old.state) bound }
        ensures below { 0 < bound → result < bound }
    {
        self.step();
        self.number(bound)
    }
}
