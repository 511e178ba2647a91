ghost use Rattle.std.specs.Prelude.{◌≡◌, ◌<◌};
ghost use Rattle.pm_gen.specs.Draws.{draw, next_state};

/// The generator, in the state that the draws so far led to.
#[derive(Drop)]
pub struct Draws {
    pub state: u64,
}

impl Draws {
    /// Before the first draw of that number.
    pub fn new(number: u64) -> Draws
        ensures { result.state ≡ number }
    {
        Draws { state: number }
    }

    /// Goes on to the next state.
    fn advance(&mut self)
        ensures { self.new.state ≡ next_state self.old.state }
    {
        self.state = self
            .state
            .wrapping_mul(6_364_136_223_846_793_005)
            .wrapping_add(1_442_695_040_888_963_407);
    }

    /// The next number drawn, below that bound.
    #[tactic(auto, unfolding(crate::specs::Draws::draw))]
    pub fn below(&mut self, bound: u32) -> u32
        requires { 0 < bound }
        ensures state { self.new.state ≡ next_state self.old.state }
        ensures drawn { result ≡ draw self.old.state bound }
    {
        self.advance();
        (self.state >> 33) as u32 % bound
    }
}
