//! The numbers that the generator draws.
ghost use Rattle.std.specs.Prelude.{◌≡◌, ◌+◌, ◌<◌};
ghost use Rattle.script_gen.specs.Draws.{state_after, drawn};

/// What the state is multiplied by at each draw.
pub(crate) const MULTIPLIER: u64 = 6_364_136_223_846_793_005;

/// What is then added to it. Of the sum 64 bits are kept.
pub(crate) const INCREMENT: u64 = 1_442_695_040_888_963_407;

/// How many numbers may be drawn.
pub(crate) const MOST_DRAWS: u32 = 100;

/// The draws that begin at a number, of which so many were made.
#[derive(Drop)]
pub(crate) struct Draws {
    pub(crate) number: u64,
    pub(crate) count: u32,
    state: u64,
    ghost drawn: { state ≡ state_after number count },
}

impl Draws {
    /// The draws of a number, of which none was made.
    pub(crate) fn from(number: u64) -> Draws
        ensures number { result.number ≡ number }
        ensures count { result.count ≡ 0 }
    {
        Draws {
            number,
            count: 0,
            state: number,
        }
    }

    /// The next of them.
    pub(crate) fn draw(&mut self) -> u32
        requires { self.old.count < MOST_DRAWS }
        ensures value { result ≡ drawn self.old.number self.old.count }
        ensures number { self.new.number ≡ self.old.number }
        ensures count { self.new.count ≡ self.old.count + 1 }
    {
        let state = self.state.wrapping_mul(MULTIPLIER).wrapping_add(INCREMENT);
        *self = Draws {
            number: self.number,
            count: self.count + 1,
            state,
        };
        (state >> 33) as u32
    }
}
