// Numbers that look random and are the same in every run: the high bits of a linear congruential generator.
ghost use Rattle.std.specs.Prelude.{◌≡◌, ◌+◌, ◌*◌, ◌/◌, ◌%◌, ◌^◌, ◌<◌};

#[derive(Drop)]
pub struct Draws {
    state: u64,
}

impl Draws {
    pub fn new() -> Self
        ensures { result.state ≡ 1 }
    {
        Draws { state: 1 }
    }

    // A number below `bound`; 0 if there is none.
    pub fn below(&mut self, bound: u64) -> u64
        ensures state { self.new.state ≡ (self.old.state * 6364136223846793005 % 2 ^ 64 + 1442695040888963407) % 2 ^ 64 }
        ensures value { 0 < bound → result ≡ self.new.state / 2 ^ 33 % bound }
        ensures none { bound ≡ 0 → result ≡ 0 }
    {
        self.state = self
            .state
            .wrapping_mul(6364136223846793005)
            .wrapping_add(1442695040888963407);
        if bound == 0 {
            return 0;
        }
        (self.state >> 33) % bound
    }
}
