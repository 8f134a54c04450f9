// Sums of flags.
ghost use Rattle.std.specs.Prelude.{◌≡◌, ◌<◌};
ghost use Rattle.picture_state.specs.Flags.{flag, is_intra};

// RULES 2.12: does the sum t have the flag n?
pub fn flag(t: u32, n: u32) -> bool
    requires { 0 < n }
    ensures { result ≡ flag t n }
{
    t / n % 2 == 1
}

// RULES 2.12: the type of a macroblock, a sum of flags.
#[derive(Clone, Copy, Debug, PartialEq, Eq)]
pub struct MacroblockType(pub u32);

impl MacroblockType {
    pub fn is_intra(self) -> bool
        ensures { result ≡ is_intra self.0 }
    {
        flag(self.0, 1)
    }

    pub fn has_pattern(self) -> bool
        ensures { result ≡ flag self.0 2 }
    {
        flag(self.0, 2)
    }

    pub fn has_backward(self) -> bool
        ensures { result ≡ flag self.0 4 }
    {
        flag(self.0, 4)
    }

    pub fn has_forward(self) -> bool
        ensures { result ≡ flag self.0 8 }
    {
        flag(self.0, 8)
    }

    pub fn has_scale(self) -> bool
        ensures { result ≡ flag self.0 16 }
    {
        flag(self.0, 16)
    }
}
