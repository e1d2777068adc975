// Marsaglia's multiply-with-carry pair: two 32-bit halves and the number that they draw.
#![tactic(auto)]

ghost use Rattle.std.specs.Prelude.{◌≡◌, ◌-◌, ◌*◌, ◌%◌, ◌<◌, ◌==◌};
ghost use Rattle.mwc.specs.Draw.{step, next, drawn, is_unusable};

const Z_MULTIPLIER: u32 = 36969;

const W_MULTIPLIER: u32 = 18000;

#[derive(Clone, Copy)]
pub struct Generator {
    pub z: u32,
    pub w: u32,
}

// One half's next value. A multiplier of 16 bits keeps it within 32.
fn step_half(multiplier: u32, x: u32) -> u32
    requires { multiplier < 65536 }
    ensures { result ≡ step multiplier x }
{
    multiplier * (x % 65536) + x / 65536
}

// Whether a half is zero or freezes: the multiplier times 65,536, less one, divides it. A draw divides by 65,536 modulo
// that number, so that a multiple comes from multiples alone, and nothing else stays unchanged.
fn is_frozen(multiplier: u32, x: u32) -> bool
    requires { (0 < multiplier) × (multiplier < 65536) }
    ensures { result ≡ (x % (multiplier * 65536 - 1) == 0) }
{
    x % (multiplier * 65536 - 1) == 0
}

impl Generator {
    // Both halves after a draw.
    pub fn advance(self) -> Generator
        ensures { result ≡ next self }
    {
        Generator {
            z: step_half(Z_MULTIPLIER, self.z),
            w: step_half(W_MULTIPLIER, self.w),
        }
    }

    // What is drawn, from the halves after the draw. 65,536 times z keeps only z's low 16 bits.
    pub fn draw(self) -> u32
        ensures { result ≡ drawn self }
    {
        (self.z % 65536 * 65536).wrapping_add(self.w)
    }

    // Whether no heap is opened with these halves.
    #[tactic(auto, using(crate::proofs::Freezing::unusable_by_z, crate::proofs::Freezing::unusable_by_w))]
    pub fn is_unusable(self) -> bool
        ensures { result ≡ is_unusable self }
    {
        is_frozen(Z_MULTIPLIER, self.z) || is_frozen(W_MULTIPLIER, self.w)
    }
}
