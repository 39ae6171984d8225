// The register of Annex B, figure B.1, from which the sequence is worked out.
#![tactic(auto)]

ghost use Rattle.std.specs.Prelude.{◌≡◌, ℕ, ◌+◌, replicate};
ghost use Rattle.outcome.specs.Buffer.{grown};
ghost use Rattle.outcome.specs.Table.{tabulated};
ghost use Rattle.sequence.specs.Sequence.{register, bit, byte_of, sequence};

// Fifteen bits; the least significant is handed out next.
#[derive(Clone, Copy)]
struct Register {
    bits: u16,
}

impl Register {
    // For each Sector the register is preset: bit 0 is 1, and bits 1 to 14 are 0.
    fn preset() -> Self
        ensures { result.bits ≡ byte_of (register 0) }
    {
        Register { bits: 1 }
    }

    // Bits 0 to 7 are handed out, and eight come in behind bit 14: bit n + 15 is bit n plus bit n + 1, for n = 0 to 7.
    fn shift(&mut self) -> u8
        ensures { (n : ℕ) → self.old.bits ≡ byte_of (register n) → (result ≡ byte_of (tabulated bit n 8)) × (self.new.bits ≡ byte_of (register (n + 8))) }
    {
        let from_0 = (self.bits % 256) as u8;
        let from_1 = (self.bits / 2 % 256) as u8;
        let from_15 = from_0 ^ from_1;
        self.bits = self.bits / 256 + 128 * u16::from(from_15);
        from_0
    }
}

// The first fifteen bytes of the sequence, as the register hands them out, and zeros behind them.
fn handed_out() -> [u8; 2340]
    ensures { result ≡ grown (replicate 2340 0) sequence 15 }
{
    let mut bytes = [0u8; 2340];
    let mut register = Register::preset();
    for i in 0..15 {
        bytes[i] = register.shift();
    }
    bytes
}

// The 2,340 bytes of the sequence. They follow the rule of its bits: byte n + 15 is byte n plus byte n + 1.
pub fn worked_out() -> [u8; 2340]
    ensures { result ≡ sequence }
{
    let mut bytes = handed_out();
    for n in 0..2325 {
        bytes[n + 15] = bytes[n] ^ bytes[n + 1];
    }
    bytes
}
