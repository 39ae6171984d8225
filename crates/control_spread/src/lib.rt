// The 96 Control bytes of a p bit and a q-channel (22.1, 22.2).
#![tactic(auto)]

ghost use Rattle.std.specs.Prelude.{◌≡◌, ◌/◌, ◌%◌, ◌^◌, ◌-◌, ◌<◌};
ghost use Rattle.bits.specs.Bits.{unpack};
ghost use Rattle.control.specs.Channels.{p_bit, framed};

// Bit j of a byte, the most significant first.
fn bit(b: u8, j: u32) -> u8
    requires { j < 8 }
    ensures { result ≡ b / 2 ^ (7 - j) % 2 }
{
    (b >> (7 - j)) % 2
}

// Each bit becomes the q bit of a Control byte, beside the p bit. A loop, since what `array::from_fn` asks of such a closure found no proof.
pub fn spread(flag: bool, bytes: [u8; 12]) -> [u8; 96]
    ensures { result ≡ framed (p_bit flag) (unpack bytes) }
{
    let p = u8::from(flag);
    let mut out = [0; 96];
    for (k, byte) in out.iter_mut().enumerate() {
        *byte = p * 128 + bit(bytes[k / 8], (k % 8) as u32) * 64;
    }
    out
}
