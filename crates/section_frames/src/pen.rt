// A pen that writes bits into bytes, the most significant first.
ghost use Rattle.section_frames.specs.Inner.BufferBits.{Room, Inked};

// The next byte's place, and the bits that wait for it: `count` of them, fewer than eight.
#[derive(Clone, Copy, Debug, PartialEq, Eq)]
pub struct Pen {
    pub at: usize,
    pub held: u32,
    pub count: u32,
}

impl Pen {
    // The n bits of v are written.
    pub(crate) fn put(self, out: &mut [u8], v: u32, n: u32) -> Pen
        requires { Room out.old self v n }
        ensures { Inked out.old self v n out.new result }
    {
        let mut held = self.held * (1u32 << n) + v;
        let mut count = self.count + n;
        let mut at = self.at;
        while count >= 8 {
            count -= 8;
            out[at] = ((held >> count) % 256) as u8;
            held %= 1u32 << count;
            at += 1;
        }
        Pen { at, held, count }
    }
}
