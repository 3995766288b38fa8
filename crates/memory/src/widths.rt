// The numbers that memory holds, of 1, 2, 4 and 8 bytes, the lowest byte first. One of more bytes than one is two of half as many.
ghost use Rattle.std.specs.Prelude.{◌≡◌, ◌+◌, ◌≤◌, ◌<◌, ◌^◌, ℕ, length, refl};
ghost use Rattle.std.proofs.Common.{arith};
ghost use Rattle.memory.specs.Bytes.{le, put};

pub trait Number: Copy {
    // How many bytes it takes, and the number that it is.
    ghost bytes: { ℕ };

    ghost value: { Self → ℕ };

    ghost BYTES: { ℕ };

    const BYTES: usize;

    // The number in bytes that are all there.
    fn read(m: &[u8], at: usize) -> Self
        requires { at + bytes ≤ length m.now }
        ensures { value result ≡ le bytes m.now at };

    // Its bytes, stored where there is room for all of them.
    fn write(self, m: &mut [u8], at: usize)
        requires { at + bytes ≤ length m.old }
        ensures { m.new ≡ put bytes m.old at (value self) };

    fn narrow(v: u64) -> Self
        requires { v < 256 ^ bytes }
        ensures { value result ≡ v };

    fn widen(self) -> u64
        ensures { result ≡ value self };

    ghost fits: { (BYTES ≡ bytes) × (bytes ≤ 8) };
}

impl Number for u8 {
    ghost bytes = { 1 };

    ghost value = { λ v. v };

    ghost BYTES = { 1 };

    const BYTES: usize = 1;

    #[tactic(auto, unfolding(crate::specs::Bytes::le))]
    fn read(m: &[u8], at: usize) -> u8 {
        m[at]
    }

    #[tactic(auto, unfolding(crate::specs::Bytes::put))]
    fn write(self, m: &mut [u8], at: usize) {
        m[at] = self;
    }

    fn narrow(v: u64) -> u8 {
        v as u8
    }

    fn widen(self) -> u64 {
        u64::from(self)
    }

    ghost fits = { (refl, Prim.search arith) };
}

impl Number for u16 {
    ghost bytes = { 2 };

    ghost value = { λ v. v };

    ghost BYTES = { 2 };

    const BYTES: usize = 2;

    fn read(m: &[u8], at: usize) -> u16 {
        u16::from(u8::read(m, at)) + 256 * u16::from(u8::read(m, at + 1))
    }

    fn write(self, m: &mut [u8], at: usize) {
        let low = (self % 256) as u8;
        let high = (self / 256) as u8;
        low.write(m, at);
        high.write(m, at + 1);
    }

    fn narrow(v: u64) -> u16 {
        v as u16
    }

    fn widen(self) -> u64 {
        u64::from(self)
    }

    ghost fits = { (refl, Prim.search arith) };
}

impl Number for u32 {
    ghost bytes = { 4 };

    ghost value = { λ v. v };

    ghost BYTES = { 4 };

    const BYTES: usize = 4;

    fn read(m: &[u8], at: usize) -> u32 {
        u32::from(u16::read(m, at)) + 65536 * u32::from(u16::read(m, at + 2))
    }

    fn write(self, m: &mut [u8], at: usize) {
        let low = (self % 65536) as u16;
        let high = (self / 65536) as u16;
        low.write(m, at);
        high.write(m, at + 2);
    }

    fn narrow(v: u64) -> u32 {
        v as u32
    }

    fn widen(self) -> u64 {
        u64::from(self)
    }

    ghost fits = { (refl, Prim.search arith) };
}

impl Number for u64 {
    ghost bytes = { 8 };

    ghost value = { λ v. v };

    ghost BYTES = { 8 };

    const BYTES: usize = 8;

    fn read(m: &[u8], at: usize) -> u64 {
        u64::from(u32::read(m, at)) + 4294967296 * u64::from(u32::read(m, at + 4))
    }

    fn write(self, m: &mut [u8], at: usize) {
        let low = (self % 4294967296) as u32;
        let high = (self / 4294967296) as u32;
        low.write(m, at);
        high.write(m, at + 4);
    }

    fn narrow(v: u64) -> u64 {
        v as u64
    }

    fn widen(self) -> u64 {
        u64::from(self)
    }

    ghost fits = { (refl, Prim.search arith) };
}
