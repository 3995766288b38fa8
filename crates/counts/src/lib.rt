// Three counts that must not be mixed: a page number, a guest address and a descriptor number.
// Each is a type of its own, with a field that only this crate sees: what turns a number into a count,
// a count into a number or one count into another stands here.
#![tactic(auto)]

ghost use Rattle.std.specs.Prelude.{◌≡◌, ◌*◌};
ghost use Rattle.counts.specs.Counts.{address_of_page, offset_of_descriptor};

// A page of 4,096 bytes of guest memory, as QUEUE_PFN names it.
#[repr(C)]
#[derive(Clone, Copy)]
pub struct PageNumber(u32);

// The place of a byte in guest memory.
#[repr(C)]
#[derive(Clone, Copy)]
pub struct GuestAddress(u64);

// The number of a descriptor in its table.
#[repr(C)]
#[derive(Clone, Copy)]
pub struct DescriptorNumber(u16);

impl PageNumber {
    // The page with this number.
    pub fn of(number: u32) -> PageNumber
        ensures { result ≡ record { 0 = number } }
    {
        PageNumber(number)
    }

    // Its number.
    pub fn number(self) -> u32
        ensures { result ≡ self.0 }
    {
        self.0
    }

    // The address of the page's first byte.
    pub fn address(self) -> GuestAddress
        ensures { result ≡ address_of_page self }
    {
        GuestAddress(self.0 as u64 * 4096)
    }
}

impl GuestAddress {
    // The address with this number.
    pub fn of(number: u64) -> GuestAddress
        ensures { result ≡ record { 0 = number } }
    {
        GuestAddress(number)
    }

    // Its number.
    pub fn number(self) -> u64
        ensures { result ≡ self.0 }
    {
        self.0
    }
}

impl DescriptorNumber {
    // The descriptor with this number.
    pub fn of(number: u16) -> DescriptorNumber
        ensures { result ≡ record { 0 = number } }
    {
        DescriptorNumber(number)
    }

    // Its number.
    pub fn number(self) -> u16
        ensures { result ≡ self.0 }
    {
        self.0
    }

    // How far the descriptor stands behind the start of its table.
    pub fn offset(self) -> u64
        ensures { result ≡ offset_of_descriptor self }
    {
        self.0 as u64 * 16
    }
}
