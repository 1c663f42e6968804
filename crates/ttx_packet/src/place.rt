//! The address of a packet. `Address` has a module of its own because names of one module must differ in more than case,
//! and the crate has the function `address`.

ghost use Rattle.std.specs.Prelude.{◌<◌, ◌≤◌};

/// The magazine and the packet number of a packet.
#[derive(Clone, Copy)]
pub struct Address {
    /// 1 to 8
    pub mag: u8,
    /// 0 to 31
    pub number: u8,
    ghost mag_from: { 1 ≤ mag },
    ghost mag_to: { mag ≤ 8 },
    ghost number_to: { number < 32 },
}
