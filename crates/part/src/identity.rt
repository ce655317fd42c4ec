// What a part is known by, besides its flash.
#[derive(Clone, Copy, PartialEq, Eq, Debug)]
pub struct Identity {
    pub uid: [u8; 12],
    pub version: u16,
    pub device: u8,
    pub package: u8,
    pub sram: u16,
}
