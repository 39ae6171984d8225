// The fields of a Data Frame (ISO/IEC 16449, clause 16). Every value of these types stands for a frame.
#![tactic(auto)]

// 16.1, bits b23 to b0 of the ID: the sector number, the most significant byte first.
#[derive(Clone, Copy, Debug, PartialEq, Eq)]
pub struct SectorNumber(pub u8, pub u8, pub u8);

// 16.3: the six bytes of CPR_MAI, which the application sets.
#[derive(Clone, Copy, Debug, PartialEq, Eq)]
pub struct Copyright(pub u8, pub u8, pub u8, pub u8, pub u8, pub u8);

// 16.1, figure 18: the zone type, bits b27 and b26 as they stand. A ONE is true.
#[derive(Clone, Copy, Debug, PartialEq, Eq)]
pub struct ZoneType(pub bool, pub bool);

// 16.1 and 16.3: reflectivity (b29), zone type, layer number (b24), sector number and CPR_MAI. A ONE is true.
#[derive(Clone, Copy, Debug, PartialEq, Eq)]
pub struct Fields {
    pub reflectivity: bool,
    pub zone: ZoneType,
    pub layer: bool,
    pub number: SectorNumber,
    pub copyright: Copyright,
}
