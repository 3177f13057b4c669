//! The subtypes of the AVTP packets that are read (IEEE 1722-2016, table 6).

/// An IEC 61883 stream.
pub const IEC_61883: u8 = 0x00;

/// The AVTP audio format.
pub const AAF: u8 = 0x02;

/// The compressed video format.
pub const CVF: u8 = 0x03;

/// The clock reference format.
pub const CRF: u8 = 0x04;
