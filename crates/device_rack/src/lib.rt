//! Racks of devices, and the devices that write files. Each device is given what a listener shows, until the device
//! fails.
#![tactic(auto)]

mod annex_b;
mod device;
mod devices;
pub mod laws;
mod memory_device;
mod outlet;
mod output_files;
mod place;
mod previous;
mod rack;
mod raw;
mod silent_bytes;
mod writing;

pub use annex_b::AnnexBDevice;
pub use device::Device;
pub use devices::Devices;
pub use memory_device::MemoryDevice;
pub use outlet::Outlet;
pub use output_files::OutputFiles;
pub use place::Place;
pub use rack::Rack;
pub use raw::RawDevice;
pub use silent_bytes::Silence;
