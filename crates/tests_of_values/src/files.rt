//! The files of eviction managers: their bytes, devices that fail, and folders.

mod devices;
mod endless;
mod failing;
mod folders;
mod large;
mod parts;
mod spelled;
