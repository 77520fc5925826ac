//! Messages and their parts, from fragments and items of XDR up to procedures of NFS and MOUNT.

mod bodies;
mod heads;
mod items;
pub(crate) mod parts;
mod procedures;
mod records;
