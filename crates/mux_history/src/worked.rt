//! Worked runs: what is given to each stream, byte by byte, and what becomes of each client. The
//! contracts are equations between what the definitions compute and bytes that are written out.

mod alone;
mod control;
mod forwards;
mod house;
mod limits;
mod losses;
mod paths;
mod policy;
mod proxy;
