//! The tests of all crates: worked examples, vectors from outside, and devices that fail. They are here and not in their
//! crates, since a crate with tests is proved twice.
#![tactic(auto)]

#[cfg(test)]
mod airing;
#[cfg(test)]
mod authors;
#[cfg(test)]
mod base;
#[cfg(test)]
mod certificates;
#[cfg(test)]
mod changes;
#[cfg(test)]
mod codes;
#[cfg(test)]
mod counters;
#[cfg(test)]
mod desks;
#[cfg(test)]
mod display;
#[cfg(test)]
mod early_row;
#[cfg(test)]
mod engines;
#[cfg(test)]
mod extracted;
#[cfg(test)]
mod headers;
#[cfg(test)]
mod lost_rows;
#[cfg(test)]
mod monitors;
#[cfg(test)]
mod on_air;
#[cfg(test)]
mod packet_files;
#[cfg(test)]
mod packets;
#[cfg(test)]
mod page_links;
#[cfg(test)]
mod pages;
#[cfg(test)]
mod places;
#[cfg(test)]
mod planned;
#[cfg(test)]
mod promised;
#[cfg(test)]
mod required;
#[cfg(test)]
mod seen;
#[cfg(test)]
mod service_packets;
#[cfg(test)]
mod services;
#[cfg(test)]
mod steady;
#[cfg(test)]
mod subpages;
#[cfg(test)]
mod times;
#[cfg(test)]
mod walks;
#[cfg(test)]
mod watched;
#[cfg(test)]
mod zones;
