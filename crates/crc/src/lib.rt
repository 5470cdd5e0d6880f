#![tactic(auto)]

// What a cyclic redundancy check is (specs/Crc.antt), and the laws that every kind of it obeys.
//
// This crate has no functions: `folding`, `slicing`, `crc16` and `crc32` above it compute, and cite these definitions and
// laws.
