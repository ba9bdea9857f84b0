// What the programs of the outside vectors print: checksums of tables, and counts of outcomes.
#![tactic(auto)]

mod counts;

pub use counts::{add, print};
use std::io;

// Prints the checksums of the two tables, and ends the line. So do the three below. Each fails where a write fails.
pub fn ring(rt: &impl Print, nodes: &[u16], book: &[u64]) -> io::Result<()> {
    sums(rt, sum16(nodes), sum64(book))
}

pub fn nodes_and_order(rt: &impl Print, nodes: &[u16], order: &[u16]) -> io::Result<()> {
    sums(rt, sum16(nodes), sum16(order))
}

pub fn nodes_and_text(rt: &impl Print, nodes: &[u16], bytes: &[u8]) -> io::Result<()> {
    sums(rt, sum16(nodes), sum8(bytes))
}

pub fn book_and_conflicts(rt: &impl Print, book: &[u64], conflicts: &[u16]) -> io::Result<()> {
    sums(rt, sum64(book), sum16(conflicts))
}

fn sums(rt: &impl Print, first: u32, second: u32) -> io::Result<()> {
    println!(rt; " : {first} {second}")
}

// Prints a space and a number. Fails where a write fails.
pub fn number(rt: &impl Print, x: u64) -> io::Result<()> {
    print!(rt; " {x}")
}

// The checksum of a table with one number more.
fn mix(sum: u32, x: u32) -> u32 {
    sum.wrapping_mul(65599).wrapping_add(x)
}

// With both halves of a word more.
fn mix_word(sum: u32, x: u64) -> u32 {
    mix(mix(sum, (x >> 32) as u32), (x % 4294967296) as u32)
}

// The checksum of a table.
fn sum16(table: &[u16]) -> u32 {
    table.iter().fold(0, |sum, x| mix(sum, u32::from(*x)))
}

fn sum64(table: &[u64]) -> u32 {
    table.iter().fold(0, |sum, x| mix_word(sum, *x))
}

fn sum8(table: &[u8]) -> u32 {
    table.iter().fold(0, |sum, x| mix(sum, u32::from(*x)))
}
