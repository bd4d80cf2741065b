// Cases, read one after another from standard input, and the lines that answer them. The gate runs programs over it on recorded cases
// and compares the lines.
//
// A case is a header of 72 bytes and five byte strings. The header, little-endian: u32 op; u32 lengths of records, names, references,
// registry and input; u64 a; u64 b; u64 node charge; u64 largest string32; u64 largest yson32; u64 largest row. A line: refusal number (0
// if none), place, and three values, and what a program writes after them.
#![tactic(auto)]

pub mod answer_lines;
pub mod reports;

ghost use Rattle.std.specs.Prelude.{◌+◌, ◌≤◌, length, ◌≡◌, IfSome};

use reads::filling::read_full;
use rules::Settings;
use std::io::Read;
use wire::{u32_at, u64_at};

// A case: where its first four byte strings end in the space, one after another, and how many bytes of the input its fifth has.
#[derive(Clone, Copy)]
pub struct Case {
    pub op: u64,
    pub a: u64,
    pub b: u64,
    pub settings: Settings,
    pub records: usize,
    pub names: usize,
    pub references: usize,
    pub registry: usize,
    pub input: usize,
}

// A length past any slice's: a header's greater one counts as this, so that sums stay small.
const MOST: u64 = 4194305;

// Reads as much as there is, or as the slice holds; true if it is full.
fn fill<R: Read>(cases: &mut R, s: &mut [u8]) -> bool {
    read_full(cases, s) == s.len()
}

// A length of the header.
fn size_at(head: &[u8; 72], at: usize) -> usize
    requires { at + 4 ≤ 72 }
    ensures { result ≤ 4194305 }
{
    let size = u32_at(head, at);
    if MOST < size {
        return 4194305;
    }
    size as usize
}

fn settings_of(head: &[u8; 72]) -> Settings {
    Settings {
        node_charge: u64_at(head, 40),
        max_string32_bytes: u64_at(head, 48),
        max_yson32_bytes: u64_at(head, 56),
        max_row_bytes: u64_at(head, 64),
    }
}

// Reads the next case; there is none where the cases end, are cut or cannot be read, or where it is too long for the space or the input.
pub fn next_case<R: Read>(cases: &mut R, space: &mut [u8], input: &mut [u8]) -> Option<Case>
    ensures records_le_names { IfSome result (λ c. (c.records ≤ c.names) × (c.names ≤ c.references) × (c.references ≤ c.registry)) }
    ensures registry_in_bounds { IfSome result (λ c. (c.registry ≤ length space.new) × (c.input ≤ length input.new)) }
{
    let mut head = [0u8; 72];
    if !fill(cases, &mut head) {
        return None;
    }
    let records = size_at(&head, 4);
    let names = records + size_at(&head, 8);
    let references = names + size_at(&head, 12);
    let registry = references + size_at(&head, 16);
    let fifth = size_at(&head, 20);
    if space.len() < registry {
        return None;
    }
    if input.len() < fifth {
        return None;
    }
    if !fill(cases, &mut space[0..registry]) {
        return None;
    }
    if !fill(cases, &mut input[0..fifth]) {
        return None;
    }
    Some(Case {
        op: u32_at(&head, 0),
        a: u64_at(&head, 24),
        b: u64_at(&head, 32),
        settings: settings_of(&head),
        records,
        names,
        references,
        registry,
        input: fifth,
    })
}

// What every byte is before the call of a slice that a program lends, so that the line shows which of them were written.
const UNTOUCHED: u8 = 165;

// Room for a lent slice. The `ensures` gives only the length, which lending the array as a slice needs.
pub fn lent_room() -> [u8; 4096]
    ensures { 4096 ≡ length result }
{
    [UNTOUCHED; 4096]
}
