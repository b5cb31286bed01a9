// A task record: what stands in it, and which texts are one.
#![tactic(auto)]

ghost use Rattle.records.specs.Contents.{contents_of};
ghost use Rattle.records.specs.Layout.{InFormat};

pub mod entry;
pub mod parts;

use crate::parts::*;

// What a record's text says, with every number in its range.
#[derive(Drop)]
pub struct Record {
    pub header: Header,
    pub blocks: Vec<Block>,
    pub loops: Vec<Loop>,
    pub edges: Vec<Edge>,
    ghost ranges: { InFormat (contents_of header blocks.items loops.items edges.items) },
}
