// All lent memory: the table, what is remembered of pairs of its forms, and what is known of the positions of a room.
use crate::sum::Sums;

#[derive(Drop)]
pub struct Memory<'a> {
    pub sums: Sums<'a>,
    pub positions: &'a mut [u32],
}
